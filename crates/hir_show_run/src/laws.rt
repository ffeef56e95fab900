//! Theorems on the definitions that the program's contracts cite, as contracts of functions that do nothing.

ghost use Rattle.std.specs.Prelude.{◌≡◌, ℕ, List, Option, None};
ghost use Rattle.hir_show_grammar.specs.Line.{Line};
ghost use Rattle.hir_pretty_nodes.specs.DocPieces.{first_missing};
ghost use Rattle.hir_show_run.specs.Parts.{body_parts};
ghost use Rattle.hir_show_run.specs.Printing.{body_pieces};
ghost use Rattle.hir_show_run.specs.Program.{Outcome, IsMeaning, built_by, script};

use hir_body::laws::first_body_fault_unique;
use hir_captures::laws::captures_unique;
use hir_scope::laws::a_reached_node_has_one_chain;
use hir_show_grammar::laws::said_is_written;
use hir_store::laws::first_fault_unique;

/// A script has at most one text and one outcome.
pub fn meaning_is_one()
    ensures { (script : List Line) (text more : List ℕ) (outcome other : Outcome)
        → IsMeaning script text outcome → IsMeaning script more other → (text ≡ more) × (outcome ≡ other) }
{
    first_fault_unique();
    first_body_fault_unique();
    a_reached_node_has_one_chain();
    captures_unique();
}

/// No line makes a node that names a definition outside: nothing is missing of what `print` writes of the
/// body that lines make, whatever their texts are.
pub fn nothing_is_missing()
    ensures { (texts : List (List ℕ)) (name : Option (List ℕ))
        → first_missing (body_pieces name (body_parts (built_by (script texts)))) ≡ None }
{
    said_is_written();
}
