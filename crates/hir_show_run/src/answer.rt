//! The answers to questions on a store.

ghost use Rattle.std.specs.Prelude.{◌∷◌, ◌<◌, length, codes};
ghost use Rattle.std.specs.Fmt.{decimal};
ghost use Rattle.hir_store_core.specs.PatLists.{child_exprs};
ghost use Rattle.hir_show_run.specs.Answer.{store_answer, answer_line, children_text, root_text, after_spaces};
ghost use Rattle.hir_show_run.specs.internal.Output.{OutputsText, PutsText, output_of};

use crate::asking::{Answers, MemoryRefused};
use crate::output::Output;
use hir_node::ExprId;
use hir_show_grammar::{Question, StoreQuestion};
use hir_show_io::Sink;
use hir_store::ExpressionStore;
use std::alloc::Global;

/// Puts the children of an expression, each after a space.
fn put_children<W: Sink>(store: &ExpressionStore, id: ExprId, output: &mut Output<'_, W>)
    requires { id < length store.now.nodes.exprs }
    ensures { OutputsText W.Sink output.old output.new (after_spaces (child_exprs store.now.nodes id)) }
{
    store.walk_child_exprs(
        id,
        &mut |child: ExprId| -> ()
            ensures { PutsText (output_of W.Sink output.entry.now) (output_of W.Sink output.exit.now)
                (32 ∷ decimal child) }
        {
            output.put_spaced(child.into_raw());
        },
    );
}

/// Puts what is known of an expression: its children, or that it doesn't exist.
fn put_known<W: Sink>(store: &ExpressionStore, id: ExprId, output: &mut Output<'_, W>)
    ensures { OutputsText W.Sink output.old output.new (children_text store.now.nodes id) }
{
    if !store.has_expr(id) {
        output.put(b" unknown");
        return;
    }
    output.put(b" =");
    put_children(store, id, output);
}

/// Puts the root that an expression belongs to, or that there is none.
fn put_root<W: Sink>(store: &ExpressionStore, id: ExprId, output: &mut Output<'_, W>)
    ensures { OutputsText W.Sink output.old output.new (root_text store.now.roots id) }
{
    if !store.covers_expr(id) {
        output.put(b" none");
        return;
    }
    let root = store.find_root_for_expr(id);
    output.put(b" = ");
    output.put_number(root.into_raw());
}

fn answer_children<W: Sink>(store: &ExpressionStore, id: ExprId, output: &mut Output<'_, W>)
    ensures { OutputsText W.Sink output.old output.new
        (answer_line (codes "children ") id (children_text store.now.nodes id)) }
{
    output.put_asked(b"children ", id);
    put_known(store, id, output);
    output.put(b"\n");
}

fn answer_root<W: Sink>(store: &ExpressionStore, id: ExprId, output: &mut Output<'_, W>)
    ensures { OutputsText W.Sink output.old output.new
        (answer_line (codes "root-of ") id (root_text store.now.roots id)) }
{
    output.put_asked(b"root-of ", id);
    put_root(store, id, output);
    output.put(b"\n");
}

/// Writes the answer to a question on a store by one line.
pub(crate) fn answer_store<W: Sink>(
    store: &ExpressionStore,
    question: StoreQuestion,
    output: &mut Output<'_, W>,
)
    ensures { OutputsText W.Sink output.old output.new (store_answer store.now question) }
{
    match question {
        StoreQuestion::Children(id) => answer_children(store, id, output),
        StoreQuestion::RootOf(id) => answer_root(store, id, output),
    }
}

/// Answers no question on the body: it has a store alone.
impl Answers for ExpressionStore {
    ghost use Rattle.hir_show_run.specs.Program.{is_of_store};
    ghost use Rattle.hir_show_run.specs.Answer.{IsStoreAnswer};

    ghost may = { is_of_store };

    ghost Is = { IsStoreAnswer };

    fn answer<W: Sink>(
        &mut self,
        _alloc: Global,
        question: Question,
        output: &mut Output<'_, W>,
    ) -> Result<Option<Question>, MemoryRefused> {
        match question {
            Question::OfStore(asked) => {
                answer_store(self, asked, output);
                Ok(None)
            }
            Question::OfBody(_) => Ok(Some(question)),
        }
    }
}
