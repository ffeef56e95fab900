//! Theorems of the grammar, as contracts of functions that do nothing.

ghost use Rattle.std.specs.Prelude.{◌≡◌, ◌≢◌, ℕ, List};
ghost use Rattle.hir_show_grammar.specs.Line.{Line, Bad, line_of};
ghost use Rattle.hir_show_grammar.specs.Grammar.{IsLine};

/// A text is at most one line, except that a bad line may be any text.
pub fn line_is_one()
    ensures { (text : List ℕ) (line other : Line) → line ≢ Bad → other ≢ Bad → IsLine line text →
        IsLine other text → line ≡ other }
{}

/// The line that a text says is written as that text.
pub fn said_is_written()
    ensures { (text : List ℕ) → IsLine (line_of text) text }
{}

/// A text that a line is written as says that line.
pub fn written_is_said()
    ensures { (text : List ℕ) (line : Line) → line ≢ Bad → IsLine line text → line_of text ≡ line }
{}
