//! What printing writes to: five calls, one for each kind of layout.
ghost use Rattle.std.specs.Prelude.{◌≡◌, OnOk, OnErr};
ghost use Rattle.hir_pretty_layout.specs.Layouts as piece;
ghost use Rattle.hir_pretty_layout.specs.Layouts.{Layout};

use std::alloc::AllocError;

/// Takes layouts, one after another.
///
/// An implementation says by `step` what each layout makes of its value, and by `refuses` what its value may
/// be where an allocation for a layout fails. What code writes by these calls is proved once, for every
/// implementation.
pub trait PieceWriter {
    // the value after a layout, from the layout and the value before it
    ghost step: { Layout → Self → Self };

    // relates a layout for which an allocation fails, the value before it, and the value that this leaves
    ghost refuses: { Layout → Self → Self → Type 0 };

    /// Writes text.
    fn text(&mut self, text: &str) -> Result<(), AllocError>
        ensures ok { OnOk result (self.new ≡ step (piece.Text text.now) self.old) }
        ensures err { OnErr result (refuses (piece.Text text.now) self.old self.new) };

    /// Writes a soft space: a space, unless there is one or a line begins.
    fn soft_space(&mut self) -> Result<(), AllocError>
        ensures ok { OnOk result (self.new ≡ step piece.SoftSpace self.old) }
        ensures err { OnErr result (refuses piece.SoftSpace self.old self.new) };

    /// Ends the line, unless it is blank.
    fn line_break(&mut self) -> Result<(), AllocError>
        ensures ok { OnOk result (self.new ≡ step piece.Break self.old) }
        ensures err { OnErr result (refuses piece.Break self.old self.new) };

    /// Raises the level and ends the line.
    fn indent(&mut self) -> Result<(), AllocError>
        ensures ok { OnOk result (self.new ≡ step piece.Indent self.old) }
        ensures err { OnErr result (refuses piece.Indent self.old self.new) };

    /// Lowers the level and removes empty last lines.
    fn outdent(&mut self) -> Result<(), AllocError>
        ensures ok { OnOk result (self.new ≡ step piece.Outdent self.old) }
        ensures err { OnErr result (refuses piece.Outdent self.old self.new) };
}
