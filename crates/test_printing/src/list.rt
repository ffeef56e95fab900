//! A list of pieces as a writer: it puts each piece last, and lays out nothing.

ghost use Rattle.std.specs.Prelude.{◌≡◌, ◌∷◌, [], ◌++◌, OnOk, OnErr};
ghost use Rattle.test_printing.specs.Pieces.{layout_of};

use hir_pretty_layout::PieceWriter;
use std::alloc::{AllocError, Global};
use std::marker::Model;

/// A piece, as one of the five calls wrote it.
#[derive(Drop)]
pub enum Piece {
    Text(String),
    SoftSpace,
    Break,
    Indent,
    Outdent,
}

/// The pieces that were written, in order. Contracts see the list of their layouts.
#[derive(Drop)]
pub struct PieceList {
    alloc: Global,
    pieces: Vec<Piece>,
}

impl Model for PieceList {
    ghost use Rattle.std.specs.Prelude.{List};
    ghost use Rattle.hir_pretty_layout.specs.Layouts.{Layout};
    ghost use Rattle.test_printing.specs.Pieces.{layouts_of};

    ghost Value = { List Layout };

    ghost view = { layouts_of };
}

impl PieceList {
    /// A list without pieces. It takes no memory.
    pub fn new(alloc: Global) -> PieceList
        ensures { result ≡ [] }
    {
        PieceList {
            alloc,
            pieces: Vec::new(alloc),
        }
    }

    /// The pieces, in order.
    pub fn into_pieces(self) -> Vec<Piece> {
        let PieceList { alloc: _, pieces } = self;
        pieces
    }

    /// Puts a piece last. Where an allocation fails the list stays as it was.
    fn push(&mut self, piece: Piece) -> Result<(), AllocError>
        ensures ok { OnOk result (self.new ≡ self.old ++ (layout_of piece ∷ [])) }
        ensures err { OnErr result (self.new ≡ self.old) }
    {
        self.pieces.push(piece)?;
        Ok(())
    }
}

impl PieceWriter for PieceList {
    ghost use Rattle.std.specs.Prelude.{◌≡◌, ◌∷◌, [], ◌++◌};

    // a layout is put last
    ghost step = { λ piece pieces. pieces ++ (piece ∷ []) };

    // a list for which an allocation fails stays as it was
    ghost refuses = { λ piece old new. new ≡ old };

    fn text(&mut self, text: &str) -> Result<(), AllocError> {
        let mut copy = String::new(self.alloc);
        copy.push_str(text)?;
        self.push(Piece::Text(copy))
    }

    fn soft_space(&mut self) -> Result<(), AllocError> {
        self.push(Piece::SoftSpace)
    }

    fn line_break(&mut self) -> Result<(), AllocError> {
        self.push(Piece::Break)
    }

    fn indent(&mut self) -> Result<(), AllocError> {
        self.push(Piece::Indent)
    }

    fn outdent(&mut self) -> Result<(), AllocError> {
        self.push(Piece::Outdent)
    }
}
