//! Pages of text: the five calls by which text and layout are written, what they make of a page, and the one
//! buffer that holds it.
#![tactic(auto)]

mod buffer;
mod laws;
mod line_format;
mod literals;
mod piece_writer;

pub use buffer::PageBuffer;
pub use laws::formats_are_compared_by_kind;
pub use line_format::LineFormat;
pub use literals::{
    write_bytes_literal, write_c_string_literal, write_char_literal, write_number,
    write_string_literal,
};
pub use piece_writer::PieceWriter;
