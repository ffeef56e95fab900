//! Arenas, maps, lists, texts, boxes and stacks, and the equality that contracts rely on.
//! An id is modelled as its number, an arena or a list as its list, a text as its bytes, a map as a finite
//! map.
#![tactic(auto)]

mod arena;
mod arena_iter;
mod arena_map;
mod arena_map_iter;
mod boxed;
mod empty;
mod exact;
mod idx;
mod keys;
mod kind;
pub mod laws;
mod lazy_box;
mod seq;
mod short_list;
mod stack;
mod table;
mod table_iter;
mod text;

pub use arena::{Arena, ArenaFault, MOST_ITEMS};
pub use arena_iter::ArenaIter;
pub use arena_map::ArenaMap;
pub use arena_map_iter::ArenaMapIter;
pub use boxed::Boxed;
pub use empty::Empty;
pub use exact::{ExactEq, TryClone};
pub use idx::Idx;
pub use kind::Kind;
pub use lazy_box::LazyBox;
pub use seq::Seq;
pub use short_list::ShortList;
pub use stack::Stack;
pub use table::{HasCode, Table};
pub use table_iter::TableIter;
pub use text::Text;
