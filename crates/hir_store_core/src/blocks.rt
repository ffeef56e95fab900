//! The blocks of a store that may hold items, with the maps of their items.

ghost use Rattle.std.specs.Prelude.{◌≡◌};
ghost use Rattle.std.specs.Iterator.{YieldsFirstBy, item_count};
ghost use Rattle.hir_store_core.specs.Blocks.{first_without};

use crate::missing::Missing;
use crate::store::ExpressionStore;
use hir_base::BlockId;
use std::collections::BTreeMap;
use std::iter::FusedIterator;
use std::marker::Model;

/// An iterator over blocks with their maps, modelled as the list of those that are left. Each block has a
/// map.
#[derive(Drop)]
pub struct Blocks<'a, M> {
    blocks: &'a [BlockId],
    maps: &'a BTreeMap<BlockId, M>,
}

impl<'a, M> Model for Blocks<'a, M> {
    ghost use Rattle.std.specs.Prelude.{◌≡◌, List, ℕ, None};
    ghost use Rattle.hir_store_core.specs.Blocks.{first_without, with_maps};

    ghost Value = { List (ℕ × M) };

    ghost view = { λ it. with_maps it.maps.now it.blocks.now };

    ghost invariant = { λ it. first_without it.maps.now it.blocks.now ≡ None };
}

impl<'a, M> Iterator for Blocks<'a, M> {
    type Item = (BlockId, &'a M);

    ghost next_gives = { YieldsFirstBy (λ item. (item.0, item.1.now)) (λ rest. rest) };

    ghost remaining = { item_count (λ rest. rest) };

    fn next(&mut self) -> Option<(BlockId, &'a M)> {
        let (block, rest) = self.blocks.split_first()?;
        self.blocks = rest;
        match self.maps.get(block) {
            Some(map) => Some((*block, map)),
            None => unreachable!(),
        }
    }
}

impl<'a, M> FusedIterator for Blocks<'a, M> {}

impl ExpressionStore {
    ghost use Rattle.hir_store_core.specs.Blocks.{blocks_with};

    /// Returns the blocks that may hold items, in order, each with its map.
    ///
    /// Returns `Missing::DefMap` of the first block that has no map, before any block is given.
    pub fn blocks<'a, M>(&'a self, maps: &'a BTreeMap<BlockId, M>) -> Result<Blocks<'a, M>, Missing>
        ensures { result ≡ blocks_with maps.now self.now.side_tables.blocks }
    {
        let blocks = match self.side_tables().blocks.get() {
            Some(blocks) => blocks.as_slice(),
            None => &[],
        };
        match first_without(blocks, maps) {
            Some(block) => Err(Missing::DefMap(block)),
            None => Ok(Blocks { blocks, maps }),
        }
    }
}

/// Returns the first block that has no map.
fn first_without<M>(blocks: &[BlockId], maps: &BTreeMap<BlockId, M>) -> Option<BlockId>
    ensures { result ≡ first_without maps.now blocks.now }
{
    for block in blocks {
        if !maps.contains_key(block) {
            return Some(*block);
        }
    }
    None
}
