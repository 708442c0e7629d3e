//! The nodes of one era, level by level.

ghost use Rattle.std.specs.Prelude.{◌≡◌, ◌≤◌, ◌<◌, ◌+◌, ◌^◌, false, suc, [], ℕ, IfOk, OnOk, length, map, slice_index_or};
ghost use Rattle.std.specs.List.{range_with_len, slice_get, slice_set};
ghost use Rattle.history_model.specs.History.{History};
ghost use Rattle.digest_model.specs.Digests.{granule_digest};
ghost use Rattle.tile_seals.specs.Places.{level_of, levels_of};

use crate::digests::Digests;
use crate::lookup::digest_at;
use a3d_tree::node;
use std::alloc::{AllocError, Global};
use std::marker::Model;
use std::mem;

/// How many levels a tree may have: over 1,048,576 granules there are 21.
pub(crate) const LEVELS: u8 = 21;

/// The digests of the nodes over some leaves, by their levels.
#[derive(Drop)]
pub(crate) struct Forest {
    levels: Vec<Digests>,
}

impl Model for Forest {
    ghost use Rattle.std.specs.Prelude.{◌≡◌, ℕ, List, length};

    ghost Value = { List (List (List ℕ)) };

    ghost view = { λ f. f.levels.items };

    ghost invariant = { λ f. length f.levels.items ≡ 21 };
}

/// Adds the nodes over those of the level below that stand for the first time.
fn add_nodes(level: u8, nodes: &mut Digests, below: &[[u8; 32]]) -> Result<(), AllocError>
    requires few { length below.now < 2 ^ 32 }
    requires own { length nodes.old < 2 ^ 32 }
    ensures short { OnOk result (length nodes.new < 2 ^ 32) }
    ensures value { (h : History) (first m before lower : ℕ) → level ≡ suc lower → below.now ≡ level_of h first m lower
        → nodes.old ≡ level_of h first before level → before ≤ m → OnOk result (nodes.new ≡ level_of h first m level) }
{
    let first = nodes.as_slice().len();
    for index in first..below.len() / 2 {
        let left = &below[2 * index];
        let right = &below[2 * index + 1];
        nodes.push(node(level, index as u32, left, right))?;
    }
    Ok(())
}

impl Forest {
    /// Over no leaf.
    pub(crate) fn new(alloc: Global) -> Result<Forest, AllocError>
        ensures value { (h : History) (first : ℕ) → IfOk result (λ forest. forest ≡ levels_of h first 0) }
    {
        let mut levels = Vec::with_capacity(alloc, usize::from(LEVELS))?;
        for _level in 0..LEVELS {
            levels.push(Digests::new(alloc))?;
        }
        Ok(Forest { levels })
    }

    /// Adds the nodes of a level that the level below completes, and answers whether there are any.
    fn complete(&mut self, alloc: Global, level: u8) -> Result<bool, AllocError>
        requires level { (1 ≤ level) × (level < 21) }
        requires few { (k : ℕ) → length (slice_index_or self.old k []) < 2 ^ 32 }
        ensures few { OnOk result ((k : ℕ) → length (slice_index_or self.new k []) < 2 ^ 32) }
        ensures value { (h : History) (first m before lower : ℕ) → level ≡ suc lower → slice_index_or self.old lower [] ≡ level_of h first m lower
            → slice_index_or self.old level [] ≡ level_of h first before level → before ≤ m → OnOk result (self.new ≡ slice_set self.old level (level_of h first m level)) }
        ensures none { IfOk result (λ some. some ≡ false → length (slice_index_or self.new level []) ≤ length (slice_index_or self.old level [])) }
    {
        let place = usize::from(level);
        let mut nodes = mem::replace(&mut self.levels[place], Digests::new(alloc));
        let before = nodes.as_slice().len();
        add_nodes(level, &mut nodes, self.levels[place - 1].as_slice())?;
        let some = before < nodes.as_slice().len();
        self.levels[place] = nodes;
        Ok(some)
    }

    /// Adds the next leaves, and the nodes that they complete.
    pub(crate) fn grow(&mut self, alloc: Global, leaves: &[[u8; 32]]) -> Result<(), AllocError>
        requires few { (k : ℕ) → length (slice_index_or self.old k []) + length leaves.now < 2 ^ 32 }
        ensures value { (h : History) (first m : ℕ) → self.old ≡ levels_of h first m
            → leaves.now ≡ map (granule_digest h) (range_with_len (first + m) (length leaves.now)) → OnOk result (self.new ≡ levels_of h first (m + length leaves.now)) }
    {
        self.levels[0].extend(leaves)?;
        for level in 1..LEVELS {
            let some = self.complete(alloc, level)?;
            if !some {
                return Ok(());
            }
        }
        Ok(())
    }

    /// The digest of a node, where there is one.
    pub(crate) fn node(&self, level: u8, index: u32) -> Option<[u8; 32]>
        ensures { result ≡ slice_get (slice_index_or self.now level []) index }
    {
        let nodes = self.levels.get(usize::from(level))?;
        digest_at(nodes.as_slice(), index as usize)
    }
}
