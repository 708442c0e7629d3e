//! The batches, as a notary is given them.

ghost use Rattle.std.specs.Prelude.{◌≡◌, ◌≤◌, ◌<◌, ◌+◌, ◌++◌, ◌∷◌, [], true, if◌then◌else◌, IfOk, OnOk, map};
ghost use Rattle.std.specs.List.{Contains};
ghost use Rattle.notary_link.specs.Batches.{IsBatch};
ghost use Rattle.digest_model.specs.Layout.{layout, first_granule, max_granules, has_tile_chains, has_tree, era_of};
ghost use Rattle.audit_model.specs.Names.{planned, era_names, tile_names, node_names, nodes_ending_at, seal, batch};
ghost use Rattle.tile_seals.specs.Nodes.{IsLeafIn, node_at_level};

use super::Tiles;
use crate::eras::{leaf_start, node_name};
use crate::forest::LEVELS;
use crate::lookup::power_of_two;
use notary_link::{Name, Seal, Seals};
use std::alloc::{AllocError, Global};
use tile_chains::WHOLE;

impl Tiles {
    /// Adds the seal of a planned name.
    fn seal(&self, seals: &mut Seals, name: Name) -> Result<(), AllocError>
        requires { Contains (planned (layout self.now.history) self.now.tiles) name }
        ensures { OnOk result (seals.new ≡ seals.old ++ seal self.now.history name ∷ []) }
    {
        match self.digest(name) {
            Some(digest) => seals.push(Seal { name, digest }),
            None => Ok(()),
        }
    }

    /// Adds the eras but the first that begin at a tile.
    fn seal_eras(&self, seals: &mut Seals, tile: u32) -> Result<(), AllocError>
        requires below { tile < self.now.tiles }
        requires within { first_granule (layout self.now.history) self.now.tiles ≤ max_granules }
        ensures { OnOk result (seals.new ≡ seals.old ++ map (seal self.now.history) (era_names (layout self.now.history) tile)) }
    {
        let before = self.eras().sealed(tile);
        let begun = self.eras().sealed(tile + 1);
        for era in before + 1..begun + 1 {
            self.seal(seals, Name::Era { era })?;
        }
        Ok(())
    }

    /// Adds a whole tile and its bit chains.
    fn seal_tile(&self, seals: &mut Seals, tile: u32) -> Result<(), AllocError>
        requires below { tile < self.now.tiles }
        requires chains { has_tile_chains (layout self.now.history) tile ≡ true }
        ensures { OnOk result (seals.new ≡ seals.old ++ map (seal self.now.history) (tile_names (layout self.now.history) tile)) }
    {
        let k = self.eras().exponent(tile);
        self.seal(seals, Name::Tile { tile, part: WHOLE })?;
        for part in 0..k {
            self.seal(seals, Name::Tile { tile, part })?;
        }
        Ok(())
    }

    /// Adds the parts of a tile, where they are planned.
    fn seal_parts(&self, seals: &mut Seals, tile: u32) -> Result<(), AllocError>
        requires { tile < self.now.tiles }
        ensures { OnOk result (seals.new ≡ seals.old ++ map (seal self.now.history) (if has_tile_chains (layout self.now.history) tile then tile_names (layout self.now.history) tile else [])) }
    {
        if self.eras().has_tile_chains(tile) {
            self.seal_tile(seals, tile)
        } else {
            Ok(())
        }
    }

    /// Adds the node of a level of a tile's era whose last leaf is this one, where there is one.
    fn seal_node(
        &self,
        seals: &mut Seals,
        tile: u32,
        era: u32,
        leaf: u32,
        level: u8,
    ) -> Result<(), AllocError>
        requires level { level < 21 }
        requires below { tile < self.now.tiles }
        requires tree { has_tree (layout self.now.history) tile ≡ true }
        requires era { era ≡ era_of (layout self.now.history) tile }
        requires leaf { IsLeafIn (layout self.now.history) tile leaf }
        requires within { leaf < max_granules }
        ensures { OnOk result (seals.new ≡ seals.old ++ map (seal self.now.history) (node_at_level era leaf level)) }
    {
        let size = power_of_two(level);
        let end = leaf + 1;
        if end % size == 0 {
            self.seal(seals, node_name(era, level, end / size - 1))
        } else {
            Ok(())
        }
    }

    /// Adds the nodes of a tile's era whose last leaf is this one, from the leaf upwards.
    fn seal_nodes_at(
        &self,
        seals: &mut Seals,
        tile: u32,
        era: u32,
        leaf: u32,
    ) -> Result<(), AllocError>
        requires below { tile < self.now.tiles }
        requires tree { has_tree (layout self.now.history) tile ≡ true }
        requires era { era ≡ era_of (layout self.now.history) tile }
        requires leaf { IsLeafIn (layout self.now.history) tile leaf }
        requires within { leaf < max_granules }
        ensures { OnOk result (seals.new ≡ seals.old ++ map (seal self.now.history) (nodes_ending_at era leaf)) }
    {
        for level in 0..LEVELS {
            self.seal_node(seals, tile, era, leaf, level)?;
        }
        Ok(())
    }

    /// Adds the nodes whose last leaf lies in a tile.
    fn seal_tree(&self, seals: &mut Seals, tile: u32) -> Result<(), AllocError>
        requires below { tile < self.now.tiles }
        requires tree { has_tree (layout self.now.history) tile ≡ true }
        requires within { first_granule (layout self.now.history) self.now.tiles ≤ max_granules }
        ensures { OnOk result (seals.new ≡ seals.old ++ map (seal self.now.history) (node_names (layout self.now.history) tile)) }
    {
        let era = self.eras().era_of(tile);
        let size = power_of_two(self.eras().exponent(tile));
        let first = leaf_start(self.eras(), tile);
        for number in 0..size {
            self.seal_nodes_at(seals, tile, era, first + number)?;
        }
        Ok(())
    }

    /// Adds the nodes whose last leaf lies in a tile, where they are planned.
    fn seal_nodes(&self, seals: &mut Seals, tile: u32) -> Result<(), AllocError>
        requires below { tile < self.now.tiles }
        requires within { first_granule (layout self.now.history) self.now.tiles ≤ max_granules }
        ensures { OnOk result (seals.new ≡ seals.old ++ map (seal self.now.history) (if has_tree (layout self.now.history) tile then node_names (layout self.now.history) tile else [])) }
    {
        if self.eras().has_tree(tile) {
            self.seal_tree(seals, tile)
        } else {
            Ok(())
        }
    }

    /// Seals the header.
    fn header_batch(&self, alloc: Global) -> Result<Seals, AllocError>
        ensures { IfOk result (λ seals. seals ≡ batch self.now.history 0) }
    {
        let mut seals = Seals::new(alloc);
        self.seal(&mut seals, Name::Header)?;
        Ok(seals)
    }

    /// Seals a tile, behind the eras that begin there.
    fn tile_batch(&self, alloc: Global, tile: u32) -> Result<Seals, AllocError>
        requires below { tile < self.now.tiles }
        requires within { first_granule (layout self.now.history) self.now.tiles ≤ max_granules }
        ensures { IfOk result (λ seals. seals ≡ batch self.now.history (tile + 1)) }
    {
        let mut seals = Seals::new(alloc);
        self.seal_eras(&mut seals, tile)?;
        self.seal(&mut seals, Name::Cum { tile })?;
        self.seal_parts(&mut seals, tile)?;
        self.seal_nodes(&mut seals, tile)?;
        Ok(seals)
    }

    /// The seals of a batch, in their order.
    pub fn batch(&self, alloc: Global, index: u32) -> Result<Seals, AllocError>
        requires { index ≤ self.now.tiles }
        ensures value { IfOk result (λ seals. seals ≡ batch self.now.history index) }
        ensures fileable { IfOk result IsBatch }
    {
        let _tiles = self.tiles();
        if index == 0 {
            return self.header_batch(alloc);
        }
        let tile = index - 1;
        let _few = self.eras().exponent(tile);
        self.tile_batch(alloc, tile)
    }
}
