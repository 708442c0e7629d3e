//! The plan: made once, then only read.

ghost use Rattle.std.specs.Prelude.{◌≡◌, ◌≤◌, ◌+◌, ◌*◌, ◌↔◌, true, IfOk, IfSome, IsSome, length, map};
ghost use Rattle.std.specs.List.{Contains, range_with_len};
ghost use Rattle.history_model.specs.History.{history, txns};
ghost use Rattle.history_model.specs.StoredHistory.{IsHistory};
ghost use Rattle.digest_model.specs.Layout.{policy_of, layout, first_granule, max_granules};
ghost use Rattle.digest_model.specs.Digests.{cum};
ghost use Rattle.notary_link.specs.Batches.{IsBatch};
ghost use Rattle.audit_model.specs.Names.{planned, digest, batch};
ghost use Rattle.tuple_bytes.specs.Spelling.{FitsHeader};
ghost use Rattle.policy_eras.specs.Policy.{has_leaves};
ghost use Rattle.tile_seals.specs.Places.{leaves_of};
ghost use Rattle.seal_plan.specs.Plan.{planned_of};

use crate::folding::fold;
use crate::grouping::group_tiles;
use crate::leaves::leaves;
use crate::telling::tell;
use cumulative_chain::links_at_tiles;
use history_model::Spelled;
use notary_link::{Name, Seals};
use policy_eras::Eras;
use std::alloc::{AllocError, Global};
use std::marker::Model;
use step_count::{Ledger, Steps};
use tile_seals::Tiles;
use tuple_bytes::Header;

/// The digests of all planned names.
#[derive(Drop)]
pub struct Plan {
    tiles: Tiles,
}

impl Model for Plan {
    ghost use Rattle.tile_seals.specs.Kept.{Planned};

    ghost Value = { Planned };

    ghost view = { λ p. p.tiles };
}

/// The chain's values and the granules' digests, over the spelling of each transaction.
fn hash_txns<L: Ledger>(
    alloc: Global,
    header: &Header,
    eras: &Eras,
    items: &Spelled,
    tiles: u32,
    steps: &mut Steps<L>,
) -> Result<(Vec<[u8; 32]>, Vec<[u8; 32]>), AllocError>
    requires history { IsHistory (history header.now items.now) }
    requires eras { eras.now ≡ policy_of (history header.now items.now) }
    requires within { first_granule (layout (history header.now items.now)) tiles ≤ max_granules }
    ensures links { IfOk result (λ r. r.0.items ≡ map (cum (history header.now items.now)) (range_with_len 0 tiles)) }
    ensures leaves { IfOk result (λ r. has_leaves eras.now ≡ true → r.1.items ≡ leaves_of (history header.now items.now) (first_granule (layout (history header.now items.now)) tiles)) }
    ensures steps { steps.new ≤ steps.old + 2 * length (txns items.now) }
{
    let granules = group_tiles(alloc, header, eras, items, tiles)?;
    let links = links_at_tiles(alloc, header, eras, &granules, tiles, steps)?;
    let digests = leaves(alloc, eras, &granules, steps)?;
    Ok((links, digests))
}

impl Plan {
    /// All digests of the first tiles, which lie below granule 1,048,576.
    pub fn new<L: Ledger>(
        alloc: Global,
        header: &Header,
        items: &Spelled,
        tiles: u32,
        steps: &mut Steps<L>,
    ) -> Result<Plan, AllocError>
        requires history { IsHistory (history header.now items.now) }
        requires within { first_granule (layout (history header.now items.now)) tiles ≤ max_granules }
        ensures value { IfOk result (λ plan. plan ≡ planned_of (history header.now items.now) tiles) }
        ensures steps { steps.new ≤ steps.old + 2 * length (txns items.now) }
    {
        let eras = Eras::of(alloc, header, items)?;
        let (links, digests) = hash_txns(alloc, header, &eras, items, tiles, steps)?;
        let told = tell(items);
        let folded = fold(alloc, header, eras, &told, tiles, &links, &digests)?;
        Ok(Plan { tiles: folded })
    }

    /// The header that the plan was made for.
    pub fn header(&self) -> &Header
        ensures value { result.now ≡ self.now.history.header }
        ensures fits { FitsHeader result.now }
    {
        self.tiles.header()
    }

    /// Where the tiles lie.
    pub fn eras(&self) -> &Eras
        ensures value { result.now ≡ policy_of self.now.history }
    {
        self.tiles.eras()
    }

    /// How many tiles are planned.
    pub fn tiles(&self) -> u32
        ensures value { result ≡ self.now.tiles }
        ensures within { first_granule (layout self.now.history) self.now.tiles ≤ max_granules }
    {
        self.tiles.tiles()
    }

    /// The value of the chain at the end of each tile.
    pub fn links(&self) -> &[[u8; 32]]
        ensures value { result.now ≡ map (cum self.now.history) (range_with_len 0 self.now.tiles) }
    {
        self.tiles.links()
    }

    /// The digest of a name; none exactly where the name isn't planned.
    pub fn digest(&self, name: Name) -> Option<[u8; 32]>
        ensures value { IfSome result (λ d. d ≡ digest self.now.history name) }
        ensures planned { IsSome result ↔ Contains (planned (layout self.now.history) self.now.tiles) name }
    {
        self.tiles.digest(name)
    }

    /// The seals of a batch, in their order.
    pub fn batch(&self, alloc: Global, index: u32) -> Result<Seals, AllocError>
        requires { index ≤ self.now.tiles }
        ensures value { IfOk result (λ seals. seals ≡ batch self.now.history index) }
        ensures fileable { IfOk result IsBatch }
    {
        self.tiles.batch(alloc, index)
    }
}
