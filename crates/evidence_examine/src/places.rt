//! The places that a file names: its eras, and the names of leaves by them.

ghost use Rattle.std.specs.Prelude.{◌≡◌, ◌≤◌, ◌+◌, IfOk, length};
ghost use Rattle.std.specs.List.{All};
ghost use Rattle.outside_words.specs.Faults.{HasCause};
ghost use Rattle.outside_words.specs.Told.{WhereTold};
ghost use Rattle.tuple_bytes.specs.Spelling.{FitsHeader};
ghost use Rattle.history_model.specs.History.{History};
ghost use Rattle.digest_model.specs.Layout.{layout, policy_of, era_of, tile_of, max_granules};
ghost use Rattle.notary_link.specs.declared.fail.NotaryFail.TheVariants.{Failed};
ghost use Rattle.notary_link.specs.Notary.{Unchanged, GoesOn, IsAsked, IsCounted, in_doubt};
ghost use Rattle.evidence_file.specs.Evidence.{FitsEra, FitsEvidence};
ghost use Rattle.evidence_file.specs.Shown.{leaf_of, leaf_name};
ghost use Rattle.evidence_examine.specs.Places.{places_of, sealed, has_filed_places};

use evidence_file::Evidence;
use notary_link::{Answer, Name, Notary, NotaryFail};
use policy_eras::Eras;
use std::alloc::{AllocError, Global};
use tile_seals::node_name;
use validator::ask_header;

/// The eras of a file, behind that of its header.
pub(crate) fn eras_of(alloc: Global, evidence: &Evidence) -> Result<Eras, AllocError>
    requires header { FitsHeader evidence.now.header }
    requires eras { All FitsEra evidence.now.eras }
    ensures value { IfOk result (λ eras. eras ≡ policy_of (places_of evidence.now)) }
{
    let mut eras = Eras::new(alloc, &evidence.header)?;
    for era in evidence.eras.as_slice() {
        eras.offer(era.tile, era.granule, era.k, era.algs);
    }
    Ok(eras)
}

/// The number of a granule among those of the era of this number, which is its own.
fn leaf_in(eras: &Eras, number: u32, granule: u32) -> u32
    ensures value { (h : History) → eras.now ≡ policy_of h → number ≡ era_of (layout h) (tile_of (layout h) granule) → result ≡ leaf_of (layout h) granule }
{
    match eras.at(number) {
        Some(era) => granule.saturating_sub(era.granule),
        None => granule,
    }
}

/// The name of the leaf of a granule.
pub(crate) fn leaf_name(eras: &Eras, granule: u32) -> Name
    requires within { granule ≤ max_granules }
    ensures value { (h : History) → eras.now ≡ policy_of h → result ≡ leaf_name (layout h) granule }
{
    let number = eras.era_of(eras.tiles(granule));
    node_name(number, 0, leaf_in(eras, number, granule))
}

/// How many tiles are sealed, by the number of batches.
fn sealed_tiles<N: Notary>(notary: &mut N, id: u64) -> Result<u32, NotaryFail>
    ensures told { WhereTold (N.state notary.old).lists (N.state notary.new).lists (λ before after.
        IfOk result (λ tiles. tiles ≡ sealed (before.batches id))) }
    ensures only { IsAsked result }
    ensures same { Unchanged (N.state notary.old) (N.state notary.new) }
    ensures asked { (N.state notary.new).asked ≡ (N.state notary.old).asked }
    ensures frame { GoesOn (N.state notary.old) (N.state notary.new) }
    ensures cause { HasCause Failed (N.state notary.old).faults (N.state notary.new).faults result }
    ensures counted { IsCounted in_doubt (N.state notary.old) (N.state notary.new) result }
{
    let count = notary.count(id)?;
    Ok(count.saturating_sub(1))
}

/// Whether the header and the eras of the sealed tiles are as filed.
pub(crate) fn has_filed_places<N: Notary>(
    notary: &mut N,
    id: u64,
    evidence: &Evidence,
    eras: &Eras,
) -> Result<bool, NotaryFail>
    requires fits { FitsEvidence evidence.now }
    requires eras { eras.now ≡ policy_of (places_of evidence.now) }
    ensures told { WhereTold (N.state notary.old).lists (N.state notary.new).lists (λ before after.
        IfOk result (λ b. b ≡ has_filed_places (before.batches id) evidence.now)) }
    ensures only { IsAsked result }
    ensures same { Unchanged (N.state notary.old) (N.state notary.new) }
    ensures asked { (N.state notary.new).asked ≤ (N.state notary.old).asked + (length evidence.now.eras + 2) }
    ensures frame { GoesOn (N.state notary.old) (N.state notary.new) }
    ensures cause { HasCause Failed (N.state notary.old).faults (N.state notary.new).faults result }
    ensures counted { IsCounted in_doubt (N.state notary.old) (N.state notary.new) result }
{
    let tiles = sealed_tiles(notary, id)?;
    match ask_header(notary, id, &evidence.header, eras, tiles)? {
        Answer::Same => Ok(true),
        Answer::Differs | Answer::Absent => Ok(false),
    }
}
