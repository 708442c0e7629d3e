//! The target of a tile.

ghost use Rattle.std.specs.Prelude.{◌≡◌, ◌≤◌, ◌<◌, ◌+◌, ◌^◌, ◌↔◌, true, false, IsErrOf, IfErr, IfOk, IfSome};
ghost use Rattle.outside_words.specs.Faults.{HasCause};
ghost use Rattle.outside_words.specs.Told.{WhereTold};
ghost use Rattle.notary_link.specs.declared.fail.AskFail.TheVariants.{NotaryFault, NotSealedSo};
ghost use Rattle.notary_link.specs.Fails.{ask_in_doubt};
ghost use Rattle.notary_link.specs.Notary.{Unchanged, GoesOn, IsCounted};
ghost use Rattle.digest_model.specs.Layout.{layout, exponent, has_tile_chains};
ghost use Rattle.audit_model.specs.Asked.{IsTold};
ghost use Rattle.tiled_forensics.specs.Asking.{part_told, IsPartFail};
ghost use Rattle.tiled_forensics.specs.Target.{parts, tile_told, target_questions, IsPart, IsTargetFail};

use notary_link::{Answer, AskFail, Name, Notary};
use seal_plan::TilePlan;
use tile_chains::WHOLE;

/// The target of a tile that differs as a whole; none of one that is the same.
///
/// The whole is asked first, and only where it differs the bit chains, from 0 up.
pub fn target<N: Notary>(
    plan: &TilePlan,
    notary: &mut N,
    id: u64,
    tile: u32,
) -> Result<Option<u16>, AskFail>
    requires planned { tile < plan.now.tiles }
    ensures value { WhereTold (N.state notary.old).lists (N.state notary.new).lists (λ before after.
        IsTold (tile_told (before.batches id) plan.now.history tile) result) }
    ensures sealed_so { IsErrOf result NotSealedSo ↔ has_tile_chains (layout plan.now.history) tile ≡ false }
    ensures unasked { IsErrOf result NotSealedSo → N.state notary.new ≡ N.state notary.old }
    ensures within { IfOk result (λ told. IfSome told (λ target. target < 2 ^ exponent (layout plan.now.history) tile)) }
    ensures only { IfErr result (IsTargetFail (exponent (layout plan.now.history) tile) tile) }
    ensures same { Unchanged (N.state notary.old) (N.state notary.new) }
    ensures asked { IfOk result (λ told. (N.state notary.new).asked
        ≤ (N.state notary.old).asked + target_questions (exponent (layout plan.now.history) tile) told) }
    ensures frame { GoesOn (N.state notary.old) (N.state notary.new) }
    ensures cause { HasCause NotaryFault (N.state notary.old).faults (N.state notary.new).faults result }
    ensures counted { IsCounted ask_in_doubt (N.state notary.old) (N.state notary.new) result }
{
    if !has_tile_chains(plan, tile) {
        return Err(AskFail::NotSealedSo);
    }
    if part_is_same(plan, notary, id, tile, WHOLE)? {
        return Ok(None);
    }
    let mut target = 0;
    for bit in 0..chain_count(plan, tile) {
        let same = part_is_same(plan, notary, id, tile, bit)?;
        target += u16::from(same) << bit;
    }
    Ok(Some(target))
}

/// Whether a tile has the chains of its parts.
fn has_tile_chains(plan: &TilePlan, tile: u32) -> bool
    ensures { result ≡ has_tile_chains (layout plan.now.history) tile }
{
    plan.eras().has_tile_chains(tile)
}

/// How many bit chains a tile has, where it has any.
fn chain_count(plan: &TilePlan, tile: u32) -> u8
    ensures value { result ≡ exponent (layout plan.now.history) tile }
    ensures few { result ≤ 10 }
{
    plan.eras().exponent(tile)
}

/// Whether a part of a tile is what was filed.
fn part_is_same<N: Notary>(
    plan: &TilePlan,
    notary: &mut N,
    id: u64,
    tile: u32,
    part: u8,
) -> Result<bool, AskFail>
    requires chains { has_tile_chains (layout plan.now.history) tile ≡ true }
    requires planned { tile < plan.now.tiles }
    requires part { IsPart (exponent (layout plan.now.history) tile) part }
    ensures value { WhereTold (N.state notary.old).lists (N.state notary.new).lists (λ before after.
        IsTold (part_told (parts (before.batches id) plan.now.history tile part) tile part) result) }
    ensures only { IfErr result (IsPartFail tile part) }
    ensures same { Unchanged (N.state notary.old) (N.state notary.new) }
    ensures asked { (N.state notary.new).asked ≤ (N.state notary.old).asked + 1 }
    ensures frame { GoesOn (N.state notary.old) (N.state notary.new) }
    ensures cause { HasCause NotaryFault (N.state notary.old).faults (N.state notary.new).faults result }
    ensures counted { IsCounted ask_in_doubt (N.state notary.old) (N.state notary.new) result }
{
    let name = Name::Tile { tile, part };
    match plan.digest(tile, part) {
        Some(digest) => match notary.ask(id, name, &digest)? {
            Answer::Same => Ok(true),
            Answer::Differs => Ok(false),
            Answer::Absent => Err(AskFail::SealMissing { name }),
        },
        None => Err(AskFail::SealMissing { name }),
    }
}
