//! Names, seals and outcomes, read where they stand, without memory.

ghost use Rattle.std.specs.Prelude.{◌≡◌};
ghost use Rattle.byte_grammar.specs.Reading.{Gives, byte, checked, part, up_to};
ghost use Rattle.notary_book.specs.Spelling.{is_part, max_level, digest_length};
ghost use Rattle.notary_book.specs.Calls.{name_by, name_at, seal_at, outcome_at};

use byte_grammar::{byte_of, constant_of, u32_of};
use notary_link::{Name, Outcome, Seal};

/// The highest level of a node.
const MAX_LEVEL: u8 = 20;

/// What stands for the first bad tile where there is none.
pub(crate) const NO_TILE: [u8; 4] = [0; 4];

fn is_part(part: u8) -> bool
    ensures { result ≡ is_part part }
{
    part <= 9 || part == 255
}

#[tactic(auto, unfolding(byte_grammar::specs::Reading::checked))]
fn part_of(bytes: &[u8]) -> Option<(u8, &[u8])>
    ensures { Gives (λ x. (x.0, x.1.now)) result (checked is_part byte bytes.now) }
{
    let (part, rest) = byte_of(bytes)?;
    if !is_part(part) {
        return None;
    }
    Some((part, rest))
}

#[tactic(auto, unfolding(byte_grammar::specs::Reading::checked))]
fn level_of(bytes: &[u8]) -> Option<(u8, &[u8])>
    ensures { Gives (λ x. (x.0, x.1.now)) result (checked (up_to max_level) byte bytes.now) }
{
    let (level, rest) = byte_of(bytes)?;
    if level > MAX_LEVEL {
        return None;
    }
    Some((level, rest))
}

#[tactic(auto, unfolding(crate::specs::Calls::name_by, byte_grammar::specs::Reading::mapped))]
fn cum_of(bytes: &[u8]) -> Option<(Name, &[u8])>
    ensures { Gives (λ x. (x.0, x.1.now)) result (name_by 1 bytes.now) }
{
    let (tile, rest) = u32_of(bytes)?;
    Some((Name::Cum { tile }, rest))
}

#[tactic(auto, unfolding(crate::specs::Calls::name_by, byte_grammar::specs::Reading::mapped, byte_grammar::specs::Reading::seq))]
fn tile_of(bytes: &[u8]) -> Option<(Name, &[u8])>
    ensures { Gives (λ x. (x.0, x.1.now)) result (name_by 2 bytes.now) }
{
    let (tile, rest) = u32_of(bytes)?;
    let (part, rest) = part_of(rest)?;
    Some((Name::Tile { tile, part }, rest))
}

#[tactic(auto, unfolding(crate::specs::Calls::name_by, byte_grammar::specs::Reading::mapped, byte_grammar::specs::Reading::seq))]
fn node_of(bytes: &[u8]) -> Option<(Name, &[u8])>
    ensures { Gives (λ x. (x.0, x.1.now)) result (name_by 3 bytes.now) }
{
    let (level, rest) = level_of(bytes)?;
    let (index, rest) = u32_of(rest)?;
    Some((Name::Node { level, index }, rest))
}

#[tactic(auto, unfolding(crate::specs::Calls::name_by, byte_grammar::specs::Reading::mapped))]
fn era_of(bytes: &[u8]) -> Option<(Name, &[u8])>
    ensures { Gives (λ x. (x.0, x.1.now)) result (name_by 4 bytes.now) }
{
    let (era, rest) = u32_of(bytes)?;
    Some((Name::Era { era }, rest))
}

#[tactic(auto, unfolding(crate::specs::Calls::name_by, byte_grammar::specs::Reading::mapped, byte_grammar::specs::Reading::seq))]
fn era_node_of(bytes: &[u8]) -> Option<(Name, &[u8])>
    ensures { Gives (λ x. (x.0, x.1.now)) result (name_by 5 bytes.now) }
{
    let (era, rest) = u32_of(bytes)?;
    let (level, rest) = level_of(rest)?;
    let (index, rest) = u32_of(rest)?;
    Some((Name::EraNode { era, level, index }, rest))
}

#[tactic(auto, unfolding(crate::specs::Calls::name_at, crate::specs::Calls::name_by, byte_grammar::specs::Reading::tagged, byte_grammar::specs::Reading::mapped, byte_grammar::specs::Reading::seq), using(crate::proofs::Skips::name_by_other))]
fn name_of(bytes: &[u8]) -> Option<(Name, &[u8])>
    ensures { Gives (λ x. (x.0, x.1.now)) result (name_at bytes.now) }
{
    let (tag, rest) = byte_of(bytes)?;
    match tag {
        0 => Some((Name::Header, rest)),
        1 => cum_of(rest),
        2 => tile_of(rest),
        3 => node_of(rest),
        4 => era_of(rest),
        5 => era_node_of(rest),
        _ => None,
    }
}

fn digest_of(bytes: &[u8]) -> Option<([u8; 32], &[u8])>
    ensures { Gives (λ x. (x.0, x.1.now)) result (part digest_length bytes.now) }
{
    let (digest, rest) = bytes.split_first_chunk::<32>()?;
    Some((*digest, rest))
}

#[tactic(auto, unfolding(crate::specs::Calls::seal_at, byte_grammar::specs::Reading::mapped, byte_grammar::specs::Reading::seq))]
pub(crate) fn seal_of(bytes: &[u8]) -> Option<(Seal, &[u8])>
    ensures { Gives (λ x. (x.0, x.1.now)) result (seal_at bytes.now) }
{
    let (name, rest) = name_of(bytes)?;
    let (digest, rest) = digest_of(rest)?;
    Some((Seal { name, digest }, rest))
}

#[tactic(auto, unfolding(crate::specs::Calls::outcome_at, crate::specs::Calls::outcome_by, byte_grammar::specs::Reading::tagged, byte_grammar::specs::Reading::mapped), using(crate::proofs::Skips::outcome_by_other))]
pub(crate) fn outcome_of(bytes: &[u8]) -> Option<(Outcome, &[u8])>
    ensures { Gives (λ x. (x.0, x.1.now)) result (outcome_at bytes.now) }
{
    let (tag, rest) = byte_of(bytes)?;
    match tag {
        0 => {
            let rest = constant_of(&NO_TILE, rest)?;
            Some((Outcome::Clean, rest))
        }
        1 => {
            let (first_bad, rest) = u32_of(rest)?;
            Some((Outcome::Altered { first_bad }, rest))
        }
        2 => {
            let rest = constant_of(&NO_TILE, rest)?;
            Some((Outcome::HeaderAltered, rest))
        }
        _ => None,
    }
}
