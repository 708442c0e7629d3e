//! Writing payloads: each function appends the spelling of a part.

ghost use Rattle.std.specs.Prelude.{◌≡◌, ◌++◌, IfOk, OnOk};
ghost use Rattle.notary_link.specs.Batches.{IsName, IsBatch};
ghost use Rattle.notary_link.specs.Notary.{file, note, batch_of};
ghost use Rattle.notary_book.specs.Spelling.{spell_name, spell_seal, spell_seals, spell_outcome, FitsName, FitsSeal, FitsSeals, FitsOutcome, Spells};

use crate::reading::NO_TILE;
use notary_link::{Mark, Name, Outcome, Seal};
use std::alloc::{AllocError, Global};

fn put_name(out: &mut Vec<u8>, name: Name) -> Result<(), AllocError>
    requires { IsName name }
    ensures { OnOk result ((out.new.items ≡ out.old.items ++ spell_name name) × FitsName name) }
{
    match name {
        Name::Header => {
            out.push(0)?;
        }
        Name::Cum { tile } => {
            out.push(1)?;
            out.extend_from_slice(&tile.to_be_bytes())?;
        }
        Name::Tile { tile, part } => {
            out.push(2)?;
            out.extend_from_slice(&tile.to_be_bytes())?;
            out.push(part)?;
        }
        Name::Node { level, index } => {
            out.push(3)?;
            out.push(level)?;
            out.extend_from_slice(&index.to_be_bytes())?;
        }
        Name::Era { era } => {
            out.push(4)?;
            out.extend_from_slice(&era.to_be_bytes())?;
        }
        Name::EraNode { era, level, index } => {
            out.push(5)?;
            out.extend_from_slice(&era.to_be_bytes())?;
            out.push(level)?;
            out.extend_from_slice(&index.to_be_bytes())?;
        }
    }
    Ok(())
}

fn put_seal(out: &mut Vec<u8>, seal: &Seal) -> Result<(), AllocError>
    requires { IsName seal.now.name }
    ensures { OnOk result ((out.new.items ≡ out.old.items ++ spell_seal seal.now) × FitsSeal seal.now) }
{
    put_name(out, seal.name)?;
    out.extend_from_slice(&seal.digest)?;
    Ok(())
}

fn put_seals(out: &mut Vec<u8>, seals: &[Seal]) -> Result<(), AllocError>
    requires { IsBatch seals.now }
    ensures { OnOk result ((out.new.items ≡ out.old.items ++ spell_seals seals.now) × FitsSeals seals.now) }
{
    out.extend_from_slice(&(seals.len() as u16).to_be_bytes())?;
    for seal in seals {
        put_seal(out, seal)?;
    }
    Ok(())
}

fn put_outcome(out: &mut Vec<u8>, outcome: Outcome) -> Result<(), AllocError>
    ensures { OnOk result ((out.new.items ≡ out.old.items ++ spell_outcome outcome) × FitsOutcome outcome) }
{
    match outcome {
        Outcome::Clean => {
            out.push(0)?;
            out.extend_from_slice(&NO_TILE)?;
        }
        Outcome::Altered { first_bad } => {
            out.push(1)?;
            out.extend_from_slice(&first_bad.to_be_bytes())?;
        }
        Outcome::HeaderAltered => {
            out.push(2)?;
            out.extend_from_slice(&NO_TILE)?;
        }
    }
    Ok(())
}

/// The payload of a batch that is filed.
pub(crate) fn spell_batch(
    alloc: Global,
    id: u64,
    index: u32,
    moment: u64,
    seals: &[Seal],
) -> Result<Vec<u8>, AllocError>
    requires { IsBatch seals.now }
    ensures { IfOk result (λ b. Spells (file id index (batch_of moment seals.now)) b.items) }
{
    let mut out = Vec::new(alloc);
    out.push(1)?;
    out.extend_from_slice(&id.to_be_bytes())?;
    out.extend_from_slice(&index.to_be_bytes())?;
    out.extend_from_slice(&moment.to_be_bytes())?;
    put_seals(&mut out, seals)?;
    Ok(out)
}

/// The payload of a mark.
pub(crate) fn spell_mark(alloc: Global, id: u64, mark: Mark) -> Result<Vec<u8>, AllocError>
    ensures { IfOk result (λ b. Spells (note id mark) b.items) }
{
    let mut out = Vec::new(alloc);
    out.push(2)?;
    out.extend_from_slice(&id.to_be_bytes())?;
    out.extend_from_slice(&mark.moment.to_be_bytes())?;
    out.extend_from_slice(&mark.tiles.to_be_bytes())?;
    put_outcome(&mut out, mark.outcome)?;
    Ok(out)
}
