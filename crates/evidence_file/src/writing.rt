//! Writing an evidence file: each function appends the spelling of a part.

ghost use Rattle.std.specs.Prelude.{◌≡◌, ◌<◌, ◌^◌, ◌++◌, OnOk, IfOk, length};
ghost use Rattle.std.specs.List.{All};
ghost use Rattle.digest_model.specs.Digests.{behind_length};
ghost use Rattle.evidence_file.specs.Evidence.{spell_era, spell_eras, spell_list, spell_second, spell_entry, spell_entries, spell_evidence};
ghost use Rattle.evidence_file.specs.Writing.{HasLengths, SecondHasLengths, EntryHasLengths};

use crate::entry::Entry;
use crate::evidence::Evidence;
use crate::reading::TEXT;
use policy_eras::Era;
use std::alloc::{AllocError, Global};
use tuple_bytes::{Payloads, header_fields};

fn put_era(out: &mut Vec<u8>, era: Era) -> Result<(), AllocError>
    ensures { OnOk result (out.new.items ≡ out.old.items ++ spell_era era) }
{
    out.extend_from_slice(&era.tile.to_be_bytes())?;
    out.extend_from_slice(&era.granule.to_be_bytes())?;
    out.push(era.k)?;
    out.push(era.algs)?;
    Ok(())
}

fn put_eras(out: &mut Vec<u8>, eras: &[Era]) -> Result<(), AllocError>
    requires few { length eras.now < 2 ^ 32 }
    ensures { OnOk result (out.new.items ≡ out.old.items ++ spell_eras eras.now) }
{
    out.extend_from_slice(&(eras.len() as u32).to_be_bytes())?;
    for era in eras {
        put_era(out, *era)?;
    }
    Ok(())
}

fn put_txn(out: &mut Vec<u8>, txn: &[u8]) -> Result<(), AllocError>
    requires short { length txn.now < 2 ^ 32 }
    ensures { OnOk result (out.new.items ≡ out.old.items ++ behind_length txn.now) }
{
    out.extend_from_slice(&(txn.len() as u32).to_be_bytes())?;
    out.extend_from_slice(txn)?;
    Ok(())
}

fn put_list(out: &mut Vec<u8>, txns: &Payloads) -> Result<(), AllocError>
    requires lengths { HasLengths txns.now }
    ensures { OnOk result (out.new.items ≡ out.old.items ++ spell_list txns.now) }
{
    let txns = txns.as_slice();
    out.extend_from_slice(&(txns.len() as u32).to_be_bytes())?;
    for txn in txns {
        put_txn(out, txn.as_slice())?;
    }
    Ok(())
}

fn put_second(out: &mut Vec<u8>, second: &Option<Payloads>) -> Result<(), AllocError>
    requires lengths { SecondHasLengths second.now }
    ensures { OnOk result (out.new.items ≡ out.old.items ++ spell_second second.now) }
{
    match second {
        Some(txns) => {
            out.push(1)?;
            put_list(out, txns)
        }
        None => {
            out.push(0)?;
            Ok(())
        }
    }
}

fn put_entry(out: &mut Vec<u8>, entry: &Entry) -> Result<(), AllocError>
    requires lengths { EntryHasLengths entry.now }
    ensures { OnOk result (out.new.items ≡ out.old.items ++ spell_entry entry.now) }
{
    out.extend_from_slice(&entry.granule.to_be_bytes())?;
    put_list(out, &entry.shown)?;
    put_second(out, &entry.original)
}

fn put_entries(out: &mut Vec<u8>, entries: &[Entry]) -> Result<(), AllocError>
    requires few { length entries.now < 2 ^ 32 }
    requires lengths { All EntryHasLengths entries.now }
    ensures { OnOk result (out.new.items ≡ out.old.items ++ spell_entries entries.now) }
{
    out.extend_from_slice(&(entries.len() as u32).to_be_bytes())?;
    for entry in entries {
        put_entry(out, entry)?;
    }
    Ok(())
}

/// The spelling of an evidence file.
pub(crate) fn spell(alloc: Global, evidence: &Evidence) -> Result<Vec<u8>, AllocError>
    requires eras { length evidence.now.eras < 2 ^ 32 }
    requires few { length evidence.now.entries < 2 ^ 32 }
    requires lengths { All EntryHasLengths evidence.now.entries }
    ensures value { IfOk result (λ v. v.items ≡ spell_evidence evidence.now) }
{
    let mut out = Vec::new(alloc);
    out.extend_from_slice(&TEXT)?;
    out.extend_from_slice(&header_fields(&evidence.header))?;
    put_eras(&mut out, evidence.eras.as_slice())?;
    put_entries(&mut out, evidence.entries.as_slice())?;
    Ok(out)
}
