//! What is found, one after another.

ghost use Rattle.std.specs.Prelude.{◌≡◌, ◌++◌, OnOk};
ghost use Rattle.file_findings.specs.Along.{listed};
ghost use Rattle.file_findings.specs.Placed.{placed};

use crate::finding::{Device, Finding, Found};
use std::alloc::AllocError;

/// What is made, unless there is no memory for it.
pub type Made<T> = Result<T, AllocError>;

/// One more, where it is so.
pub fn note<T: Drop>(found: &mut Vec<T>, so: bool, it: T) -> Made<()>
    ensures value { OnOk result (found.new.items ≡ found.old.items ++ listed so it) }
{
    if so {
        found.push(it)?;
    }
    Ok(())
}

/// All of these more.
pub fn note_all(found: &mut Vec<Finding>, more: &[Finding]) -> Made<()>
    ensures value { OnOk result (found.new.items ≡ found.old.items ++ more.now) }
{
    for finding in more {
        found.push(*finding)?;
    }
    Ok(())
}

/// All of these more, of one place.
pub fn place_all(found: &mut Vec<Found>, device: Device, more: &[Finding]) -> Made<()>
    ensures value { OnOk result (found.new.items ≡ found.old.items ++ placed device more.now) }
{
    for finding in more {
        found.push(Found {
            device,
            finding: *finding,
        })?;
    }
    Ok(())
}
