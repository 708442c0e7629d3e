//! The texts of refusals.

ghost use Rattle.std.specs.Prelude.{◌≡◌, ◌++◌, OnOk};
ghost use Rattle.store_engine.specs.Texts.{refusal_text};

use crate::fail::StoreFail;
use byte_grammar::put_numbered;
use std::alloc::{AllocError, Global};

/// Adds the name of a refusal, and its detail. Statements and audits refuse by the same texts.
#[tactic(auto, unfolding(crate::specs::Texts::refusal_text))]
pub fn put_refusal(alloc: Global, out: &mut Vec<u8>, fail: StoreFail) -> Result<(), AllocError>
    ensures ok { OnOk result (out.new.items ≡ out.old.items ++ refusal_text fail) }
{
    match fail {
        StoreFail::NotAStore => out.extend_from_slice(b"NotAStore")?,
        StoreFail::OldFormat => out.extend_from_slice(b"OldFormat")?,
        StoreFail::ClockBack { last } => put_numbered(alloc, out, b"ClockBack ", last)?,
        StoreFail::TooLate => out.extend_from_slice(b"TooLate")?,
        StoreFail::TooManyOps => out.extend_from_slice(b"TooManyOps")?,
        StoreFail::TooLong => out.extend_from_slice(b"TooLong")?,
        StoreFail::StoreFull => out.extend_from_slice(b"StoreFull")?,
        StoreFail::DiskFault => out.extend_from_slice(b"DiskFault")?,
        StoreFail::Closed => out.extend_from_slice(b"Closed")?,
        StoreFail::NoMemory => out.extend_from_slice(b"NoMemory")?,
    }
    Ok(())
}
