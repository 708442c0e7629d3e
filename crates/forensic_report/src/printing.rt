//! The texts of refusals.

ghost use Rattle.std.specs.Prelude.{◌≡◌, ◌++◌, OnOk};
ghost use Rattle.audit_model.specs.Names.{node_name};
ghost use Rattle.forensic_report.specs.Fails.{refusal_text};

use crate::fail::AnalyseFail;
use notary_link::{Name, put_name};
use std::alloc::{AllocError, Global};
use validator::{AuditFail, put_refusal as put_audit_refusal};

/// The name of a node: those of the first era have names of their own.
fn node_name(era: u32, level: u8, index: u32) -> Name
    ensures value { result ≡ node_name era level index }
{
    match era {
        0 => Name::Node { level, index },
        _ => Name::EraNode { era, level, index },
    }
}

/// Adds the name of a refusal, and its detail. An audit's refusal of the same name has the same text.
#[tactic(auto, unfolding(crate::specs::Fails::refusal_text))]
pub fn put_refusal(alloc: Global, out: &mut Vec<u8>, fail: AnalyseFail) -> Result<(), AllocError>
    ensures ok { OnOk result (out.new.items ≡ out.old.items ++ refusal_text fail) }
{
    match fail {
        AnalyseFail::DiskFault => put_audit_refusal(alloc, out, AuditFail::DiskFault)?,
        AnalyseFail::NotaryFault => put_audit_refusal(alloc, out, AuditFail::NotaryFault)?,
        AnalyseFail::SealMissing { name } => {
            put_audit_refusal(alloc, out, AuditFail::SealMissing { name })?;
        }
        AnalyseFail::NoEra => out.extend_from_slice(b"NoEra")?,
        AnalyseFail::NotSealedSo => out.extend_from_slice(b"NotSealedSo")?,
        AnalyseFail::NotaryInconsistent { era, level, index } => {
            out.extend_from_slice(b"NotaryInconsistent ")?;
            put_name(alloc, out, node_name(era, level, index))?;
        }
        AnalyseFail::NoMemory => put_audit_refusal(alloc, out, AuditFail::NoMemory)?,
    }
    Ok(())
}
