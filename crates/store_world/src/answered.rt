//! What a line is answered.

ghost use Rattle.std.specs.Prelude.{◌≡◌, ◌++◌, ◌∷◌, [], IfOk};
ghost use Rattle.byte_grammar.specs.Numbered.{numbered};
ghost use Rattle.validator.specs.Texts.{verdict_text, turned_text, refusal_text};
ghost use Rattle.forensic_report.specs.Fails as reports;
ghost use Rattle.store_world.specs.Answers.{said, refusal, reported, audit_text};
ghost use Rattle.store_world.specs.Steps.{why_none, sealed_text};

use audit_steps::Audit;
use forensic_report::{AnalyseFail, Report};
use std::alloc::{AllocError, Global};
use tuple_bytes::Blob;
use validator::{AuditFail, Turned, Verdict, put_refusal, put_turned, put_verdict};

/// The text of a reply, and whether it is a refusal.
#[derive(Debug, Drop)]
pub struct Answered {
    pub refused: bool,
    pub text: Blob,
}

/// These words, on a line of their own.
fn line_of(words: Vec<u8>) -> Result<Blob, AllocError>
    ensures value { IfOk result (λ text. text ≡ words.items ++ 10 ∷ []) }
{
    let mut words = words;
    words.push(b'\n')?;
    Ok(Blob::from_vec(words))
}

/// Words with a number behind them.
fn counted(alloc: Global, head: &[u8], count: u32) -> Result<Answered, AllocError>
    ensures value { IfOk result (λ answered. answered ≡ said (numbered head.now count)) }
{
    let digits = format!(in alloc; "{count}")?;
    let mut words = head.to_vec(alloc)?;
    words.extend_from_slice(digits.as_bytes())?;
    Ok(Answered {
        refused: false,
        text: line_of(words)?,
    })
}

/// How many tiles are sealed.
pub(crate) fn sealed(alloc: Global, tiles: u32) -> Result<Answered, AllocError>
    ensures value { IfOk result (λ answered. answered ≡ said (sealed_text tiles)) }
{
    counted(alloc, b"sealed ", tiles)
}

/// Which era begins, and from which tile on.
pub(crate) fn turned(alloc: Global, turned: Turned) -> Result<Answered, AllocError>
    ensures value { IfOk result (λ answered. answered ≡ said (turned_text turned)) }
{
    let mut words = Vec::new(alloc);
    put_turned(alloc, &mut words, turned)?;
    Ok(Answered {
        refused: false,
        text: line_of(words)?,
    })
}

/// What a validation found.
pub(crate) fn found(alloc: Global, verdict: Verdict) -> Result<Answered, AllocError>
    ensures value { IfOk result (λ answered. answered ≡ said (verdict_text verdict)) }
{
    let mut words = Vec::new(alloc);
    put_verdict(alloc, &mut words, verdict)?;
    Ok(Answered {
        refused: false,
        text: line_of(words)?,
    })
}

/// What a piece of an audit came to.
pub(crate) fn piece_told(alloc: Global, audit: Audit) -> Result<Answered, AllocError>
    ensures value { IfOk result (λ answered. answered ≡ said (audit_text audit)) }
{
    match audit {
        Audit::Going { read } => counted(alloc, b"auditing ", read),
        Audit::Found { verdict } => found(alloc, verdict),
    }
}

/// Why nothing was done.
pub(crate) fn refused(alloc: Global, fail: AuditFail) -> Result<Answered, AllocError>
    ensures value { IfOk result (λ answered. answered ≡ refusal (refusal_text fail)) }
{
    let mut words = b"refused ".to_vec(alloc)?;
    put_refusal(alloc, &mut words, fail)?;
    Ok(Answered {
        refused: true,
        text: line_of(words)?,
    })
}

/// What an analysis reports.
pub(crate) fn reported(report: Report) -> Answered
    ensures value { result ≡ reported report }
{
    Answered {
        refused: false,
        text: report.text,
    }
}

/// Why there is no report.
pub(crate) fn not_reported(alloc: Global, fail: AnalyseFail) -> Result<Answered, AllocError>
    ensures value { IfOk result (λ answered. answered ≡ refusal (reports.refusal_text fail)) }
{
    let mut words = b"refused ".to_vec(alloc)?;
    forensic_report::put_refusal(alloc, &mut words, fail)?;
    Ok(Answered {
        refused: true,
        text: line_of(words)?,
    })
}

/// There is no store that lines go over: none at all, or one of the first format.
pub(crate) fn no_open_store(alloc: Global, is_old: bool) -> Result<Answered, AllocError>
    ensures value { IfOk result (λ answered. answered ≡ refusal (why_none is_old)) }
{
    let words = if is_old {
        b"refused OldFormat".to_vec(alloc)?
    } else {
        b"refused NotAStore".to_vec(alloc)?
    };
    Ok(Answered {
        refused: true,
        text: line_of(words)?,
    })
}
