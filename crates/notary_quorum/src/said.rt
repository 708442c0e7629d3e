//! What a notary says in a call, of whatever kind.

ghost use Rattle.std.specs.Prelude.{◌≡◌};
ghost use Rattle.notary_quorum.specs.Sayings.{said_fail, said_count, said_answer, said_moment, said_mark, said_done, fail_said, count_said, answer_said, moment_said, mark_said, done_said, same_said};

use notary_link::{Answer, Mark, NotaryFail};

/// An answer of a notary: that of a call that was done, or a refusal.
#[derive(Clone, Copy, Debug, PartialEq, Eq)]
pub enum Said {
    Count(u32),
    Asked(Answer),
    Moment(Option<u64>),
    MarkAt(Option<Mark>),
    /// A batch or a mark was added.
    Done,
    OutOfTurn(u32),
    Full,
    Failed,
    NoMemory,
}

/// Two answers to one call that differ.
#[derive(Clone, Copy, Debug, PartialEq, Eq)]
pub struct Split {
    pub first: Said,
    pub other: Said,
}

pub(crate) fn is_same(a: Said, b: Said) -> bool
    ensures value { result ≡ same_said a b }
{
    a == b
}

fn of_fail(fail: NotaryFail) -> Said
    ensures value { result ≡ said_fail fail }
{
    match fail {
        NotaryFail::Failed => Said::Failed,
        NotaryFail::OutOfTurn { count } => Said::OutOfTurn(count),
        NotaryFail::Full => Said::Full,
        NotaryFail::NoMemory => Said::NoMemory,
    }
}

pub fn of_count(answer: Result<u32, NotaryFail>) -> Said
    ensures value { result ≡ said_count answer }
{
    match answer {
        Ok(count) => Said::Count(count),
        Err(fail) => of_fail(fail),
    }
}

pub fn of_answer(answer: Result<Answer, NotaryFail>) -> Said
    ensures value { result ≡ said_answer answer }
{
    match answer {
        Ok(answer) => Said::Asked(answer),
        Err(fail) => of_fail(fail),
    }
}

pub fn of_moment(answer: Result<Option<u64>, NotaryFail>) -> Said
    ensures value { result ≡ said_moment answer }
{
    match answer {
        Ok(moment) => Said::Moment(moment),
        Err(fail) => of_fail(fail),
    }
}

pub fn of_mark(answer: Result<Option<Mark>, NotaryFail>) -> Said
    ensures value { result ≡ said_mark answer }
{
    match answer {
        Ok(mark) => Said::MarkAt(mark),
        Err(fail) => of_fail(fail),
    }
}

pub fn of_done(answer: Result<(), NotaryFail>) -> Said
    ensures value { result ≡ said_done answer }
{
    match answer {
        Ok(()) => Said::Done,
        Err(fail) => of_fail(fail),
    }
}

fn to_fail(said: Said) -> NotaryFail
    ensures value { result ≡ fail_said said }
{
    match said {
        Said::OutOfTurn(count) => NotaryFail::OutOfTurn { count },
        Said::Full => NotaryFail::Full,
        Said::NoMemory => NotaryFail::NoMemory,
        _ => NotaryFail::Failed,
    }
}

pub(crate) fn to_count(said: Said) -> Result<u32, NotaryFail>
    ensures value { result ≡ count_said said }
{
    match said {
        Said::Count(count) => Ok(count),
        _ => Err(to_fail(said)),
    }
}

pub(crate) fn to_answer(said: Said) -> Result<Answer, NotaryFail>
    ensures value { result ≡ answer_said said }
{
    match said {
        Said::Asked(answer) => Ok(answer),
        _ => Err(to_fail(said)),
    }
}

pub(crate) fn to_moment(said: Said) -> Result<Option<u64>, NotaryFail>
    ensures value { result ≡ moment_said said }
{
    match said {
        Said::Moment(moment) => Ok(moment),
        _ => Err(to_fail(said)),
    }
}

pub(crate) fn to_mark(said: Said) -> Result<Option<Mark>, NotaryFail>
    ensures value { result ≡ mark_said said }
{
    match said {
        Said::MarkAt(mark) => Ok(mark),
        _ => Err(to_fail(said)),
    }
}

pub(crate) fn to_done(said: Said) -> Result<(), NotaryFail>
    ensures value { result ≡ done_said said }
{
    match said {
        Said::Done => Ok(()),
        _ => Err(to_fail(said)),
    }
}
