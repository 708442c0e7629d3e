//! What is replied.

ghost use Rattle.std.specs.Prelude.{◌≡◌, ◌++◌, codes, IfOk};
ghost use Rattle.std.specs.Fmt.{decimal};
ghost use Rattle.store_world.specs.Answers.{said, refusal};
ghost use Rattle.timeline_model.specs.Timeline.{name_of};

use std::alloc::{AllocError, Global};
use stmt_text::ParseFail;
use store_world::Answered;
use tuple_bytes::Blob;

/// These words, on a line of their own.
pub(crate) fn say(alloc: Global, words: &[u8]) -> Result<Answered, AllocError>
    ensures value { IfOk result (λ answered. answered ≡ said words.now) }
{
    let mut text = words.to_vec(alloc)?;
    text.push(b'\n')?;
    Ok(Answered {
        refused: false,
        text: Blob::from_vec(text),
    })
}

/// A refusal of this name.
pub(crate) fn refuse(alloc: Global, name: &[u8]) -> Result<Answered, AllocError>
    ensures value { IfOk result (λ answered. answered ≡ refusal name.now) }
{
    let mut text = b"refused ".to_vec(alloc)?;
    text.extend_from_slice(name)?;
    text.push(b'\n')?;
    Ok(Answered {
        refused: true,
        text: Blob::from_vec(text),
    })
}

/// A store of this id was made.
pub(crate) fn say_ready(alloc: Global, id: u64) -> Result<Answered, AllocError>
    ensures value { IfOk result (λ answered. answered ≡ said (codes "ready " ++ decimal id)) }
{
    let digits = format!(in alloc; "{id}")?;
    let mut words = b"ready ".to_vec(alloc)?;
    words.extend_from_slice(digits.as_bytes())?;
    say(alloc, words.as_slice())
}

/// What was read is no line.
pub(crate) fn refuse_reading(alloc: Global, fail: &ParseFail) -> Result<Answered, AllocError>
    ensures value { IfOk result (λ answered. answered ≡ refusal (name_of fail.now)) }
{
    match fail {
        ParseFail::Syntax => refuse(alloc, b"Syntax"),
        ParseFail::NumberTooWide => refuse(alloc, b"NumberTooWide"),
        ParseFail::NoMemory => refuse(alloc, b"NoMemory"),
    }
}
