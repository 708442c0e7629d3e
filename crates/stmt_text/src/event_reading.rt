//! Reading drill lines, each from what stands behind its first word. Their numbers are spelled in one way alone.

ghost use Rattle.stmt_text.specs.Tokens.{tokens};
ghost use Rattle.stmt_text.specs.Parts.{front};
ghost use Rattle.stmt_text.specs.Reading.{Read};
ghost use Rattle.stmt_text.specs.Events.{altering, init, crash, alter, cut, event_by};

use crate::error::ReadFail;
use crate::event::Event;
use crate::part::{algs_at, end_of, plain_number_at};
use crate::token::next_token;
use crate::value_reading::decoded;
use crate::word::Keyword;
use std::alloc::Global;
use tuple_bytes::Blob;

#[tactic(auto, unfolding(crate::specs::Events::altering))]
fn altering_of(alloc: Global, token: &[u8]) -> Result<Blob, ReadFail>
    ensures value { Read (λ b. b) result (altering token.now) }
{
    match decoded(alloc, token)? {
        Some(bytes) => {
            let count = bytes.as_slice().len();
            if count < 1 || count > 256 {
                return Err(ReadFail::Missing);
            }
            Ok(bytes)
        }
        None => Err(ReadFail::Missing),
    }
}

#[tactic(auto, unfolding(crate::specs::Parts::front))]
fn altering_at(alloc: Global, bytes: &[u8]) -> Result<(Blob, &[u8]), ReadFail>
    ensures value { Read (λ x. (x.0, tokens x.1.now)) result (front altering (tokens bytes.now)) }
{
    match next_token(bytes) {
        Some((token, rest)) => Ok((altering_of(alloc, token)?, rest)),
        None => Err(ReadFail::Missing),
    }
}

#[tactic(auto, unfolding(crate::specs::Events::init))]
fn init_of(bytes: &[u8]) -> Result<Event, ReadFail>
    ensures value { Read (λ e. e) result (init (tokens bytes.now)) }
{
    let (id, rest) = plain_number_at(bytes, 0, u64::MAX)?;
    let (width, rest) = plain_number_at(rest, 1, 86_400)?;
    let (k, rest) = plain_number_at(rest, 0, 10)?;
    let (algs, rest) = algs_at(rest)?;
    end_of(rest)?;
    Ok(Event::Init {
        id,
        width: width as u32,
        k: k as u8,
        algs,
    })
}

#[tactic(auto, unfolding(crate::specs::Events::crash))]
fn crash_of(bytes: &[u8]) -> Result<Event, ReadFail>
    ensures value { Read (λ e. e) result (crash (tokens bytes.now)) }
{
    let (after, rest) = plain_number_at(bytes, 0, 1_000_000)?;
    let (choice, rest) = plain_number_at(rest, 0, u64::MAX)?;
    end_of(rest)?;
    Ok(Event::Crash {
        after: after as u32,
        choice,
    })
}

#[tactic(auto, unfolding(crate::specs::Events::alter))]
fn alter_of(alloc: Global, bytes: &[u8]) -> Result<Event, ReadFail>
    ensures value { Read (λ e. e) result (alter (tokens bytes.now)) }
{
    let (place, rest) = plain_number_at(bytes, 0, u64::MAX)?;
    let (bytes, rest) = altering_at(alloc, rest)?;
    end_of(rest)?;
    Ok(Event::Alter { place, bytes })
}

#[tactic(auto, unfolding(crate::specs::Events::cut))]
fn cut_of(bytes: &[u8]) -> Result<Event, ReadFail>
    ensures value { Read (λ e. e) result (cut (tokens bytes.now)) }
{
    let (length, rest) = plain_number_at(bytes, 0, u64::MAX)?;
    end_of(rest)?;
    Ok(Event::Cut { length })
}

/// What a drill line brings about, from its first word and what stands behind it.
#[tactic(auto, unfolding(crate::specs::Events::event_by))]
pub fn event_of(alloc: Global, keyword: Keyword, bytes: &[u8]) -> Result<Event, ReadFail>
    ensures value { Read (λ e. e) result (event_by keyword (tokens bytes.now)) }
{
    match keyword {
        Keyword::Init => init_of(bytes),
        Keyword::Crash => crash_of(bytes),
        Keyword::Alter => alter_of(alloc, bytes),
        Keyword::Cut => cut_of(bytes),
        _ => Err(ReadFail::Missing),
    }
}
