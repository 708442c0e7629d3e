//! Parts of a line. A function `.._of` reads what a token, or all that is left, says; a function `.._at` reads what
//! stands at the front, and hands back the bytes after it.

ghost use Rattle.std.specs.Prelude.{◌≤◌, IfOk};
ghost use Rattle.byte_grammar.specs.Reading.{Gives};
ghost use Rattle.stmt_text.specs.Tokens.{tokens};
ghost use Rattle.stmt_text.specs.Numbers.{plain_number};
ghost use Rattle.stmt_text.specs.Words.{algs};
ghost use Rattle.stmt_text.specs.Parts.{moment, kappa, era, value_in, name, front, ended, only, behind_word, two_names, as_of, of_era};
ghost use Rattle.stmt_text.specs.Reading.{Read};

use crate::error::ReadFail;
use crate::number::{Numbers, number_of, plain_number_of};
use crate::token::next_token;
use crate::value_reading::value_of;
use crate::word::{algs_of, spells};
use std::alloc::Global;
use tuple_bytes::{MAX_MOMENT, Value, Word};

/// The number of a moment.
#[tactic(auto, unfolding(crate::specs::Parts::moment))]
fn moment_of(numbers: Numbers, token: &[u8]) -> Option<u64>
    ensures value { Gives (λ m. m) result (moment numbers token.now) }
{
    let (number, fits) = number_of(token, MAX_MOMENT)?;
    match numbers {
        Numbers::InRange if !fits => None,
        _ => Some(number),
    }
}

#[tactic(auto, unfolding(crate::specs::Parts::kappa))]
fn kappa_of(numbers: Numbers, token: &[u8]) -> Option<u32>
    ensures value { Gives (λ m. m) result (kappa numbers token.now) }
{
    let (number, fits) = number_of(token, 1024)?;
    match numbers {
        Numbers::InRange if !fits || number == 0 => None,
        _ => Some(number as u32),
    }
}

#[tactic(auto, unfolding(crate::specs::Parts::era))]
fn era_of(numbers: Numbers, token: &[u8]) -> Option<u32>
    ensures value { Gives (λ m. m) result (era numbers token.now) }
{
    let (number, fits) = number_of(token, 4_294_967_295)?;
    match numbers {
        Numbers::InRange if !fits => None,
        _ => Some(number as u32),
    }
}

/// The value that a token says.
#[tactic(auto, unfolding(crate::specs::Parts::value_in))]
pub fn value_of_token(alloc: Global, numbers: Numbers, token: &[u8]) -> Result<Value, ReadFail>
    ensures value { Read (λ v. v) result (value_in numbers token.now) }
{
    match value_of(alloc, token)? {
        Some((value, fits)) => match numbers {
            Numbers::InRange if !fits => Err(ReadFail::Missing),
            _ => Ok(value),
        },
        None => Err(ReadFail::Missing),
    }
}

/// The name that a token is.
#[tactic(auto, unfolding(crate::specs::Parts::name))]
pub fn name_of_token(alloc: Global, token: &[u8]) -> Result<Word, ReadFail>
    ensures value { Read (λ w. w) result (name token.now) }
{
    match Word::new(alloc, token)? {
        Some(word) => Ok(word),
        None => Err(ReadFail::Missing),
    }
}

/// No token is left.
pub fn end_of(bytes: &[u8]) -> Result<(), ReadFail>
    ensures value { Read (λ u. u) result (ended (tokens bytes.now)) }
{
    match next_token(bytes) {
        None => Ok(()),
        Some(_) => Err(ReadFail::Missing),
    }
}

/// The name at the front.
#[tactic(auto, unfolding(crate::specs::Parts::front))]
pub fn name_at(alloc: Global, bytes: &[u8]) -> Result<(Word, &[u8]), ReadFail>
    ensures value { Read (λ x. (x.0, tokens x.1.now)) result (front name (tokens bytes.now)) }
{
    match next_token(bytes) {
        Some((token, rest)) => Ok((name_of_token(alloc, token)?, rest)),
        None => Err(ReadFail::Missing),
    }
}

/// The value at the front.
#[tactic(auto, unfolding(crate::specs::Parts::front))]
pub fn value_at(alloc: Global, numbers: Numbers, bytes: &[u8]) -> Result<(Value, &[u8]), ReadFail>
    ensures value { Read (λ x. (x.0, tokens x.1.now)) result (front (value_in numbers) (tokens bytes.now)) }
{
    match next_token(bytes) {
        Some((token, rest)) => Ok((value_of_token(alloc, numbers, token)?, rest)),
        None => Err(ReadFail::Missing),
    }
}

/// A moment, and no more.
#[tactic(auto, unfolding(crate::specs::Parts::only, crate::specs::Parts::front))]
pub fn only_moment(numbers: Numbers, bytes: &[u8]) -> Option<u64>
    ensures value { Gives (λ m. m) result (only (moment numbers) (tokens bytes.now)) }
{
    let (token, rest) = next_token(bytes)?;
    let moment = moment_of(numbers, token)?;
    match next_token(rest) {
        None => Some(moment),
        Some(_) => None,
    }
}

/// The number of an era, and no more.
#[tactic(auto, unfolding(crate::specs::Parts::only, crate::specs::Parts::front))]
fn only_era(numbers: Numbers, bytes: &[u8]) -> Option<u32>
    ensures value { Gives (λ m. m) result (only (era numbers) (tokens bytes.now)) }
{
    let (token, rest) = next_token(bytes)?;
    let era = era_of(numbers, token)?;
    match next_token(rest) {
        None => Some(era),
        Some(_) => None,
    }
}

/// The moment at the front.
#[tactic(auto, unfolding(crate::specs::Parts::front))]
pub fn moment_at(numbers: Numbers, bytes: &[u8]) -> Result<(u64, &[u8]), ReadFail>
    ensures value { Read (λ x. (x.0, tokens x.1.now)) result (front (moment numbers) (tokens bytes.now)) }
{
    match next_token(bytes) {
        Some((token, rest)) => match moment_of(numbers, token) {
            Some(moment) => Ok((moment, rest)),
            None => Err(ReadFail::Missing),
        },
        None => Err(ReadFail::Missing),
    }
}

/// How many granules the token at the front names.
#[tactic(auto, unfolding(crate::specs::Parts::front))]
pub fn kappa_at(numbers: Numbers, bytes: &[u8]) -> Result<(u32, &[u8]), ReadFail>
    ensures value { Read (λ x. (x.0, tokens x.1.now)) result (front (kappa numbers) (tokens bytes.now)) }
{
    match next_token(bytes) {
        Some((token, rest)) => match kappa_of(numbers, token) {
            Some(kappa) => Ok((kappa, rest)),
            None => Err(ReadFail::Missing),
        },
        None => Err(ReadFail::Missing),
    }
}

/// The number at the front, in its range and without zeros at its front.
#[tactic(auto, unfolding(crate::specs::Parts::front))]
pub fn plain_number_at(bytes: &[u8], least: u64, greatest: u64) -> Result<(u64, &[u8]), ReadFail>
    ensures value { Read (λ x. (x.0, tokens x.1.now)) result (front (plain_number least greatest) (tokens bytes.now)) }
    ensures greatest { IfOk result (λ x. x.0 ≤ greatest) }
{
    match next_token(bytes) {
        Some((token, rest)) => match plain_number_of(token, least, greatest) {
            Some(number) => Ok((number, rest)),
            None => Err(ReadFail::Missing),
        },
        None => Err(ReadFail::Missing),
    }
}

/// The chains that the token at the front names.
#[tactic(auto, unfolding(crate::specs::Parts::front))]
pub fn algs_at(bytes: &[u8]) -> Result<(u8, &[u8]), ReadFail>
    ensures value { Read (λ x. (x.0, tokens x.1.now)) result (front algs (tokens bytes.now)) }
{
    match next_token(bytes) {
        Some((token, rest)) => match algs_of(token) {
            Some(algs) => Ok((algs, rest)),
            None => Err(ReadFail::Missing),
        },
        None => Err(ReadFail::Missing),
    }
}

/// What stands behind this word.
#[tactic(auto, unfolding(crate::specs::Parts::behind_word))]
pub fn behind_word_at<'a>(bytes: &'a [u8], word: &[u8]) -> Result<&'a [u8], ReadFail>
    ensures value { Read (λ x. tokens x.now) result (behind_word word.now (tokens bytes.now)) }
{
    match next_token(bytes) {
        Some((token, rest)) if spells(token, word) => Ok(rest),
        _ => Err(ReadFail::Missing),
    }
}

/// The two names at the front.
#[tactic(auto, unfolding(crate::specs::Parts::two_names))]
pub fn two_names_at(alloc: Global, bytes: &[u8]) -> Result<((Word, Word), &[u8]), ReadFail>
    ensures value { Read (λ x. (x.0, tokens x.1.now)) result (two_names (tokens bytes.now)) }
{
    let (one, rest) = name_at(alloc, bytes)?;
    let (two, rest) = name_at(alloc, rest)?;
    Ok(((one, two), rest))
}

/// Nothing, or `as of` and a moment.
#[tactic(auto, unfolding(crate::specs::Parts::as_of, crate::specs::Parts::after_word))]
pub fn as_of_at(numbers: Numbers, bytes: &[u8]) -> Option<Option<u64>>
    ensures value { Gives (λ m. m) result (as_of numbers (tokens bytes.now)) }
{
    let Some((token, rest)) = next_token(bytes) else {
        return Some(None);
    };
    if !spells(token, b"as") {
        return None;
    }
    let (token, rest) = next_token(rest)?;
    if !spells(token, b"of") {
        return None;
    }
    let moment = only_moment(numbers, rest)?;
    Some(Some(moment))
}

/// Nothing, or `era` and its number.
#[tactic(auto, unfolding(crate::specs::Parts::of_era, crate::specs::Parts::after_word))]
pub fn of_era_at(numbers: Numbers, bytes: &[u8]) -> Option<Option<u32>>
    ensures value { Gives (λ e. e) result (of_era numbers (tokens bytes.now)) }
{
    let Some((token, rest)) = next_token(bytes) else {
        return Some(None);
    };
    if !spells(token, b"era") {
        return None;
    }
    let era = only_era(numbers, rest)?;
    Some(Some(era))
}
