//! Reading statements, each from what stands behind its first word.

ghost use Rattle.std.specs.Prelude.{option_map};
ghost use Rattle.stmt_text.specs.Options.{or_else};
ghost use Rattle.stmt_text.specs.Tokens.{tokens};
ghost use Rattle.stmt_text.specs.Words.{compare, algorithm_word};
ghost use Rattle.stmt_text.specs.Parts.{front, only, moment};
ghost use Rattle.stmt_text.specs.Reading.{Read};
ghost use Rattle.stmt_text.specs.Statements.{create, insert, update, delete, get, history, filter_at, filtered, scan, span, only_filter, over_select, over_join, over_by, over, alone, policy, in_era, exactly, analyse_by, analyse, stmt_by};

use crate::error::ReadFail;
use crate::number::Numbers;
use crate::part::{
    algs_at, as_of_at, behind_word_at, end_of, kappa_at, moment_at, name_at, of_era_at,
    only_moment, plain_number_at, two_names_at, value_at,
};
use crate::row_reading::{columns_at, row_at};
use crate::stmt::{LineAlgorithm, Stmt};
use crate::token::next_token;
use crate::word::{Keyword, algorithm_word_of, compare_of, spells};
use std::alloc::Global;
use tuple_bytes::{Compare, Filter, Word};

#[tactic(auto, unfolding(crate::specs::Statements::create))]
fn create_of(alloc: Global, bytes: &[u8]) -> Result<Stmt, ReadFail>
    ensures value { Read (λ s. s) result (create (tokens bytes.now)) }
{
    let (table, rest) = name_at(alloc, bytes)?;
    let columns = columns_at(alloc, rest)?;
    Ok(Stmt::Create { table, columns })
}

#[tactic(auto, unfolding(crate::specs::Statements::insert))]
fn insert_of(alloc: Global, numbers: Numbers, bytes: &[u8]) -> Result<Stmt, ReadFail>
    ensures value { Read (λ s. s) result (insert numbers (tokens bytes.now)) }
{
    let (table, rest) = name_at(alloc, bytes)?;
    let row = row_at(alloc, numbers, rest)?;
    Ok(Stmt::Insert { table, row })
}

#[tactic(auto, unfolding(crate::specs::Statements::update))]
fn update_of(alloc: Global, numbers: Numbers, bytes: &[u8]) -> Result<Stmt, ReadFail>
    ensures value { Read (λ s. s) result (update numbers (tokens bytes.now)) }
{
    let (table, rest) = name_at(alloc, bytes)?;
    let row = row_at(alloc, numbers, rest)?;
    Ok(Stmt::Update { table, row })
}

#[tactic(auto, unfolding(crate::specs::Statements::delete))]
fn delete_of(alloc: Global, numbers: Numbers, bytes: &[u8]) -> Result<Stmt, ReadFail>
    ensures value { Read (λ s. s) result (delete numbers (tokens bytes.now)) }
{
    let (table, rest) = name_at(alloc, bytes)?;
    let (key, rest) = value_at(alloc, numbers, rest)?;
    end_of(rest)?;
    Ok(Stmt::Delete { table, key })
}

#[tactic(auto, unfolding(crate::specs::Statements::get))]
fn get_of(alloc: Global, numbers: Numbers, bytes: &[u8]) -> Result<Stmt, ReadFail>
    ensures value { Read (λ s. s) result (get numbers (tokens bytes.now)) }
{
    let (table, rest) = name_at(alloc, bytes)?;
    let (key, rest) = value_at(alloc, numbers, rest)?;
    match as_of_at(numbers, rest) {
        Some(moment) => Ok(Stmt::Get { table, key, moment }),
        None => Err(ReadFail::Missing),
    }
}

#[tactic(auto, unfolding(crate::specs::Statements::history))]
fn history_of(alloc: Global, numbers: Numbers, bytes: &[u8]) -> Result<Stmt, ReadFail>
    ensures value { Read (λ s. s) result (history numbers (tokens bytes.now)) }
{
    let (table, rest) = name_at(alloc, bytes)?;
    let (key, rest) = value_at(alloc, numbers, rest)?;
    end_of(rest)?;
    Ok(Stmt::History { table, key })
}

#[tactic(auto, unfolding(crate::specs::Parts::front))]
fn compare_at(bytes: &[u8]) -> Result<(Compare, &[u8]), ReadFail>
    ensures value { Read (λ x. (x.0, tokens x.1.now)) result (front compare (tokens bytes.now)) }
{
    match next_token(bytes) {
        Some((token, rest)) => match compare_of(token) {
            Some(compare) => Ok((compare, rest)),
            None => Err(ReadFail::Missing),
        },
        None => Err(ReadFail::Missing),
    }
}

#[tactic(auto, unfolding(crate::specs::Statements::filter_at))]
fn filter_of(alloc: Global, numbers: Numbers, bytes: &[u8]) -> Result<(Filter, &[u8]), ReadFail>
    ensures value { Read (λ x. (x.0, tokens x.1.now)) result (filter_at numbers (tokens bytes.now)) }
{
    let (column, rest) = name_at(alloc, bytes)?;
    let (compare, rest) = compare_at(rest)?;
    let (value, rest) = value_at(alloc, numbers, rest)?;
    Ok((
        Filter {
            column,
            compare,
            value,
        },
        rest,
    ))
}

#[tactic(auto, unfolding(crate::specs::Statements::filtered))]
fn filtered_of(alloc: Global, numbers: Numbers, table: Word, bytes: &[u8]) -> Result<Stmt, ReadFail>
    ensures value { Read (λ s. s) result (filtered numbers table (tokens bytes.now)) }
{
    let (filter, rest) = filter_of(alloc, numbers, bytes)?;
    match as_of_at(numbers, rest) {
        Some(moment) => Ok(Stmt::Scan {
            table,
            filter: Some(filter),
            moment,
        }),
        None => Err(ReadFail::Missing),
    }
}

#[tactic(auto, unfolding(crate::specs::Statements::scan, crate::specs::Statements::unfiltered))]
fn scan_of(alloc: Global, numbers: Numbers, bytes: &[u8]) -> Result<Stmt, ReadFail>
    ensures value { Read (λ s. s) result (scan numbers (tokens bytes.now)) }
{
    let (table, rest) = name_at(alloc, bytes)?;
    match as_of_at(numbers, rest) {
        Some(moment) => Ok(Stmt::Scan {
            table,
            filter: None,
            moment,
        }),
        None => Ok(filtered_of(alloc, numbers, table, rest)?),
    }
}

/// The span at the front.
#[tactic(auto, unfolding(crate::specs::Statements::span))]
fn span_at(numbers: Numbers, bytes: &[u8]) -> Result<((u64, u64), &[u8]), ReadFail>
    ensures value { Read (λ x. (x.0, tokens x.1.now)) result (span numbers (tokens bytes.now)) }
{
    let (from, rest) = moment_at(numbers, bytes)?;
    let rest = behind_word_at(rest, b"to")?;
    let (to, rest) = moment_at(numbers, rest)?;
    Ok(((from, to), rest))
}

/// Nothing, or a filter and no more.
#[tactic(auto, unfolding(crate::specs::Statements::only_filter))]
fn only_filter_of(alloc: Global, numbers: Numbers, bytes: &[u8]) -> Result<Option<Filter>, ReadFail>
    ensures value { Read (λ f. f) result (only_filter numbers (tokens bytes.now)) }
{
    match next_token(bytes) {
        None => Ok(None),
        Some(_) => {
            let (filter, rest) = filter_of(alloc, numbers, bytes)?;
            end_of(rest)?;
            Ok(Some(filter))
        }
    }
}

#[tactic(auto, unfolding(crate::specs::Statements::over_select))]
fn over_select_of(
    alloc: Global,
    numbers: Numbers,
    moments: (u64, u64),
    bytes: &[u8],
) -> Result<Stmt, ReadFail>
    ensures value { Read (λ s. s) result (over_select numbers moments (tokens bytes.now)) }
{
    let (table, rest) = name_at(alloc, bytes)?;
    let filter = only_filter_of(alloc, numbers, rest)?;
    Ok(Stmt::OverSelect {
        from: moments.0,
        to: moments.1,
        table,
        filter,
    })
}

#[tactic(auto, unfolding(crate::specs::Statements::over_join))]
fn over_join_of(alloc: Global, moments: (u64, u64), bytes: &[u8]) -> Result<Stmt, ReadFail>
    ensures value { Read (λ s. s) result (over_join moments (tokens bytes.now)) }
{
    let ((left, right), rest) = two_names_at(alloc, bytes)?;
    let rest = behind_word_at(rest, b"on")?;
    let ((left_column, right_column), rest) = two_names_at(alloc, rest)?;
    end_of(rest)?;
    Ok(Stmt::OverJoin {
        from: moments.0,
        to: moments.1,
        left,
        right,
        left_column,
        right_column,
    })
}

#[tactic(auto, unfolding(crate::specs::Statements::over_by))]
fn over_by_of(
    alloc: Global,
    numbers: Numbers,
    moments: (u64, u64),
    bytes: &[u8],
) -> Result<Stmt, ReadFail>
    ensures value { Read (λ s. s) result (over_by numbers moments (tokens bytes.now)) }
{
    let Some((token, rest)) = next_token(bytes) else {
        return Err(ReadFail::Missing);
    };
    if spells(token, b"select") {
        over_select_of(alloc, numbers, moments, rest)
    } else if spells(token, b"join") {
        over_join_of(alloc, moments, rest)
    } else {
        Err(ReadFail::Missing)
    }
}

#[tactic(auto, unfolding(crate::specs::Statements::over))]
fn over_of(alloc: Global, numbers: Numbers, bytes: &[u8]) -> Result<Stmt, ReadFail>
    ensures value { Read (λ s. s) result (over numbers (tokens bytes.now)) }
{
    let (moments, rest) = span_at(numbers, bytes)?;
    over_by_of(alloc, numbers, moments, rest)
}

#[tactic(auto, unfolding(crate::specs::Statements::alone))]
fn alone_of(stmt: Stmt, bytes: &[u8]) -> Result<Stmt, ReadFail>
    ensures value { Read (λ s. s) result (alone stmt (tokens bytes.now)) }
{
    end_of(bytes)?;
    Ok(stmt)
}

#[tactic(auto, unfolding(crate::specs::Statements::policy))]
fn policy_of(bytes: &[u8]) -> Result<Stmt, ReadFail>
    ensures value { Read (λ s. s) result (policy (tokens bytes.now)) }
{
    let (k, rest) = plain_number_at(bytes, 0, 10)?;
    let (algs, rest) = algs_at(rest)?;
    end_of(rest)?;
    Ok(Stmt::Policy { k: k as u8, algs })
}

#[tactic(auto, unfolding(crate::specs::Parts::front))]
fn algorithm_word_at(bytes: &[u8]) -> Result<(LineAlgorithm, &[u8]), ReadFail>
    ensures value { Read (λ x. (x.0, tokens x.1.now)) result (front algorithm_word (tokens bytes.now)) }
{
    match next_token(bytes) {
        Some((token, rest)) => match algorithm_word_of(token) {
            Some(algorithm) => Ok((algorithm, rest)),
            None => Err(ReadFail::Missing),
        },
        None => Err(ReadFail::Missing),
    }
}

#[tactic(auto, unfolding(crate::specs::Statements::in_era))]
fn in_era_of(numbers: Numbers, algorithm: LineAlgorithm, bytes: &[u8]) -> Result<Stmt, ReadFail>
    ensures value { Read (λ s. s) result (in_era numbers algorithm (tokens bytes.now)) }
{
    match of_era_at(numbers, bytes) {
        Some(era) => Ok(Stmt::Analyse { algorithm, era }),
        None => Err(ReadFail::Missing),
    }
}

#[tactic(auto, unfolding(crate::specs::Statements::exactly))]
fn exactly_of(numbers: Numbers, bytes: &[u8]) -> Result<Stmt, ReadFail>
    ensures value { Read (λ s. s) result (exactly numbers (tokens bytes.now)) }
{
    let (kappa, rest) = kappa_at(numbers, bytes)?;
    in_era_of(numbers, LineAlgorithm::TiledExactly { kappa }, rest)
}

#[tactic(auto, unfolding(crate::specs::Statements::in_era))]
fn tiled_of(numbers: Numbers, bytes: &[u8]) -> Result<Stmt, ReadFail>
    ensures value { Read (λ s. s) result (or_else (in_era numbers LineAlgorithm.Tiled (tokens bytes.now)) (exactly numbers (tokens bytes.now))) }
{
    match of_era_at(numbers, bytes) {
        Some(era) => Ok(Stmt::Analyse {
            algorithm: LineAlgorithm::Tiled,
            era,
        }),
        None => exactly_of(numbers, bytes),
    }
}

#[tactic(auto, unfolding(crate::specs::Statements::analyse_by))]
fn analyse_by_of(numbers: Numbers, algorithm: LineAlgorithm, bytes: &[u8]) -> Result<Stmt, ReadFail>
    ensures value { Read (λ s. s) result (analyse_by numbers algorithm (tokens bytes.now)) }
{
    match algorithm {
        LineAlgorithm::Mono => alone_of(
            Stmt::Analyse {
                algorithm: LineAlgorithm::Mono,
                era: None,
            },
            bytes,
        ),
        LineAlgorithm::Tiled => tiled_of(numbers, bytes),
        LineAlgorithm::TiledExactly { .. } => Err(ReadFail::Missing),
        LineAlgorithm::A3d => in_era_of(numbers, LineAlgorithm::A3d, bytes),
    }
}

#[tactic(auto, unfolding(crate::specs::Statements::analyse))]
fn analyse_of(numbers: Numbers, bytes: &[u8]) -> Result<Stmt, ReadFail>
    ensures value { Read (λ s. s) result (analyse numbers (tokens bytes.now)) }
{
    let (algorithm, rest) = algorithm_word_at(bytes)?;
    analyse_by_of(numbers, algorithm, rest)
}

fn now_of(numbers: Numbers, bytes: &[u8]) -> Result<Stmt, ReadFail>
    ensures value { Read (λ s. s) result (option_map Stmt.Now (only (moment numbers) (tokens bytes.now))) }
{
    match only_moment(numbers, bytes) {
        Some(moment) => Ok(Stmt::Now { moment }),
        None => Err(ReadFail::Missing),
    }
}

/// A statement, from its first word and what stands behind it.
#[tactic(auto, unfolding(crate::specs::Statements::stmt_by))]
pub fn stmt_of(
    alloc: Global,
    numbers: Numbers,
    keyword: Keyword,
    bytes: &[u8],
) -> Result<Stmt, ReadFail>
    ensures value { Read (λ s. s) result (stmt_by numbers keyword (tokens bytes.now)) }
{
    match keyword {
        Keyword::Create => create_of(alloc, bytes),
        Keyword::Insert => insert_of(alloc, numbers, bytes),
        Keyword::Update => update_of(alloc, numbers, bytes),
        Keyword::Delete => delete_of(alloc, numbers, bytes),
        Keyword::Get => get_of(alloc, numbers, bytes),
        Keyword::Scan => scan_of(alloc, numbers, bytes),
        Keyword::History => history_of(alloc, numbers, bytes),
        Keyword::Over => over_of(alloc, numbers, bytes),
        Keyword::Begin => alone_of(Stmt::Begin, bytes),
        Keyword::Commit => alone_of(Stmt::Commit, bytes),
        Keyword::Abort => alone_of(Stmt::Abort, bytes),
        Keyword::Notarize => alone_of(Stmt::Notarize, bytes),
        Keyword::Validate => alone_of(Stmt::Validate, bytes),
        Keyword::Audit => alone_of(Stmt::Audit, bytes),
        Keyword::Policy => policy_of(bytes),
        Keyword::Analyse => analyse_of(numbers, bytes),
        Keyword::Now => now_of(numbers, bytes),
        Keyword::Init | Keyword::Crash | Keyword::Alter | Keyword::Cut => Err(ReadFail::Missing),
    }
}
