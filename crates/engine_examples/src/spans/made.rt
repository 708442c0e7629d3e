//! Lines carried out on tables in memory, and the answers over spans as text.

use sequenced_query::{LentPieces, OverFail, over_join, over_select};
use std::alloc::Global;
use std::test::Fail;
use stmt_text::{Line, Stmt, parse_line, print_row};
use tt_table::{Tables, Write};
use tuple_bytes::Ops;

fn statement(alloc: Global, line: &str) -> Result<Stmt, Fail> {
    match parse_line(alloc, line.as_bytes()) {
        Ok(Line::Plain { stmt }) => Ok(stmt),
        _ => Err(Fail::from("no statement")),
    }
}

fn change(alloc: Global, tables: &mut Tables, moment: u64, write: Write) -> Result<(), Fail> {
    if moment < tables.last() {
        return Err(Fail::from("a moment that fell"));
    }
    let mut ops = Ops::new(alloc);
    let op = tables
        .prepare(&ops, write)
        .ok()
        .ok_or("a change that is refused")?;
    ops.push(op)?;
    tables.apply(alloc, moment, &ops)?;
    Ok(())
}

fn add_pieces(alloc: Global, told: &mut String, pieces: &LentPieces<'_>) -> Result<(), Fail> {
    for piece in pieces.copy(alloc)?.as_slice() {
        let (start, stop) = (piece.start, piece.stop);
        told.push_str(format!(in alloc; "during {start} {stop} ")?.as_str())?;
        for byte in print_row(alloc, &piece.row)?.as_slice() {
            told.push(char::from(*byte))?;
        }
        told.push_str("\n")?;
    }
    let count = pieces.len();
    told.push_str(format!(in alloc; "pieces {count}\n")?.as_str())?;
    Ok(())
}

fn add_answer(
    alloc: Global,
    told: &mut String,
    answer: Result<LentPieces<'_>, OverFail>,
) -> Result<(), Fail> {
    match answer {
        Ok(pieces) => add_pieces(alloc, told, &pieces),
        Err(fail) => Ok(told.push_str(format!(in alloc; "{fail:?}\n")?.as_str())?),
    }
}

/// What the questions among the lines are answered.
pub(super) fn told(alloc: Global, lines: &[&str]) -> Result<String, Fail> {
    let mut tables = Tables::new(alloc);
    let mut now = 0;
    let mut told = String::new(alloc);
    for line in lines {
        match statement(alloc, line)? {
            Stmt::Now { moment } => now = now.max(moment),
            Stmt::Create { table, columns } => {
                change(alloc, &mut tables, now, Write::Create { table, columns })?
            }
            Stmt::Insert { table, row } => {
                change(alloc, &mut tables, now, Write::Insert { table, row })?
            }
            Stmt::Update { table, row } => {
                change(alloc, &mut tables, now, Write::Update { table, row })?
            }
            Stmt::Delete { table, key } => {
                change(alloc, &mut tables, now, Write::Delete { table, key })?
            }
            Stmt::OverSelect {
                from,
                to,
                table,
                filter,
            } => {
                let answer = over_select(alloc, &tables, &table, filter.as_ref(), from, to);
                add_answer(alloc, &mut told, answer)?;
            }
            Stmt::OverJoin {
                from,
                to,
                left,
                right,
                left_column,
                right_column,
            } => {
                let answer = over_join(
                    alloc,
                    &tables,
                    &left,
                    &left_column,
                    &right,
                    &right_column,
                    from,
                    to,
                );
                add_answer(alloc, &mut told, answer)?;
            }
            _ => return Err(Fail::from("another statement")),
        }
    }
    Ok(told)
}
