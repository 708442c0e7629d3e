//! What a step of a script does at its key, and the lines of a script.

ghost use Rattle.std.specs.Prelude.{◌≡◌, ◌++◌, OnOk, IfOk};
ghost use Rattle.std.specs.String.{string_bytes};
ghost use Rattle.stmt_text.specs.declared.stmt.Stmt.TheVariants as stmts;
ghost use Rattle.workload_make.specs.Script.{change_of, leaves_present, change_stmt, ended_line};

use std::alloc::{AllocError, Global};

/// What is done at a key.
#[derive(Clone, Copy, Debug)]
pub enum Change {
    Insert,
    Update,
    Delete,
}

/// The change at a key, by whether it is present and by the word of the step.
pub fn change_of(is_present: bool, word: u32) -> Change
    ensures value { result ≡ change_of is_present word }
{
    if !is_present {
        Change::Insert
    } else if word % 10 == 0 {
        Change::Delete
    } else {
        Change::Update
    }
}

/// Whether the key is present after it.
pub fn leaves_present(change: Change) -> bool
    ensures value { result ≡ leaves_present change }
{
    match change {
        Change::Insert | Change::Update => true,
        Change::Delete => false,
    }
}

/// Puts the line that sets the moment.
#[tactic(auto, using(crate::proofs::Lines::now_line))]
pub fn put_now(alloc: Global, out: &mut Vec<u8>, moment: u64) -> Result<(), AllocError>
    ensures ok { OnOk result (out.new.items ≡ out.old.items ++ ended_line (stmts.Now moment)) }
{
    let line = format!(in alloc; "now {moment}\n")?;
    out.extend_from_slice(line.as_bytes())?;
    Ok(())
}

/// The line of a change.
#[tactic(auto, using(crate::proofs::Lines::insert_line, crate::proofs::Lines::update_line, crate::proofs::Lines::delete_line))]
fn change_line(alloc: Global, change: Change, key: u32, amount: u32) -> Result<String, AllocError>
    ensures value { IfOk result (λ line. string_bytes line ≡ ended_line (change_stmt change key amount)) }
{
    match change {
        Change::Insert => format!(in alloc; "insert made {key} {amount}\n"),
        Change::Update => format!(in alloc; "update made {key} {amount}\n"),
        Change::Delete => format!(in alloc; "delete made {key}\n"),
    }
}

/// Puts the line of a change.
pub fn put_change(
    alloc: Global,
    out: &mut Vec<u8>,
    change: Change,
    key: u32,
    amount: u32,
) -> Result<(), AllocError>
    ensures ok { OnOk result (out.new.items ≡ out.old.items ++ ended_line (change_stmt change key amount)) }
{
    let line = change_line(alloc, change, key, amount)?;
    out.extend_from_slice(line.as_bytes())?;
    Ok(())
}
