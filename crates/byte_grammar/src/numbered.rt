//! Words with a number behind them, as replies, verdicts, refusals, names and reports have them.

ghost use Rattle.std.specs.Prelude.{◌≡◌, ◌++◌, OnOk};
ghost use Rattle.byte_grammar.specs.Numbered.{numbered};

use std::alloc::{AllocError, Global};

/// Writes words and a number behind them.
pub fn put_numbered(
    alloc: Global,
    out: &mut Vec<u8>,
    words: &[u8],
    number: u64,
) -> Result<(), AllocError>
    ensures ok { OnOk result (out.new.items ≡ out.old.items ++ numbered words.now number) }
{
    let digits = format!(in alloc; "{number}")?;
    out.extend_from_slice(words)?;
    out.extend_from_slice(digits.as_bytes())?;
    Ok(())
}
