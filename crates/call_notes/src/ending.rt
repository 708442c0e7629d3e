//! How a call ended, and what its devices left.

use call_devices::{Left, Named};
use line_runs::Seen;
use std::io;

/// A device, with what it left.
#[derive(Clone, Copy)]
pub struct Noted<'a> {
    pub named: Named<'a>,
    /// Whether the command may use it.
    pub is_used: bool,
    pub left: Left,
    /// Whether it stood out among several notaries.
    pub is_odd: bool,
}

/// How a call ended.
#[derive(Clone, Copy)]
pub struct Ending<'a> {
    /// The number of its status.
    pub code: u8,
    /// The command and what follows it.
    pub call: &'a [String],
    pub devices: &'a [Noted<'a>],
    /// What was seen of its lines.
    pub seen: &'a Seen,
    /// Why the input failed, and the output, if they did.
    pub input: Option<io::Error>,
    pub output: Option<io::Error>,
    /// Whether the input was read, and had no byte.
    pub is_unfed: bool,
}
