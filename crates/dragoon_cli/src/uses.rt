//! Which devices a command uses, and how.

use call_devices::{Access, Left, Named};
use call_notes::Noted;
use dragoon_app::Command;
use std::alloc::AllocError;

type Use = Option<Access>;

const N: Use = None;

const R: Use = Some(Access::Reads);

const W: Use = Some(Access::Writes);

/// What a command does with the store, its copy, the target and the books, if it uses them. What it only reads is opened so
/// that nothing can change it. So if this table is wrong, the call ends with a fault, and no data is lost.
pub fn uses_of(command: Option<Command>) -> (Use, Use, Use, Use) {
    match command {
        Some(Command::Link) => (R, N, N, N),
        Some(Command::Init(_)) => (W, N, N, N),
        Some(Command::Run { .. }) => (W, N, N, W),
        Some(Command::Make { .. }) => (W, N, N, W),
        Some(Command::Notarize { .. }) => (W, N, N, W),
        Some(Command::Policy { .. }) => (W, N, N, R),
        Some(Command::Validate { .. }) => (R, N, N, W),
        Some(Command::Analyse { .. }) => (R, N, N, R),
        Some(Command::Migrate { .. }) => (R, N, W, N),
        Some(Command::Evidence { .. }) => (R, R, W, R),
        Some(Command::Examine { .. }) => (N, N, N, R),
        Some(Command::Restore { .. }) => (R, R, W, R),
        Some(Command::Drill) | None => (N, N, N, N),
    }
}

/// Adds a device, with what it left.
pub fn add<'a>(
    devices: &mut Vec<Noted<'a>>,
    named: Named<'a>,
    access: Option<Access>,
    left: Left,
    is_odd: bool,
) -> Result<(), AllocError> {
    let is_used = access.is_some();
    devices.push(Noted {
        named,
        is_used,
        left,
        is_odd,
    })?;
    Ok(())
}
