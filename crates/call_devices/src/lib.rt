//! The devices of a call of the program: each a file, or bytes in memory. Up to nine notaries keep a book each, and are one.
//!
//! | Of | Module |
//! |---|---|
//! | a device: a file, or bytes in memory | `device` |
//! | how a file is opened, made and locked | `file` |
//! | what is at a path, which is decided at a file's first call | `found` |
//! | the notaries of a call, each with its book | `members` |
//! | which of them failed, or differed from most | `ballot` |
//! | how far a long call is | `progress`, with streams in `watched` |
//!
//! It stands on `disk_model` (whose `FileDisk` opens, locks and syncs a file that may be changed), `outside_io`, `notary_book`
//! and `notary_quorum`.
//!
//! | The layer above may rely on | Clause |
//! |---|---|
//! | a device that is named is a file of that path and of no other, and any other is empty and in memory | `file`, `path`, `memory` of `Device::named` |
//! | each device is a disk: a file tells nothing, and a fault is answered only where it was counted | those of `Disk` |
//! | a member of a quorum and a watched stream answer, keep and tell what the one below does | those of `Notary`, `Source` and `Sink` |
//!
//! Only tested: that a file is opened as its access says, that a missing one is made by the first change and by nothing
//! else, that a file which is only read is never changed, and which notary stands out.
//!
//! ```text
//! let progress = Progress::new(rt, is_terminal, is_terminal);
//! let mut store = Device::named(rt, Named { word: "store", path }, Access::Reads, &progress)?;
//! let notary = quorum_of(alloc, disks, &ballot)?;
//! ```
#![tactic(auto)]

mod ballot;
mod device;
mod file;
mod found;
mod members;
mod progress;
mod watched;

pub use ballot::Ballot;
pub use device::{Device, Left, Named};
pub use file::Access;
pub use found::Found;
pub use members::{Member, quorum_of};
pub use progress::Progress;
pub use watched::{WatchedSink, WatchedSource};
