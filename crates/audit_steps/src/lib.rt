//! A validation in pieces, so that other work goes on between them.
//!
//! An [`Auditor`] reads the next items of a store file, at most 256 in a call. Where more are left it answers
//! [`Audit::Going`] with the number of items read so far, and asks the notary nothing. Else that piece is the
//! last: it answers what a validation answers, adds the same mark, and the auditor is as new.
//!
//! Between two pieces items may be appended to the file. The auditor keeps the header, the number of items
//! that it has read, the place behind them, and their chains: `IsAuditOf id auditing bytes`. In contracts an
//! auditor is that, or `None` while nothing is read.
//!
//! | The layer above may rely on | Clause of `step` |
//! |---|---|
//! | where the bytes have a header with the id, and more than 256 items are left, a piece goes on, or the disk or memory has failed | `more` |
//! | a piece goes on only then | `going` |
//! | a piece that goes on reads 256 items more | `more`, `stands` |
//! | while it goes on the notary is as it was: no question is asked; nor where more was left, and the disk or memory failed | `quiet`, `unasked` |
//! | an auditor of the bytes is one of them behind each piece | `goes_on` |
//! | the last piece answers what the answers to the questions show of what is stored, and adds that mark | `told`, `trace` |
//! | where the bytes have no header of the id, only unsealed or an altered header is found | `nowhere` |
//! | after a verdict or a refusal it is as new | `stands` |
//! | a piece hashes each of its transactions twice, so it takes at most 512 steps; the last one too, where granules rise | `steps` |
//! | where a granule falls, the last one takes besides at most a step for each transaction that is stored | `most` |
//! | the disk is as it was, and a sound store stays sound | `same`, `sound` |
//! | a verdict takes as many questions as that of `validate` | `few`; of other bytes, by as many eras as a store may have: `asked` |
//! | a fault has its cause, and none is hidden, except behind want of memory | `disk_cause`, `notary_cause`, `disk_counted`, `notary_counted` |
//!
//! | A law | Says |
//! |---|---|
//! | [`audit_stays`] | where items are appended and no place is lost, an auditor of the bytes is one of the new bytes |
//!
//! The chains go on over policies, and the last piece judges by the eras that they kept.
//! Where a granule falls no chains can be taken along. Then the last piece reads the whole file once more.
//! A bound on steps binds the count that is lent. That a piece hashes by no other is by the body alone.
//! Not claimed: how long a piece takes. The last one makes a value for each sealed tile; where its chains have
//! not reached the end of these, they are closed up to there.
//!
//! ```rust
//! let mut auditor = Auditor::new();
//! match auditor.step(alloc, &mut disk, &mut notary, id, now, &mut steps)? {
//!     Audit::Going { read } => ..,
//!     Audit::Found { verdict } => ..,
//! }
//! ```
#![tactic(auto)]

mod audit;
mod auditing;
mod auditor;
mod concluding;
mod laws;
mod linking;
mod next;
mod piece;

pub use audit::Audit;
pub use auditor::Auditor;
pub use laws::audit_stays;
