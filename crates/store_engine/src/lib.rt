//! An open store: its tables in memory, and its file behind them, which is written first.
//!
//! A store is opened from its bytes alone, whatever they are: its records are read once, and what is
//! kept of them is how many transactions there are, the greatest moment, the tables with every version
//! of their rows, the eras, the chains, and where the next record goes (`Opened`). That this is what the
//! bytes say is `IsOpenOn`. Then items are added, each behind all others: it is written, and only once it
//! is durable do the tables, the eras and the chains know of it.
//!
//! The file is in segments (`segment_file`). One of the first format, whose records stand in one run, is
//! refused as `OldFormat`: nothing is added to it.
//!
//! Tables take transactions in the order of their moments, and those of one moment in file order. In a
//! file that was written here the two orders are one, so each transaction is applied as it is read. In
//! any other file moments may fall: then the transactions are sorted first, in a stable way.
//!
//! A transaction is refused for the first of these that holds (`commit_fault`):
//!
//! | Refusal | Where |
//! |---|---|
//! | `ClockBack` | the clock is before the last moment, or before the store's first second |
//! | `TooLate` | the moment's granule is 1,048,576 or more |
//! | `TooManyOps`, `TooLong` | more than 256 operations, more than 32,768 bytes |
//! | `Closed` | an earlier call failed |
//! | `StoreFull` | the next gate would reach place 67,108,864 |
//!
//! A Frontier is refused for the last two alone, and so is a policy. Where the last moment is not before
//! it, a Frontier is not needed, and nothing is done. A policy that isn't the next era is stored, and has
//! no effect.
//!
//! | The layer above may rely on | Clause |
//! |---|---|
//! | what is opened stands for the bytes; bytes are refused exactly where they have no header of the id, and then where they are of the first format | `value`, `id` of `open_store` |
//! | a refusal comes exactly where it has a cause, by the first cause; want of memory may come before | `refused` |
//! | where there is a cause, the disk is untouched, also where want of memory comes before | `same` of `commit` and of `policy`, `unstored` of `frontier` |
//! | the number is that of the transactions before and one more | `number` of `commit` |
//! | why operations would be refused can be asked before, with nothing done and no memory taken | `value` of `commit_refusal` |
//! | after Ok the store has the item, after a refusal it is as it was, after a fault or want of memory it is closed; the tables have nothing that is not durable | `stands` |
//! | want of memory in `frontier` and `policy` comes before the item is known: they are stored and known whole, or not known | `kept` |
//! | the eras are those of all items, and the chains go by them | `value` of `eras`, `under` of `chains` |
//! | after Ok the file holds the item, and is durable: it is in every image | `added`, `durable` of `told` |
//! | after Ok each place from which reading goes on is one still | `places` of `told` |
//! | on a settled disk a crash at any moment leaves the old items, with the new one or without | `images` of `told` |
//! | the changing calls are those of one append, in order, and none after one that failed; a refusal makes none | `trace` of `told` |
//! | on a settled disk the bytes before the gate are as they were, whatever is answered | `front` of `told` |
//! | a refusal has one text, whoever tells it | `ok` of `put_refusal` |
//! | a fault of the disk has its cause; behind Ok there was none, nor behind a refusal of `commit`, `frontier` or `policy` | `cause`, `counted` |
//!
//! Of the bytes alone, without a disk, `appends_leave_old_or_new` says what the writes of an append leave,
//! whole (`whole`, `puts`, `within`) and cut short anywhere (`cut`, `front`).
//!
//! Readers take no memory. `frontier_calls` tells how many changing calls a Frontier would make, and
//! `policy_calls` how many a policy.
//!
//! Only tested: that a call with memory at hand doesn't answer want of memory.
//!
//! ```rust
//! let mut store = Store::open_store(alloc, disk, id)?;
//! let number = store.commit(alloc, disk, &ops, clock_seconds, steps)?;
//! store.frontier(alloc, disk, end_of_tile)?;
//! store.policy(alloc, disk, tile, first_granule, k, algs)?;
//! ```
#![tactic(auto)]

mod appending;
mod chaining;
mod contents;
mod fail;
mod laws;
mod next_item;
mod opening;
mod printing;
mod replay;
mod store;

pub use fail::StoreFail;
pub use laws::appends_leave_old_or_new;
pub use printing::put_refusal;
pub use store::Store;
