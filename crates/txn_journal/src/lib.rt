//! Files of gated records: a head, and then records that grow by one at a time.
//!
//! A gated file has a head of 64 bytes, behind it records without a break, and behind the last one a
//! gate. A gate is one byte: `A7` is open, every other value is closed.
//!
//! | From place p on | Bytes |
//! |---|---|
//! | the gate | 1 |
//! | the length n of the payload, high byte first | 4 |
//! | the payload | n |
//! | the gate of the next record | 1 |
//!
//! One record in full: the put of row 5 in `examples/worked.store`, as
//! `xxd -g 1 -s 304 -l 43 examples/worked.store` shows it.
//!
//! | Place | Bytes | Field |
//! |---|---|---|
//! | 304 | `a7` | the gate: open |
//! | 305 | `00 00 00 25` | the length of the payload: 37 |
//! | 309 | `01` | the payload is a transaction |
//! | 310 | `00 00 00 07` | its number: 7 |
//! | 314 | `00 00 00 00 00 00 01 2c` | its moment: 300 seconds after the epoch of the store |
//! | 322 | `00 01` | it has 1 operation |
//! | 324 | `02` | which puts a row |
//! | 325 | `01 74` | into the table whose name is the 1 letter `t` |
//! | 327 | `02` | of 2 values |
//! | 328 | `01 00 00 00 00 00 00 00 05` | the first, which is the key: the Int 5 |
//! | 337 | `01 00 00 00 00 00 00 00 00` | the second: the Int 0 |
//! | 346 | `a7` | the gate of the next record |
//!
//! The journal knows gates, lengths and payloads; what stands in a payload is the business of
//! `tuple_bytes`. `examples/altered.store` is the same file with a 1 as the last byte of that Int 0.
//!
//! A `Shape` says which heads and payloads a kind of file has, the most bytes of a payload, and the
//! place that no gate reaches. A record is valid where its gate is open, its payload is accepted and
//! no longer than the limit, and the next gate is within the file and the limit. What a file holds are
//! the payloads of the longest prefix of valid records from place 64 on, whatever its bytes are:
//! `records` of `byte_grammar` gives them, by its definition and by that law.
//!
//! `Records` reads a file through a window that has room for two of the longest records, so a long run
//! of records takes one call of the disk a window, and a payload is lent and not copied. It stands at
//! any gate of a file, and no gate that it reads reaches its limit. `at_first` stands at the first
//! record, with the limit of the shape, and `read_head` reads the head that stands in front of it.
//!
//! | The layer above may rely on | Clause |
//! |---|---|
//! | a head is read exactly where the bytes of the file have one of the shape | `value` of `read_head` |
//! | the payloads read, one by one, are those of the walk, and reading ends where the walk does | `value` of `advance` |
//! | the place goes on by a record within the limits, also over a disk that tells nothing | `moves` |
//! | after a fault the reader stands where it stood | `err` |
//! | the disk is only read, and a fault has its cause | `same`, `frame`, `cause` |
//! | after Ok the disk counted no fault: no call that failed was tried again; `open_journal` says the same where it finds no file | `counted` of every call |
//!
//! `create` makes a file, and a `Journal` adds to it. Neither writes over an open gate: it is closed,
//! what stands behind it is written, and it is opened, with a sync behind each write.
//!
//! | The layer above may rely on | Field of `told` |
//! |---|---|
//! | a device is refused exactly where it is taken, and is then as it was | `refused`, `kept` of `Creates` |
//! | a made file has this head and no payload, and is durable | `holds`, `durable` of `Creates` |
//! | on a settled disk a crash leaves no payload, and no head but the new one or one that stood there | `images` of `Creates` |
//! | after Ok the file holds the old payloads and the new one, and is durable | `added`, `durable` of `Appends` |
//! | on a settled disk a crash at any moment leaves the old payloads, with the new one or without | `images` of `Appends` |
//! | the bytes before the gate are as they were, whatever was answered | `front` of `Appends` |
//! | the changing calls are made in their order, and none after one that failed | `trace` of both |
//!
//! `open_journal` gives the journal of a file with its head and payloads, or `NotAStore` exactly where
//! the bytes have no head of the shape (`value`).
//!
//! Also over a disk that tells nothing, the place behind the payloads is within the limit and greater
//! than their number (`within`, `few`).
//!
//! A journal knows of its file only the place of the next gate and whether that is open, so each call
//! on it is lent the disk. That a disk's bytes are as the journal left them is `StandsIn`.
//!
//! | The layer above may rely on | Clause of `append` |
//! |---|---|
//! | after a failed call of the disk the journal is closed, until the file is opened anew | `moves`, `closed` |
//! | it closes at a fault of its disk or at that one's want of memory, and at nothing else | `closes` |
//! | where it is not closed behind a refusal, the disk is as it was | `kept` |
//!
//! ```rust
//! let mut records = Records::<StoreShape>::at_first(alloc)?;
//! if let Some(head) = records.read_head(disk)? {
//!     while records.advance(disk)? {
//!         count(records.payload());
//!     }
//! }
//!
//! create::<_, StoreShape>(disk, &head)?;
//! let mut journal = open_journal::<_, StoreShape>(alloc, disk)?.journal;
//! journal.append(alloc, disk, payload)?;
//! ```
#![tactic(auto)]

mod append;
mod creation;
mod fail;
mod gate;
mod journal;
mod opening;
mod payload;
mod records;
mod shape;
mod store_shape;
mod window;

pub use creation::{create, is_free};
pub use fail::JournalFail;
pub use journal::Journal;
pub use opening::{Opened, open_journal};
pub use records::Records;
pub use shape::Shape;
pub use store_shape::StoreShape;
