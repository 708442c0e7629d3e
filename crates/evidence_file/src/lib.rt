//! Evidence files: what a store and its copy hold in altered granules, to be shown to a third party.
//!
//! A file names a store by its header and its eras. For some granules it shows the transactions of the store, and
//! maybe those of its copy. Whoever reads it trusts nothing of it: what a notary answers for each list tells.
//!
//! | Bytes | Field |
//! |---|---|
//! | 8 | the letters `DRAGEVD1` |
//! | 22 | the header fields: id (8), epoch (8), width (4), exponent (1), algorithms (1), as in a store |
//! | 4 | a count of eras, at most 255 |
//! | 10 each | the eras from 1 on: tile (4), first granule (4), exponent (1), algorithms (1) |
//! | 4 | a count of entries |
//! | | the entries, their granules ascending |
//!
//! | Bytes of an entry | Field |
//! |---|---|
//! | 4 | the granule, at most 1,048,575 |
//! | | the list of the store |
//! | 1 | `00`, or `01` and behind it the list of the copy |
//!
//! A list is a count (4), and each transaction's spelling behind its length (4), at most 32,768 bytes. Each
//! transaction lies in the entry's granule. Each era is the next one behind those so far, as `digest_model` says of
//! policies. All numbers stand with the highest byte first. Nothing follows.
//!
//! What the layer above may rely on:
//!
//! | Fact | Clause |
//! |---|---|
//! | what is read is the file that the bytes spell; none exactly where they spell none | `spelled` of `read_evidence` |
//! | the same by a reading function, which definitions above go on with | `value` of `read_evidence` |
//! | what is written is the one spelling of the file | `spelled` of `write_evidence` |
//! | a file is refused exactly where it would have 67,108,864 bytes or more, and then nothing is written | `full` of `write_evidence` |
//! | reading what was written gives the file again | `a_spelling_is_read` |
//! | no two files have one spelling, and none begins another | `no_spelling_begins_another` |
//! | what is gathered of a store and its copy has a spelling, so it may be written | `gathered_fits` |
//! | under each sealed granule whose era has the tree its digest is filed as a leaf | `leaves_are_filed` |
//! | a list that is answered Same is the notarized one, unless its input and the notarized one clash | `same_list_is_notarized` |
//! | a list that is answered Differs is another one | `differing_list_is_other` |
//! | the notarized list is answered Same | `notarized_list_is_same` |
//!
//! In contracts a transaction is its spelling, since digests are over spellings. `FitsEvidence` says what has a
//! spelling. Only tested: that want of memory isn't answered where there is some.
//!
//! ```text
//! let bytes = write_evidence(alloc, &evidence)?;
//! let again = read_evidence(alloc, bytes.as_slice())?;
//! ```
#![tactic(auto)]

mod consistent;
mod decoding;
mod encoding;
mod entry;
mod evidence;
mod laws;
mod lists;
mod reading;
mod sizes;
mod writing;

pub use decoding::read_evidence;
pub use encoding::{WriteFail, write_evidence};
pub use entry::{Entries, Entry};
pub use evidence::{Evidence, LaterEras};
pub use laws::{
    a_spelling_is_read, differing_list_is_other, gathered_fits, leaves_are_filed,
    no_spelling_begins_another, notarized_list_is_same, same_list_is_notarized,
    what_is_read_is_spelled,
};
