//! How bytes are read from the front, and what a file of gated records holds.
//!
//! A format is defined twice, by its spelling (a function from values to bytes) and by a reader (a function from
//! bytes to a value and the bytes after it). Readers are put together from a few pieces, and one lemma for each
//! piece says that the reader of a whole reads exactly its spellings. So the law of a new format takes a few lines.
//!
//! | Definition | Reads | Lemma | Code |
//! |---|---|---|---|
//! | `byte` | one byte | `byte_reads` | `byte_of` |
//! | `part n` | so many bytes | | `part_of` |
//! | `number w` | a number of 2, 4 or 8 bytes, the highest first | `number_reads` | `u16_of`, `u32_of`, `u64_of` |
//! | `constant text` | these bytes and no others | `constant_reads` | `constant_of` |
//! | `seq a b` | one after the other | `seq_reads` | `let` and `?` |
//! | `mapped f a` | what is made of it | `mapped_takes`, `mapped_again` | a literal |
//! | `checked test a` | only what passes a test | `checked_reads`, `up_to_reads`, `from_1_to_reads` | `if` |
//! | `many a n`, `counted n test a` | as many as a count says | `counted_reads`, `few_reads` | a loop, `is_count` |
//! | `sized n` | as many bytes as a length says | `sized_reads` | `part_of` |
//! | `tagged f` | what the first byte decides | `tagged_takes` | `match` |
//! | `whole a` | all of the bytes | `whole_takes`, `whole_again`, `apart` | `is_empty` |
//!
//! What a layer above may rely on: each function of this crate answers what its definition gives (`value`), on
//! every slice, without memory. A reader `r`, a spelling `s` and the condition `F` under which a value has a
//! spelling are tied by `Reads r s F`: what is read is spelled so and meets `F`, and what meets `F` is read from its
//! spelling, whatever follows. From that alone follows that no spelling begins another (`apart`).
//!
//! `specs/Gated` says what the body of a file of gated records holds, for any payloads and limits. `put_numbered` writes
//! words with a number behind them, as all texts for people have them; it alone takes memory.
//!
//! ```text
//! let (id, rest) = u64_of(bytes)?;
//! let (width, rest) = u32_of(rest)?;
//! Some(((id, width), rest))        // seq (number w64) (number w32)
//! ```
#![tactic(auto)]

mod numbered;
mod readers;

pub use numbered::put_numbered;
pub use readers::{byte_of, constant_of, is_count, part_of, u16_of, u32_of, u64_of};
