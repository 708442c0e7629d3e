//! Examining an evidence file: which of the lists that it shows a notary's answers call as notarized.
//!
//! [`examine`] reads the bytes and asks the notary. It needs no store, and trusts nothing of the file.
//!
//! ```text
//! granule 5 not as notarized shown 1 original 1 as notarized
//! examined 1 confirmed 1
//! ```
//!
//! A line is of one entry: its granule, and how many transactions it shows of the store and of the copy. Each of
//! these lists is called by the answer for its digest, under the name of the granule's leaf. The last line tells
//! how many entries there are, and how many of them begin as not as notarized.
//!
//! | In this order | Answer |
//! |---|---|
//! | the bytes spell no evidence file | `NotEvidence` |
//! | the file is of another id | other header |
//! | the header's answer is not Same, or an era of a sealed tile is not as filed | other header |
//! | the leaf of an entry was never filed | `SealMissing` of the first such leaf |
//! | none of these | the lines |
//!
//! As many tiles are sealed as there are batches but the first. The eras are those of the file: from 1 on, those
//! whose tile is sealed are asked for, and the next one has to be absent.
//!
//! | The layer above may rely on | Clause of `examine` |
//! |---|---|
//! | what is told is what the answers show of the file (`examined_of`), unless the notary fails or memory runs out | `told` |
//! | `NotEvidence` comes only where the bytes spell no file, whatever the notary tells | `not_evidence` |
//! | where they spell none, or one of another id, that is told, unless memory runs out; and nothing is asked | `elsewhere`, `unasked` |
//! | no other cause refuses: a missing seal is that of the leaf of an entry, whatever is told | `none_other` |
//! | few questions are asked: one for the header, one for each era and for the next one, and one for each list | `asked` |
//! | the notary is as it was | `same`, `frame` |
//! | a fault is answered only where the notary counted it, and none is hidden | `cause`, `counted` |
//!
//! Each list is hashed once (`steps` of `ask_entries`).
//!
//! Of a history whose batches the notary holds, and of a file that is right by its answers (`IsExamined`):
//!
//! | A law | Says |
//! |---|---|
//! | [`places_are_named`] | the eras by which a file is examined are its own |
//! | [`right_places_are_notarized`] | the file has the notarized header and eras, or two of their inputs clash |
//! | [`other_lists_differ`] | a list that is called not as notarized is another one, or these inputs clash |
//! | [`same_lists_are_notarized`] | a list that is called as notarized is the notarized one, or these inputs clash, or the list's and the notarized granule's |
//! | [`notarized_lists_are_same`] | the notarized list of a sealed granule whose tile has the tree is called as notarized, or these inputs clash |
//! | [`other_granules_are_missing`] | of other granules there is no line: the seal is missing, or these inputs clash |
//!
//! Not proved: that calls succeed where there is memory. `forensic_examples` tries it.
//!
//! ```text
//! match examine(alloc, &bytes, &mut notary, id)? {
//!     Examined::OtherHeader => ..,
//!     Examined::Lines { text } => ..,
//! }
//! ```
#![tactic(auto)]

mod asking;
mod examined;
mod examining;
mod fail;
mod judged;
mod judging;
mod laws;
mod lines;
mod places;

pub use examined::Examined;
pub use examining::examine;
pub use fail::ExamineFail;
pub use laws::{
    notarized_lists_are_same, other_granules_are_missing, other_lists_differ, places_are_named,
    right_places_are_notarized, same_lists_are_notarized,
};
