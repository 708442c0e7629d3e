//! A quorum: one notary over one to nine, of which a minority may lie or fail.
//!
//! [`Quorum`] makes each call on every member, and answers what more than half of all said.
//!
//! | All members | The answer | Faults of the quorum itself |
//! |---|---|---|
//! | more than half said the same | that, with its fields, be it Ok or a refusal | one where two differ |
//! | else some wanted memory | `NoMemory` | one where two differ |
//! | else | `Failed` | one |
//! | and in `file` and `mark` some wanted memory | as above | one more |
//!
//! Its faults are these and the members'. So they rise behind an Ok too, and it does not show them
//! (`shows` of a notary's state). A member is in step while it said in each `file` and `mark` what
//! the quorum said. The quorum tells the lists that more than half of all tell, each of them in step.
//! Where such lists are missing before some call, it tells none from then on, since the telling of a
//! notary's lists ends for good.
//!
//! Two lists are the same where the same stands under each id that a call can name, below 2^64.
//!
//! | The layer above may rely on | Clause |
//! |---|---|
//! | a quorum is a notary, with these lists | the clauses of `Notary` |
//! | while it tells lists, every Ok answer is the one that they give, whatever the others say | `value`, `change` |
//! | a call that ends the telling raises the faults | `frame` |
//! | each member met the call, in order, and made its question, filing or mark once; the answer is that of most; what it keeps follows | `calls` (`CallsEach`, by `Meets`) |
//! | where no member's faults rise and none wants memory, it tells on | `steady` of `CallsEach` |
//! | where besides all told the same, its faults stay | `still` of `CallsEach` |
//! | it counts its own questions, and not those of its members | `questions` of `ask` |
//! | in a call that asks it wants memory only where asking a member takes some | `memory` |
//! | the first two answers that differed, in the last call that had such | `value` of `last_split`, `tallied` of `specs/Quorums` |
//! | what more than half said is the answer, and no other is; the same of lists | `laws` |
//! | what a notary's answer says, for one who listens to the members | `value` of `of_count` and the like |
//!
//! A member that fell behind stays behind: nothing is filed with it anew. It says OutOfTurn from then
//! on, and is outvoted. A quorum itself takes no memory.
//!
//! What it saw before each call is kept for proofs alone (`log`); a program keeps nothing of it.
//!
//! Tested, and not proved: that calls succeed where there is memory.
//!
//! ```text
//! let mut quorum = Quorum::new(members);
//! quorum.file(id, 0, moment, &[seal])?;
//! let split = quorum.last_split();
//! ```
#![tactic(auto)]

mod calls;
mod laws;
mod log;
mod panel;
mod quorum;
mod replies;
mod request;
mod said;
mod tally;
mod voting;

pub use laws::{
    answer_is_of_most, answer_is_refusal, lists_of_most_are_told, same_answers_are_equal,
    same_lists_are_equal, told_lists_are_of_most, unsplit_is_one,
};
pub use quorum::Quorum;
pub use said::{Said, Split, of_answer, of_count, of_done, of_mark, of_moment};
