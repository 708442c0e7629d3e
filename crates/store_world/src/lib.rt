//! The world that lines run in: a store with its sessions, beside a notary.
//!
//! A `World` is the id of a store, what is stored under it, if anything, its sessions, what the notary holds, and how
//! many items its auditor has read. `step` says of every world and line the next world and the reply. A `World` of the
//! code keeps the id, the open store and its sessions, and the auditor, and is lent the disk and the notary at each
//! call. Sessions go with their store: a notarization, a policy, a validation and an analysis leave them; none is
//! begun where there is no store. The auditor goes on behind what it has read, whatever lines stand between; after a
//! failure, and where the store is opened anew, it begins anew.
//!
//! | Line | World after it | Reply |
//! |---|---|---|
//! | a statement on tables, or a line of a session | as `step` of `session_model` says | as it says |
//! | `notarize` | a Frontier more, where one is needed, and a batch more for each tile that has ended | `sealed N`, the number of sealed tiles |
//! | `policy K ALGS` | a Policy item more, of the tile behind the sealed ones | `era E from tile J`, the number that the era gets, and that tile |
//! | `validate` | a mark more, where something was filed | the verdict: `clean N`, `header altered N`, `altered N from M`, `unsealed` |
//! | `audit` | where more than 256 items are left, with so many more read; else as after `validate`, with none read | `auditing N`, the number of items read; else what `validate` says |
//! | `analyse`, of all sealed tiles or of those of one era | as before | the report of `forensic_report` |
//! | any other that is refused | as before; after `Full` with what there was room for | `refused NAME` |
//!
//! Without a store all but `validate`, `audit` and `analyse` are `refused NotAStore`. Those three read either format; over
//! a file of the first one all others are `refused OldFormat`. What a line has from the notary is no
//! function of the world; so `step` is given what was found. `MayTell` says what any notary allows, and `MayFind`
//! what one that holds the world's lists does.
//!
//! What the layers above may rely on:
//!
//! | Sentence | Clause |
//! |---|---|
//! | whatever the notary tells: a line takes the step of the world for what was found, and replies it. What is replied, any notary may tell; of a batch out of turn its count | `told` of `World::line`: `goes`, `may`, `turn` of `Steps` |
//! | on a settled disk a crash at any moment leaves the history before the line or the one after it | `images` and `kept` of `Goes` |
//! | once a line is replied to, its world is the only one that a crash leaves, where that was so before | `settled` of `Goes` |
//! | beside a notary that holds the world's lists, what was found is what they say | `finds` of `Steps` |
//! | it holds then what the step adds, and whatever was answered the first of that, and all that it held | `keeps`, `between` of `ListsGo` |
//! | a batch is filed only where every image of a settled store has reached the end of its tile | `ordered` of `ListsGo` |
//! | each image of a sound store is still what was filed | `sound` of `World::line` |
//! | a store stays open, of the same header, until a failure; after one there is none, and no session | `store` of `World::line` |
//! | a store that is opened anew has no session, and its audit begins anew; so it does after a failure | `sessions`, `audit` of `World::enter`; `audit` of `World::line` |
//! | an auditor that has read some first items of the file is one of the file behind each line that is replied to | `told` of `World::line`: `audit` of `IsIn` |
//! | where nothing is stored, no call changes the disk | `same` of `Goes` |
//! | the changing calls are those that store what the line adds, and then those that file its batches or note its mark | `makes` of `Steps`, by `MakesLineCalls` |
//! | a statement on tables and a line of a session leave the notary | `unasked` of `World::line` |
//! | where no store is held, whatever is told, all but `validate`, `audit` and `analyse` are refused, by what opening came to, and call nothing | `none` of `World::line`, `is_old` of `World::enter` |
//! | a validation goes by the stored bytes and what is filed alone, and leaves the disk | `bytes` of `World::line`, by `Judges` |
//! | so does an analysis, which leaves the notary, too; its report shows what is altered of each history that was filed so | `bytes` of `World::line`, by `Reports` |
//! | a piece of an audit goes by the stored bytes and by what was read before; where more is left than it reads, it asks nothing, whatever it comes to | `bytes` of `World::line`, by `Audits` |
//! | an auditor of the bytes is one of them behind each piece, and behind a reply it stands where that says | `bytes` of `World::line`, by `goes_on` of `Audits` and `stands` of `TellsPiece` |
//! | a failure is a fault of the disk or of the notary, or want of memory; behind a reply, a refusal too, the disk counted no fault, nor a notary that shows its faults | `disk_cause` and `notary_cause`, `disk_counted` and `notary_counted` |
//! | only a line that the notary answers ends in a fault of the notary; only such a line, or one that stores, in one of the disk | `only` of `World::line` and of `told`, by `MayEndIn` |
//! | a piece of an audit that goes on leaves the notary as it was, and ends in no fault of it | `quiet`, `unasked` of `told`, by `EndsUnasked` |
//! | where the clock speaks against a notarization before anything is asked, it ends in no fault | `timely` of `told`, by `EndsTimely` |
//! | any notary allows `notarize` the refusals `Broken`, `SealMissing`, `Full` and `OutOfTurn`; `policy` the first two; `validate` and the last piece of an audit a verdict, `SealMissing` and `Full`; `analyse` an analysis or a refusal of its algorithm. Without a history a verdict or an analysis tells only that nothing was filed or that the header is altered, or there is `Full` | `MayTell` |
//! | the store of the id is opened, or there is none | `value` of `World::enter` |
//! | a world whose store is what was filed stays so at every line, and no line tells of an alteration | [`sound_worlds_stay_sound`] |
//! | a line that is replied `ok N` leaves a store that has the transaction N, and no line takes an item away | [`steps_acknowledge`], [`steps_only_append`] |
//!
//! Only tested: that memory suffices.
//!
//! ```rust
//! world.enter(alloc, &mut disk)?;
//! let answered = world.line(alloc, &mut disk, &mut notary, &line, now)?;
//! out.write(answered.text.as_slice())?;
//! ```
#![tactic(auto)]

mod analyses;
mod answered;
mod audits;
mod fail;
mod laws;
mod lines;
mod open_store;
mod pieces;
mod statements;
mod world;

pub use answered::Answered;
pub use fail::LineFail;
pub use laws::{sound_worlds_stay_sound, steps_acknowledge, steps_only_append};
pub use lines::is_world_line;
pub use world::World;
