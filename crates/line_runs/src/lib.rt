//! Runs of lines: those of an input, or those of a generated script, carried out one after another over the store of an id.
//!
//! What lines do is said without code: `carry` takes one from where a run stands, and `carried` takes many. Each comes with
//! the second that the clock gave, and with what the notary answered. The replies are the text of `carried`.
//!
//! | Call | Carries out | Writes, by definition |
//! |---|---|---|
//! | [`run_lines`] | the lines of an input | the reply of each line, by `carried`; then perhaps the line of a fault |
//! | [`run_make`] | the lines of the script that `workload_make` defines | `made_outcome`: how many replies are refusals, how many transactions are stored then, and the last two replies; or the line of a fault |
//! | [`say`], [`refuse`] | – | a text, or the line of a fault, and ends by its status |
//!
//! How a call ends, and over which devices, stands here for all commands: `Status` with its texts, `Outcome`, `Devices`,
//! `OnStore` and `Ends`.
//!
//! # What the layer above may rely on
//!
//! What a run leaves is `RunsOn`, in the clause `leaves` of `run_lines`. It speaks of a store that tells its bytes, whatever
//! the notary tells.
//!
//! | Sentence | Field of `Runs` |
//! |---|---|
//! | `NotAStore` comes exactly where the bytes have no header of this id, and `OldFormat` exactly where they have one and their records stand in one run. A fault of the disk while the store is opened, and want of memory then, end a run before its first line | `OnStore` |
//! | after `Ok` and `Refused` all lines of the input were carried out, and exactly their replies are out; it is `Refused` exactly where one of them is a refusal | `read`, `said` |
//! | where the output fails or memory is wanting at most the last reply is cut short, and then no line was begun behind it; or all are out, and perhaps a front of a fault line that has its cause | `said` |
//! | at a fault of the disk or the notary the line under way is the next of the input | `under_way` of `read` |
//! | at one of these or of the output less than a piece was taken beyond the lines that were begun, or no line end more | `little` of `read` |
//! | each reply is that of the step for what the notary answered, and any notary may have answered so: `MayTell` of `store_world` says what | `tells` of `lines` |
//! | a scripted run asks no clock, and others take one second for each line that isn't blank, the one under way too | `seconds` of `lines` |
//! | no line was under way unless the disk or the notary failed or memory was wanting. Then the bytes store what the lines left that were replied to, and on a settled store they are its only image | `none`, `stores`, `settled` of `lines` |
//! | a fault of the notary comes only by a line that asks it, and one of the disk only by such a line or one that stores. Neither comes by a `notarize` whose refusal the clock decides | `uses` of `lines` |
//! | on a settled store a crash at any moment leaves what stood there after some first lines; now at least what the lines left that were replied to | `images`, `kept` of `lines` |
//!
//! Beside a notary that tells its lists, where these are those of the store's world:
//!
//! | Sentence | Field of `RunsLines` |
//! |---|---|
//! | each line found what these lists say | `found` |
//! | the notary holds all that the lines filed and marked, and no more unless a line was under way | `keeps`, `between` of `files` |
//! | on a settled store a batch is filed only where every image has what its line stores, and so the end of the batch's tile | `ordered` of `files` |
//!
//! And in the words of the store's header:
//!
//! | Sentence | Field of `KeepsPromises` |
//! |---|---|
//! | on a settled store a crash at any moment leaves all items that were stored, and perhaps more | `appends` |
//! | on a settled store each transaction of which `ok N` was replied stands in every image, as the N-th | `acknowledged` |
//! | beside a notary that tells its lists: where the store is sound no line tells of an alteration | `unaltered` |
//!
//! `run_make` leaves `MakesOn`. The script is that of the header's granule width and the last moment. Of its lines the same is
//! said as of those of a scripted run, by the same words, `RunsLines` and `KeepsPromises`.
//!
//! | Sentence | Field of `Makes` |
//! |---|---|
//! | the lines are the first ones of the script, and one of them was perhaps under way | `first` |
//! | behind all lines the summary is out; or the line of a fault that has its cause. Of either a front is out where the output failed or memory was wanting, or nothing | `tells` |
//! | it reads no input | `none_read` |
//!
//! What a run has seen, `run_lines` notes in a [`Seen`]: `SeesOn`, in its clause `sees`, says it of the same lines.
//!
//! | Sentence | Field of `Sees` |
//! |---|---|
//! | the first refusal is that of a line that was refused, none before it was: with its number among all lines from 1, its first 200 bytes, or none of them if memory was wanting, and the whole reply to it | `first`: `IsFirstRefused` |
//! | it counts the lines, blank ones too, and the replies that are refusals | `lines`, `refused` |
//! | of the sixteen sessions exactly those are seen as begun that are begun after the last line | `begun` |
//!
//! Whatever the devices tell, a first refusal is seen exactly if some reply is one, so exactly if a run whose lines were all
//! carried out ends as `Refused`: `CountsRefusals`, in the clause `refusals`. Of a generated script only the count is seen:
//! `EndsByCount`, in the clause `counted` of `run_make`.
//!
//! Both calls, whatever their devices tell:
//!
//! | Sentence | Clause |
//! |---|---|
//! | a call ends by a status of its own, or its text was cut off; at a fault the output, where it tells what it holds, ends with its line | `ends`: `run_ends`, `make_ends` |
//! | a fault is answered only where the count of that device's faults rose | `causes` |
//! | on a settled store what was sound stays sound, under each id | `sound` |
//! | each device keeps what every call of it keeps | `goes_on` |
//!
//! Laws of any lines, without devices:
//!
//! | Sentence | Law |
//! |---|---|
//! | what was acknowledged is stored when the lines were carried out, and no line takes an item away | [`acknowledged_is_stored`], [`runs_only_append`] |
//! | every run is serial. A session that commits was told, since its `begin`, the texts that its statements are told alone over the history just before its commit. What these want to store is stored, as one transaction | [`runs_are_serial`] |
//! | over bytes that hold what is filed a run begins over a sound world; it ends over one, and no line tells of an alteration | [`sound_bytes_begin_sound`], [`sound_runs_are_unaltered`] |
//! | a summary ends with the replies to the last two lines | [`last_two_are_told`] |
//!
//! Only tested: that memory is found where there is plenty of it, and how many replies a run has seen.
//!
//! ```rust
//! let mut seen = Seen::new();
//! let status = run_lines(alloc, id, false, &mut disk, &mut notary, &mut clock, &mut input, &mut out, &mut seen);
//! let status = run_make(alloc, id, seed, steps, &mut disk, &mut notary, &mut clock, &mut out, &mut seen);
//! let status = refuse(&mut out, Status::NotAStore);
//! ```
#![tactic(auto)]

mod laws;
mod make;
mod run;
mod run_fail;
mod runner;
mod saying;
mod seen;
mod status;

pub use laws::{
    acknowledged_is_stored, last_two_are_told, runs_are_serial, runs_only_append,
    sound_bytes_begin_sound, sound_runs_are_unaltered,
};
pub use make::run_make;
pub use run::run_lines;
pub use saying::{refuse, say};
pub use seen::{Refusal, Seen};
pub use status::Status;
