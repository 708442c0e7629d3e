//! What sessions mean: what each of their lines does and is answered, and that every run of them is serial.
//!
//! A session reads what is committed, with its own changes over it, and its changes are stored by its commit
//! as one transaction. If it commits, it was told what its statements would have been told alone, one after
//! the other, over the history just before its commit. So it is in every run, whatever other lines,
//! notarizations, policies and openings of a store come between.
//!
//! Here are definitions, and laws about them. The only code is the order of places. What a statement means
//! over a store stands in `statement_core`, and is used for a line outside sessions and for one in a session
//! alike. `dragoon_app` says the law of whole runs of the program by these definitions.
//!
//! # Definitions
//!
//! | Definition | In words |
//! |---|---|
//! | `Place` | what is read: a key of a table, all keys of a table, or the existence of a table |
//! | `reads_of stmt` | of each table that a statement names its existence, and its key or all keys, refused or not |
//! | `touches op place` | an operation touches the key that it puts or removes, and the existence of the table that it creates |
//! | `say w pending stmt` | what a session is replied, and what is pending then: reads of now see the pending operations, those of a named moment, histories and queries over a span do not; a refusal of the tables comes before one of the size |
//! | `Service`, `Session` | a stored history and its sessions; each with the number of transactions at its begin, what it has read, and what is pending |
//! | `serve w line now` | the next service, and the answer: a reply, or that the session refused the line |
//! | `conflict w s` | the number of the first transaction stored since the begin that touches something read |
//! | `alone w stmts` | the replies to statements of one session, and what is pending, over a history that does not change |
//! | `Serial w logs turns` | at each commit of a run that is not refused, the session was told what its statements are told alone, over the history just before |
//! | `serial_run w logs turns` | the lines of a run without overlap: each session that commits stands in one piece at its commit, and all others are left out |
//! | `Machine`, `IsIn w m stand bytes` | what code keeps of sessions, and when it stands for a world with an open store |
//! | `StepsTo line now` | the contract of code that carries out a line, by `serve` |
//!
//! # Laws
//!
//! | Law | Clause |
//! |---|---|
//! | a statement is replied the same over a later history, if nothing stored between touches what it reads | `answers_stay` |
//! | every run is serial; its sessions could each have been in one piece; it is answered as its serial run and stores the same | `runs_are_serial`, `runs_are_in_pieces`, `runs_are_as_serial` |
//! | statements alone are those of one session, while no other line comes | `alone_is_one_session` |
//! | a conflict carries the first transaction that touches something read, by a number above that of the begin; what is read is a set | `conflicts_are_first`, `conflicts_are_since`, `numbers_are_places`, `reads_are_a_set`, `same_reads_conflict_alike`, `all_keys_cover_each` |
//! | NoSession, SessionOpen and Conflict come exactly by their causes | `refusals_are_exact` |
//! | only `ok N` changes the store, no line changes another session, a refused statement leaves what is pending | `steps_keep_promises`, `refused_leave_pending` |
//! | with nothing pending a read is replied as outside sessions; a commit stores and is replied as outside | `reads_are_alike`, `commits_are_alike` |
//! | what is pending has room in a transaction and fits the tables in turn, so a commit is refused for a conflict, the clock or a full store alone | `pending_has_room`, `room_is_enough`, `pending_fits` |
//! | numbers by place show the conflicts, from a begin on and with each transaction that is noted | `index_shows_conflicts`, `index_grows`, `index_begins`, `notes_keep_index`, `machines_find_conflicts` |
//! | a scan with operations over it needs one table | `one_table_is_enough` |
//! | runs worked by hand: a past read, a late read, the same row again, a full session, a clock that was set back, and others | `worked_examples` |
//!
//! No law has a premise on the file: its numbers and moments may be any.
#![tactic(auto)]

mod laws;
mod place;

pub use laws::{
    all_keys_cover_each, alone_is_one_session, answers_stay, commits_are_alike,
    conflicts_are_first, conflicts_are_since, index_begins, index_grows, index_shows_conflicts,
    machines_find_conflicts, notes_keep_index, numbers_are_places, one_table_is_enough,
    pending_fits, pending_has_room, reads_are_a_set, reads_are_alike, refusals_are_exact,
    refused_leave_pending, room_is_enough, runs_are_as_serial, runs_are_in_pieces, runs_are_serial,
    same_reads_conflict_alike, steps_keep_promises, worked_examples,
};
pub use place::Place;
