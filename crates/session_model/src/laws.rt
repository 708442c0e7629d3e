//! What holds of sessions, each law the contract of a function that does nothing.

ghost use Rattle.session_model.specs.Examples.{WorkedExamples};
ghost use Rattle.session_model.specs.Index.{IndexBegins, NotesKeepIndex, NumbersArePlaces, ConflictsAreSince, IndexShowsConflicts, IndexGrows};
ghost use Rattle.session_model.specs.Standing.{MachinesFindConflicts};
ghost use Rattle.session_model.specs.Later.{AnswersStay};
ghost use Rattle.session_model.specs.Serial.{RunsAreSerial};
ghost use Rattle.session_model.specs.Pieces.{AloneIsOneSession, RunsAreInPieces, RunsAreAsSerial};
ghost use Rattle.session_model.specs.Conflicts.{ConflictsAreFirst, ReadsAreASet, SameReadsConflictAlike, AllKeysCoverEach};
ghost use Rattle.session_model.specs.Promises.{RefusalsAreExact, StepsKeepPromises, RefusedLeavePending, ReadsAreAlike, CommitsAreAlike};
ghost use Rattle.session_model.specs.Pending.{PendingHasRoom, RoomIsEnough, PendingFits};
ghost use Rattle.session_model.specs.OneTable.{OneTableIsEnough};

/// A statement is replied over a later history as over an earlier one, where no transaction between
/// touches what it reads.
pub fn answers_stay()
    ensures { AnswersStay }
{}

/// What a session that commits was told is what its statements are told alone, over the history just
/// before its commit.
pub fn runs_are_serial()
    ensures { RunsAreSerial }
{}

/// Statements alone are those of one session, while no other line comes.
pub fn alone_is_one_session()
    ensures { AloneIsOneSession }
{}

/// A session that commits could have been in one piece, at the place of its commit: each statement would
/// have been answered the same, and the same would be stored.
pub fn runs_are_in_pieces()
    ensures { RunsAreInPieces }
{}

/// A run is answered as a serial one, in which each session that commits stands in one piece at the place
/// of its commit and all others are left out, and the same is stored.
pub fn runs_are_as_serial()
    ensures { RunsAreAsSerial }
{}

/// A conflict carries the first transaction that touches something that was read.
pub fn conflicts_are_first()
    ensures { ConflictsAreFirst }
{}

/// What was read is a set: its order does not count, nor how often a place is there.
pub fn reads_are_a_set()
    ensures { ReadsAreASet }
{}

/// Places that touch the same operations conflict alike.
pub fn same_reads_conflict_alike()
    ensures { SameReadsConflictAlike }
{}

/// Where all keys of a table were read, each of them was.
pub fn all_keys_cover_each()
    ensures { AllKeysCoverEach }
{}

/// NoSession, SessionOpen and Conflict come exactly by their causes.
pub fn refusals_are_exact()
    ensures { RefusalsAreExact }
{}

/// A number that is answered is that of a new last transaction. Every other answer leaves the store, and
/// no line changes another session.
pub fn steps_keep_promises()
    ensures { StepsKeepPromises }
{}

/// A refused statement leaves what is pending.
pub fn refused_leave_pending()
    ensures { RefusedLeavePending }
{}

/// Where nothing is pending, a statement that only reads is replied as outside sessions.
pub fn reads_are_alike()
    ensures { ReadsAreAlike }
{}

/// A commit stores what the same operations store outside sessions, and is replied the same.
pub fn commits_are_alike()
    ensures { CommitsAreAlike }
{}

/// What is pending has room in a transaction.
pub fn pending_has_room()
    ensures { PendingHasRoom }
{}

/// So a commit is refused for a conflict, the clock or a full store, and for nothing else.
pub fn room_is_enough()
    ensures { RoomIsEnough }
{}

/// What a session that was alone wants to store fits the tables.
pub fn pending_fits()
    ensures { PendingFits }
{}

/// The transactions that are stored since a begin are numbered by their places.
pub fn numbers_are_places()
    ensures { NumbersArePlaces }
{}

/// So a conflict carries the number of one of them.
pub fn conflicts_are_since()
    ensures { ConflictsAreSince }
{}

/// The numbers of the transactions that touched a place, for each place, show the conflicts.
pub fn index_shows_conflicts()
    ensures { IndexShowsConflicts }
{}

/// A transaction more puts its number behind those of the places that it touches.
pub fn index_grows()
    ensures { IndexGrows }
{}

/// A table behind operations is made of that table alone.
pub fn one_table_is_enough()
    ensures { OneTableIsEnough }
{}

/// Nothing noted is an index that begins now.
pub fn index_begins()
    ensures { IndexBegins }
{}

/// With the operations of the next transaction noted an index is one of that too.
pub fn notes_keep_index()
    ensures { NotesKeepIndex }
{}

/// What code finds that keeps places and notes the numbers of each is the conflict.
pub fn machines_find_conflicts()
    ensures { MachinesFindConflicts }
{}

/// The definitions give the worked examples.
pub fn worked_examples()
    ensures { WorkedExamples }
{}
