//! What the lines of a run keep, each law the contract of a function that does nothing.

ghost use Rattle.line_runs.specs.Laws.{AcknowledgedIsStored, RunsOnlyAppend, SoundBytesBeginSound, SoundRunsAreUnaltered, LastTwoAreTold};
ghost use Rattle.line_runs.specs.Serial.{RunsAreSerial};

use history_model::stored_is_history;
use store_world::sound_worlds_stay_sound;

/// A run over bytes that hold what is filed begins over a sound world.
pub fn sound_bytes_begin_sound()
    ensures { SoundBytesBeginSound }
{
    stored_is_history();
}

/// A run that begins over a sound world ends over one, and none of its lines tells of an alteration.
pub fn sound_runs_are_unaltered()
    ensures { SoundRunsAreUnaltered }
{
    sound_worlds_stay_sound();
}

/// A transaction of which `ok N` was replied is stored when the lines were carried out, as the N-th.
pub fn acknowledged_is_stored()
    ensures { AcknowledgedIsStored }
{}

/// Every run is serial: a session that commits was told what its statements are told alone, one after
/// the other, over the history just before its commit, and what they want to store is stored.
pub fn runs_are_serial()
    ensures { RunsAreSerial }
{}

/// No line of a run takes an item away, or changes one.
pub fn runs_only_append()
    ensures { RunsOnlyAppend }
{}

/// A summary of `make` ends with the replies to the last two lines.
pub fn last_two_are_told()
    ensures { LastTwoAreTold }
{}
