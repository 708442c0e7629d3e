//! What the steps of a world keep, each law the contract of a function that does nothing.

ghost use Rattle.store_world.specs.Laws.{SoundWorldsStaySound};
ghost use Rattle.store_world.specs.Appending.{StepsAcknowledge, StepsOnlyAppend};

/// A world whose store is what was filed stays so at every line, and no line tells of an alteration.
pub fn sound_worlds_stay_sound()
    ensures { SoundWorldsStaySound }
{}

/// A line that is replied `ok N` leaves a store that has the transaction N.
pub fn steps_acknowledge()
    ensures { StepsAcknowledge }
{}

/// No line takes an item away, or changes one.
pub fn steps_only_append()
    ensures { StepsOnlyAppend }
{}
