//! Laws of every office: public functions that do nothing, whose contracts say what holds.

ghost use Rattle.lra_office.specs.Journals.{JournalsAreSound};
ghost use Rattle.lra_office.specs.Stops.{CallsAreStopped};

/// States that the whole lines of the journal have the verdict Sound and no other, whenever the lock is free, and
/// whatever was done before: `audit` never refuses them. While no write has failed they are all of it, and the text of
/// the history; after that they may go on with the first entries of one block.
pub fn journals_are_sound()
    ensures { JournalsAreSound }
{}

/// States what follows where nothing is appended any more, as with a scribe that has stopped: a command that would be
/// answered and write is refused, since the scribe has stopped or for want of memory.
pub fn calls_are_stopped()
    ensures { CallsAreStopped }
{}
