//! Laws of every run.

ghost use Rattle.lra_rotation.specs.Laws as law;
ghost use Rattle.lra_rotation.specs.Steps as steps;

/// Proves that no instance is used twice, whatever the clock tells, and wherever a run is broken off.
pub fn gives_none_twice()
    ensures { law.GivesNoneTwice }
{}

/// Proves that there is one newest journal at most, and that it is greater than all others.
pub fn keeps_one_newest()
    ensures { law.KeepsOneNewest }
{}

/// Proves that the newest journal alone accepts new work that names none, or that a true reason is told.
pub fn takes_or_tells()
    ensures { law.TakesOrTells }
{}

/// Proves that a worker begins new work that names no journal in the newest alone, and only with a session there.
pub fn answers_at_the_newest()
    ensures { law.AnswersAtTheNewest }
{}

/// Proves that a journal that gave up its place as the newest never accepts new work again, over starts too.
pub fn takers_ascend()
    ensures { law.TakersAscend }
{}

/// Proves that a closed journal stays closed, over a start too that observes again that it is near its end.
pub fn closed_stays_closed()
    ensures { law.ClosedStaysClosed }
{}

/// Proves that nothing is begun in what a folder had when it was restored, at no later start either.
pub fn begins_nothing_retired()
    ensures { law.BeginsNothingRetired }
{}

/// Proves that a journal on disk is neither lost nor removed, whatever is done, fails, or is broken off.
pub fn loses_no_journal()
    ensures { law.LosesNone }
{}

/// Proves that each journal in use on disk is known, or comes next, and that each in the set is in use on disk.
pub fn knows_all()
    ensures { law.KnowsAll }
{}

/// Proves that a journal is archived only if it is older than the newest, done, and quiet for long enough, nobody is at
/// work in it, no pause after a failure is left, and no worker has a session in it.
pub fn archives_what_is_done()
    ensures { law.ArchivesWhatIsDone }
{}

/// Proves that a journal in which a worker has a session is in use on disk.
pub fn holds_what_stands()
    ensures { law.HoldsWhatStands }
{}

/// Proves that what was begun, by whichever worker, is in a journal in use until it ends, as long as no observation
/// says of a journal at work that it is done.
pub fn loses_nothing_begun()
    ensures { law.LosesNothingBegun }
{}

/// Proves that a failure advances nothing.
pub fn fails_in_place()
    ensures { law.FailsInPlace }
{}

/// Proves that what has failed is tried again.
pub fn tries_again()
    ensures { law.TriesAgain }
{}

/// Proves that a service ends by itself only if it drains, its newest journal is done, and each older one is done and
/// couldn't be archived.
pub fn ends_what_is_drained()
    ensures { law.EndsWhatIsDrained }
{}

/// Proves that a service that drains and has nothing left to do goes on to its end.
pub fn ends_once_drained()
    ensures { law.EndsOnceDrained }
{}

/// Proves that a journal that is to leave isn't held up by the next one, which may fail again and again.
pub fn leaves_before_rolling()
    ensures { law.LeavesBeforeRolling }
{}

/// Proves that a service that doesn't roll, as that of one file, prepares no journal and archives none.
pub fn never_rotates_a_file()
    ensures { law.NeverRotates }
{}

/// Proves that a file has its one journal in service, whatever comes.
pub fn keeps_the_file()
    ensures { law.KeepsTheFile }
{}

/// Proves that a step of a service is an event of its world, so that these laws hold of a service that only steps, and
/// whose workers follow and refuse.
pub fn steps_are_events()
    ensures { steps.StepsAreEvents }
{}
