//! Laws of journal sets: public functions that do nothing, whose contracts say what follows from the definitions.

ghost use Rattle.lra_journal_sets.specs.Counted.{name};
ghost use Rattle.lra_journal_sets.specs.JournalSets.{newest};
ghost use Rattle.lra_journal_sets.specs.Laws as laws;
ghost use Rattle.lra_journal_sets.specs.Serving.{names, Does, Lacks};
ghost use Rattle.lra_journal_sets.specs.Known.{EachKeepsHistories};

use lra_commands::Counter;

/// States that when one member changes, leaves or joins, every other stays as it was.
pub fn members_are_apart<C: Counter>()
    ensures moving { laws.MovingPutsOne name }
    ensures leaving { laws.LeavingTakesOne name }
    ensures joining { laws.JoiningAddsOne name }
{}

/// States that each member gets the requests that name it, each once and in order. Requests that name an instance which
/// no member has get no reply.
pub fn each_member_has_its_chain<C: Counter>()
    ensures chains { laws.EachHasItsChain name names (Does C.gives) Lacks }
    ensures others { laws.OthersAreLacking name names (Does C.gives) Lacks }
    ensures cut { laws.RunsCanBeCut name names (Does C.gives) Lacks }
{}

/// States that no instance that a journal set ever had comes back, whatever is given, joins and leaves.
pub fn instances_never_come_back<C: Counter>()
    ensures { laws.InstancesAreApart name names (Does C.gives) Lacks }
{}

/// States that what is known of one counter holds of each member of a journal set, at the requests that name it. It
/// answers by the definitions at a history that begins with all that it had seen.
pub fn what_is_known_of_one_is_known_of_each<C: Counter>()
    ensures { EachKeepsHistories C.gives }
{}
