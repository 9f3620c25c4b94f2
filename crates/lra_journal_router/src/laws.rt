//! Laws of a journal set's router: public functions that do nothing, whose contracts say what follows from the
//! definitions.

ghost use Rattle.lra_journal_sets.specs.Counted.{name};
ghost use Rattle.lra_journal_sets.specs.Laws as laws;
ghost use Rattle.lra_journal_router.specs.Laws.{AnswersAreTurns, IdentifiersName, UnknownInstancesDeny, TwoAreRefused};
ghost use Rattle.lra_journal_router.specs.JournalRouters.{JournalRoutersIdle, JournalRoutersRun};
ghost use Rattle.lra_journal_router.specs.Serving.{names, Does, Lacks};

use crate::journal_router::Membership;
use lra_commands::{Counter, Session};
use lra_front::Clock;

/// Shows that a request names the instance whose identifier stands in its path, and a start that of its parent.
pub fn requests_name_instances()
    ensures { IdentifiersName }
{}

/// Shows that a coordinator denies each request that names another instance than its own.
pub fn unknown_instances_are_denied()
    ensures { UnknownInstancesDeny }
{}

/// Shows that a request that names one instance by its path and another by its body is refused by the instance that is
/// asked.
pub fn two_instances_are_refused()
    ensures { TwoAreRefused }
{}

/// Shows that each journal answers the requests that name it, each once and in order: to the journal they are a
/// connection over it alone, whatever the other journals are asked. A request that names a journal that isn't there is
/// denied, and reaches none. Each call of `respond` is a turn of such a run.
pub fn each_member_answers_its_own<C: Counter>()
    ensures turns { AnswersAreTurns C.gives }
    ensures chains { laws.EachHasItsChain name names (Does C.gives) Lacks }
    ensures others { laws.OthersAreLacking name names (Does C.gives) Lacks }
    ensures cut { laws.RunsCanBeCut name names (Does C.gives) Lacks }
{}

/// Shows that requests that a journal router answers one after another are turns of a run of its journal set, with
/// joins and leaves between them: so what holds of such runs holds of the members of a journal router. A request that
/// is refused while a member may be lacked is no turn of the run. Rests between the requests only add joins and leaves.
pub fn journal_routers_are_journal_sets<C: Session + Drop, H: Membership<C>, K: Clock>()
    ensures runs { JournalRoutersRun H.tells C.sight C.covers C.gives K.tells }
    ensures rests { JournalRoutersIdle H.tells C.sight C.covers C.gives K.tells }
{}
