//! Requests to a journal set, each given to the counter that it names.

ghost use Rattle.lra_journal_sets.specs.Serving as spec;

use crate::journal_set::JournalSet;
use crate::visit::Giving;
use lra_commands::{Counter, CounterFault, Told};
use lra_ids::Instance;

/// Order, and the counter that it is given to: the newest, where none is named.
#[derive(Clone, Copy)]
pub struct Request<'a> {
    pub named: Option<Instance>,
    pub giving: Giving<'a>,
}

/// Gives a request's order to the counter that the request names, and returns the reply, if there is such a counter.
/// Every other counter stays as it is.
pub fn respond<C: Counter + Drop>(
    journal_set: &mut JournalSet<C>,
    request: &Request<'_>,
) -> Option<Result<Told, CounterFault>>
    ensures { spec.Serves C.gives journal_set.old (record { request = request.now; answer = result }) journal_set.new }
{
    let instance = match request.named {
        Some(instance) => instance,
        None => journal_set.newest(),
    };
    journal_set.visit(instance, &request.giving)
}
