//! Orders that requests ask for, and how they are given.

ghost use Rattle.std.specs.Prelude.{◌≡◌, string_bytes};
ghost use Rattle.lra_overview.specs.Orders.{Gives};
ghost use Rattle.lra_operators.specs.declared.operation.Operation.TheVariants as operation;
ghost use Rattle.lra_operators.specs.inner.Targets.{Orders};

use crate::forms::in_form;
use crate::operation::Operation;
use crate::route::{id_in, path_in};
use crate::telling::{action_named, find_named};
use lra_commands::{Order, Refusal, Told};
use lra_ids::Instance;
use lra_model::{Ending, Memory};
use lra_overview::{Overview, Trouble};
use lra_wire::RequestRead;
use serde_json::Value;
use std::alloc::Global;

/// Way of giving a member up.
#[derive(Clone, Copy, PartialEq, Eq)]
enum GivingUp {
    /// The member ends with a failure, as it would report itself.
    Ends(Ending),
    /// The member has ended, and isn't told any more that its action has.
    Untold,
}

/// Returns the way of giving a member up that a word names.
fn giving_up_named(word: &str) -> Option<GivingUp> {
    if word == "Ended" {
        return Some(GivingUp::Untold);
    }
    match Ending::from_name(word.as_bytes()) {
        Some(ending) => Some(GivingUp::Ends(ending)),
        None => None,
    }
}

/// Returns the way of giving a member up that a body asks for. The body is a form, or an object of JSON.
fn giving_up_in(alloc: Global, body: &[u8]) -> Result<Option<GivingUp>, Memory> {
    if let Some(word) = in_form(alloc, body, "status")? {
        return Ok(giving_up_named(word.as_str()));
    }
    match Value::from_slice(alloc, body) {
        Ok(told) => {
            let given = match told.get("status").and_then(Value::as_str) {
                Some(word) => giving_up_named(word),
                None => None,
            };
            drop(told);
            Ok(given)
        }
        Err(error) if error.is_memory() => Err(Memory),
        Err(_) => Ok(None),
    }
}

/// Gives an order to a journal.
fn give<O: Overview>(
    overview: &mut O,
    instance: Instance,
    order: &Order<'_>,
) -> Result<Told, Trouble>
    ensures { Gives instance order.now (O.orders overview.old) (O.orders overview.new) }
{
    match overview.give(instance, order) {
        Ok(told) => Ok(told),
        Err(fault) => Err(Trouble::from(fault)),
    }
}

/// Closes the action that a target names.
fn close<O: Overview>(overview: &mut O, target: &str) -> Result<Told, Trouble>
    ensures { Orders target.now operation.Close (O.orders overview.old) (O.orders overview.new) }
{
    let found = action_named(overview, target)?;
    let action = found.number;
    give(overview, found.instance, &Order::Close { action })
}

/// Cancels the action that a target names.
fn cancel<O: Overview>(overview: &mut O, target: &str) -> Result<Told, Trouble>
    ensures { Orders target.now operation.Cancel (O.orders overview.old) (O.orders overview.new) }
{
    let found = action_named(overview, target)?;
    let action = found.number;
    give(overview, found.instance, &Order::Cancel { action })
}

/// Stops the asks of a member that has ended.
fn end_asking<O: Overview>(
    overview: &mut O,
    instance: Instance,
    member: u64,
) -> Result<Told, Trouble>
    ensures { O.orders overview.new ≡ O.orders overview.old }
{
    match overview.end_asking(instance, member) {
        Ok(()) => Ok(Told::Idle),
        Err(fault) => Err(Trouble::from(fault)),
    }
}

/// Gives up the member that a target names: ends it with a failure, or stops its asks if it has ended.
fn give_up<O: Overview>(
    overview: &mut O,
    target: &str,
    given: Option<GivingUp>,
) -> Result<Told, Trouble>
    ensures { Orders target.now operation.GiveUp (O.orders overview.old) (O.orders overview.new) }
{
    let Some(found) = find_named(overview, id_in(path_in(target))) else {
        return Err(Trouble::Refused(Refusal::NoSuchMember));
    };
    let member = found.number;
    match given {
        Some(GivingUp::Untold) => end_asking(overview, found.instance, member),
        Some(GivingUp::Ends(Ending::FailedToComplete)) => {
            let ending = Ending::FailedToComplete;
            give(overview, found.instance, &Order::Report { member, ending })
        }
        Some(GivingUp::Ends(Ending::FailedToCompensate)) => {
            let ending = Ending::FailedToCompensate;
            give(overview, found.instance, &Order::Report { member, ending })
        }
        _ => Err(Trouble::Refused(Refusal::BadAddresses)),
    }
}

/// Gives an operation's order for the action or member that a target names.
fn order_of<O: Overview>(
    overview: &mut O,
    target: &str,
    operation: Operation,
    given: Option<GivingUp>,
) -> Result<Told, Trouble>
    ensures { Orders target.now operation (O.orders overview.old) (O.orders overview.new) }
{
    match operation {
        Operation::Close => close(overview, target),
        Operation::Cancel => cancel(overview, target),
        Operation::GiveUp => give_up(overview, target, given),
        _ => Err(Trouble::Refused(Refusal::NoSuchAction)),
    }
}

/// Gives the order of the operation that a request asks for.
pub(crate) fn order_at<O: Overview>(
    alloc: Global,
    overview: &mut O,
    request: &RequestRead,
    operation: Operation,
) -> Result<Told, Trouble>
    ensures { Orders (string_bytes request.now.target) operation (O.orders overview.old) (O.orders overview.new) }
{
    let given = giving_up_in(alloc, request.body.as_slice())?;
    order_of(overview, request.target.as_str(), operation, given)
}
