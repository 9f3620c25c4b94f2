//! The orders that operators gave.

ghost use Rattle.std.specs.Prelude.{◌≡◌, [], ◌∷◌, ◌++◌, IfSome};

use lra_commands::Order;
use lra_ids::Instance;
use lra_log::Log;

/// Orders that were given, each with the journal that it was given to. Only contracts read them.
#[derive(Drop)]
pub struct Given {
    pub log: Log<Instance, Order<'static>>,
}

/// Returns an order if operators may give it: a close or a cancel of an action, or the report of a member.
pub fn operators_order(order: &Order<'_>) -> Option<Order<'static>>
    ensures { IfSome result (λ own. own ≡ order.now) }
{
    match *order {
        Order::Close { action } => Some(Order::Close { action }),
        Order::Cancel { action } => Some(Order::Cancel { action }),
        Order::Report { member, ending } => Some(Order::Report { member, ending }),
        _ => None,
    }
}

impl Given {
    /// Makes a list of no orders.
    pub fn new() -> Given
        ensures { result.log.items ≡ [] }
    {
        Given { log: Log::new() }
    }

    /// Notes an order, with the journal that it was given to.
    pub fn note(&mut self, instance: Instance, order: &Order<'static>)
        ensures { self.new.log.items ≡ self.old.log.items ++ (instance, order.now) ∷ [] }
    {
        self.log = self.log.and(&instance, order);
    }
}
