//! An office with one of its clerks, as a counter.

ghost use Rattle.std.specs.Prelude.{◌≡◌, []};
ghost use Rattle.lra_commands.specs.Counters.{Setting};
ghost use Rattle.lra_ticket.specs.Locks.{lock_id};
ghost use Rattle.lra_office.specs.Clerks.{clerk_view, IsClerkOf};
ghost use Rattle.lra_office.specs.Orders.{IsQueried};
ghost use Rattle.lra_office.specs.Windows.{IsOfficeOf};

use crate::clerk::Clerk;
use crate::fault::OfficeRefusal;
use crate::locked_service::LockedService;
use crate::office::OfficeOf;
use lra_commands::{Counter, CounterFault, Order, Query, QueryResult, Session, Told};
use lra_ids::{Base, Instance};
use std::marker::{Brand, PhantomData};
use std::sync::Wait;

/// Which lock a window's clerks ask for. It is fixed by the window's type, so it stays through a call that may put
/// another window in its place. A function over such a type is called at `Brand`, and the proof of that call says which
/// lock it is.
pub trait WhichLock {
    ghost use Rattle.atomic_table.specs.Seated.{TableId};

    // The lock.
    ghost lock: { TableId };
}

impl WhichLock for Brand {
    ghost lock = { record { words = 0; slots = 0; views_name = 0; atom = 0; block = 0; offset = 0; slot_names = [] } };
}

/// An office with one of its clerks, which gives its orders there as at a counter of its own.
pub struct Window<'a, V: LockedService, R, L: WhichLock> {
    rt: &'a R,
    office: &'a OfficeOf<V>,
    clerk: Clerk<V>,
    of: PhantomData<L>,
    ghost there: { IsClerkOf office.now.lock V.covers clerk },
    ghost made: { IsOfficeOf (V.setting (clerk_view clerk).origin) office.now },
    ghost here: { lock_id office.now.lock ≡ L.lock },
}

impl<'a, V: LockedService, R, L: WhichLock> Window<'a, V, R, L> {
    /// Makes a window of an office, for a clerk of it.
    pub fn new(rt: &'a R, office: &'a OfficeOf<V>, clerk: Clerk<V>) -> Window<'a, V, R, L>
        requires there { IsClerkOf office.now.lock V.covers clerk }
        requires made { IsOfficeOf (V.setting (clerk_view clerk).origin) office.now }
        requires here { lock_id office.now.lock ≡ L.lock }
        ensures { result.clerk ≡ clerk }
    {
        Window {
            rt,
            office,
            clerk,
            of: PhantomData,
        }
    }

    /// Returns its clerk, with what that has seen by now.
    pub fn into_clerk(self) -> Clerk<V>
        ensures clerk { result ≡ self.entry.clerk }
        ensures there { IsClerkOf self.entry.office.now.lock V.covers result }
        ensures here { lock_id self.entry.office.now.lock ≡ L.lock }
    {
        let Window {
            rt: _,
            office: _,
            clerk,
            of: _,
        } = self;
        clerk
    }
}

impl<V: LockedService, R: Wait, L: WhichLock> Window<'_, V, R, L> {
    /// Returns the result of its clerk's query, as `Office::query` does.
    pub fn query(&mut self, query: Query) -> Result<QueryResult, OfficeRefusal>
        ensures number { self.new.clerk.number ≡ self.old.clerk.number }
        ensures known { IsQueried (V.setting (clerk_view self.old.clerk).origin) (clerk_view self.old.clerk) query
            result (clerk_view self.new.clerk) }
    {
        self.office.query(self.rt, &mut self.clerk, query)
    }
}

impl<V: LockedService, R: Wait, L: WhichLock> Counter for Window<'_, V, R, L> {
    ghost use Rattle.lra_commands.specs.Counters.{Sight};
    ghost use Rattle.lra_office.specs.Clerks.{clerk_view};
    ghost use Rattle.lra_office.specs.Stops.{KeepsInTurn};

    ghost sight = { λ w. record {
      setting = V.setting (clerk_view w.clerk).origin;
      number = w.clerk.number;
      seen =
          (clerk_view w.clerk).seen;
    } };

    ghost gives = { KeepsInTurn V.setting V.origin V.history V.lawful V.has_stopped };

    ghost keeps = { λ before after moment o reply given. given.keeps };

    fn instance(&self) -> Instance {
        self.office.instance()
    }

    fn base(&self) -> &Base {
        self.office.base()
    }

    fn give(&mut self, moment: u64, order: &Order<'_>) -> Result<Told, CounterFault> {
        self.office
            .give_order(self.rt, &mut self.clerk, moment, order)
    }
}

impl<V: LockedService, R: Wait, L: WhichLock> Session for Window<'_, V, R, L> {
    ghost use Rattle.lra_office.specs.Clerks.{clerk_view};

    ghost covers = { λ w n. V.covers (clerk_view w.clerk).origin (clerk_view w.clerk).seen n };

    fn position(&self) -> u64 {
        self.clerk.position()
    }
}
