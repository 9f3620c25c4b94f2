//! An office that many threads share, with one clerk of it.

ghost use Rattle.std.specs.Prelude.{◌≡◌, IfOk, IfErr};
ghost use Rattle.std.specs.Arc.{arc_value};
ghost use Rattle.lra_ticket.specs.Views.{newcomer};
ghost use Rattle.lra_office.specs.Clerks.{clerk_view, IsClerkOf};
ghost use Rattle.lra_office.specs.Enrolled.{IsEnrolled};
ghost use Rattle.lra_office.specs.Orders.{IsQueried, IsLookedAhead};
ghost use Rattle.lra_office.specs.Stops.{HasStopped};
ghost use Rattle.lra_office.specs.Windows.{IsOfficeOf};
ghost use Rattle.lra_courier.specs.CallbackPools.{AreFree};
ghost use Rattle.lra_workers.specs.Work.{post, TellsWhy};
ghost use Rattle.lra_workers.specs.CallbackExchange.{EndsCallbackWorker};
ghost use Rattle.lra_workers.specs.Handed.{AreHanded};

use lra_commands::{Counter, CounterFault, Order, Query, QueryResult, Refusal, Session, Told};
use lra_courier::CallbackPool;
use lra_front::Clock;
use lra_ids::{Base, Instance};
use lra_office::{Clerk, LockedService, OfficeOf, OfficeRefusal};
use lra_workers::{Gate, WorkerEnd, run_callback_worker};
use std::sync::{Arc, Wait};

/// Session of an office that many threads share, with one clerk of the office: orders are given to it as at a counter
/// of a thread's own. A thread may have several sessions, of different offices. An office ends with the last of its
/// sessions.
#[derive(Drop)]
pub struct OwnedSession<V: LockedService, R> {
    rt: R,
    office: Arc<OfficeOf<V>>,
    clerk: Clerk<V>,
    ghost there: { IsClerkOf (arc_value office).lock V.covers clerk },
    ghost made: { IsOfficeOf (V.setting (clerk_view clerk).origin) (arc_value office) },
}

impl<V: LockedService, R> OwnedSession<V, R> {
    /// Makes a session of an office, for a clerk of it.
    pub fn new(rt: R, office: Arc<OfficeOf<V>>, clerk: Clerk<V>) -> OwnedSession<V, R>
        requires there { IsClerkOf (arc_value office).lock V.covers clerk }
        requires made { IsOfficeOf (V.setting (clerk_view clerk).origin) (arc_value office) }
        ensures office { result.office ≡ office }
        ensures clerk { result.clerk ≡ clerk }
    {
        OwnedSession { rt, office, clerk }
    }
}

impl<V: LockedService, R: Wait + Clone + Drop> OwnedSession<V, R> {
    /// Enrols another clerk beside this session's clerk, and returns another session of the office for it. Whether this
    /// succeeds or not, this session's clerk stays as it is.
    pub fn fork(&mut self, moment: u64) -> Result<OwnedSession<V, R>, OfficeRefusal>
        ensures number { self.new.clerk.number ≡ self.old.clerk.number }
        ensures same { clerk_view self.new.clerk ≡ clerk_view self.old.clerk }
        ensures office { IfOk result (λ other. arc_value other.office ≡ arc_value self.old.office) }
        ensures enrolled { IfOk result (λ other. IsEnrolled (V.setting (clerk_view self.old.clerk).origin)
            (newcomer (clerk_view self.old.clerk)) moment other.clerk.number (clerk_view other.clerk)) }
    {
        let Ok(rt) = self.rt.clone() else {
            return Err(OfficeRefusal::Refused(Refusal::Memory));
        };
        let Ok(office) = Arc::try_clone(&self.office) else {
            drop(rt);
            return Err(OfficeRefusal::Refused(Refusal::Memory));
        };
        match self.office.enrol_beside(&self.rt, &mut self.clerk, moment) {
            Ok(clerk) => Ok(OwnedSession::new(rt, office, clerk)),
            Err(refusal) => {
                drop(rt);
                drop(office);
                Err(refusal)
            }
        }
    }

    /// Returns to its clerk what the query asks for, as `OfficeOf::query` does.
    pub fn query(&mut self, query: Query) -> Result<QueryResult, OfficeRefusal>
        ensures number { self.new.clerk.number ≡ self.old.clerk.number }
        ensures known { IsQueried (V.setting (clerk_view self.old.clerk).origin) (clerk_view self.old.clerk) query
            result (clerk_view self.new.clerk) }
    {
        self.office.query(&self.rt, &mut self.clerk, query)
    }

    /// Returns to its clerk the first moment at which something is due or late, as `OfficeOf::next_moment` does.
    pub fn next_moment(&mut self) -> Result<Option<u64>, OfficeRefusal>
        ensures number { self.new.clerk.number ≡ self.old.clerk.number }
        ensures next { IsLookedAhead (V.setting (clerk_view self.old.clerk).origin) (clerk_view self.old.clerk) result
            (clerk_view self.new.clerk) }
    {
        self.office.next_moment(&self.rt, &mut self.clerk)
    }

    /// Works as its clerk with many errands under way, as `run_callback_worker` does. Returns the clerk and why the
    /// work has
    /// ended.
    pub fn carry<C: CallbackPool, G: Gate, K: Clock>(
        self,
        callback_pool: &mut C,
        gate: &mut G,
        clock: &mut K,
    ) -> (Clerk<V>, WorkerEnd)
        requires none { AreFree (C.held callback_pool.old) }
        ensures clerk { IsClerkOf (arc_value self.office).lock V.covers result.0 }
        ensures number { result.0.number ≡ self.clerk.number }
        ensures work { EndsCallbackWorker V.setting C.gives K.tells (post (clerk_view self.clerk) clock.old) result.1
            (post (clerk_view result.0) clock.new) }
        ensures why { TellsWhy (G.is_shut gate.new) (G.holds gate.new)
            (HasStopped V.origin V.history V.lawful V.has_stopped (clerk_view result.0)) (clerk_view result.0).seen
            result.1 }
        ensures held { AreHanded V.covers (clerk_view result.0).seen (C.held callback_pool.new) }
    {
        let OwnedSession { rt, office, clerk } = self;
        run_callback_worker(&rt, &office, clerk, callback_pool, gate, clock)
    }

    /// Returns the office whole, with this clerk of it, if it has no other session: no order reaches the office any
    /// more. If it has another session, this one stays a session.
    pub fn close(self) -> Result<(OfficeOf<V>, Clerk<V>), OwnedSession<V, R>>
        ensures whole { IfOk result (λ parts. (parts.0 ≡ arc_value self.office) × (parts.1 ≡ self.clerk)) }
        ensures kept { IfErr result (λ session. (session.office ≡ self.office) × (session.clerk ≡ self.clerk)) }
    {
        let OwnedSession { rt, office, clerk } = self;
        match Arc::try_unwrap(office) {
            Ok(office) => {
                drop(rt);
                Ok((office, clerk))
            }
            Err(office) => Err(OwnedSession { rt, office, clerk }),
        }
    }
}

impl<V: LockedService, R: Wait> Counter for OwnedSession<V, R> {
    ghost use Rattle.lra_office.specs.Clerks.{sight_of};
    ghost use Rattle.lra_office.specs.Stops.{KeepsInTurn};

    ghost sight = { λ b. sight_of V.setting b.clerk };

    ghost gives = { KeepsInTurn V.setting V.origin V.history V.lawful V.has_stopped };

    ghost keeps = { λ before after moment o reply given. given.keeps };

    fn instance(&self) -> Instance {
        self.office.instance()
    }

    fn base(&self) -> &Base {
        self.office.base()
    }

    fn give(&mut self, moment: u64, order: &Order<'_>) -> Result<Told, CounterFault> {
        self.office
            .give_order(&self.rt, &mut self.clerk, moment, order)
    }
}

impl<V: LockedService, R: Wait> Session for OwnedSession<V, R> {
    ghost use Rattle.lra_office.specs.Clerks.{clerk_view};

    ghost covers = { λ b n. V.covers (clerk_view b.clerk).origin (clerk_view b.clerk).seen n };

    fn position(&self) -> u64 {
        self.clerk.position()
    }
}

/// Clerk of an office, for code that serves several offices, whatever their journals are written to.
pub trait JournalSession: Session {
    /// Enrols another clerk of the same office at a moment, in milliseconds. Returns its session, or why the office
    /// refuses it.
    fn fork(&mut self, moment: u64) -> Result<Self, OfficeRefusal>;

    /// Returns what the query asks for of the office's history, if the office reports it.
    fn query(&mut self, query: Query) -> Option<QueryResult>;

    /// Ends its office, if that has no other clerk: no order reaches the office any more. Otherwise returns the clerk.
    fn close(self) -> Result<(), Self>;

    /// Works as its clerk with many errands under way, until a gate lets no further turn be made. Returns why the work
    /// has ended.
    fn carry<C: CallbackPool, G: Gate, K: Clock>(
        self,
        callback_pool: &mut C,
        gate: &mut G,
        clock: &mut K,
    ) -> WorkerEnd
        requires none { AreFree (C.held callback_pool.old) };
}

impl<V: LockedService + Drop, R: Wait + Clone + Drop> JournalSession for OwnedSession<V, R> {
    fn fork(&mut self, moment: u64) -> Result<Self, OfficeRefusal> {
        OwnedSession::fork(self, moment)
    }

    fn query(&mut self, query: Query) -> Option<QueryResult> {
        match OwnedSession::query(self, query) {
            Ok(known) => Some(known),
            Err(_) => None,
        }
    }

    fn close(self) -> Result<(), Self> {
        match OwnedSession::close(self) {
            Ok((office, clerk)) => {
                drop(clerk);
                drop(office);
                Ok(())
            }
            Err(session) => Err(session),
        }
    }

    fn carry<C: CallbackPool, G: Gate, K: Clock>(
        self,
        callback_pool: &mut C,
        gate: &mut G,
        clock: &mut K,
    ) -> WorkerEnd {
        let (clerk, end) = OwnedSession::carry(self, callback_pool, gate, clock);
        drop(clerk);
        end
    }
}
