//! Operators' view of an office.

use crate::service_state::ServiceState;
use lra_clocks::{Clock as SteadyClock, SystemClock};
use lra_commands::{Counter, CounterFault, Order, Query, QueryResult, Refusal, Told};
use lra_ids::{Base, Instance};
use lra_model::Memory;
use lra_office::{LockedService, OfficeRefusal, WhichLock, Window};
use lra_operators_server::{Given, operators_order};
use lra_outcomes::Attempt;
use lra_overview::{Facts, Overview};
use std::alloc::Global;
use std::sync::Wait;
use std::time::Clock;

/// Operators' view: a window of the office, and what is known beside its history.
pub(crate) struct OperatorsView<'w, 's, 'a, V: LockedService, R, L: WhichLock, H> {
    window: Window<'w, V, R, L>,
    service_state: &'s ServiceState<'a, R, H>,
    clock: SystemClock<'a, R>,
    given: Given,
}

/// Returns the counter's fault for an office's refusal.
fn fault_of(refusal: OfficeRefusal) -> CounterFault {
    match refusal {
        OfficeRefusal::Refused(refusal) => CounterFault::Refused(refusal),
        OfficeRefusal::Worn => CounterFault::Worn,
    }
}

impl<'w, 's, 'a, V: LockedService, R, L: WhichLock, H> OperatorsView<'w, 's, 'a, V, R, L, H> {
    /// Returns a view that has given no order.
    pub(crate) fn new(
        window: Window<'w, V, R, L>,
        service_state: &'s ServiceState<'a, R, H>,
        clock: SystemClock<'a, R>,
    ) -> OperatorsView<'w, 's, 'a, V, R, L, H> {
        OperatorsView {
            window,
            service_state,
            clock,
            given: Given::new(),
        }
    }

    /// Returns the view's window.
    pub(crate) fn into_window(self) -> Window<'w, V, R, L> {
        let OperatorsView {
            window,
            service_state: _,
            clock,
            given,
        } = self;
        drop(clock);
        drop(given);
        window
    }
}

impl<V: LockedService, R: Wait + Clock, L: WhichLock, H> Overview
    for OperatorsView<'_, '_, '_, V, R, L, H> {
    ghost orders = { λ w. w.given.log.items };

    fn instance(&self, place: u64) -> Option<Instance> {
        if place == 0 {
            Some(self.window.instance())
        } else {
            None
        }
    }

    fn base(&self) -> &Base {
        self.window.base()
    }

    fn catch_up(&mut self) {}

    fn facts(&mut self) -> Facts {
        let moment = self.clock.now();
        self.service_state.facts(self.window.instance(), moment)
    }

    fn put_tallies(&mut self, page: &mut Vec<u8>) -> Result<(), Memory> {
        self.service_state.measure.tallies.put(page)
    }

    fn query(&mut self, _instance: Instance, query: Query) -> Result<QueryResult, CounterFault> {
        match self.window.query(query) {
            Ok(known) => Ok(known),
            Err(refusal) => Err(fault_of(refusal)),
        }
    }

    fn attempt(
        &mut self,
        alloc: Global,
        _instance: Instance,
        member: u64,
    ) -> Result<Option<Attempt>, Memory> {
        self.service_state
            .outcomes
            .find(self.service_state.rt, alloc, member)
    }

    fn has_given_up(&self, _instance: Instance, member: u64) -> bool {
        self.service_state
            .outcomes
            .is_given_up(self.service_state.rt, member)
    }

    fn give(&mut self, instance: Instance, order: &Order<'_>) -> Result<Told, CounterFault> {
        let Some(own) = operators_order(order) else {
            return Err(CounterFault::Refused(Refusal::NotAsked));
        };
        self.given.note(instance, &own);
        let moment = self.clock.now();
        match self.window.give(moment, &own) {
            // Nothing is reported of the order before it is durable.
            Ok(told) if self.service_state.sync_all() => Ok(told),
            Ok(_) => Err(CounterFault::Refused(Refusal::Stopped)),
            Err(fault) => Err(fault),
        }
    }

    fn end_asking(&mut self, instance: Instance, member: u64) -> Result<(), CounterFault> {
        let _known = self.query(instance, Query::MemberStatus { member })?;
        match self
            .service_state
            .outcomes
            .give_up(self.service_state.rt, member)
        {
            Ok(()) => Ok(()),
            Err(_) => Err(CounterFault::Refused(Refusal::Memory)),
        }
    }
}
