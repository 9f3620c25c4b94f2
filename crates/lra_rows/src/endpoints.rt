//! The endpoints of members, by their numbers.

ghost use Rattle.std.specs.Prelude.{◌≡◌, ℕ, ◌^◌, true, length, option_map, IfSome, OnOk, vec_capacity};
ghost use Rattle.std.specs.Option.{option_map_or};
ghost use Rattle.lra_model.specs.Words.{is_undecided};
ghost use Rattle.lra_laws.specs.Rows.{row_at, change_row};
ghost use Rattle.lra_rows.specs.Rowed.{is_ready_at};
ghost use Rattle.lra_rows.specs.Steps.{without_last};
ghost use Rattle.lra_rows.specs.inner.Counts.{RepeatsTo};
ghost use Rattle.lra_rows.specs.inner.Reached.{Reached, endpoints_in, ready_in, answered, stages_back};

use crate::endpoint::{Asked, Endpoint, Repeats, stage_of};
use crate::lists::{add, lent, place_of, reserve_one, takes_one};
use crate::packed_addresses::PackedAddresses;
use crate::step::Repeated;
use lra_model::{AskKind, Memory, Outcome};
use std::alloc::Global;
use std::marker::Model;

/// Counts the outcome of an ask in the repeats of its member. Returns those as they were, if the member is there.
fn answer(rows: &mut Vec<Endpoint>, moment: u64, outcome: Outcome, asked: Asked) -> Option<Repeated>
    requires few { (p : ℕ) → IfSome (row_at (endpoints_in rows.old.items) p) (RepeatsTo (2 ^ 63)) }
    requires ready { is_undecided outcome ≡ true → is_ready_at (ready_in rows.old.items) asked.member ≡ true }
    ensures items { rows.new.items ≡ change_row (answered moment outcome asked) asked.member rows.old.items }
    ensures back { stages_back result rows.new.items ≡ rows.old.items }
    ensures capacity { vec_capacity rows.new ≡ vec_capacity rows.old }
{
    let Some(place) = place_of(asked.member) else {
        return None;
    };
    match rows.get_mut(place) {
        Some(endpoint) => {
            let stage = stage_of(asked.kind, asked.direction);
            let repeats = endpoint.repeats(stage);
            endpoint.answer(moment, outcome, asked);
            Some(Repeated {
                member: asked.member,
                stage,
                repeats,
            })
        }
        None => None,
    }
}

/// Puts a member's repeats back as they were, where there is a place for them.
fn restore(rows: &mut Vec<Endpoint>, repeated: Option<Repeated>)
    ensures items { rows.new.items ≡ stages_back repeated rows.old.items }
    ensures capacity { vec_capacity rows.new ≡ vec_capacity rows.old }
{
    let Some(repeated) = repeated else {
        return;
    };
    let Some(place) = place_of(repeated.member) else {
        return;
    };
    if let Some(endpoint) = rows.get_mut(place) {
        endpoint.put(repeated.stage, repeated.repeats);
    }
}

/// Makes a place for the repeats of a member, if it is there.
fn make_ready(alloc: Global, rows: &mut Vec<Endpoint>, number: u64) -> Result<(), Memory>
    ensures same { endpoints_in rows.new.items ≡ endpoints_in rows.old.items }
    ensures capacity { vec_capacity rows.new ≡ vec_capacity rows.old }
    ensures ok { OnOk result (is_ready_at (ready_in rows.new.items) number ≡ true) }
    ensures kept { (n : ℕ) → is_ready_at (ready_in rows.old.items) n ≡ true → is_ready_at (ready_in rows.new.items) n
        ≡ true }
{
    let Some(place) = place_of(number) else {
        return Ok(());
    };
    match rows.get_mut(place) {
        Some(endpoint) => endpoint.reserve(alloc),
        None => Ok(()),
    }
}

/// Removes the last one, if there is one, and returns its addresses.
fn remove_last(rows: &mut Vec<Endpoint>) -> Option<PackedAddresses>
    ensures items { rows.new.items ≡ without_last rows.old.items }
    ensures uris { result ≡ option_map (λ (r : Reached). r.endpoint.addresses)
        (row_at rows.old.items (length rows.old.items)) }
    ensures capacity { vec_capacity rows.new ≡ vec_capacity rows.old }
{
    match rows.pop() {
        Some(endpoint) => Some(endpoint.uris),
        None => None,
    }
}

/// The endpoint of each member, in the order of their numbers, which are counted from 1.
#[derive(Drop)]
pub(crate) struct Endpoints {
    rows: Vec<Endpoint>,
}

impl Model for Endpoints {
    ghost use Rattle.std.specs.Prelude.{vec_capacity};
    ghost use Rattle.lra_rows.specs.inner.Reached.{Reachable, endpoints_in, ready_in};

    ghost Value = { Reachable };

    ghost view = { λ c. record {
      items = endpoints_in c.rows.items;
      capacity = vec_capacity c.rows;
      ready =
          ready_in c.rows.items;
    } };
}

impl Endpoints {
    ghost use Rattle.std.specs.Prelude.{◌≡◌, ℕ, ◌^◌, ◌++◌, ◌∷◌, [], true, false, length, option_map, IfSome, OnOk};
    ghost use Rattle.std.specs.Option.{option_copied, option_map_or};
    ghost use Rattle.lra_model.specs.Words.{is_undecided};
    ghost use Rattle.lra_laws.specs.Rows.{row_at, change_row};
    ghost use Rattle.lra_laws.specs.Snapshots as snapshots;
    ghost use Rattle.lra_rows.specs.Rowed.{takes_one, is_ready_at};
    ghost use Rattle.lra_rows.specs.Steps.{without_last, repeats_back};
    ghost use Rattle.lra_rows.specs.inner.Counts.{RepeatsTo};
    ghost use Rattle.lra_rows.specs.inner.Held.{repeats_at};

    pub(crate) fn new(alloc: Global) -> Endpoints
        ensures items { result.items ≡ [] }
        ensures ready { result.ready ≡ [] }
    {
        Endpoints {
            rows: Vec::new(alloc),
        }
    }

    /// Returns the addresses of a member, if it is there.
    pub(crate) fn addresses(&self, number: u64) -> Option<&PackedAddresses>
        ensures { option_copied result ≡ option_map (λ (c : snapshots.Endpoint). c.addresses)
            (row_at self.now.items number) }
    {
        match lent(&self.rows, number) {
            Some(endpoint) => Some(&endpoint.uris),
            None => None,
        }
    }

    /// Returns the repeats of a member in a stage; none where the member isn't there.
    pub(crate) fn repeats(&self, number: u64, stage: AskKind) -> Repeats
        ensures { result ≡ option_map_or (repeats_at stage) (row_at self.now.items number) snapshots.no_repeats }
    {
        match lent(&self.rows, number) {
            Some(endpoint) => endpoint.repeats(stage),
            None => Repeats::NONE,
        }
    }

    /// Returns whether there is room for one more.
    pub(crate) fn take_one(&self) -> bool
        ensures { result ≡ takes_one self.now.items self.now.capacity }
    {
        takes_one(&self.rows)
    }

    /// Makes room for one more.
    pub(crate) fn reserve_one(&mut self) -> Result<(), Memory>
        ensures items { self.new.items ≡ self.old.items }
        ensures ready { self.new.ready ≡ self.old.ready }
        ensures ok { OnOk result (takes_one self.new.items self.new.capacity ≡ true) }
        ensures kept { takes_one self.old.items self.old.capacity ≡ true → takes_one self.new.items self.new.capacity
            ≡ true }
    {
        reserve_one(&mut self.rows)
    }

    /// Returns whether there is a place for the repeats of a member, if it is there.
    pub(crate) fn is_ready(&self, number: u64) -> bool
        ensures { result ≡ is_ready_at self.now.ready number }
    {
        match lent(&self.rows, number) {
            Some(endpoint) => endpoint.is_ready(),
            None => true,
        }
    }

    /// Makes a place for the repeats of a member, if it is there.
    pub(crate) fn make_ready(&mut self, alloc: Global, number: u64) -> Result<(), Memory>
        ensures items { self.new.items ≡ self.old.items }
        ensures capacity { self.new.capacity ≡ self.old.capacity }
        ensures ok { OnOk result (is_ready_at self.new.ready number ≡ true) }
        ensures kept { (n : ℕ) → is_ready_at self.old.ready n ≡ true → is_ready_at self.new.ready n ≡ true }
    {
        make_ready(alloc, &mut self.rows, number)
    }

    /// Adds a member that has just joined, for which there is room.
    pub(crate) fn add(&mut self, uris: PackedAddresses)
        requires { takes_one self.old.items self.old.capacity ≡ true }
        ensures items { self.new.items ≡ self.old.items ++ snapshots.new_endpoint uris ∷ [] }
        ensures capacity { self.new.capacity ≡ self.old.capacity }
        ensures ready { self.new.ready ≡ self.old.ready ++ false ∷ [] }
    {
        add(&mut self.rows, Endpoint::new(uris));
    }

    /// Removes the last member, if there is one, and returns its addresses.
    pub(crate) fn remove_last(&mut self) -> Option<PackedAddresses>
        ensures items { self.new.items ≡ without_last self.old.items }
        ensures uris { result ≡ option_map (λ (c : snapshots.Endpoint). c.addresses)
            (row_at self.old.items (length self.old.items)) }
        ensures capacity { self.new.capacity ≡ self.old.capacity }
        ensures ready { self.new.ready ≡ without_last self.old.ready }
    {
        remove_last(&mut self.rows)
    }

    /// Counts the outcome of an ask in the repeats of its member, for which there is a place where they change. Returns
    /// those as they were, if the member is there.
    pub(crate) fn answer(&mut self, moment: u64, outcome: Outcome, asked: Asked) -> Option<Repeated>
        requires few { (p : ℕ) → IfSome (row_at self.old.items p) (RepeatsTo (2 ^ 63)) }
        requires ready { is_undecided outcome ≡ true → is_ready_at self.old.ready asked.member ≡ true }
        ensures items { self.new.items ≡ change_row (snapshots.with_answer moment outcome asked) asked.member
            self.old.items }
        ensures ready { self.new.ready ≡ self.old.ready }
        ensures back { repeats_back result self.new.ready self.new.items ≡ self.old.items }
        ensures capacity { self.new.capacity ≡ self.old.capacity }
    {
        answer(&mut self.rows, moment, outcome, asked)
    }

    /// Puts a member's repeats back as they were, where there is a place for them.
    pub(crate) fn restore(&mut self, repeated: Option<Repeated>)
        ensures items { self.new.items ≡ repeats_back repeated self.old.ready self.old.items }
        ensures ready { self.new.ready ≡ self.old.ready }
        ensures capacity { self.new.capacity ≡ self.old.capacity }
    {
        restore(&mut self.rows, repeated);
    }
}
