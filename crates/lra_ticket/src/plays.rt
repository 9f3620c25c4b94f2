//! The names of the steps. What each shows is in `specs/inner/Steps.antt`, and how a view changes at a move there and
//! in `specs/Views.antt`.
ghost use Rattle.lra_ticket.specs.inner.Steps.{
  looked,
  drew,
  watched,
  gave,
  peeked,
  grabbed,
  met,
  paired,
  second,
  joined,
  spent_view,
};
ghost use Rattle.lra_ticket.specs.Views.{newcomer, moved};
ghost use Rattle.lra_ticket.specs.declared.view.Place.TheVariants.{Idle};

use crate::kept::Kept;
use crate::view::View;
use atomic_table::{Join, Play, Split};
use std::marker::PhantomData;

/// The next ticket is read.
pub struct Look;

impl<V: Kept> Play<Option<V>, View<V::Origin>> for Look {
    ghost then = { looked };
}

/// A ticket is drawn, where no other was drawn since the look.
pub struct Draw;

impl<V: Kept> Play<Option<V>, View<V::Origin>> for Draw {
    ghost then = { drew };
}

/// The ticket that is served is read, and at one's own the value is handed over.
pub struct Watch;

impl<V: Kept> Play<Option<V>, View<V::Origin>> for Watch {
    ghost then = { watched V.origin V.history V.lawful };
}

/// The slot goes back, and the next ticket is served.
pub struct Give;

impl<V: Kept> Play<Option<V>, View<V::Origin>> for Give {
    ghost then = { gave V.history };
}

/// The ticket that is served is read, for a grab.
pub struct Peek;

impl<V: Kept> Play<Option<V>, View<V::Origin>> for Peek {
    ghost then = { peeked };
}

/// The ticket that was served is drawn, where it is the next one, and the value is handed over.
pub struct Grab;

impl<V: Kept> Play<Option<V>, View<V::Origin>> for Grab {
    ghost then = { grabbed V.origin V.history V.lawful };
}

/// A second pass is made, with no number yet.
pub struct Branch;

impl<O> Split<View<O>> for Branch {
    ghost left = { λ v. v };

    ghost right = { newcomer };
}

/// One pass stands for two.
pub struct Pair<V> {
    value: PhantomData<V>,
}

impl<V: Kept> Join<View<V::Origin>> for Pair<V> {
    ghost both = { paired };

    ghost spent = { spent_view V.blank };
}

/// The two histories that a pass stands for are compared.
pub struct Compare;

impl<V: Kept> Play<Option<V>, View<V::Origin>> for Compare {
    ghost then = { met };
}

/// A pass that stands for two becomes two again.
pub struct Part;

impl<O> Split<View<O>> for Part {
    ghost left = { λ v. moved v Idle };

    ghost right = { second };
}

/// One pass has seen what two had, and the other is spent.
pub struct Merge<V> {
    value: PhantomData<V>,
}

impl<V: Kept> Join<View<V::Origin>> for Merge<V> {
    ghost both = { joined };

    ghost spent = { spent_view V.blank };
}
