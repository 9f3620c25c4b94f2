//! Clerks that part and meet, and the end of an office.

ghost use Rattle.std.specs.Prelude.{◌≡◌, ◌≢◌, IfOk, IfErr};
ghost use mathlib.Core.List.{IsPrefix};
ghost use Rattle.lra_ticket.specs.declared.view.Place.TheVariants.{Idle};
ghost use Rattle.lra_ticket.specs.History.{Comparable, entries_by, longer};
ghost use Rattle.lra_ticket.specs.Locks.{lock_id, pass_id, pass_view, HasMissed, Suits};
ghost use Rattle.lra_ticket.specs.Views.{newcomer, moved};
ghost use Rattle.lra_office.specs.Clerks.{clerk_view, IsClerkOf};

use crate::clerk::Clerk;
use crate::locked_service::LockedService;
use crate::office::OfficeOf;
use lra_ticket::Pass;

impl<V: LockedService> OfficeOf<V> {
    /// Makes a second pass, by which a clerk can be enrolled: it has seen as much as the clerk.
    pub fn split(&self, clerk: Clerk<V>) -> (Clerk<V>, Pass<V>)
        requires { IsClerkOf self.now.lock V.covers clerk }
        ensures clerk { IsClerkOf self.now.lock V.covers result.0 }
        ensures pass { pass_id result.1 ≡ lock_id self.now.lock }
        ensures number { result.0.number ≡ clerk.number }
        ensures same { clerk_view result.0 ≡ clerk_view clerk }
        ensures newcomer { pass_view result.1 ≡ newcomer (clerk_view clerk) }
    {
        let Clerk {
            number,
            position,
            pass,
        } = clerk;
        let Some(pass) = pass else {
            unreachable!();
        };
        let (first, second) = self.lock.split(pass);
        (
            Clerk {
                number,
                position,
                pass: Some(first),
            },
            second,
        )
    }

    /// Compares what two clerks have seen: the history of one begins that of the other. The second one's position is
    /// the greatest, which covers all, until its next answer.
    pub fn meet(&self, first: &mut Clerk<V>, second: &mut Clerk<V>)
        requires first { IsClerkOf self.now.lock V.covers first.old }
        requires second { IsClerkOf self.now.lock V.covers second.old }
        ensures first { IsClerkOf self.now.lock V.covers first.new }
        ensures second { IsClerkOf self.now.lock V.covers second.new }
        ensures numbers { (first.new.number ≡ first.old.number) × (second.new.number ≡ second.old.number) }
        ensures first_view { clerk_view first.new ≡ moved (clerk_view first.old) Idle }
        ensures second_view { clerk_view second.new ≡ record (clerk_view second.old)
            { origin = (clerk_view first.old).origin; tries = 0; place = Idle } }
        ensures in_line { Comparable (clerk_view first.old).seen (clerk_view second.old).seen }
        ensures complete { IsPrefix (clerk_view first.old).seen (clerk_view second.old).seen
            → entries_by first.old.number (clerk_view second.old).seen ≡ (clerk_view first.old).mine }
        ensures apart { first.old.number ≢ second.old.number }
    {
        let (Some(one), Some(other)) = (first.pass.take(), second.pass.take()) else {
            unreachable!();
        };
        let (one, other) = self.lock.meet(one, other);
        first.pass = Some(one);
        second.pass = Some(other);
        second.position = u64::MAX;
    }

    /// Ends a clerk: the other one has then seen what either had. Its position is the greatest, which covers all, until
    /// its next answer.
    pub fn retire(&self, clerk: &mut Clerk<V>, second: Clerk<V>)
        requires clerk { IsClerkOf self.now.lock V.covers clerk.old }
        requires second { IsClerkOf self.now.lock V.covers second }
        ensures clerk { IsClerkOf self.now.lock V.covers clerk.new }
        ensures number { clerk.new.number ≡ clerk.old.number }
        ensures view { clerk_view clerk.new ≡ record (clerk_view clerk.old)
            { seen = longer (clerk_view clerk.old).seen (clerk_view second).seen; place = Idle } }
        ensures seen { IsPrefix (clerk_view clerk.old).seen (clerk_view clerk.new).seen
            × IsPrefix (clerk_view second).seen (clerk_view clerk.new).seen }
    {
        let Clerk {
            number: _,
            position: _,
            pass: second,
        } = second;
        let (Some(pass), Some(second)) = (clerk.pass.take(), second) else {
            unreachable!();
        };
        clerk.pass = Some(self.lock.join(pass, second));
        clerk.position = u64::MAX;
    }

    /// Ends the office, if no other caller holds its lock or waits for it, and returns what it kept.
    pub fn into_kept(self, clerk: Clerk<V>) -> Result<V, (OfficeOf<V>, Clerk<V>)>
        requires { IsClerkOf self.lock V.covers clerk }
        ensures value { IfOk result (λ x. Suits V.origin V.history V.lawful (clerk_view clerk) x) }
        ensures same { IfErr result (λ e. e.0 ≡ self) }
        ensures clerk { IfErr result (λ e. IsClerkOf self.lock V.covers e.1 × (e.1.number ≡ clerk.number)) }
        ensures missed { IfErr result (λ e. HasMissed (clerk_view clerk) (clerk_view e.1)) }
    {
        let OfficeOf {
            lock,
            instance,
            base,
        } = self;
        let Clerk {
            number,
            position,
            pass,
        } = clerk;
        let Some(pass) = pass else {
            unreachable!();
        };
        match lock.close(pass) {
            Ok(value) => Ok(value),
            Err((lock, pass)) => Err((
                OfficeOf {
                    lock,
                    instance,
                    base,
                },
                Clerk {
                    number,
                    position,
                    pass: Some(pass),
                },
            )),
        }
    }
}
