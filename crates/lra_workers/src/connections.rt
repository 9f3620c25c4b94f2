//! Connections that are answered at an office, one after another.

ghost use Rattle.std.specs.Prelude.{◌≡◌};
ghost use mathlib.Core.List.{IsPrefix};
ghost use Rattle.lra_ticket.specs.Locks.{lock_id};
ghost use Rattle.lra_office.specs.Clerks.{clerk_view, IsClerkOf};
ghost use Rattle.lra_office.specs.Stops.{KeepsInTurn};
ghost use Rattle.lra_office.specs.Windows.{IsOfficeOf};
ghost use Rattle.lra_workers.specs.Connections.{clerk_sight, Connection, EndsServing};

use crate::acceptor::{Acceptor, Line};
use lra_front::{Clock, serve_stream};
use lra_office::{Clerk, LockedService, OfficeOf, WhichLock, Window};
use std::alloc::Global;
use std::io::{self, Read, Write};
use std::marker::Brand;
use std::sync::Wait;

/// Reason why a worker that answers connections has ended.
#[derive(Clone, Copy, Debug, PartialEq, Eq)]
pub enum ServeEnd {
    /// All connections that were asked for were answered.
    Done,
    /// A connection couldn't be accepted.
    Io,
}

/// Half of a connection that is read.
#[derive(Drop)]
struct ReadHalf<'a, L>(&'a L);

impl<L: Line> Read for ReadHalf<'_, L> {
    fn read(&mut self, buffer: &mut [u8]) -> io::Result<usize> {
        self.0.read(buffer)
    }
}

/// Half of a connection that is written.
#[derive(Drop)]
struct WriteHalf<'a, L>(&'a L);

impl<L: Line> Write for WriteHalf<'_, L> {
    fn write(&mut self, bytes: &[u8]) -> io::Result<usize> {
        self.0.write(bytes)
    }

    fn flush(&mut self) -> io::Result<()> {
        Ok(())
    }
}

/// Answers one connection as a clerk of an office.
fn answer<V: LockedService, R: Wait, L: Line, K: Clock, Q: WhichLock>(
    rt: &R,
    alloc: Global,
    line: &L,
    office: &OfficeOf<V>,
    clerk: Clerk<V>,
    clock: &mut K,
) -> Clerk<V>
    requires clerk { IsClerkOf office.now.lock V.covers clerk }
    requires made { IsOfficeOf (V.setting (clerk_view clerk).origin) office.now }
    requires here { lock_id office.now.lock ≡ Q.lock }
    ensures clerk { IsClerkOf office.now.lock V.covers result }
    ensures answered { Connection (KeepsInTurn V.setting V.origin V.history V.lawful V.has_stopped) K.tells
        (clerk_sight V.setting clerk) clock.old (clerk_sight V.setting result) clock.new }
{
    let mut window: Window<'_, V, R, Q> = Window::new(rt, office, clerk);
    let mut write_half = WriteHalf(line);
    serve_stream(alloc, ReadHalf(line), &mut write_half, &mut window, clock);
    window.into_clerk()
}

/// Answers so many connections as a clerk of an office, one after another, each as long as it lasts. Ends before that
/// if no connection can be accepted.
pub fn serve_connections<V: LockedService, R: Wait, D: Acceptor, K: Clock>(
    rt: &R,
    alloc: Global,
    acceptor: &D,
    office: &OfficeOf<V>,
    clerk: Clerk<V>,
    clock: &mut K,
    count: u64,
) -> (Clerk<V>, ServeEnd)
    requires clerk { IsClerkOf office.now.lock V.covers clerk }
    requires made { IsOfficeOf (V.setting (clerk_view clerk).origin) office.now }
    ensures clerk { IsClerkOf office.now.lock V.covers result.0 }
    ensures number { result.0.number ≡ clerk.number }
    ensures setting { V.setting (clerk_view result.0).origin ≡ V.setting (clerk_view clerk).origin }
    ensures seen { IsPrefix (clerk_view clerk).seen (clerk_view result.0).seen }
    ensures answers { EndsServing (KeepsInTurn V.setting V.origin V.history V.lawful V.has_stopped) K.tells count
        (clerk_sight V.setting clerk) clock.old result.1 (clerk_sight V.setting result.0) clock.new }
{
    let mut clerk = clerk;
    for _answered in 0..count {
        let Ok(line) = acceptor.open(rt) else {
            return (clerk, ServeEnd::Io);
        };
        clerk = answer::<V, R, D::Line, K, Brand>(rt, alloc, &line, office, clerk, clock);
    }
    (clerk, ServeEnd::Done)
}
