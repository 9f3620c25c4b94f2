//! The replies to requests and to faults, as bytes.
ghost use Rattle.std.specs.Prelude.{◌≡◌, ◌++◌, IsTrue, OnOk, OnErr};
ghost use Rattle.lra_front.specs.Replies.{HasIdentifiers, reply_bytes};
ghost use Rattle.lra_steps.specs.History.{fault_reply};

use crate::queue::Queue;
use lra_front::{Answer, fault_answer};
use lra_ids::{Base, Instance};
use lra_model::Memory;
use lra_wire::WireFault;
use std::alloc::{AllocError, Global};

/// Number of bytes that a reply has room for from the start. Most replies take fewer.
const PAGE: usize = 512;

/// Appends the reply to an answer.
pub(crate) fn push_reply(
    alloc: Global,
    out: &mut Queue,
    instance: Instance,
    base: &Base,
    answer: Answer,
    head: bool,
    close: bool,
) -> Result<(), Memory>
    requires numbers { HasIdentifiers answer }
    ensures ok { OnOk result (out.new ≡ out.old ++ reply_bytes instance base.now answer head close) }
    ensures err { OnErr result (out.new ≡ out.old) }
{
    let mut page = Vec::with_capacity(alloc, PAGE)?;
    let mut text = Vec::new(alloc);
    match answer.write(&mut page, &mut text, instance, base, head, close) {
        Ok(()) => out.push(text.as_slice()),
        Err(_) => Err(AllocError),
    }
}

/// Appends the reply to a fault of reading, where there is one.
pub(crate) fn push_fault(
    alloc: Global,
    out: &mut Queue,
    instance: Instance,
    base: &Base,
    fault: WireFault,
) -> Result<(), Memory>
    ensures ok { OnOk result (out.new ≡ out.old ++ fault_reply instance base.now fault) }
    ensures err { OnErr result (out.new ≡ out.old) }
{
    match fault_answer(fault) {
        Some(answer) => push_reply(alloc, out, instance, base, answer, false, true),
        None => Ok(()),
    }
}
