//! The requests of one connection that are whole, answered one after another.

ghost use Rattle.std.specs.Prelude.{◌≡◌, None, IsSome};
ghost use Rattle.lra_event_loop.specs.Answered.{AnswersOf};
ghost use Rattle.lra_event_loop.specs.inner.Dues as spec;
ghost use Rattle.lra_event_loop.specs.inner.Noting.{KeepsNoted};

use crate::positions::Positions;
use lra_front::{Answer, Clock, DialectTold, Routes};
use lra_model::Memory;
use lra_steps::{Connection, Handler, Step, answer_request};
use std::alloc::Global;

/// Largest number of requests of one connection that are answered in an iteration.
const MOST_REQUESTS: u64 = 16;

/// Number of bytes of waiting replies above which no further request is answered.
const MOST_WAITING: usize = 65_536;

/// State of a connection once its requests have been answered.
#[derive(Clone, Copy, PartialEq, Eq)]
pub enum Stage {
    /// More bytes are needed.
    NeedsInput,
    /// A further request may be whole.
    Goes,
    /// No further request comes.
    Ended,
}

/// Returns whether an answer, to a request with a body or without one, may have made something due for the callback
/// workers: an ask, or a time limit. A start without a body has no limit.
fn may_be_due(answer: Answer, has_body: bool) -> bool
    ensures { result ≡ spec.may_be_due answer has_body }
{
    match answer {
        Answer::Started(_) => has_body,
        Answer::Turned(_) | Answer::Renewed | Answer::Member(_) => true,
        Answer::Dialect(answer) => is_due_after(answer.told),
        Answer::Found { .. } | Answer::Joined(_) | Answer::Left | Answer::Denied(_) => false,
        Answer::Retry { .. } => false,
    }
}

/// Returns the same for what is told in the dialect, whose starts have no body: they may have a limit.
fn is_due_after(told: DialectTold) -> bool
    ensures { result ≡ spec.is_due_after told }
{
    match told {
        DialectTold::Started(_) => true,
        DialectTold::Turned(_) => true,
        DialectTold::Done => true,
        DialectTold::Joined(_) => false,
        DialectTold::Status(_) => false,
        DialectTold::Denied(_) => false,
        DialectTold::Refused(_) => false,
    }
}

/// Returns whether the connection's whole request has a body.
fn has_body(connection: &Connection) -> bool {
    match connection.request() {
        Some(request) => !request.body.is_empty(),
        None => false,
    }
}

/// Answers the connection's whole request. Notes the answer's position, and whether the answer may have made something
/// due.
fn answer_standing<A: Handler, K: Clock>(
    alloc: Global,
    routes: &Routes,
    connection: &mut Connection,
    positions: &mut Positions,
    is_due: &mut bool,
    handler: &mut A,
    clock: &mut K,
)
    requires stands { IsSome connection.old.stands }
    requires base { connection.old.base ≡ A.base_of (A.sight handler.old) }
    requires room { positions.old.other ≡ None }
    ensures { AnswersOf A.base_of A.responds K.tells connection.old connection.new (A.sight handler.old) clock.old
        (A.sight handler.new) clock.new
        × KeepsNoted connection.old.turns connection.new.turns positions.old positions.new }
{
    let has_body = has_body(connection);
    let answered = answer_request(alloc, routes, connection, handler, clock);
    *is_due |= may_be_due(answered.answer, has_body);
    *positions = positions.with_answer(answered);
}

/// Answers the next request if it is whole, few bytes of replies wait, and these wait for few journals. Otherwise
/// returns the connection's state.
fn answer_next<A: Handler, K: Clock>(
    alloc: Global,
    routes: &Routes,
    connection: &mut Connection,
    positions: &mut Positions,
    is_due: &mut bool,
    handler: &mut A,
    clock: &mut K,
) -> Result<Option<Stage>, Memory>
    requires { connection.old.base ≡ A.base_of (A.sight handler.old) }
    ensures { AnswersOf A.base_of A.responds K.tells connection.old connection.new (A.sight handler.old) clock.old
        (A.sight handler.new) clock.new
        × KeepsNoted connection.old.turns connection.new.turns positions.old positions.new }
{
    if connection.out().len() > MOST_WAITING || positions.are_full() {
        return Ok(Some(Stage::Goes));
    }
    match connection.next(handler.base())? {
        Step::NeedsInput => Ok(Some(Stage::NeedsInput)),
        Step::Ended(_) => Ok(Some(Stage::Ended)),
        Step::RequestReady => {
            answer_standing(alloc, routes, connection, positions, is_due, handler, clock);
            Ok(None)
        }
        Step::ReplyPending => {
            answer_standing(alloc, routes, connection, positions, is_due, handler, clock);
            Ok(None)
        }
    }
}

/// Answers the requests that are whole, a few at most, and returns the connection's state then. If memory is refused,
/// the answers given so far stand.
pub(crate) fn answer_some<A: Handler, K: Clock>(
    alloc: Global,
    routes: &Routes,
    connection: &mut Connection,
    positions: &mut Positions,
    is_due: &mut bool,
    handler: &mut A,
    clock: &mut K,
) -> Result<Stage, Memory>
    requires { connection.old.base ≡ A.base_of (A.sight handler.old) }
    ensures { AnswersOf A.base_of A.responds K.tells connection.old connection.new (A.sight handler.old) clock.old
        (A.sight handler.new) clock.new
        × KeepsNoted connection.old.turns connection.new.turns positions.old positions.new }
{
    for _turn in 0..MOST_REQUESTS {
        if let Some(stage) = answer_next(
            alloc, routes, connection, positions, is_due, handler, clock,
        )? {
            return Ok(stage);
        }
    }
    Ok(Stage::Goes)
}
