//! Laws of replies and of streams: public functions that do nothing, whose contracts say what follows from the
//! definitions.

ghost use Rattle.lra_front.specs.Listed.{RepliesAreListed};
ghost use Rattle.lra_front.specs.Transcripts.{AreTranscripts, AreWrittenInTurn};

use lra_clocks::Clock;
use lra_commands::Counter;

/// States that what `serve_stream` does is a transcript, where the bytes of the stream and of its writer are known. A
/// transcript has the requests that the bytes spell, up to the one after which the stream is closed or to a fault. It
/// has as many moments of the clock, and a chain of orders and answers at the counter. It has the replies' texts, one
/// after another, or a proper prefix of them after a fault in writing.
pub fn streams_are_transcripts<C: Counter, K: Clock>()
    ensures { AreTranscripts C.gives K.tells }
{}

/// States that each of a stream's orders is written once, in the order of their requests. After the stream, the entries
/// under the clerk's number are those from before, and then what each order adds at a history that begins with all that
/// was seen before the order.
pub fn streams_write_in_turn<C: Counter, K: Clock>()
    ensures { AreWrittenInTurn C.gives K.tells }
{}

/// States that the table of operations has the code of each reply to a request for an operation: among the operation's
/// success codes where it is done, and else among its refusals.
pub fn replies_are_listed<C: Counter>()
    ensures { RepliesAreListed C.gives }
{}
