//! Laws of coordinators: public functions that do nothing, whose contracts say what holds whatever commands are given.

ghost use Rattle.lra_commands.specs.Counters.{CountersTell, CountersWriteOnce};
ghost use Rattle.lra_commands.specs.Queries.{
  CommandsAsk,
  ListingsAreCountedWhole,
  ListingsAreToldWhole,
  QueriesMiss,
  RowsHoldEnds,
};
ghost use Rattle.lra_commands.specs.Runs.{CallsKeepHistories, CallsLeaveQuiet, CallsMakeHistories};

/// States that a coordinator's history stays legal in the version of its journal, and within its limits, whatever
/// commands are given to it, by any clerks, at any moments and in any order, refused ones among them.
pub fn commands_keep_histories()
    ensures { CallsKeepHistories }
{}

/// States that the history of a new coordinator is legal, and within its limits, whatever commands are given to it.
pub fn commands_make_histories()
    ensures { CallsMakeHistories }
{}

/// States that nothing is left to settle after a command that isn't refused and that writes: its block has room for all
/// that follows by itself, however much that is.
pub fn calls_leave_quiet_histories()
    ensures { CallsLeaveQuiet }
{}

/// States that a counter answers each order by the kinds of answer that such an order can get, and that a number in the
/// answer to a start or a join is one that an identifier can have.
pub fn counters_tell()
    ensures { CountersTell }
{}

/// States that each order is written once: after it, the entries under its clerk's number are those from before and
/// then what the definitions append for it, at a history that begins with all that the counter had seen. An order that
/// wasn't done adds nothing.
pub fn counters_write_once()
    ensures { CountersWriteOnce }
{}

/// States that a command that only asks gets the result of its query as its answer, and appends nothing.
pub fn commands_ask()
    ensures { CommandsAsk }
{}

/// States that a query is refused by `NoSuchAction` and `NoSuchMember` alone, whatever limits and memory there are, and
/// whatever has become of the journal's writer.
pub fn queries_miss()
    ensures { QueriesMiss }
{}

/// States that the end of an action waits for what queries say that the action waits for: a Closing or Cancelling
/// action may end exactly where none of its rows holds its end.
pub fn rows_hold_ends()
    ensures { RowsHoldEnds }
{}

/// States that a listing is returned whole if it is asked for row by row, each time from the place after the row that
/// was returned: each of its rows once, in order.
pub fn listings_are_told_whole()
    ensures { ListingsAreToldWhole }
{}

/// States that a listing is counted whole if it is counted part by part, each time from where the count before says to
/// go on: each of its rows once.
pub fn listings_are_counted_whole()
    ensures { ListingsAreCountedWhole }
{}
