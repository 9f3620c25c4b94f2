//! Members that operators have given up. A file of the folder has a line for each.

ghost use Rattle.std.specs.Prelude.{◌≡◌, IfOk, IfSome, string_bytes};
ghost use Rattle.lra_journal_folder.specs.GivenUp as spec;

use lra_model::{Instance, Memory};
use std::alloc::Global;

/// A member that isn't notified any more that its action has ended.
#[derive(Clone, Copy, PartialEq, Eq)]
pub struct GivenUp {
    /// Instance of the member's journal.
    pub journal: Instance,
    /// Number of the member in that journal.
    pub member: u64,
}

/// Returns the line of a member.
pub fn given_up_line(alloc: Global, given: GivenUp) -> Result<String, Memory>
    ensures { IfOk result (λ line. string_bytes line ≡ spec.line given) }
{
    let journal = given.journal.number();
    let member = given.member;
    format!(in alloc; "{journal} {member} given up\n")
}

/// Reads the journal's instance and the member's number from a text that may be a line.
fn numbers_in(text: &str) -> Option<(Instance, u64)> {
    let (numbers, _) = text.split_once(" given up")?;
    let (journal, member) = numbers.split_once(' ')?;
    let journal = Instance::new(journal.parse::<u64>().ok()?)?;
    Some((journal, member.parse::<u64>().ok()?))
}

/// Reads a member from a line with its line feed. Returns nothing for any other text, such as a line that was cut off.
pub fn given_up_in(alloc: Global, line: &str) -> Result<Option<GivenUp>, Memory>
    ensures { IfOk result (λ found. IfSome found (λ given. line.now ≡ spec.line given)) }
{
    let Some((journal, member)) = numbers_in(line) else {
        return Ok(None);
    };
    let own = given_up_line(alloc, GivenUp { journal, member })?;
    if own.as_str() == line {
        Ok(Some(GivenUp { journal, member }))
    } else {
        Ok(None)
    }
}
