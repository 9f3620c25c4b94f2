//! Tasks that the command line of `lra` may request: a report, the play of a script, or a service.

ghost use Rattle.std.specs.Prelude.{◌≡◌, ◌∷◌, [], ℕ, ◌≤◌, List, IfOk, IfErr, IfSome, IfNone, codes};
ghost use Rattle.std.specs.Fmt.{decimal};
ghost use Rattle.lra_runs.specs.declared.task.Task.{Task};
ghost use Rattle.lra_words.specs.Asked.{texts};
ghost use Rattle.lra_runs.specs.Tasks.{IsTask};

use itoa::Buffer;
use lra_audits::Usage;
use lra_reports::{Question, read_question};

/// Largest number of threads of a kind that a service may have.
const MOST_WORKERS: u32 = 16;

/// Task that the program `lra` is asked to do.
#[derive(Clone, Copy)]
pub enum Task<'a> {
    /// Question to a program that reads and reports.
    Question(Question<'a>),
    /// Play of a script.
    Play {
        script: &'a str,
    },
    /// Service of the coordinator of a file's journal at an address, with this number of workers and as many callback
    /// workers.
    Serve {
        address: &'a str,
        file: &'a str,
        workers: u32,
    },
}

/// Reads a number from 1 to 16.
fn workers_in(text: &str) -> Option<u32>
    ensures some { IfSome result (λ n. (1 ≤ n) × (n ≤ 16) × (text.now ≡ decimal n)) }
    ensures none { IfNone result ((n : ℕ) → 1 ≤ n → n ≤ 16 → text.now ≡ decimal n → ⊥) }
{
    for number in 1..=MOST_WORKERS {
        if text == Buffer::new().format(number) {
            return Some(number);
        }
    }
    None
}

/// Reads the service that a verb and three words request.
fn service_of<'a>(
    verb: &str,
    address: &'a str,
    file: &'a str,
    workers: &str,
) -> Result<Task<'a>, Usage>
    ensures task { IfOk result (IsTask (verb.now ∷ address.now ∷ file.now ∷ workers.now ∷ [])) }
    ensures usage { IfErr result (λ _. (task : Task) → IsTask (verb.now ∷ address.now ∷ file.now ∷ workers.now ∷ [])
        task → ⊥) }
{
    match (verb, workers_in(workers)) {
        ("serve", Some(workers)) => Ok(Task::Serve {
            address,
            file,
            workers,
        }),
        _ => Err(Usage),
    }
}

/// Returns the script that words request to play, if they do.
fn script_of(words: &[String]) -> Option<&str>
    ensures some { IfSome result (λ script. texts words.now ≡ codes "play" ∷ script.now ∷ []) }
    ensures none { IfNone result ((script : List ℕ) → texts words.now ≡ codes "play" ∷ script ∷ [] → ⊥) }
{
    match words {
        [verb, script] if verb.as_str() == "play" => Some(script.as_str()),
        _ => None,
    }
}

/// Reads the task that these words request. They don't include the program's own name.
pub fn read_task(words: &[String]) -> Result<Task<'_>, Usage>
    ensures task { IfOk result (IsTask (texts words.now)) }
    ensures usage { IfErr result (λ _. (task : Task) → IsTask (texts words.now) task → ⊥) }
{
    if let Some(script) = script_of(words) {
        return Ok(Task::Play { script });
    }
    match words {
        [verb, address, file, workers] => service_of(
            verb.as_str(),
            address.as_str(),
            file.as_str(),
            workers.as_str(),
        ),
        _ => match read_question(words) {
            Ok(question) => Ok(Task::Question(question)),
            Err(usage) => Err(usage),
        },
    }
}
