//! The words of a command line.

ghost use Rattle.std.specs.Prelude.{IfOk, IfErr, [], ◌∷◌};
ghost use Rattle.lra_reports.specs.declared.words.Invocation.{Invocation};
ghost use Rattle.lra_reports.specs.declared.words.Question.{Question};
ghost use Rattle.lra_reports.specs.Words.{IsInvocation, IsQuestion};
ghost use Rattle.lra_words.specs.Asked.{texts};

use lra_audits::Usage;

/// A run on an input.
#[derive(Clone, Copy)]
pub enum Invocation<'a> {
    /// Audit standard input.
    AuditInput,
    /// Audit a file.
    Audit { file: &'a str },
    /// List the actions and members of a file's journal.
    Show { file: &'a str },
    /// Upgrade a file's journal to version 2.
    Upgrade { file: &'a str },
}

/// The question to a program that reads and reports.
#[derive(Clone, Copy)]
pub enum Question<'a> {
    /// The result of a run on an input.
    Run(Invocation<'a>),
    /// The longest sound prefix of a file's journal.
    Salvage { file: &'a str },
    /// The calls of the programs.
    Help,
    /// The version of the programs.
    Version,
}

/// Returns the run on a file that a verb names.
fn invocation_on<'a>(verb: &str, file: &'a str) -> Result<Invocation<'a>, Usage>
    ensures invocation { IfOk result (IsInvocation (verb.now ∷ file.now ∷ [])) }
    ensures usage { IfErr result (λ _. (invocation : Invocation) → IsInvocation (verb.now ∷ file.now ∷ []) invocation
        → ⊥) }
{
    match verb {
        "audit" => Ok(Invocation::Audit { file }),
        "show" => Ok(Invocation::Show { file }),
        "upgrade" => Ok(Invocation::Upgrade { file }),
        _ => Err(Usage),
    }
}

/// Returns the question that a verb asks of a file.
fn question_on<'a>(verb: &str, file: &'a str) -> Result<Question<'a>, Usage>
    ensures question { IfOk result (IsQuestion (verb.now ∷ file.now ∷ [])) }
    ensures usage { IfErr result (λ _. (question : Question) → IsQuestion (verb.now ∷ file.now ∷ []) question → ⊥) }
{
    if verb == "salvage" {
        return Ok(Question::Salvage { file });
    }
    match invocation_on(verb, file) {
        Ok(invocation) => Ok(Question::Run(invocation)),
        Err(usage) => Err(usage),
    }
}

/// Returns the question that a word alone asks.
fn question_of<'a>(word: &str) -> Result<Question<'a>, Usage>
    ensures question { IfOk result (IsQuestion (word.now ∷ [])) }
    ensures usage { IfErr result (λ _. (question : Question) → IsQuestion (word.now ∷ []) question → ⊥) }
{
    match word {
        "--help" => Ok(Question::Help),
        "--version" => Ok(Question::Version),
        _ => Err(Usage),
    }
}

/// Returns the question that these words ask, without the program's own name.
pub fn read_question(words: &[String]) -> Result<Question<'_>, Usage>
    ensures question { IfOk result (IsQuestion (texts words.now)) }
    ensures usage { IfErr result (λ _. (question : Question) → IsQuestion (texts words.now) question → ⊥) }
{
    match words {
        [] => Ok(Question::Run(Invocation::AuditInput)),
        [word] => question_of(word.as_str()),
        [verb, file] => question_on(verb.as_str(), file.as_str()),
        _ => Err(Usage),
    }
}
