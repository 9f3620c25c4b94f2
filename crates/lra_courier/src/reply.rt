//! The outcome of a member's reply.

ghost use Rattle.std.specs.Prelude.{◌≡◌, IsTrue, reverse};
ghost use Rattle.lra_model.specs.Words.{outcome_suits};
ghost use Rattle.lra_courier.specs.Replies as spec;

use lra_model::{AskKind, Direction, MemberStatus, Outcome};

// Returns whether a byte is a space, a tab, CR or LF.
fn is_blank(b: u8) -> bool
    ensures { result ≡ spec.is_blank b }
{
    matches!(b, b' ' | b'\t' | b'\r' | b'\n')
}

fn trim_start(bytes: &[u8]) -> &[u8]
    ensures { result.now ≡ spec.skip_blanks bytes.now }
{
    for start in 0..bytes.len() {
        if !is_blank(bytes[start]) {
            return &bytes[start..];
        }
    }
    &bytes[bytes.len()..]
}

fn trim_end(bytes: &[u8]) -> &[u8]
    ensures { result.now ≡ reverse (spec.skip_blanks (reverse bytes.now)) }
{
    let mut end = bytes.len();
    while end > 0 && is_blank(bytes[end - 1]) {
        end -= 1;
    }
    &bytes[..end]
}

// Returns the bytes without a quote at each end, where both are there.
fn unquoted(bytes: &[u8]) -> &[u8]
    ensures { result.now ≡ spec.unquoted bytes.now }
{
    match bytes {
        [b'"', inner @ .., b'"'] => inner,
        _ => bytes,
    }
}

// Returns the state that the text names, if it names one. The state of having left isn't among them, since a member
// that has left isn't asked.
fn state_named(text: &[u8]) -> Option<MemberStatus>
    ensures { result ≡ spec.state_named text.now }
{
    let states = [
        MemberStatus::Active,
        MemberStatus::Completing,
        MemberStatus::Completed,
        MemberStatus::FailedToComplete,
        MemberStatus::Compensating,
        MemberStatus::Compensated,
        MemberStatus::FailedToCompensate,
    ];
    states
        .iter()
        .copied()
        .find(|state| text == state.name().as_bytes())
}

// Returns the outcome of a state in a direction.
fn outcome_in(direction: Direction, state: MemberStatus) -> Outcome
    ensures { result ≡ spec.outcome_in direction state }
{
    match (direction, state) {
        (Direction::Completion, MemberStatus::Completing) => Outcome::Accepted,
        (Direction::Completion, MemberStatus::Completed) => Outcome::Done,
        (Direction::Completion, MemberStatus::FailedToComplete) => Outcome::Failed,
        (Direction::Compensation, MemberStatus::Compensating) => Outcome::Accepted,
        (Direction::Compensation, MemberStatus::Compensated) => Outcome::Done,
        (Direction::Compensation, MemberStatus::FailedToCompensate) => Outcome::Failed,
        _ => Outcome::Silent,
    }
}

// Returns the outcome of the state that a body names, or `otherwise` where it names none.
fn said(direction: Direction, body: &[u8], otherwise: Outcome) -> Outcome
    ensures { result ≡ spec.said direction body.now otherwise }
{
    match state_named(unquoted(trim_end(trim_start(body)))) {
        Some(state) => outcome_in(direction, state),
        None => otherwise,
    }
}

/// Returns the outcome of a reply, where a member was asked for `kind` in `direction`. A reply that isn't in the table
/// of replies is [`Outcome::Silent`]. The body is read without spaces, tabs, CR and LF at its ends, and then without
/// one enclosing pair of quotes.
#[tactic(auto, unfolding(crate::specs::Replies::classify))]
pub fn classify(kind: AskKind, direction: Direction, code: u16, body: &[u8]) -> Outcome
    ensures class { result ≡ spec.classify kind direction code body.now }
    ensures suits { IsTrue (outcome_suits kind result) }
{
    match kind {
        AskKind::Complete | AskKind::Compensate => match code {
            200 => said(direction, body, Outcome::Done),
            202 => Outcome::Accepted,
            204 | 410 => Outcome::Done,
            409 => Outcome::Failed,
            _ => Outcome::Silent,
        },
        AskKind::Status => match code {
            200 => said(direction, body, Outcome::Silent),
            202 => Outcome::Accepted,
            410 => Outcome::Done,
            _ => Outcome::Silent,
        },
        AskKind::Forget | AskKind::After => match code {
            200..=299 | 410 => Outcome::Done,
            _ => Outcome::Silent,
        },
    }
}
