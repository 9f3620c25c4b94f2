//! The pieces that the texts of this crate are made of.

use lra_model::{ActionStatus, AskKind, MemberStatus};

/// A piece of a page, or of a list.
#[derive(Clone, Copy)]
pub enum Piece<'a> {
    /// A text of this program, as it stands. No text from elsewhere has its lifetime.
    Own(&'static str),
    /// A text from elsewhere, escaped for HTML.
    Told(&'a str),
    /// A text from elsewhere, as a JSON string. No page may have it.
    Quoted(&'a str),
    /// A number in digits.
    Number(u64),
    /// A number of milliseconds, in words.
    Span(u64),
    /// The identifier of an action or of a member. Adds nothing if no identifier has the number.
    Id(u64),
    /// The word for the status of an action.
    Action(ActionStatus),
    /// The word for the status of a member.
    Member(MemberStatus),
    /// The word for the kind of an ask.
    Kind(AskKind),
}
