//! The rules that a journal keeps.

ghost use Rattle.std.specs.Prelude.{◌≡◌, IfSome, Some};

use crate::naming::{Named, find_by_name};

/// A rule that a line of a journal may break. The rules are checked in this order.
#[derive(Clone, Copy, Debug, PartialEq, Eq)]
pub enum Rule {
    /// The first line is a header.
    Header,
    /// The line is the spelling of an entry.
    Grammar,
    /// The clerk is enrolled; one that enrols has the next number.
    Clerk,
    /// Moments don't fall.
    Moment,
    /// An action, a member or an ask that begins has the next number of its kind.
    Number,
    /// The action exists.
    Action,
    /// The member exists.
    Member,
    /// The member hasn't left.
    Left,
    /// The action is Active.
    Active,
    /// The addresses are ones that a member may have.
    Addresses,
    /// The limit's end is a moment.
    Limit,
    /// The action may be closed or cancelled by that cause.
    Cause,
    /// The member may be completed without being asked.
    Skip,
    /// The member may get an ask of that kind now.
    Ask,
    /// The ask is outstanding, and its kind may have this outcome.
    Reply,
    /// The member is completing or compensating, and it reports Done or Failed.
    Report,
    /// An action that ends is closing or cancelling, and nothing in it is unsettled.
    Unsettled,
    /// It ends as its members and nested actions did.
    Ending,
}

impl Rule {
    ghost use Rattle.lra_model.specs.Names.{rule_name};

    /// Returns its code in a verdict.
    pub const fn name(self) -> &'static str
        ensures { result.now ≡ rule_name self }
    {
        match self {
            Rule::Header => "header",
            Rule::Grammar => "grammar",
            Rule::Clerk => "clerk",
            Rule::Moment => "moment",
            Rule::Number => "number",
            Rule::Action => "action",
            Rule::Member => "member",
            Rule::Left => "left",
            Rule::Active => "active",
            Rule::Addresses => "addresses",
            Rule::Limit => "limit",
            Rule::Cause => "cause",
            Rule::Skip => "skip",
            Rule::Ask => "ask",
            Rule::Reply => "reply",
            Rule::Report => "report",
            Rule::Unsettled => "unsettled",
            Rule::Ending => "ending",
        }
    }

    /// Returns the rule of this name, if there is one.
    pub fn from_name(text: &[u8]) -> Option<Self>
        ensures found { IfSome result (λ rule. text.now ≡ rule_name rule) }
        ensures only { (rule : Rule) → text.now ≡ rule_name rule → result ≡ Some rule }
    {
        let values = [
            Rule::Header,
            Rule::Grammar,
            Rule::Clerk,
            Rule::Moment,
            Rule::Number,
            Rule::Action,
            Rule::Member,
            Rule::Left,
            Rule::Active,
            Rule::Addresses,
            Rule::Limit,
            Rule::Cause,
            Rule::Skip,
            Rule::Ask,
            Rule::Reply,
            Rule::Report,
            Rule::Unsettled,
            Rule::Ending,
        ];
        find_by_name(&values, text)
    }
}

impl Named for Rule {
    ghost use Rattle.lra_model.specs.Names.{rule_name};

    ghost name_of = { rule_name };

    fn name(self) -> &'static str {
        Rule::name(self)
    }
}
