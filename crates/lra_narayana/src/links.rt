//! The links of a member, as JAX-RS writes them: `<URI>; rel="compensate"; title=..; type=..`, separated by commas.

ghost use Rattle.std.specs.Prelude.{◌≡◌, option_map};
ghost use Rattle.lra_narayana.specs.Links as spec;

use crate::texts::{
    after_close, after_open, after_semicolon, before_close, before_open, begins_with,
};

/// Relation of a link to its member.
#[derive(Clone, Copy, Debug, PartialEq, Eq)]
pub enum Relation {
    Compensate,
    Complete,
    Status,
    Forget,
    Leave,
    After,
}

impl Relation {
    /// Returns the parameter of a link that has the relation.
    fn mark(self) -> &'static str
        ensures { result.now ≡ spec.mark self }
    {
        match self {
            Relation::Compensate => "rel=\"compensate\"",
            Relation::Complete => "rel=\"complete\"",
            Relation::Status => "rel=\"status\"",
            Relation::Forget => "rel=\"forget\"",
            Relation::Leave => "rel=\"leave\"",
            Relation::After => "rel=\"after\"",
        }
    }

    /// Returns that parameter after a space.
    fn spaced(self) -> &'static str
        ensures { result.now ≡ spec.spaced self }
    {
        match self {
            Relation::Compensate => " rel=\"compensate\"",
            Relation::Complete => " rel=\"complete\"",
            Relation::Status => " rel=\"status\"",
            Relation::Forget => " rel=\"forget\"",
            Relation::Leave => " rel=\"leave\"",
            Relation::After => " rel=\"after\"",
        }
    }

    /// Returns whether parameters of a link begin with the relation.
    #[tactic(auto, unfolding(crate::specs::Links::begins))]
    fn begins(self, parameters: &str) -> bool
        ensures { result ≡ spec.begins self parameters.now }
    {
        begins_with(parameters, self.mark()) || begins_with(parameters, self.spaced())
    }

    /// Returns whether one of the first parameters of a link is the relation.
    #[tactic(auto, unfolding(crate::specs::Links::is_of))]
    fn is_of(self, link: &str) -> bool
        ensures { result ≡ spec.is_of self link.now }
    {
        let one = after_semicolon(after_close(link));
        let two = after_semicolon(one);
        let three = after_semicolon(two);
        let four = after_semicolon(three);
        self.begins(one) || self.begins(two) || self.begins(three) || self.begins(four)
    }
}

/// Returns the URI of the link that a text begins with, behind its `<`, if the link has the relation.
#[tactic(auto, unfolding(crate::specs::Links::uri_at))]
fn uri_at(relation: Relation, rest: &str) -> Option<&str>
    ensures { option_map (λ uri. uri.now) result ≡ spec.uri_at relation rest.now }
{
    let link = before_open(rest);
    if relation.is_of(link) {
        Some(before_close(link))
    } else {
        None
    }
}

/// Returns whether a text behind a `<` begins with a link that has a known relation, or is empty.
#[tactic(auto, unfolding(crate::specs::Links::is_known))]
fn is_known(rest: &str) -> bool
    ensures { result ≡ spec.is_known rest.now }
{
    rest.is_empty() || has_relation(before_open(rest))
}

/// Returns whether a link has a known relation.
#[tactic(auto, unfolding(crate::specs::Links::has_relation))]
fn has_relation(link: &str) -> bool
    ensures { result ≡ spec.has_relation link.now }
{
    Relation::Compensate.is_of(link)
        || Relation::Complete.is_of(link)
        || Relation::Status.is_of(link)
        || Relation::Forget.is_of(link)
        || Relation::Leave.is_of(link)
        || Relation::After.is_of(link)
}

/// Returns the URI of a link that has the relation among three that a text begins with, behind the first `<`.
#[tactic(auto, unfolding(crate::specs::Links::uri_soon))]
fn uri_soon(relation: Relation, one: &str) -> Option<&str>
    ensures { option_map (λ uri. uri.now) result ≡ spec.uri_soon relation one.now }
{
    let two = after_open(one);
    let three = after_open(two);
    if let Some(uri) = uri_at(relation, one) {
        return Some(uri);
    }
    if let Some(uri) = uri_at(relation, two) {
        return Some(uri);
    }
    uri_at(relation, three)
}

/// Returns what follows three links, behind the next `<`.
fn later(one: &str) -> &str
    ensures { result.now ≡ spec.later one.now }
{
    after_open(after_open(after_open(one)))
}

/// Returns the URI of the first of a member's links that has the relation.
#[tactic(auto, unfolding(crate::specs::Links::uri_of))]
pub(crate) fn uri_of(relation: Relation, links: &str) -> Option<&str>
    ensures { option_map (λ uri. uri.now) result ≡ spec.uri_of relation links.now }
{
    let first = after_open(links);
    match uri_soon(relation, first) {
        Some(uri) => Some(uri),
        None => uri_soon(relation, later(first)),
    }
}

/// Returns whether three links that a text begins with, behind the first `<`, have known relations.
#[tactic(auto, unfolding(crate::specs::Links::are_known))]
fn are_known(one: &str) -> bool
    ensures { result ≡ spec.are_known one.now }
{
    is_known(one) && is_known(after_open(one)) && is_known(after_open(after_open(one)))
}

/// Returns whether a text is that of links.
#[tactic(auto, unfolding(crate::specs::Links::begins_links))]
pub(crate) fn begins_links(text: &str) -> bool
    ensures { result ≡ spec.begins_links text.now }
{
    begins_with(text, "<")
}

/// Returns whether a text is links of known relations, six at most.
#[tactic(auto, unfolding(crate::specs::Links::is_links))]
pub(crate) fn is_links(text: &str) -> bool
    ensures { result ≡ spec.is_links text.now }
{
    let first = after_open(text);
    let fourth = later(first);
    begins_links(text) && are_known(first) && are_known(fourth) && later(fourth).is_empty()
}
