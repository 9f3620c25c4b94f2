//! Parser of the names of actions on the command line.

ghost use Rattle.std.specs.Prelude.{
  ◌≡◌,
  ◌≢◌,
  ◌++◌,
  ◌<◌,
  ◌^◌,
  ℕ,
  List,
  IfSome,
  IfNone,
  ◌-◌,
  length,
  drop,
  MatchOption,
  codes,
};
ghost use Rattle.std.specs.Fmt.{decimal};
ghost use Rattle.lra_ids.specs.Identifiers.{IsSpelling, id_text, action_uri};
ghost use Rattle.lra_timelines.specs.Wanted.{IsWanted, NamesNone};
ghost use Rattle.lra_timelines.specs.inner.Ids.{IsId, IsNoId, IsNoUri};

use lra_ids::{instance_in, read_id};
use lra_journal::read_number;
use lra_model::Instance;
use std::str;

/// Text before the identifier in the URI of an action.
const ACTIONS: &str = "lra-coordinator/";

/// Number of characters of the text of an identifier.
const ID_LENGTH: usize = 36;

/// Wanted action: its number, and its journal's instance. None is any instance.
#[derive(Clone, Copy)]
pub struct Wanted {
    pub action: u64,
    pub instance: Option<Instance>,
}

/// Reads the number of an action.
fn of_number(text: &str) -> Option<Wanted>
    ensures found { IfSome result (IsWanted text.now) }
    ensures none { IfNone result ((a : ℕ) → a < 2 ^ 64 → text.now ≢ decimal a) }
{
    let action = read_number(text.as_bytes())?;
    Some(Wanted {
        action,
        instance: None,
    })
}

/// Reads the UUID of an action.
fn of_id(text: &str) -> Option<Wanted>
    ensures found { IfSome result (IsId text.now) }
    ensures none { IfNone result (IsNoId text.now) }
{
    let instance = instance_in(text.as_bytes())?;
    let action = read_id(text, instance)?;
    Some(Wanted {
        action,
        instance: Some(instance),
    })
}

/// Returns the base of an action's URI, by the text before the identifier. Returns None if that isn't such a URI.
fn base_in(front: &[u8]) -> Option<&[u8]>
    ensures { MatchOption result ((base : List ℕ) → front.now ≢ base ++ codes "lra-coordinator/")
        (λ base. front.now ≡ base.now ++ codes "lra-coordinator/") }
{
    front.strip_suffix(ACTIONS.as_bytes())
}

/// Returns the identifier at the end of the URI of an action, whatever its base.
fn id_at_end(uri: &str) -> Option<&str>
    ensures found { IfSome result (λ id. (base : List ℕ) × (uri.now ≡ base ++ codes "lra-coordinator/" ++ id.now)) }
    ensures end { IfSome result (λ id. id.now ≡ drop (length uri.now - 36) uri.now) }
    ensures none { IfNone result ((base : List ℕ) (i n : ℕ) → uri.now ≢ action_uri i base n) }
{
    let at = uri.len().checked_sub(ID_LENGTH)?;
    let (front, id) = uri.as_bytes().split_at(at);
    let _base = base_in(front)?;
    match str::from_utf8(id) {
        Ok(id) => Some(id),
        Err(_) => None,
    }
}

/// Reads the URI of an action.
fn of_uri(text: &str) -> Option<Wanted>
    ensures found { IfSome result (IsWanted text.now) }
    ensures none { IfNone result (IsNoUri text.now) }
{
    let id = id_at_end(text)?;
    of_id(id)
}

/// Reads the action that a word of the command line names: by its number, by its UUID, or by its whole URI.
pub fn read_wanted(text: &str) -> Option<Wanted>
    ensures found { IfSome result (IsWanted text.now) }
    ensures none { IfNone result (NamesNone text.now) }
{
    if let Some(wanted) = of_number(text) {
        return Some(wanted);
    }
    if let Some(wanted) = of_id(text) {
        return Some(wanted);
    }
    of_uri(text)
}
