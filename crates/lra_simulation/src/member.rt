//! A member: what it was asked, what it did, and what it replies.

use super::chance::Chance;
use lra_journal::UrisRef;
use lra_model::{AskKind, Direction, Ending, Memory, Outcome, Uris};
use std::alloc::Global;

/// Progress of a member in one direction.
#[derive(Clone, Copy, Debug, PartialEq, Eq)]
pub enum Stand {
    Untouched,
    /// The member goes on by itself.
    Working,
    Done,
    Failed,
}

/// Addresses that a member has beside the one to compensate.
#[derive(Clone, Copy)]
pub struct Doors {
    pub complete: bool,
    pub status: bool,
    pub forget: bool,
    pub after: bool,
}

#[derive(Clone, Copy)]
pub struct Member {
    /// Client that lets it join, as a place in the world.
    pub client: usize,
    pub doors: Doors,
    /// Number that its client was told.
    pub number: Option<u64>,
    /// Number that it was asked with.
    pub asked_as: Option<u64>,
    /// Set once its leave was asked for; `has_left` is set once it was granted.
    pub is_leaving: bool,
    pub has_left: bool,
    pub completion: Stand,
    pub compensation: Stand,
    pub was_told_to_compensate: bool,
}

/// Draws how far a member gets when it is asked for the first time, and its reply, if any.
fn begin(chance: &mut Chance) -> (Stand, Option<Outcome>) {
    match chance.below(100) {
        0..4 => (Stand::Untouched, None),
        4..8 => (Stand::Done, None),
        8..16 => (Stand::Working, Some(Outcome::Accepted)),
        16..18 => (Stand::Failed, Some(Outcome::Failed)),
        _ => (Stand::Done, Some(Outcome::Done)),
    }
}

/// Draws how far a member gets when it is asked again, having got this far before, and its reply, if any.
fn go_on(stand: Stand, chance: &mut Chance) -> (Stand, Option<Outcome>) {
    match stand {
        Stand::Untouched => begin(chance),
        Stand::Working if chance.happens(800) => (Stand::Working, Some(Outcome::Accepted)),
        Stand::Working | Stand::Done => (Stand::Done, Some(Outcome::Done)),
        Stand::Failed => (Stand::Failed, Some(Outcome::Failed)),
    }
}

/// Draws a member's reply to a notice, if any.
fn notice(chance: &mut Chance) -> Option<Outcome> {
    if chance.happens(900) {
        Some(Outcome::Done)
    } else {
        None
    }
}

impl Member {
    pub fn new(client: usize, chance: &mut Chance) -> Member {
        Member {
            client,
            doors: Doors {
                complete: chance.happens(900),
                status: chance.happens(500),
                forget: chance.happens(500),
                after: chance.happens(300),
            },
            number: None,
            asked_as: None,
            is_leaving: false,
            has_left: false,
            completion: Stand::Untouched,
            compensation: Stand::Untouched,
            was_told_to_compensate: false,
        }
    }

    fn complete(&mut self, chance: &mut Chance) -> Option<Outcome> {
        let (stand, outcome) = go_on(self.completion, chance);
        self.completion = stand;
        outcome
    }

    fn compensate(&mut self, chance: &mut Chance) -> Option<Outcome> {
        let (stand, outcome) = go_on(self.compensation, chance);
        self.compensation = stand;
        outcome
    }

    /// Does what it is asked, and returns its reply, if any.
    pub fn hear(&mut self, kind: AskKind, chance: &mut Chance) -> Option<Outcome> {
        match kind {
            AskKind::Complete => self.complete(chance),
            AskKind::Compensate => {
                self.was_told_to_compensate = true;
                self.compensate(chance)
            }
            AskKind::Status if self.compensation != Stand::Untouched => self.compensate(chance),
            AskKind::Status if self.completion != Stand::Untouched => self.complete(chance),
            AskKind::Status => None,
            AskKind::Forget | AskKind::After => notice(chance),
        }
    }

    /// Returns the direction in which it goes on by itself, if it does.
    pub fn working(&self) -> Option<Direction> {
        if self.compensation == Stand::Working {
            Some(Direction::Compensation)
        } else if self.completion == Stand::Working {
            Some(Direction::Completion)
        } else {
            None
        }
    }

    /// Ends what it went on with by itself, and returns its ending. Returns none if it has ended before.
    pub fn finish(&mut self, way: Direction, has_failed: bool) -> Option<Ending> {
        let stand = if has_failed {
            Stand::Failed
        } else {
            Stand::Done
        };
        match way {
            Direction::Compensation if self.compensation == Stand::Working => {
                self.compensation = stand;
                Some(if has_failed {
                    Ending::FailedToCompensate
                } else {
                    Ending::Compensated
                })
            }
            Direction::Completion if self.completion == Stand::Working => {
                self.completion = stand;
                Some(if has_failed {
                    Ending::FailedToComplete
                } else {
                    Ending::Completed
                })
            }
            _ => None,
        }
    }
}

/// Returns the address of a member for this kind of ask.
fn door(alloc: Global, kind: AskKind, place: usize) -> Result<String, Memory> {
    let name = kind.name();
    format!(in alloc; "http://member.test/{name}/{place}")
}

/// Returns the text of an address if the member has that address.
fn shown(is_there: bool, text: &String) -> Option<&str> {
    if is_there { Some(text.as_str()) } else { None }
}

/// Returns the addresses of a member.
pub fn uris_of(alloc: Global, place: usize, doors: Doors) -> Result<Uris, Memory> {
    let compensate = door(alloc, AskKind::Compensate, place)?;
    let complete = door(alloc, AskKind::Complete, place)?;
    let status = door(alloc, AskKind::Status, place)?;
    let forget = door(alloc, AskKind::Forget, place)?;
    let after = door(alloc, AskKind::After, place)?;
    let uris = UrisRef {
        compensate: Some(compensate.as_str()),
        complete: shown(doors.complete, &complete),
        status: shown(doors.status, &status),
        forget: shown(doors.forget, &forget),
        after: shown(doors.after, &after),
    };
    uris.to_uris(alloc)
}

/// Returns the kind of an address and its member.
pub fn address_of(text: &str) -> Option<(AskKind, usize)> {
    let (front, place) = text.rsplit_once('/')?;
    let (_, name) = front.rsplit_once('/')?;
    let kind = AskKind::from_name(name.as_bytes())?;
    Some((kind, place.parse().ok()?))
}
