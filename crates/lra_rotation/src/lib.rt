//! Rotation of a service's journals, decided with no disk, no clock and no thread: which journal accepts new work, when
//! the next one is prepared and takes its place, which one is closed, which one is archived, and when a service that
//! drains ends. With it stand the names of journals and the limits that bring them to their end.
#![tactic(auto)]

mod action;
mod choosing;
mod found_journals;
mod instances;
mod journal;
mod laws;
mod limits;
mod marks;
mod names;
mod rotation;
mod rows;
mod settings;
mod stepping;

pub use action::{Change, NewWork, RotationAction, Stage, StepResult};
pub use found_journals::FoundJournals;
pub use instances::next_instance;
pub use journal::{Observation, RotationJournal, RotationWorker};
pub use laws::{
    answers_at_the_newest, archives_what_is_done, begins_nothing_retired, closed_stays_closed,
    ends_once_drained, ends_what_is_drained, fails_in_place, gives_none_twice, holds_what_stands,
    keeps_one_newest, keeps_the_file, knows_all, leaves_before_rolling, loses_no_journal,
    loses_nothing_begun, never_rotates_a_file, steps_are_events, takers_ascend, takes_or_tells,
    tries_again,
};
pub use limits::{
    Counts, has_reached, is_done_with, is_near_limit, is_settled, least_pause, longer_pause,
};
pub use marks::{Mark, mark_line};
pub use names::{instance_named, name_of, next_name_of};
pub use rotation::Rotation;
pub use settings::RotationSettings;
pub use stepping::{RotationDriver, step};
