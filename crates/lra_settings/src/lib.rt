//! The settings of a service: how much it handles at once, its time-outs, when a folder's journals are rotated, and the
//! range of each number.
#![tactic(auto)]

mod descriptors;
mod given;
mod parameter;
mod settings;

pub use descriptors::{descriptors_needed, share_descriptors, taken_by_file, taken_by_folder};
pub use given::{Given, settings_of};
pub use parameter::Parameter;
pub use settings::Settings;
