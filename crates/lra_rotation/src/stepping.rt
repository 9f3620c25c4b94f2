//! Steps of a service: the action that is decided is done, and its result is recorded.

ghost use Rattle.lra_rotation.specs.Steps.{IsStep};

use crate::action::{RotationAction, StepResult};
use crate::journal::Observation;
use crate::rotation::Rotation;

/// Driver, which does the actions that are decided, with files and threads. It closes a journal's file for good, at the
/// length at which the journal was judged done, before a withdrawal is done: nothing is begun there from then on.
pub trait RotationDriver {
    /// Does an action. Returns whether it is known to be done: a disk that has failed may have taken it or not.
    fn perform(&mut self, action: RotationAction) -> bool;
}

/// Decides on an action, does it, and records its result. An action that is done, but can't be recorded for want of
/// memory, counts as failed.
pub fn step<H: RotationDriver>(
    rotation: &mut Rotation,
    driver: &mut H,
    moment: u64,
    is_own: bool,
    observations: &[Observation],
) -> StepResult
    ensures { IsStep rotation.old moment is_own observations.now result rotation.new }
{
    match rotation.decide(moment, is_own, observations) {
        Some(action) => {
            if driver.perform(action) && rotation.done(action).is_ok() {
                return StepResult::Done(action);
            }
            rotation.failed(action);
            StepResult::Failed(action)
        }
        None => StepResult::Nothing,
    }
}
