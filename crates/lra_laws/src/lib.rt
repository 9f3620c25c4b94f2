//! Laws of histories: public functions that do nothing, whose contracts say what holds of every history. The lemmas
//! about the definitions of `lra_model`, which every crate above cites, stand in `proofs/`.
#![tactic(auto)]

ghost use Rattle.lra_model.specs.GoodEnds.{LegalHistoriesHaveGoodEnds};
ghost use Rattle.lra_model.specs.Upgrade.{VersionTwoKeepsLegal};

/// States that every history that is legal in version 1 of the journal is legal in version 2.
pub fn version_two_keeps_legal_histories()
    ensures { VersionTwoKeepsLegal }
{}

/// States how actions end in every legal history of either version. If an action closed, every staying member in it or
/// below it is completed and was never asked to compensate, unless a nested cancellation compensated it. If an action
/// was cancelled, every such member is compensated. An end is a failed one exactly if such a member failed.
pub fn legal_histories_have_good_ends()
    ensures { LegalHistoriesHaveGoodEnds }
{}
