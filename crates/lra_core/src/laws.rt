//! Laws of coordinators: public functions that do nothing, whose contracts say what holds whatever commands are given.

ghost use Rattle.lra_core.specs.Laws.{AsksAreAnsweredOnce, ErrandsAreOfAsks};
ghost use Rattle.lra_core.specs.Prepares.{BlocksFitOnce};
ghost use Rattle.lra_core.specs.Texts.{CallsMakeSoundTexts};

/// States that the text of a coordinator's history has the verdict Sound, with the history's summary, and no other,
/// whatever commands are given to a new or a reopened coordinator, by any clerks, at any moments and in any order,
/// refused ones among them. So `audit` never refuses it, in either version of the journal.
pub fn commands_make_sound_texts()
    ensures { CallsMakeSoundTexts }
{}

/// States that a block fits only the history that it was made at, so not the one after itself: it can be committed
/// once.
pub fn blocks_fit_once()
    ensures { BlocksFitOnce }
{}

/// States that each errand is of an ask in the history.
pub fn errands_are_of_asks()
    ensures { ErrandsAreOfAsks }
{}

/// States that in a legal history each ask has at most one reply, so that an errand is recorded once.
pub fn asks_are_answered_once()
    ensures { AsksAreAnsweredOnce }
{}
