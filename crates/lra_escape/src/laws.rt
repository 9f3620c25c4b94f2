//! The law of escapes: a public function that does nothing, whose contract says what follows from the definitions.

ghost use Rattle.lra_escape.specs.Escapes.{ReadsBack};

/// States that an escaped text reads back as the text, whatever bytes it has. So none of the five marks stands bare in
/// it, as the reading would refuse it.
pub fn escapes_read_back()
    ensures { ReadsBack }
{}
