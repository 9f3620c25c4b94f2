//! The law of instances: a public function that does nothing, whose contract says what follows from the definitions.

ghost use Rattle.lra_ids.specs.InstanceLaws.{AreOfOneInstance, AreReadAtEnds, AreReadWhole};

/// States that an identifier is of one instance alone, and of one number. That instance is the one that is read from
/// it, and from the URIs that end in it, whatever base they have.
pub fn identifiers_are_of_one_instance()
    ensures alone { AreOfOneInstance }
    ensures whole { AreReadWhole }
    ensures ends { AreReadAtEnds }
{}
