//! Laws: public functions that do nothing, whose contracts say what follows from the definitions.

ghost use Rattle.lra_logs.specs.Meters.{AreFew, AreCounted, AreHeard};

/// States what a rate limiter does, whatever the moments are. A new one admits at most a hundred lines a second beside
/// warnings and errors. It admits each warning and each error. Each line is admitted, or reported once as not written,
/// or still waits to be reported.
pub fn lines_are_few()
    ensures few { AreFew }
    ensures counted { AreCounted }
    ensures heard { AreHeard }
{}
