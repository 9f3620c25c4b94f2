//! The URI base of the replies to a thread's clients.

use std::marker::Brand;

/// URI base that all handlers for a thread's clients share. It is fixed by their type, so that each client that is kept
/// is known to get the same base. A function over such a type is called at `Brand`, and the proof of that call says
/// what the URIs begin with.
pub trait WhichBase {
    ghost use Rattle.std.specs.Prelude.{ℕ, List};

    // The bytes that the URIs begin with.
    ghost base: { List ℕ };
}

impl WhichBase for Brand {
    ghost use Rattle.std.specs.Prelude.{[]};

    ghost base = { [] };
}
