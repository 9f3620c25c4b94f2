//! Law: joins and callbacks compare the same hosts with the rules.

ghost use Rattle.std.specs.Prelude.{◌≡◌, ℕ, List};
ghost use Rattle.lra_rules.specs.Texts.{host_in};
ghost use Rattle.lra_member_rules.specs.Ruling.{host_of, socket_of};

/// Shows that the host of an address is the one in its host and port, by which a callback is held against the rules.
pub fn hosts_are_those_of_sockets()
    ensures { (address : List ℕ) → host_of address ≡ host_in (socket_of address) }
{}
