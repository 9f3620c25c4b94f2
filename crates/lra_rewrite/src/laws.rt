//! Laws of what requests mean: public functions that do nothing, whose contracts say what follows from the definitions.

ghost use Rattle.lra_rewrite.specs.Ordered.{StartsAskSo, JoinsAskSo, OthersMeanThemselves};

/// Shows that the request which a start means asks for the action that the start asks for, if it can be read: with the
/// limit that the start gives, or else the default limit.
pub fn starts_ask_for_the_default()
    ensures { StartsAskSo }
{}

/// Shows that the request which a join means asks for the join that it asks for, if it can be read: of the same action,
/// with each address spelled with `http`.
pub fn joins_ask_for_http()
    ensures { JoinsAskSo }
{}

/// Shows that a request which is neither a start nor a join means itself, and that starts do if there is no default
/// limit, and joins if members aren't called by a proxy.
pub fn others_mean_themselves()
    ensures { OthersMeanThemselves }
{}
