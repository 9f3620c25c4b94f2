//! The laws of sites: public functions that do nothing, whose contracts say what follows from the definitions.

ghost use Rattle.lra_ids.specs.SiteLaws.{
  ActionsBeginWithTheirSite,
  AreRanges,
  BeginWithTheirSite,
  FitSixteenBits,
  NeverMeet,
  RecoveriesBeginWithTheirSite,
  TellSitesApart,
};

/// States that an identifier begins with the four hexadecimal digits of its instance's site. So these digits follow the
/// base and the path in the URI of an action and in the recovery URI of a member, whatever the base.
pub fn identifiers_begin_with_their_site()
    ensures id { BeginWithTheirSite }
    ensures action { ActionsBeginWithTheirSite }
    ensures recovery { RecoveriesBeginWithTheirSite }
{}

/// States that identifiers whose first four characters are the same are of one site, and that no URI is of two sites,
/// whatever the bases.
pub fn sites_never_meet()
    ensures apart { TellSitesApart }
    ensures uris { NeverMeet }
{}

/// States that the instances of a site are those from its first to its last, 2^44 in number, and no others, and that
/// the site of an instance fits 16 bits.
pub fn sites_are_ranges()
    ensures ranges { AreRanges }
    ensures fit { FitSixteenBits }
{}
