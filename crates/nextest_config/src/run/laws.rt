//! Laws of whole configurations, for all engines: what a user relies on without reading a rule.
ghost use Rattle.nextest_engines.specs.Readings.{Readings};
ghost use Rattle.nextest_settings.specs.Profile.{EvaluatableModel};
ghost use Rattle.nextest_config.specs.Laws.{Isolation, FileApart, Aliasing, DefaultFiltersAreRead, TakingOut, LastRule, GroupsAreKnown, ChainsRepeatNoName, ScriptsAreEnabledInOrder, GroupsAreOfSettings};

use nextest_engines::{Filters, Specs};

/// Other profiles do not matter: what a profile gives depends on `default`, itself and its
/// ancestors alone.
pub fn law_isolation<F: Filters, S: Specs>()
    ensures { (engines : Readings F.Meaning S.SpecMeaning S.Platform) → Isolation engines }
{}

/// A file that writes nothing of `default`, a profile and its ancestors, and nothing outside of
/// profiles, does not matter to that profile.
pub fn law_file_apart<F: Filters, S: Specs>()
    ensures { (engines : Readings F.Meaning S.SpecMeaning S.Platform) → FileApart engines }
{}

/// A profile that only inherits gives what its parent gives.
pub fn law_alias<F: Filters, S: Specs>()
    ensures { (engines : Readings F.Meaning S.SpecMeaning S.Platform) → Aliasing engines }
{}

/// The text of the default filter of a profile reads to what that filter means, or the filter is
/// `all()`, which matches everything.
pub fn law_default_filter_text<F: Filters, S: Specs>()
    ensures { (engines : Readings F.Meaning S.SpecMeaning S.Platform)
        → DefaultFiltersAreRead engines }
{}

/// An override that does not hold for a test may go, but for the one whose default filter is
/// chosen.
pub fn law_take_out<F: Filters, S: Specs>()
    ensures { (engines : Readings F.Meaning S.SpecMeaning S.Platform) → TakingOut engines }
{}

/// An override behind all others changes no setting that another one decides, but where its default
/// filter is chosen.
pub fn law_last_rule<F: Filters, S: Specs>()
    ensures { (engines : Readings F.Meaning S.SpecMeaning S.Platform) → LastRule engines }
{}

/// What schedulers rely on: groups of tests are known, chains repeat no name, more tests enable at
/// least the same setup scripts, and memberships are what settings say.
pub fn law_users<F: Filters, S: Specs>()
    ensures groups { (engines : Readings F.Meaning S.SpecMeaning S.Platform)
        → GroupsAreKnown engines }
    ensures chains { ChainsRepeatNoName }
    ensures scripts { (engines : Readings F.Meaning S.SpecMeaning S.Platform)
        (p : EvaluatableModel F.Meaning) → ScriptsAreEnabledInOrder engines p }
    ensures memberships { (engines : Readings F.Meaning S.SpecMeaning S.Platform)
        → GroupsAreOfSettings engines }
{}
