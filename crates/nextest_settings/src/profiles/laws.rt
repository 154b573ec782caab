//! Laws of what profiles mean, and of the groups that tests belong to.
ghost use Rattle.std.specs.Prelude.{◌≡◌, ◌⊎◌, List, ℕ, Some, slice_get};
ghost use Rattle.nextest_elements.specs.declared.run_mode.NextestRunMode.{NextestRunMode};
ghost use Rattle.nextest_elements.specs.declared.run_mode.NextestRunMode.TheVariants.{Test as InTest};
ghost use Rattle.nextest_elements.specs.declared.test_group.TestGroup.TheVariants.{Global};
ghost use Rattle.nextest_engines.specs.Engines.{Test};
ghost use Rattle.nextest_engines.specs.Readings.{Readings};
ghost use Rattle.nextest_engines.specs.declared.queries.BuildPlatforms.{BuildPlatforms};
ghost use Rattle.nextest_load.specs.Closed.{IsClosed};
ghost use Rattle.nextest_load.specs.Config.{config_of};
ghost use Rattle.nextest_load.specs.Meaning.{config_meaning};
ghost use Rattle.nextest_rules.specs.Accepted.{IsAmong};
ghost use Rattle.nextest_settings.specs.Engines.{meets_by};
ghost use Rattle.nextest_settings.specs.Profile.{Configured, EarlyModel, EvaluatableModel, profile_of, profile_on};
ghost use Rattle.nextest_settings.specs.Queries.{query_in, setting_value, custom_group_of, group_of};
ghost use Rattle.nextest_elements.specs.declared.setting.Setting.TheVariants.{TestGroup};
ghost use Rattle.nextest_sources.specs.Inputs.{SourceText};
ghost use Rattle.nextest_tables.specs.FileTexts.{names_in};
ghost use Rattle.nextest_tables.specs.Written.{Name};
ghost use Rattle.nextest_settings.specs.Profiles.Meaning.{with_config, profile_meaning};
ghost use Rattle.nextest_settings.specs.Profiles.Memberships.{IsLastGroup, NoneGetsGroup, HaveDistinctIds};
ghost use Rattle.nextest_settings.specs.Profiles.Profiles.{IsProfileOf};

use nextest_engines::{Filters, Specs};

/// A profile of a configuration, on the platforms of a build, means the profile of that name by
/// what the texts of the sources mean. The premises are what the load and `profile` ensure, and the
/// profile on the platforms is the one that `apply_build_platforms` returns; its results are
/// those of its meaning.
pub fn law_settings_of_texts<F: Filters, S: Specs>()
    ensures { (engines : Readings F.Meaning S.SpecMeaning S.Platform) (sources : List SourceText)
        (configured : Configured F.Expr S.Spec) (name : Name) (early : EarlyModel F.Expr S.Spec)
        (platforms : BuildPlatforms S.Platform)
        → config_meaning F.meaning S.spec_meaning configured.config ≡ config_of engines sources
        → IsProfileOf configured name early
        → (meant : EarlyModel F.Meaning S.SpecMeaning)
        × IsProfileOf (with_config configured (config_of engines sources)) name meant
        × (profile_meaning F.meaning (profile_on
        (meets_by S.Specs) platforms early)
        ≡ profile_on S.holds_on platforms meant) }
{}

/// Each group that a profile of a closed configuration gives a test is the global one or one that
/// the configuration defines.
pub fn law_known_groups<F: Filters, S: Specs>()
    ensures { (configured : Configured F.Meaning S.SpecMeaning) (name : Name) (chain : List Name)
        (platforms : BuildPlatforms S.Platform) (mode : NextestRunMode) (test : Test)
        → IsClosed F.holds_binary configured.config configured.scripts
        → let profile = profile_on S.holds_on platforms (profile_of configured name chain) in
        let query = query_in F.holds profile test in
        IsAmong (names_in profile.facts.groups) (setting_value query mode profile TestGroup) }
{}

/// The group of a name among tests is the last custom group that the tests of that name get; where
/// none of them gets one, it is the global group. So a later test of the name that is in no group
/// of its own removes nothing.
pub fn law_last_group<F: Filters>()
    ensures { (p : EvaluatableModel F.Meaning) (tests : List Test) (binary_id name : List ℕ)
        → let group = group_of F.holds p tests binary_id name in
        let gets = custom_group_of F.holds p in
        IsLastGroup gets tests binary_id name group
        ⊎ ((group ≡ Global) × NoneGetsGroup gets tests binary_id name) }
{}

/// Where tests have distinct ids, each belongs to the group that its settings in test mode say.
pub fn law_group_of_settings<F: Filters>()
    ensures { (p : EvaluatableModel F.Meaning) (tests : List Test) (n : ℕ) (test : Test)
        → HaveDistinctIds tests → slice_get tests n ≡ Some test
        → let query = query_in F.holds p test in
        setting_value query InTest p TestGroup
        ≡ Some (group_of F.holds p tests test.binary.binary_id test.name) }
{}
