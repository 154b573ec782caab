//! The parts of tests that the filters of a profile use.
ghost use Rattle.std.specs.List.{list_any};
ghost use Rattle.std.specs.Option.{option_map_or};
ghost use Rattle.std.specs.Prelude.{◌≡◌, ◌||◌, false, option_map};
ghost use Rattle.nextest_settings.specs.View.{evaluated_override_view, evaluated_script_rule_view};
ghost use Rattle.rinqebo_session.specs.Needs.{asked_on, filter_asks, is_missing, lacks, rule_asks, AreNeeds};

use crate::test::CallerTest;
use filter_engine::{Field, FieldMatcher, Filterset, NextestFilters};
use nextest_config::{
    BuildPlatform, EvaluatableProfile, EvaluatedOverride, EvaluatedRules, EvaluatedScriptRule,
};
use platform_language::TargetSpecs;

/// The parts of a test that the filters of a profile use.
#[derive(Clone, Copy, Debug, PartialEq, Eq, Drop)]
pub struct Needs {
    /// The package of its binary.
    pub package: bool,
    /// The id of its binary.
    pub binary: bool,
    /// The kind of its target.
    pub kind: bool,
    /// The name of its target.
    pub target: bool,
    /// Its name.
    pub name: bool,
}

/// Whether a filter uses a field, if there is one.
fn filter_asks(filter: Option<&Filterset<FieldMatcher>>, field: Field) -> bool
    ensures { result
        ≡ option_map_or (filter_asks field) (option_map (λ expr. expr.now) filter.entry) false }
{
    match filter {
        Some(filter) => filter.asks::<NextestFilters>(field),
        None => false,
    }
}

/// Whether an override uses a field, for binaries of a platform.
fn override_asks(
    rule: &EvaluatedOverride<'_, NextestFilters, TargetSpecs>,
    platform: BuildPlatform,
    field: Field,
) -> bool
    ensures { result ≡ rule_asks platform field (evaluated_override_view rule.now) }
{
    rule.is_on(platform) && filter_asks(rule.rule().filter(), field)
}

/// Whether a script rule uses a field, for binaries of a platform.
fn script_rule_asks(
    rule: &EvaluatedScriptRule<'_, NextestFilters, TargetSpecs>,
    platform: BuildPlatform,
    field: Field,
) -> bool
    ensures { result ≡ rule_asks platform field (evaluated_script_rule_view rule.now) }
{
    rule.is_on(platform) && filter_asks(rule.rule().filter(), field)
}

/// Whether some override uses a field, for binaries of a platform.
fn overrides_ask(
    rules: &[EvaluatedOverride<'_, NextestFilters, TargetSpecs>],
    platform: BuildPlatform,
    field: Field,
) -> bool
    ensures { result ≡ list_any
        (λ rule. rule_asks platform field (evaluated_override_view rule)) rules.now }
{
    rules
        .iter()
        .any(|rule| override_asks(rule, platform, field))
}

/// Whether some script rule uses a field, for binaries of a platform.
fn script_rules_ask(
    rules: &[EvaluatedScriptRule<'_, NextestFilters, TargetSpecs>],
    platform: BuildPlatform,
    field: Field,
) -> bool
    ensures { result ≡ list_any
        (λ rule. rule_asks platform field (evaluated_script_rule_view rule)) rules.now }
{
    rules
        .iter()
        .any(|rule| script_rule_asks(rule, platform, field))
}

/// Whether some rule uses a field, for binaries of a platform.
fn rules_ask(
    rules: &EvaluatedRules<'_, NextestFilters, TargetSpecs>,
    platform: BuildPlatform,
    field: Field,
) -> bool
    ensures { result ≡ (list_any (λ rule. rule_asks platform field (evaluated_override_view rule))
        rules.now.overrides.items
        || list_any (λ rule. rule_asks platform field (evaluated_script_rule_view rule))
        rules.now.script_rules.items) }
{
    overrides_ask(&rules.overrides, platform, field)
        || script_rules_ask(&rules.script_rules, platform, field)
}

/// Whether the default filter of a profile uses a field.
fn default_filter_asks(
    profile: &EvaluatableProfile<'_, NextestFilters, TargetSpecs>,
    field: Field,
) -> bool
    ensures { result ≡ filter_asks field profile.now.default_filter.filter }
{
    filter_asks(Some(profile.default_filter().expr), field)
}

/// Whether some rule of a profile uses a field, for binaries of a platform.
fn rules_of_profile_ask(
    profile: &EvaluatableProfile<'_, NextestFilters, TargetSpecs>,
    platform: BuildPlatform,
    field: Field,
) -> bool
    ensures { result ≡ (list_any (rule_asks platform field) profile.now.overrides
        || list_any (rule_asks platform field) profile.now.script_rules) }
{
    rules_ask(profile.rules(), platform, field)
}

/// Whether a filter of a profile uses a field, for binaries of a platform.
fn asks_on(
    profile: &EvaluatableProfile<'_, NextestFilters, TargetSpecs>,
    platform: BuildPlatform,
    field: Field,
) -> bool
    ensures { result ≡ asked_on profile.now platform field }
{
    default_filter_asks(profile, field) || rules_of_profile_ask(profile, platform, field)
}

/// Whether a part is missing: filters use it, and the caller has none.
fn is_missing(is_asked: bool, given: &[u8]) -> bool
    ensures { result ≡ is_missing is_asked given.now }
{
    is_asked && given.is_empty()
}

impl Needs {
    /// The parts that the filters of a profile use, for binaries of a platform.
    pub fn of(
        profile: &EvaluatableProfile<'_, NextestFilters, TargetSpecs>,
        platform: BuildPlatform,
    ) -> Needs
        ensures { AreNeeds profile.now platform result }
    {
        let package = asks_on(profile, platform, Field::Package)
            || asks_on(profile, platform, Field::Deps)
            || asks_on(profile, platform, Field::Rdeps);
        Needs {
            package,
            binary: asks_on(profile, platform, Field::BinaryId),
            kind: asks_on(profile, platform, Field::Kind),
            target: asks_on(profile, platform, Field::BinaryName),
            name: asks_on(profile, platform, Field::TestName),
        }
    }

    /// Whether a test lacks one of them.
    pub fn are_missing(&self, test: &CallerTest<'_>) -> bool
        ensures { result ≡ lacks self.now test.now }
    {
        is_missing(self.package, test.package)
            || is_missing(self.binary, test.binary)
            || is_missing(self.kind, test.kind)
            || is_missing(self.target, test.target)
            || is_missing(self.name, test.name)
    }
}
