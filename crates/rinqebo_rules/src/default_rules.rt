//! The overrides of a profile that have a default filter, and whether the one that counts matches a
//! test.
ghost use Rattle.std.specs.Prelude.{◌≡◌, IfOk, List, filter, map};
ghost use Rattle.nextest_engines.specs.Engines.{test_view};
ghost use Rattle.nextest_settings.specs.Profiles.RulesOn.{AreOverridesOn};
ghost use Rattle.rinqebo_rules.specs.Conditions.{filter_matches, is_met_by};
ghost use Rattle.rinqebo_rules.specs.FilterRules.{filter_facts, filter_rule_view, filter_rules, held_default, held_filter_rule};
ghost use Rattle.rinqebo_rules.specs.RuleViews.{ReadOverride};

use crate::SettingRule;
use crate::conditions::{Answers, spec_answer};
use crate::runs::NUMBER;
use crate::verdict::RuleFacts;
use filter_engine::{NextestFilters, NextestTally};
use nextest_engines::{BuildPlatform, BuildPlatforms, EvalContext, Filters, TestQuery};
use nextest_settings::{EvaluatedOverride, EvaluatedRules, runs_on};
use platform_language::{Platform, TargetSpecs};
use rinqebo_origins::RulePlace;
use rinqebo_report::ConditionAnswer;
use std::alloc::{AllocError, Global};

/// The rules of a profile on the platforms of a build.
type Rules<'c> = EvaluatedRules<'c, NextestFilters, TargetSpecs>;

/// An override on the platforms of a build.
type Override<'c> = EvaluatedOverride<'c, NextestFilters, TargetSpecs>;

/// What is known of an override that has a default filter, by whether its platforms hold.
fn filter_facts(holds: bool) -> RuleFacts
    ensures { result ≡ filter_facts holds }
{
    RuleFacts {
        is_on: holds,
        holds,
        writes: true,
    }
}

/// An override that has a default filter.
fn filter_rule<'c>(rule: &Override<'c>, platforms: &BuildPlatforms<Platform>) -> SettingRule<'c>
    ensures { filter_rule_view result ≡ held_filter_rule platforms.now rule.now }
{
    let written = rule.rule();
    let specs = written.platforms();
    let target = runs_on(platforms, BuildPlatform::Target);
    SettingRule {
        place: RulePlace::of_override(written.id()),
        value: None,
        facts: filter_facts(rule.is_on(BuildPlatform::Target)),
        answers: Answers {
            host: spec_answer(&specs.host, &platforms.host),
            target: spec_answer(&specs.target, target),
            filter: ConditionAnswer::Unrequested,
        },
    }
}

/// Whether an override has a default filter.
fn has_default(rule: &Override<'_>) -> bool
    ensures { result ≡ held_default rule.now }
{
    rule.rule().default_filter().is_some()
}

/// Those of some overrides that have a default filter.
fn held_rules<'c>(
    alloc: Global,
    overrides: &[Override<'c>],
    platforms: &BuildPlatforms<Platform>,
) -> Result<Vec<SettingRule<'c>>, AllocError>
    ensures { IfOk result (λ found. map filter_rule_view found.items
        ≡ map (held_filter_rule platforms.now) (filter held_default overrides.now)) }
{
    let mut found = Vec::new(alloc);
    for rule in overrides {
        if has_default(rule) {
            found.push(filter_rule(rule, platforms))?;
        }
    }
    Ok(found)
}

/// The overrides of a profile that have a default filter, in order, with their verdicts on the
/// platforms of a build: the first one whose platforms hold for binaries of the target decides
/// whether tests run.
pub fn filter_rules<'c>(
    alloc: Global,
    rules: &Rules<'c>,
    platforms: &BuildPlatforms<Platform>,
) -> Result<Vec<SettingRule<'c>>, AllocError>
    ensures { (overrides : List ReadOverride)
        → AreOverridesOn is_met_by platforms.now overrides rules.now.overrides.items
        → IfOk result (λ found. map filter_rule_view found.items
        ≡ filter_rules is_met_by platforms.now overrides) }
{
    held_rules(alloc, &rules.overrides, platforms)
}

/// Whether the default filter that counts matches a test.
pub fn is_matched_by_default(rules: &Rules<'_>, query: &TestQuery<'_>) -> bool
    ensures { let default = rules.now.default_filter.expr.now in
        result ≡ filter_matches default (test_view query.now) default }
{
    let default_filter = rules.default_filter.expr;
    let cx = EvalContext { default_filter };
    let mut tally = NextestTally::new();
    NextestFilters::matches_test(default_filter, NUMBER, query, &cx, &mut tally)
}
