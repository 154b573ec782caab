//! The conditions of rules, and what they say of a test.
ghost use Rattle.std.specs.Prelude.{◌≡◌, is_some};
ghost use Rattle.nextest_engines.specs.Engines.{test_view};
ghost use Rattle.nextest_settings.specs.Platforms.{runs_on};
ghost use Rattle.rinqebo_rules.specs.Conditions.{is_met_by, reported_by_facts, reported_condition};

use crate::verdict::RuleFacts;
use filter_engine::NextestFilters;
use nextest_engines::{BuildPlatform, BuildPlatforms, EvalContext, Filters, Specs, TestQuery};
use nextest_rules::PlatformSpecs;
use nextest_settings::runs_on;
use platform_language::{Platform, TargetSpecs};
use rinqebo_report::ConditionAnswer;

/// A filter that was read.
pub type Filter = <NextestFilters as Filters>::Expr;

/// What verdicts are about: a test, on the platforms of a build, and the default filter.
#[derive(Clone, Copy)]
pub struct Asking<'a, 't> {
    /// The platforms of the build.
    pub platforms: &'a BuildPlatforms<Platform>,
    /// The test, as filters see it.
    pub query: &'a TestQuery<'t>,
    /// What `default()` means in a filter.
    pub default_filter: &'a Filter,
}

impl<'a> Asking<'a, '_> {
    /// What the binary of the test is built for.
    pub(crate) fn platform(&self) -> BuildPlatform
        ensures { result ≡ (test_view self.now.query.now).binary.platform }
    {
        self.query.binary_query.platform
    }

    /// What filters are evaluated with.
    pub(crate) fn context(&self) -> EvalContext<'a, Filter>
        ensures { result.default_filter.now ≡ self.now.default_filter.now }
    {
        EvalContext {
            default_filter: self.default_filter,
        }
    }
}

/// What the conditions of a rule say.
#[derive(Clone, Copy)]
pub struct Answers {
    /// What the host says to the rule's spec for it.
    pub host: ConditionAnswer,
    /// What the platform says on which the binary runs.
    pub target: ConditionAnswer,
    /// Whether the filter matches. It is evaluated only if the platforms of the rule match.
    pub filter: ConditionAnswer,
}

/// What a platform says to a spec.
pub(crate) fn spec_answer(
    spec: &Option<<TargetSpecs as Specs>::Spec>,
    platform: &Platform,
) -> ConditionAnswer
    ensures { result ≡ reported_condition (λ s. is_met_by s platform.now) spec.now }
{
    match spec {
        None => ConditionAnswer::Absent,
        Some(spec) => match <TargetSpecs as Specs>::eval(spec, platform) {
            Some(true) => ConditionAnswer::Yes,
            Some(false) => ConditionAnswer::No,
            None => ConditionAnswer::Unknown,
        },
    }
}

/// What the filter of a rule says, if it has one, by what is known of the rule.
fn filter_answer(has_filter: bool, facts: RuleFacts) -> ConditionAnswer
    ensures { result ≡ reported_by_facts has_filter facts }
{
    if !facts.is_on {
        ConditionAnswer::Unrequested
    } else if !has_filter {
        ConditionAnswer::Absent
    } else if facts.holds {
        ConditionAnswer::Yes
    } else {
        ConditionAnswer::No
    }
}

/// What the conditions of a rule say, of which these facts are known.
pub(crate) fn answers_of(
    specs: &PlatformSpecs<TargetSpecs>,
    filter: Option<&Filter>,
    facts: RuleFacts,
    asking: &Asking<'_, '_>,
) -> Answers
    ensures host { result.host
        ≡ reported_condition (λ s. is_met_by s asking.now.platforms.now.host) specs.now.host }
    ensures target { let platform = runs_on asking.now.platforms.now
        (test_view asking.now.query.now).binary.platform in
        result.target ≡ reported_condition (λ s. is_met_by s platform) specs.now.target }
    ensures filter { result.filter ≡ reported_by_facts (is_some filter.entry) facts }
{
    Answers {
        host: spec_answer(&specs.host, &asking.platforms.host),
        target: spec_answer(&specs.target, runs_on(asking.platforms, asking.platform())),
        filter: filter_answer(filter.is_some(), facts),
    }
}
