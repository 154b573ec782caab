//! Rules on the platforms of a build: whether these hold is found out once for all tests.
ghost use Rattle.std.specs.Prelude.{◌≡◌, map, IfOk};
ghost use Rattle.nextest_rules.specs.View.{override_rule_view, script_rule_view};
ghost use Rattle.nextest_settings.specs.Engines.{meets_by};
ghost use Rattle.nextest_settings.specs.Platforms.{runs_on, spec_holds, specs_hold, rule_on};
ghost use Rattle.nextest_settings.specs.View.{override_ref_view, script_rule_ref_view, evaluated_override_view, evaluated_script_rule_view};

use nextest_engines::{BuildPlatform, BuildPlatforms, Filters, Specs};
use nextest_rules::{CompiledOverride, CompiledProfileScripts, PlatformSpecs};
use std::alloc::{AllocError, Global};

/// A rule, and for which binaries its platforms hold.
#[derive_where(Clone, Copy)]
pub struct EvaluatedRule<'cfg, R> {
    pub(crate) rule: &'cfg R,
    pub(crate) for_host: bool,
    pub(crate) for_target: bool,
}

/// An override on the platforms of a build.
pub type EvaluatedOverride<'cfg, F, S> = EvaluatedRule<'cfg, CompiledOverride<F, S>>;

/// A script rule on the platforms of a build.
pub type EvaluatedScriptRule<'cfg, F, S> = EvaluatedRule<'cfg, CompiledProfileScripts<F, S>>;

impl<'cfg, R> EvaluatedRule<'cfg, R> {
    ghost use Rattle.nextest_settings.specs.Platforms.{by_platform};

    /// The rule.
    pub fn rule(&self) -> &'cfg R
        ensures { result ≡ self.now.rule }
    {
        self.rule
    }

    /// Whether the platforms of the rule match those of the build, for binaries that are built for
    /// the host or for the target.
    pub fn is_on(&self, platform: BuildPlatform) -> bool
        ensures { result ≡ by_platform self.now.for_host self.now.for_target platform }
    {
        match platform {
            BuildPlatform::Host => self.for_host,
            BuildPlatform::Target => self.for_target,
        }
    }
}

/// Whether a platform meets a spec: none and an unknown value count as met.
fn spec_holds<S: Specs>(spec: &Option<S::Spec>, platform: &S::Platform) -> bool
    ensures { result
        ≡ spec_holds (meets_by S.Specs) spec.now
        platform.now }
{
    match spec {
        None => true,
        Some(spec) => S::eval(spec, platform).unwrap_or(true),
    }
}

/// The platform on which binaries run that are built for a platform: without a target, what is built
/// for it runs on the host.
pub fn runs_on<P>(platforms: &BuildPlatforms<P>, build: BuildPlatform) -> &P
    ensures { result.now ≡ runs_on platforms.now build }
{
    match build {
        BuildPlatform::Host => &platforms.host,
        BuildPlatform::Target => platforms.target.as_ref().unwrap_or(&platforms.host),
    }
}

/// Whether the platforms of a rule hold for binaries of a platform.
fn platforms_hold<S: Specs>(
    specs: &PlatformSpecs<S>,
    platforms: &BuildPlatforms<S::Platform>,
    build: BuildPlatform,
) -> bool
    ensures { result
        ≡ specs_hold (meets_by S.Specs) platforms.now
        build specs.now.host specs.now.target }
{
    spec_holds::<S>(&specs.host, &platforms.host)
        && spec_holds::<S>(&specs.target, runs_on(platforms, build))
}

/// An override on the platforms of a build.
fn evaluate_override<'cfg, F: Filters, S: Specs>(
    rule: &'cfg CompiledOverride<F, S>,
    platforms: &BuildPlatforms<S::Platform>,
) -> EvaluatedOverride<'cfg, F, S>
    ensures on { evaluated_override_view result
        ≡ rule_on (meets_by S.Specs) platforms.now
        (override_rule_view rule.now) }
    ensures rule { result.rule ≡ rule.entry }
{
    EvaluatedRule {
        rule,
        for_host: platforms_hold(rule.platforms(), platforms, BuildPlatform::Host),
        for_target: platforms_hold(rule.platforms(), platforms, BuildPlatform::Target),
    }
}

/// A script rule on the platforms of a build.
fn evaluate_script_rule<'cfg, F: Filters, S: Specs>(
    rule: &'cfg CompiledProfileScripts<F, S>,
    platforms: &BuildPlatforms<S::Platform>,
) -> EvaluatedScriptRule<'cfg, F, S>
    ensures on { evaluated_script_rule_view result
        ≡ rule_on (meets_by S.Specs) platforms.now
        (script_rule_view rule.now) }
    ensures rule { result.rule ≡ rule.entry }
{
    EvaluatedRule {
        rule,
        for_host: platforms_hold(rule.platforms(), platforms, BuildPlatform::Host),
        for_target: platforms_hold(rule.platforms(), platforms, BuildPlatform::Target),
    }
}

/// Overrides on the platforms of a build, in their order.
pub fn evaluate_overrides<'cfg, F: Filters, S: Specs>(
    alloc: Global,
    rules: &[&'cfg CompiledOverride<F, S>],
    platforms: &BuildPlatforms<S::Platform>,
) -> Result<Vec<EvaluatedOverride<'cfg, F, S>>, AllocError>
    ensures on { IfOk result (λ evaluated. map evaluated_override_view evaluated.items
        ≡ map (rule_on (meets_by S.Specs) platforms.now)
        (map override_ref_view rules.now)) }
    ensures rules { IfOk result (λ evaluated. map (λ e. e.rule) evaluated.items ≡ rules.now) }
{
    let mut evaluated = Vec::with_capacity(alloc, rules.len())?;
    for rule in rules {
        evaluated.push(evaluate_override(rule, platforms))?;
    }
    Ok(evaluated)
}

/// Script rules on the platforms of a build, in their order.
pub fn evaluate_script_rules<'cfg, F: Filters, S: Specs>(
    alloc: Global,
    rules: &[&'cfg CompiledProfileScripts<F, S>],
    platforms: &BuildPlatforms<S::Platform>,
) -> Result<Vec<EvaluatedScriptRule<'cfg, F, S>>, AllocError>
    ensures on { IfOk result (λ evaluated. map evaluated_script_rule_view evaluated.items
        ≡ map (rule_on (meets_by S.Specs) platforms.now)
        (map script_rule_ref_view rules.now)) }
    ensures rules { IfOk result (λ evaluated. map (λ e. e.rule) evaluated.items ≡ rules.now) }
{
    let mut evaluated = Vec::with_capacity(alloc, rules.len())?;
    for rule in rules {
        evaluated.push(evaluate_script_rule(rule, platforms))?;
    }
    Ok(evaluated)
}
