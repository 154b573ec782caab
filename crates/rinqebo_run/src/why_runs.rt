//! Why a test runs or not: the overrides that have a default filter, and the result of each.
ghost use Rattle.std.specs.Prelude.{◌≡◌, ◌∷◌, not, codes, IfErr, IfOk, None, option_map};
ghost use Rattle.std.specs.List.{list_any};
ghost use Rattle.nextest_documents.specs.Layers.{keys_view};
ghost use Rattle.nextest_inheritance.specs.Parents.{parents_in};
ghost use Rattle.nextest_load.specs.Config.{config_parents};
ghost use Rattle.nextest_tables.specs.FileTexts.{names_in, IsIn};
ghost use Rattle.rinqebo_report.specs.declared.report.Verdict.TheVariants as told;
ghost use Rattle.rinqebo_rules.specs.Conditions.{is_met_by, filter_matches};
ghost use Rattle.rinqebo_rules.specs.FilterRules.{filter_rule_view};
ghost use Rattle.rinqebo_origins.specs.ProfileOrigins.{AreProfileOrigins};
ghost use Rattle.rinqebo_origins.specs.Reported.{value_view};
ghost use Rattle.rinqebo_results.specs.ConditionTexts.{default_text, HasText, IsAbsent};
ghost use Rattle.rinqebo_results.specs.ListedBy.{read_by};
ghost use Rattle.rinqebo_results.specs.LookedUp.{IsFailureOn, IsLookedUp};
ghost use Rattle.rinqebo_checks.specs.Reports.{IsReportOf};
ghost use Rattle.rinqebo_results.specs.Requested.{IsRequestedIn};
ghost use Rattle.rinqebo_results.specs.RunsReasons.{AreHeldReported, AreRunsReasons, AreRunsReasonsIn, IsFilterRuleReported, ReportsRunsReasons, default_answer, default_value, is_decision};
ghost use Rattle.rinqebo_results.specs.ReportsReasons.{IfWhy, IsTestNamed};
ghost use Rattle.rinqebo_results.specs.Warned.{ShowsWarningsOf};

use crate::why::{first_and_others, named_test, reported_verdict};
use nextest_config::DefaultConfigWarnings;
use rinqebo_keys::RUNS;
use rinqebo_load::{Config, Failure, FoundTest, Session, chain_of_profile};
use rinqebo_origins::profile_grounds;
use rinqebo_report::{ConditionAnswer, Content, Rule, Scalar, Value, Verdict};
use rinqebo_request::Layer;
use rinqebo_results::{
    Answer, Early, answer_on_test, condition, config_looked_up, default_text, early_profile,
    host_text, no_condition, requested_of, target_text,
};
use rinqebo_rules::{
    RuleVerdict, SettingRule, default_filter_key, filter_rules, is_matched_by_default, verdicts_of,
};
use std::alloc::{AllocError, Global};

/// What a default filter says of a test: only the one that counts is evaluated.
fn default_answer(counts: bool, matches: bool) -> ConditionAnswer
    ensures { result ≡ default_answer counts matches }
{
    if !counts {
        ConditionAnswer::Unrequested
    } else if matches {
        ConditionAnswer::Yes
    } else {
        ConditionAnswer::No
    }
}

/// Whether a test runs by a default filter, if that is the one that counts.
fn default_value(counts: bool, matches: bool) -> Option<Value>
    ensures { option_map value_view result ≡ default_value counts matches }
{
    if counts {
        Some(Value::Scalar(Scalar::Boolean(matches)))
    } else {
        None
    }
}

/// Whether a verdict is that a rule decides.
fn is_decision(verdict: RuleVerdict) -> bool
    ensures { result ≡ is_decision verdict }
{
    matches!(verdict, RuleVerdict::Decides)
}

/// Whether one of some verdicts is that a rule decides.
fn has_decision(verdicts: &[RuleVerdict]) -> bool
    ensures { result ≡ list_any is_decision verdicts.now }
{
    verdicts.iter().any(|verdict| is_decision(*verdict))
}

/// An override that has a default filter, with its verdict.
fn reported_filter_rule(
    alloc: Global,
    layers: &[Layer],
    rule: &SettingRule<'_>,
    verdict: RuleVerdict,
    matches: bool,
) -> Result<Rule, AllocError>
    ensures { IfOk result (IsFilterRuleReported layers.now matches (filter_rule_view rule.now)
        verdict) }
{
    let answers = rule.answers;
    let counts = is_decision(verdict);
    let origin = rule.place.origin(alloc, layers)?;
    let host = condition(alloc, host_text(layers, &origin), answers.host)?;
    let target = condition(alloc, target_text(layers, &origin), answers.target)?;
    let answer = default_answer(counts, matches);
    let filter = condition(alloc, default_text(layers, &origin), answer)?;
    Ok(Rule {
        verdict: reported_verdict(verdict),
        origin,
        others: Vec::new(alloc),
        host,
        target,
        filter,
        value: default_value(counts, matches),
    })
}

/// Overrides that have a default filter, with their verdicts.
fn reported_filter_rules(
    alloc: Global,
    layers: &[Layer],
    rules: &[SettingRule<'_>],
    verdicts: &[RuleVerdict],
    matches: bool,
) -> Result<Vec<Rule>, AllocError>
    ensures { IfOk result (λ told.
        AreHeldReported layers.now matches rules.now verdicts.now told.items) }
{
    let mut reported = Vec::new(alloc);
    for (rule, verdict) in rules.iter().zip(verdicts) {
        reported.push(reported_filter_rule(alloc, layers, rule, *verdict, matches)?)?;
    }
    Ok(reported)
}

/// The default filter of a chain of profiles, which counts where no override decides.
fn runs_fallback(
    alloc: Global,
    session: &Session<'_>,
    chain: &[&str],
    counts: bool,
    matches: bool,
) -> Result<Rule, AllocError>
    ensures verdict { IfOk result (λ rule. rule.verdict ≡ told.Fallback) }
    ensures filter { IfOk result (λ rule. rule.filter.answer ≡ default_answer counts matches) }
    ensures value { IfOk result (λ rule.
        option_map value_view rule.value ≡ default_value counts matches) }
    ensures origins { IfOk result (λ rule. AreProfileOrigins session.now.layers.items
        (keys_view chain.now) None (codes "default-filter") (rule.origin ∷ rule.others.items)) }
    ensures text { IfOk result (λ rule.
        HasText (default_text session.now.layers.items rule.origin) rule.filter) }
    ensures host { IfOk result (λ rule. IsAbsent rule.host) }
    ensures target { IfOk result (λ rule. IsAbsent rule.target) }
{
    let origins = profile_grounds(alloc, &session.layers, chain, default_filter_key())?;
    let (origin, others) = first_and_others(alloc, origins);
    let text = default_text(&session.layers, &origin);
    let filter = condition(alloc, text, default_answer(counts, matches))?;
    Ok(Rule {
        verdict: Verdict::Fallback,
        origin,
        others,
        host: no_condition(alloc),
        target: no_condition(alloc),
        filter,
        value: default_value(counts, matches),
    })
}

/// The overrides of a profile that have a default filter, and then that of its chain.
fn runs_rules<'c>(
    alloc: Global,
    session: &'c Session<'_>,
    profile: &Early<'c>,
    chain: &[&str],
    test: &'c FoundTest,
) -> Result<Vec<Rule>, AllocError>
    ensures { IfOk result (λ rules. AreRunsReasons session.now.layers.items (keys_view chain.now)
        is_met_by filter_matches session.now.engines.platforms test.now profile.now rules.items) }
{
    let platforms = &session.engines.platforms;
    let listed = test.listed();
    let on = profile.rules_on(alloc, platforms)?;
    let matches = is_matched_by_default(&on, &listed.query);
    let rules = filter_rules(alloc, &on, platforms)?;
    let verdicts = verdicts_of(alloc, &rules)?;
    let mut reported = reported_filter_rules(alloc, &session.layers, &rules, &verdicts, matches)?;
    let counts = !has_decision(&verdicts);
    let fallback = runs_fallback(alloc, session, chain, counts, matches)?;
    reported.push(fallback)?;
    Ok(reported)
}

/// Why a test runs or not, by a configuration.
fn runs_reasons<'c>(
    alloc: Global,
    session: &'c Session<'_>,
    config: &'c Config,
    profile: &'c str,
    test: &'c FoundTest,
) -> Result<Content, AllocError>
    requires { IsIn (names_in config.now.config.profiles) profile.now }
    ensures requested { IfOk result (IsRequestedIn session.now
        (parents_in (config_parents config.now.config)) profile.now test.now.mode) }
    ensures told { IfOk result (λ content. IfWhy content (λ named key rules ignored.
        IsTestNamed test.now named × (key ≡ codes "runs") × (ignored ≡ test.now.ignored)
        × AreRunsReasonsIn session.now.layers.items is_met_by filter_matches
        session.now.engines.platforms (read_by session.now config.now) profile.now test.now
        rules)) }
{
    let chain = chain_of_profile(alloc, config, profile)?;
    let asked = requested_of(alloc, session, profile, &chain, test.mode)?;
    let named = named_test(alloc, test)?;
    let key = String::from_str(alloc, RUNS)?;
    let early = early_profile(alloc, session, config, profile)?;
    let rules = runs_rules(alloc, session, &early, &chain, test)?;
    Ok(Content::Why {
        asked,
        test: named,
        key,
        rules,
        is_ignored: test.ignored,
    })
}

/// Why a test runs or not: the overrides that have a default filter, and the result of each.
pub fn why_runs(
    alloc: Global,
    session: &Session<'_>,
    profile: &str,
    test: &FoundTest,
) -> Result<Answer, Failure>
    ensures status { IfOk result (λ answer. answer.status ≡ 0) }
    ensures ok { IfOk result (λ answer.
        ReportsRunsReasons session.now profile.now test.now answer.report) }
    ensures about { IfOk result (λ answer. IsReportOf session.now answer.report) }
    ensures warned { IfOk result (λ answer. ShowsWarningsOf session.now answer.report) }
    ensures looked_up { IfOk result (λ _. IsLookedUp session.now profile.now) }
    ensures err { IfErr result (IsFailureOn session.now profile.now) }
{
    let mut warnings = DefaultConfigWarnings::new(alloc);
    let config = config_looked_up(alloc, session, profile, &mut warnings)?;
    let content = runs_reasons(alloc, &*session, &config, profile, test)?;
    let answer = answer_on_test(alloc, session, &config, &warnings, profile, test, content)?;
    Ok(answer)
}
