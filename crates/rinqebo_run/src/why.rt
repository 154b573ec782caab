//! The rules of a setting, and the result of each.
ghost use Rattle.std.specs.Prelude.{◌≡◌, ◌∷◌, All, IfErr, IfOk, List, map, option_map};
ghost use Rattle.nextest_documents.specs.Layers.{keys_view};
ghost use Rattle.nextest_inheritance.specs.Parents.{parents_in};
ghost use Rattle.nextest_load.specs.Config.{config_parents};
ghost use Rattle.nextest_settings.specs.Settings.{fallback_of};
ghost use Rattle.nextest_tables.specs.FileTexts.{names_in, IsIn};
ghost use Rattle.rinqebo_report.specs.declared.report.Verdict.TheVariants as told;
ghost use Rattle.rinqebo_keys.specs.Keys.{key_name, key_table, key_text};
ghost use Rattle.rinqebo_rules.specs.Conditions.{is_met_by, filter_matches};
ghost use Rattle.rinqebo_results.specs.ListedBy.{read_by};
ghost use Rattle.rinqebo_results.specs.Reasons.{page_verdict, AreRulesReportedHere, AreReportedWith, HasNoConditions, IsRuleAsWritten, IsRuleReported, or_built_in};
ghost use Rattle.rinqebo_origins.specs.Origins.{key_steps};
ghost use Rattle.rinqebo_origins.specs.ProfileOrigins.{AreProfileOrigins};
ghost use Rattle.rinqebo_rules.specs.RuleAnswers.{judged_here};
ghost use Rattle.rinqebo_results.specs.LookedUp.{IsFailureOn, IsLookedUp};
ghost use Rattle.rinqebo_checks.specs.Reports.{IsReportOf};
ghost use Rattle.rinqebo_rules.specs.RuleViews.{setting_rule_view, Rule as ReadRule};
ghost use Rattle.rinqebo_rules.specs.declared.conditions.Asking.{Asking};
ghost use Rattle.rinqebo_results.specs.Requested.{IsRequestedIn};
ghost use Rattle.rinqebo_results.specs.ReportsReasons.{AreReasons, AreReasonsIn, IfWhy, IsTestNamed, ReportsReasons};
ghost use Rattle.rinqebo_origins.specs.Reported.{reported_of, value_view};
ghost use Rattle.rinqebo_results.specs.Warned.{ShowsWarningsOf};

use filter_engine::NextestFilters;
use nextest_config::{
    BuildPlatforms, DefaultConfigWarnings, Filters, NextestRunMode, Setting, TestQuery,
};
use platform_language::Platform;
use rinqebo_keys::SettingKey;
use rinqebo_load::{Config, Failure, FoundTest, Session, chain_of_profile};
use rinqebo_origins::{node_alone, profile_grounds, reported_if_set};
use rinqebo_report::{Content, Origin, Rule, TestId, Verdict};
use rinqebo_request::Layer;
use rinqebo_results::{
    Answer, Early, answer_on_test, condition, config_looked_up, early_profile, filter_text,
    host_text, no_condition, requested_of, target_text,
};
use rinqebo_rules::{Asking, SettingRule, reported_platform, rules_for, verdicts_of};
use std::alloc::{AllocError, Global};

/// A verdict, as a report shows it.
pub(crate) fn reported_verdict(verdict: rinqebo_rules::RuleVerdict) -> Verdict
    ensures { result ≡ page_verdict verdict }
{
    match verdict {
        rinqebo_rules::RuleVerdict::PlatformNo => Verdict::PlatformNo,
        rinqebo_rules::RuleVerdict::FilterNo => Verdict::FilterNo,
        rinqebo_rules::RuleVerdict::SetsNothing => Verdict::SetsNothing,
        rinqebo_rules::RuleVerdict::DecidedBefore => Verdict::DecidedBefore,
        rinqebo_rules::RuleVerdict::Decides => Verdict::Decides,
    }
}

/// A rule with its verdict, and what it writes at a key.
fn reported_rule(
    alloc: Global,
    layers: &[Layer],
    rule: &SettingRule<'_>,
    verdict: rinqebo_rules::RuleVerdict,
    key: SettingKey,
) -> Result<Rule, AllocError>
    ensures told { IfOk result (IsRuleReported layers.now (setting_rule_view rule.now).writes
        rule.now.answers verdict) }
    ensures written { IfOk result (IsRuleAsWritten layers.now
        (key_steps (option_map (λ table. table.now) key.table) key.key.now)) }
{
    let answers = rule.answers;
    let origin = rule.place.origin(alloc, layers)?;
    let others = Vec::new(alloc);
    let node = node_alone(layers, key, &origin, &others);
    let host = condition(alloc, host_text(layers, &origin), answers.host)?;
    let target = condition(alloc, target_text(layers, &origin), answers.target)?;
    let filter = condition(alloc, filter_text(layers, &origin), answers.filter)?;
    Ok(Rule {
        verdict: reported_verdict(verdict),
        origin,
        others,
        host,
        target,
        filter,
        value: reported_if_set(alloc, rule.value, node)?,
    })
}

/// Rules with their verdicts, and what each writes at a key.
fn rules_with_verdicts(
    alloc: Global,
    layers: &[Layer],
    rules: &[SettingRule<'_>],
    verdicts: &[rinqebo_rules::RuleVerdict],
    key: SettingKey,
) -> Result<Vec<Rule>, AllocError>
    ensures told { IfOk result (λ told.
        AreReportedWith layers.now rules.now verdicts.now told.items) }
    ensures written { IfOk result (λ told. All (IsRuleAsWritten layers.now
        (key_steps (option_map (λ table. table.now) key.table) key.key.now)) told.items) }
{
    let mut reported = Vec::new(alloc);
    for (rule, verdict) in rules.iter().zip(verdicts) {
        reported.push(reported_rule(alloc, layers, rule, *verdict, key)?)?;
    }
    Ok(reported)
}

/// Rules that the program compares with a test, each with its verdict, and with what it writes at a
/// key.
fn reported_rules(
    alloc: Global,
    layers: &[Layer],
    rules: &[SettingRule<'_>],
    key: SettingKey,
) -> Result<Vec<Rule>, AllocError>
    ensures told { (asking : Asking) (written : List ReadRule)
        → map setting_rule_view rules.now ≡ map (judged_here asking) written
        → IfOk result (λ told. AreRulesReportedHere layers.now asking written told.items) }
    ensures written { IfOk result (λ told. All (IsRuleAsWritten layers.now
        (key_steps (option_map (λ table. table.now) key.table) key.key.now)) told.items) }
{
    let verdicts = verdicts_of(alloc, rules)?;
    rules_with_verdicts(alloc, layers, rules, &verdicts, key)
}

/// The first of some origins, or built in where there is none, and the others.
pub(crate) fn first_and_others(alloc: Global, mut origins: Vec<Origin>) -> (Origin, Vec<Origin>)
    ensures { result.0 ∷ result.1.items ≡ or_built_in origins.items }
{
    if origins.is_empty() {
        return (Origin::BuiltIn, Vec::new(alloc));
    }
    let first = origins.remove(0);
    (first, origins)
}

/// What counts where no rule of a profile decides.
fn fallback_rule(
    alloc: Global,
    session: &Session<'_>,
    profile: &Early<'_>,
    chain: &[&str],
    setting: Setting,
    mode: NextestRunMode,
) -> Result<Rule, AllocError>
    ensures verdict { IfOk result (λ rule. rule.verdict ≡ told.Fallback) }
    ensures value { IfOk result (λ rule. option_map value_view rule.value
        ≡ option_map (reported_of setting) (fallback_of profile.now.facts.fields mode setting)) }
    ensures written { IfOk result (IsRuleAsWritten session.now.layers.items
        (key_steps (key_table setting mode) (key_name setting))) }
    ensures origins { IfOk result (λ rule. AreProfileOrigins session.now.layers.items
        (keys_view chain.now) (key_table setting mode) (key_name setting)
        (rule.origin ∷ rule.others.items)) }
    ensures conditions { IfOk result HasNoConditions }
{
    let key = SettingKey::of(setting, mode);
    let origins = profile_grounds(alloc, &session.layers, chain, key)?;
    let (origin, others) = first_and_others(alloc, origins);
    let node = node_alone(&session.layers, key, &origin, &others);
    Ok(Rule {
        verdict: Verdict::Fallback,
        origin,
        others,
        host: no_condition(alloc),
        target: no_condition(alloc),
        filter: no_condition(alloc),
        value: reported_if_set(alloc, profile.fallback(setting, mode), node)?,
    })
}

/// What the program compares the rules of a profile with.
fn asking_of<'a, 't>(
    platforms: &'a BuildPlatforms<Platform>,
    query: &'a TestQuery<'t>,
    default_filter: &'a <NextestFilters as Filters>::Expr,
) -> Asking<'a, 't>
    ensures platforms { result.platforms ≡ platforms.entry }
    ensures query { result.query ≡ query.entry }
    ensures default_filter { result.default_filter ≡ default_filter.entry }
{
    Asking {
        platforms,
        query,
        default_filter,
    }
}

/// All rules of a profile for a setting, and then what counts where none decides.
fn rules_and_fallback<'c>(
    alloc: Global,
    session: &'c Session<'_>,
    profile: &Early<'c>,
    chain: &[&str],
    test: &'c FoundTest,
    setting: Setting,
) -> Result<Vec<Rule>, AllocError>
    ensures { IfOk result (λ rules. AreReasons session.now.layers.items (keys_view chain.now)
        is_met_by filter_matches session.now.engines.platforms test.now setting profile.now
        rules.items) }
{
    let platforms = &session.engines.platforms;
    let listed = test.listed();
    let on = profile.rules_on(alloc, platforms)?;
    let asking = asking_of(platforms, &listed.query, on.default_filter.expr);
    let rules = rules_for(alloc, &on, setting, test.mode, &asking)?;
    let key = SettingKey::of(setting, test.mode);
    let mut reported = reported_rules(alloc, &session.layers, &rules, key)?;
    let fallback = fallback_rule(alloc, session, profile, chain, setting, test.mode)?;
    reported.push(fallback)?;
    Ok(reported)
}

/// The names of a test, as a report shows them.
pub(crate) fn named_test(alloc: Global, test: &FoundTest) -> Result<TestId, AllocError>
    ensures { IfOk result (IsTestNamed test.now) }
{
    Ok(TestId {
        binary: String::from_str(alloc, test.binary.as_str())?,
        name: String::from_str(alloc, test.name.as_str())?,
        platform: reported_platform(test.platform),
    })
}

/// The rules of a setting, by a configuration.
fn reasons<'c>(
    alloc: Global,
    session: &'c Session<'_>,
    config: &'c Config,
    profile: &'c str,
    test: &'c FoundTest,
    setting: Setting,
) -> Result<Content, AllocError>
    requires { IsIn (names_in config.now.config.profiles) profile.now }
    ensures requested { IfOk result (IsRequestedIn session.now
        (parents_in (config_parents config.now.config)) profile.now test.now.mode) }
    ensures told { IfOk result (λ content. IfWhy content (λ named key rules ignored.
        IsTestNamed test.now named
        × (key ≡ key_text setting test.now.mode) × (ignored ≡ test.now.ignored)
        × AreReasonsIn session.now.layers.items is_met_by filter_matches
        session.now.engines.platforms (read_by session.now config.now) profile.now test.now setting
        rules)) }
{
    let chain = chain_of_profile(alloc, config, profile)?;
    let asked = requested_of(alloc, session, profile, &chain, test.mode)?;
    let named = named_test(alloc, test)?;
    let key = SettingKey::of(setting, test.mode).text(alloc)?;
    let early = early_profile(alloc, session, config, profile)?;
    let rules = rules_and_fallback(alloc, session, &early, &chain, test, setting)?;
    Ok(Content::Why {
        asked,
        test: named,
        key,
        rules,
        is_ignored: test.ignored,
    })
}

/// The rules of a setting, and the result of each.
pub fn why(
    alloc: Global,
    session: &Session<'_>,
    profile: &str,
    test: &FoundTest,
    setting: Setting,
) -> Result<Answer, Failure>
    ensures status { IfOk result (λ answer. answer.status ≡ 0) }
    ensures ok { IfOk result (λ answer.
        ReportsReasons session.now profile.now test.now setting answer.report) }
    ensures about { IfOk result (λ answer. IsReportOf session.now answer.report) }
    ensures warned { IfOk result (λ answer. ShowsWarningsOf session.now answer.report) }
    ensures looked_up { IfOk result (λ _. IsLookedUp session.now profile.now) }
    ensures err { IfErr result (IsFailureOn session.now profile.now) }
{
    let mut warnings = DefaultConfigWarnings::new(alloc);
    let config = config_looked_up(alloc, session, profile, &mut warnings)?;
    let content = reasons(alloc, &*session, &config, profile, test, setting)?;
    let answer = answer_on_test(alloc, session, &config, &warnings, profile, test, content)?;
    Ok(answer)
}
