//! What a binary decides of rules, whichever of its tests is looked at.
ghost use Rattle.std.specs.Prelude.{◌≡◌, ◌+◌, ◌<◌, ◌^◌, ◌↔◌, IfOk, IsTrue, length, map, option_map};
ghost use Rattle.nextest_engines.specs.Engines.{binary_view};
ghost use Rattle.nextest_settings.specs.Binaries.{AreAnswers, answered_binary, binary_answer, filter_answer, kept_binary};
ghost use Rattle.nextest_settings.specs.View.{meant_override, meant_script_rule};

use crate::evaluated::EvaluatedRules;
use crate::platforms::{EvaluatedOverride, EvaluatedScriptRule};
use nextest_engines::{BinaryQuery, BuildPlatform, EvalContext, Filters, Specs};
use std::alloc::{AllocError, Global};

/// A binary that is kept beside what it decides.
#[derive(Drop)]
struct KeptBinary {
    package_id: String,
    binary_id: String,
    kind: String,
    binary_name: String,
    platform: BuildPlatform,
}

impl KeptBinary {
    fn of(alloc: Global, query: &BinaryQuery<'_>) -> Result<KeptBinary, AllocError>
        ensures { IfOk result (λ binary. kept_binary binary ≡ binary_view query.now) }
    {
        Ok(KeptBinary {
            package_id: String::from_str(alloc, query.package_id)?,
            binary_id: String::from_str(alloc, query.binary_id)?,
            kind: String::from_str(alloc, query.kind)?,
            binary_name: String::from_str(alloc, query.binary_name)?,
            platform: query.platform,
        })
    }

    fn is(&self, query: &BinaryQuery<'_>) -> bool
        ensures { IsTrue result ↔ (kept_binary self.now ≡ binary_view query.now) }
    {
        self.platform == query.platform
            && self.binary_id.as_str() == query.binary_id
            && self.package_id.as_str() == query.package_id
            && self.kind.as_str() == query.kind
            && self.binary_name.as_str() == query.binary_name
    }
}

/// Whether the rules of a profile hold for each test of a binary, where the binary alone decides
/// that.
#[derive(Drop)]
pub struct BinaryAnswers {
    binary: KeptBinary,
    overrides: Vec<Option<bool>>,
    script_rules: Vec<Option<bool>>,
}

/// What a filter matches of a binary: all, if there is none, and `None` where that depends on the
/// test.
fn filter_answer<F: Filters>(
    filter: Option<&F::Expr>,
    number: usize,
    query: &BinaryQuery<'_>,
    cx: &EvalContext<'_, F::Expr>,
    tally: &mut F::Tally,
) -> Option<bool>
    ensures { result ≡ filter_answer F.holds_binary (F.meaning cx.now.default_filter.now)
        (binary_view query.now) (option_map (λ expr. F.meaning expr.now) filter.entry) }
{
    match filter {
        None => Some(true),
        Some(expr) => F::matches_binary(expr, number, query, cx, tally),
    }
}

/// Whether an override holds for each test of a binary, or `None` where that depends on the test.
fn override_answer<F: Filters, S: Specs>(
    rule: &EvaluatedOverride<'_, F, S>,
    number: usize,
    query: &BinaryQuery<'_>,
    cx: &EvalContext<'_, F::Expr>,
    tally: &mut F::Tally,
) -> Option<bool>
    ensures { result ≡ binary_answer F.holds_binary (F.meaning cx.now.default_filter.now)
        (binary_view query.now) (meant_override F.meaning rule.now) }
{
    if rule.is_on(query.platform) {
        filter_answer::<F>(rule.rule.filter(), number, query, cx, tally)
    } else {
        Some(false)
    }
}

/// Whether a script rule holds for each test of a binary, or `None` where that depends on the test.
fn script_rule_answer<F: Filters, S: Specs>(
    rule: &EvaluatedScriptRule<'_, F, S>,
    number: usize,
    query: &BinaryQuery<'_>,
    cx: &EvalContext<'_, F::Expr>,
    tally: &mut F::Tally,
) -> Option<bool>
    ensures { result ≡ binary_answer F.holds_binary (F.meaning cx.now.default_filter.now)
        (binary_view query.now) (meant_script_rule F.meaning rule.now) }
{
    if rule.is_on(query.platform) {
        filter_answer::<F>(rule.rule.filter(), number, query, cx, tally)
    } else {
        Some(false)
    }
}

/// Of each override, whether it holds for each test of a binary.
fn override_answers<F: Filters, S: Specs>(
    alloc: Global,
    rules: &[EvaluatedOverride<'_, F, S>],
    query: &BinaryQuery<'_>,
    cx: &EvalContext<'_, F::Expr>,
    tally: &mut F::Tally,
) -> Result<Vec<Option<bool>>, AllocError>
    ensures { IfOk result (λ answers. answers.items
        ≡ map (binary_answer F.holds_binary (F.meaning cx.now.default_filter.now)
        (binary_view query.now)) (map (meant_override F.meaning) rules.now)) }
{
    let mut answers = Vec::with_capacity(alloc, rules.len())?;
    for (number, rule) in rules.iter().enumerate() {
        answers.push(override_answer(rule, number, query, cx, tally))?;
    }
    Ok(answers)
}

/// Of each script rule, whether it holds for each test of a binary. They are numbered on from the
/// first number.
fn script_rule_answers<F: Filters, S: Specs>(
    alloc: Global,
    rules: &[EvaluatedScriptRule<'_, F, S>],
    first: usize,
    query: &BinaryQuery<'_>,
    cx: &EvalContext<'_, F::Expr>,
    tally: &mut F::Tally,
) -> Result<Vec<Option<bool>>, AllocError>
    requires { first + length rules.now < 2 ^ 64 }
    ensures { IfOk result (λ answers. answers.items
        ≡ map (binary_answer F.holds_binary (F.meaning cx.now.default_filter.now)
        (binary_view query.now)) (map (meant_script_rule F.meaning) rules.now)) }
{
    let mut answers = Vec::with_capacity(alloc, rules.len())?;
    for (number, rule) in rules.iter().enumerate() {
        answers.push(script_rule_answer(rule, first + number, query, cx, tally))?;
    }
    Ok(answers)
}

impl BinaryAnswers {
    /// Whether rules hold for each test of a binary. Each filter whose platforms hold is evaluated
    /// once.
    pub(crate) fn of<F: Filters, S: Specs>(
        alloc: Global,
        rules: &EvaluatedRules<'_, F, S>,
        query: &BinaryQuery<'_>,
        tally: &mut F::Tally,
    ) -> Result<BinaryAnswers, AllocError>
        ensures answers { IfOk result (AreAnswers F.holds_binary
            (F.meaning rules.now.default_filter.expr.now)
            (map (meant_override F.meaning) rules.now.overrides.items)
            (map (meant_script_rule F.meaning) rules.now.script_rules.items)) }
        ensures binary { IfOk result (λ answers. answered_binary answers ≡ binary_view query.now) }
    {
        let cx = EvalContext {
            default_filter: rules.default_filter.expr,
        };
        let first = rules.overrides.len();
        let overrides = override_answers(alloc, &rules.overrides, query, &cx, tally)?;
        let script_rules = script_rule_answers(
            alloc,
            &rules.script_rules,
            first,
            query,
            &cx,
            tally,
        )?;
        let binary = KeptBinary::of(alloc, query)?;
        Ok(BinaryAnswers {
            binary,
            overrides,
            script_rules,
        })
    }

    /// Whether the answers are those of a binary.
    pub fn is_of(&self, query: &BinaryQuery<'_>) -> bool
        ensures { IsTrue result ↔ (answered_binary self.now ≡ binary_view query.now) }
    {
        self.binary.is(query)
    }

    /// Of each override, whether it holds for each test of the binary, or `None` where that depends
    /// on the test.
    pub fn overrides(&self) -> &[Option<bool>]
        ensures { result.now ≡ self.now.overrides.items }
    {
        &self.overrides
    }

    /// Of each script rule, whether it holds for each test of the binary, or `None` where that
    /// depends on the test.
    pub fn script_rules(&self) -> &[Option<bool>]
        ensures { result.now ≡ self.now.script_rules.items }
    {
        &self.script_rules
    }
}
