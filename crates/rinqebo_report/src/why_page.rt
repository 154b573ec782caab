//! The page of a key: the result of each rule, and what counts if none decides.
ghost use Rattle.std.specs.Prelude.{◌≡◌, ◌++◌, [], ◌∷◌, ◌+◌, ◌^◌, ◌<◌, map, option_map, OnOk, string_bytes};
ghost use Rattle.serde_json.specs.View.{members_view};
ghost use Rattle.rinqebo_report.specs.Document.{with_ignored, with_why};
ghost use Rattle.rinqebo_report.specs.Pages.{verdict_text, verdict_style, number_run, reported_answer, condition_runs, shows_value, value_runs, written_runs, verdict_runs, conditions_runs, rule_runs, rules_runs, ignored_runs, why_runs};
ghost use Rattle.rinqebo_report.specs.Pieces.{page_text};
ghost use Rattle.rinqebo_report.specs.PieceView.{piece_view};
ghost use Rattle.rinqebo_report.specs.TomlText.{value_text};

use crate::json_parts::{rules_json, test_id_json};
use crate::json_requested::{put_requested, put_text};
use crate::layout::{Mark, Paper, Remarks, add_remark, add_remarked, width};
use crate::origin::Source;
use crate::origin_text::all_origin_texts;
use crate::piece::{Colour, Piece, Style, add_pieces};
use crate::report::{Asked, Condition, ConditionAnswer, Rule, TestId, Verdict};
use crate::toml_text::value_text;
use crate::value::Value;
use serde_json::{Map, Value as Json, put};
use std::alloc::{AllocError, Global};

/// The width of the column of verdicts.
const VERDICT_WIDTH: usize = 14;

impl Verdict {
    /// Its words.
    pub(crate) fn text(self) -> &'static str
        ensures { result.now ≡ verdict_text self }
    {
        match self {
            Verdict::PlatformNo => "platform no",
            Verdict::FilterNo => "filter no",
            Verdict::SetsNothing => "sets nothing",
            Verdict::DecidedBefore => "decided before",
            Verdict::Decides => "decides",
            Verdict::Fallback => "fallback",
        }
    }

    /// The style in which pages show it.
    fn style(self) -> Style
        ensures { result ≡ verdict_style self }
    {
        match self {
            Verdict::Decides => Style::Good,
            _ => Style::Plain,
        }
    }

    /// The number of the rule at a place, from 1. The fallback has none.
    fn number(self, place: u64) -> Piece<'static>
        requires { place + 1 < 2 ^ 64 }
        ensures { piece_view result ≡ number_run self place }
    {
        match self {
            Verdict::Fallback => Piece::Text(Style::Plain, "-"),
            _ => Piece::Number(place + 1),
        }
    }

    /// Whether pages show what the rule writes.
    fn shows_value(self) -> bool
        ensures { result ≡ shows_value self }
    {
        match self {
            Verdict::PlatformNo | Verdict::FilterNo | Verdict::SetsNothing => false,
            Verdict::DecidedBefore | Verdict::Decides | Verdict::Fallback => true,
        }
    }
}

impl ConditionAnswer {
    /// What pages show of it: that the condition does not hold, or that it can't be decided.
    fn shown(self) -> Option<&'static str>
        ensures { option_map (λ shown. shown.now) result ≡ reported_answer self }
    {
        match self {
            ConditionAnswer::No => Some(": no"),
            ConditionAnswer::Unknown => Some(": unknown"),
            _ => None,
        }
    }
}

/// Writes a condition, if it does not hold or can't be decided.
fn add_condition<'x>(
    out: &mut String,
    colour: Colour,
    word: &'x str,
    condition: &'x Condition,
) -> Result<(), AllocError>
    ensures { OnOk result (string_bytes out.new ≡ string_bytes out.old
        ++ page_text colour (condition_runs word.now condition.now)) }
{
    let Some(shown) = condition.answer.shown() else {
        return Ok(());
    };
    add_pieces(
        out,
        colour,
        &[
            Piece::Text(Style::Plain, "     "),
            Piece::Text(Style::Plain, word),
            Piece::Text(Style::Plain, " "),
            Piece::Text(Style::Plain, condition.text.as_str()),
            Piece::Text(Style::Plain, shown),
            Piece::End,
        ],
    )
}

/// Writes the conditions of a rule.
fn add_conditions(out: &mut String, colour: Colour, rule: &Rule) -> Result<(), AllocError>
    ensures { OnOk result (string_bytes out.new ≡ string_bytes out.old
        ++ page_text colour (conditions_runs rule.now)) }
{
    add_condition(out, colour, "host", &rule.host)?;
    add_condition(out, colour, "target", &rule.target)?;
    add_condition(out, colour, "filter", &rule.filter)
}

/// Writes a key and a value.
fn add_value_line<'x>(
    out: &mut String,
    colour: Colour,
    key: &'x str,
    value: &'x str,
) -> Result<(), AllocError>
    ensures { OnOk result (string_bytes out.new ≡ string_bytes out.old
        ++ page_text colour (value_runs key.now value.now)) }
{
    add_pieces(
        out,
        colour,
        &[
            Piece::Text(Style::Plain, "     "),
            Piece::Text(Style::Key, key),
            Piece::Text(Style::Plain, " = "),
            Piece::Text(Style::Plain, value),
            Piece::End,
        ],
    )
}

/// Writes what a rule writes for a setting.
fn add_written(
    alloc: Global,
    out: &mut String,
    colour: Colour,
    key: &str,
    verdict: Verdict,
    value: Option<&Value>,
) -> Result<(), AllocError>
    ensures { OnOk result (string_bytes out.new ≡ string_bytes out.old
        ++ page_text colour (written_runs key.now verdict
        (option_map (λ v. value_text v.now) value.entry))) }
{
    let Some(value) = value else {
        return Ok(());
    };
    if !verdict.shows_value() {
        return Ok(());
    }
    let value = value_text(alloc, value)?;
    add_value_line(out, colour, key, value.as_str())
}

/// Writes the number of a rule, its verdict and its origins.
fn add_verdict(
    alloc: Global,
    out: &mut String,
    paper: Paper,
    place: u64,
    verdict: Verdict,
    texts: Vec<String>,
) -> Result<(), AllocError>
    requires { place + 1 < 2 ^ 64 }
    ensures { OnOk result (string_bytes out.new ≡ string_bytes out.old ++ page_text paper.colour
        (verdict_runs paper.columns place verdict (map string_bytes texts.items))) }
{
    let text = verdict.text();
    let remarks = Remarks {
        mark: Mark::Bare,
        gap: VERDICT_WIDTH.saturating_sub(width(text)) + 2,
        indent: 5,
        texts,
    };
    add_remarked(
        alloc,
        out,
        paper,
        &[
            verdict.number(place),
            Piece::Text(Style::Plain, "  "),
            Piece::Text(verdict.style(), text),
        ],
        &remarks,
    )
}

/// Writes a rule.
fn add_rule(
    alloc: Global,
    out: &mut String,
    paper: Paper,
    root: &str,
    sources: &[Source],
    key: &str,
    place: u64,
    rule: &Rule,
) -> Result<(), AllocError>
    requires { place + 1 < 2 ^ 64 }
    ensures { OnOk result (string_bytes out.new ≡ string_bytes out.old ++ page_text paper.colour
        (rule_runs paper.columns root.now sources.now key.now place rule.now)) }
{
    let texts = all_origin_texts(alloc, root, sources, &rule.origin, &rule.others)?;
    add_verdict(alloc, out, paper, place, rule.verdict, texts)?;
    add_conditions(out, paper.colour, rule)?;
    add_written(
        alloc,
        out,
        paper.colour,
        key,
        rule.verdict,
        rule.value.as_ref(),
    )
}

/// Writes rules, one after another.
fn add_rules(
    alloc: Global,
    out: &mut String,
    paper: Paper,
    root: &str,
    sources: &[Source],
    key: &str,
    rules: &[Rule],
) -> Result<(), AllocError>
    ensures { OnOk result (string_bytes out.new ≡ string_bytes out.old ++ page_text paper.colour
        (rules_runs paper.columns root.now sources.now key.now 0 rules.now)) }
{
    for (place, rule) in rules.iter().enumerate() {
        add_rule(alloc, out, paper, root, sources, key, place as u64, rule)?;
    }
    Ok(())
}

/// Writes that a test does not run, if a list says that it is ignored.
fn add_ignored(out: &mut String, colour: Colour, is_ignored: bool) -> Result<(), AllocError>
    ensures { OnOk result (string_bytes out.new ≡ string_bytes out.old
        ++ page_text colour (ignored_runs is_ignored)) }
{
    if is_ignored {
        add_remark(out, colour, "# runs = false: ignored in LIST")
    } else {
        Ok(())
    }
}

/// Writes the page of a key.
pub(crate) fn add_why(
    alloc: Global,
    out: &mut String,
    paper: Paper,
    root: &str,
    sources: &[Source],
    key: &str,
    rules: &[Rule],
    is_ignored: bool,
) -> Result<(), AllocError>
    ensures { OnOk result (string_bytes out.new ≡ string_bytes out.old ++ page_text paper.colour
        (why_runs paper.columns root.now sources.now key.now rules.now is_ignored)) }
{
    add_rules(alloc, out, paper, root, sources, key, rules)?;
    add_ignored(out, paper.colour, is_ignored)
}

/// Puts `ignored` among members, if a list says that the test is ignored.
fn put_ignored(
    members: &mut Map<String, Json>,
    alloc: Global,
    is_ignored: bool,
) -> Result<(), AllocError>
    ensures { OnOk result (members_view members.new.entries
        ≡ with_ignored is_ignored (members_view members.old.entries)) }
{
    if !is_ignored {
        return Ok(());
    }
    put(members, alloc, "ignored", Json::Bool(true))
}

/// Puts the members of the page of a key among members.
pub(crate) fn put_why(
    members: &mut Map<String, Json>,
    alloc: Global,
    asked: &Asked,
    test: &TestId,
    key: &str,
    rules: &[Rule],
    is_ignored: bool,
) -> Result<(), AllocError>
    ensures { OnOk result (members_view members.new.entries
        ≡ with_why asked.now test.now key.now rules.now is_ignored
        (members_view members.old.entries)) }
{
    put_requested(members, alloc, "explain", asked)?;
    put_ignored(members, alloc, is_ignored)?;
    put_text(members, alloc, "key", key)?;
    put(members, alloc, "rules", rules_json(alloc, rules)?)?;
    put(members, alloc, "test", test_id_json(alloc, test)?)
}
