//! What nextest refuses of the version that a file needs, and a load does not look at.
ghost use Rattle.std.specs.Prelude.{◌≡◌, ◌^◌, IsTrue, OnOk, codes, length, map, nat_lt};
ghost use Rattle.std.specs.List.{list_all};
ghost use Rattle.std.specs.Str.Parse.{digits_value};
ghost use Rattle.nextest_places.specs.Spans.Paths.{path_step};
ghost use Rattle.nextest_tree.specs.Node.{member_of};
ghost use Rattle.nextest_tree.specs.View.{tree_view};
ghost use Rattle.rinqebo_faults.specs.Words.{is_number};
ghost use Rattle.rinqebo_findings.specs.NextestForms.{AddsForms, are_two_or_three, has_leading_zero, if_given, is_version, is_version_number, key_in, text_faults, version_faults, version_parts, version_path};

use crate::nextest_values::{add_kind, add_text, warn_of_others};
use crate::refused::Refused;
use nextest_places::Step;
use nextest_tree::Tree;
use rinqebo_faults::is_number;
use rinqebo_report::Finding;
use std::alloc::AllocError;

/// A version, in words.
const VERSION: &str = "a string of two or three numbers, such as `0.9.100`";

/// A version or a table, in words.
const VERSION_OR_TABLE: &str = "a string of two or three numbers, such as `0.9.100`, or a table";

/// Whether digits begin with a zero in front of others.
fn has_leading_zero(digits: &str) -> bool
    ensures { result ≡ has_leading_zero digits.now }
{
    digits.starts_with('0') && digits.len() > 1
}

/// Whether digits are of a number of 64 bits.
fn is_small(digits: &str) -> bool
    ensures { IsTrue (is_number digits.now)
        → result ≡ nat_lt (digits_value 10 digits.now) (2 ^ 64) }
{
    digits.parse::<u64>().is_ok()
}

/// Whether a text is a number of a version: it has no zero in front of other digits.
#[tactic(auto, unfolding(crate::specs::NextestForms::is_version_number))]
fn is_version_number(text: &str) -> bool
    ensures { result ≡ is_version_number text.now }
{
    is_number(text) && !has_leading_zero(text) && is_small(text)
}

/// The number of parts of a text between its dots.
fn count_parts(text: &str) -> usize
    ensures { result ≡ length (version_parts text.now) }
{
    text.split('.').count()
}

/// Whether a text has two or three parts between its dots.
fn has_two_or_three(text: &str) -> bool
    ensures { result ≡ are_two_or_three (version_parts text.now) }
{
    let count = count_parts(text);
    count == 2 || count == 3
}

/// Whether the parts of a text between its dots are numbers of a version.
fn has_numbers(text: &str) -> bool
    ensures { result ≡ list_all is_version_number (version_parts text.now) }
{
    text.split('.').all(|number| is_version_number(number))
}

/// Whether a text is a version: two or three numbers with dots between them.
#[tactic(auto, unfolding(crate::specs::NextestForms::is_version))]
fn is_version(text: &str) -> bool
    ensures { result ≡ is_version text.now }
{
    has_two_or_three(text) && has_numbers(text)
}

/// Adds what is wrong with a version.
fn add_version(
    refused: &Refused<'_, '_>,
    findings: &mut Vec<Finding>,
    path: &[Step<'_>],
    given: &Tree,
    expected: &str,
) -> Result<(), AllocError>
    ensures { OnOk result (AddsForms refused.now.source.layers.now refused.now.source.position
        (text_faults is_version (map path_step path.now) (tree_view given.now))
        findings.old.items findings.new.items) }
{
    match given.as_str() {
        Some(text) if is_version(text) => Ok(()),
        Some(text) => add_text(refused, findings, path, text, expected, None),
        None => add_kind(refused, findings, path, given, expected),
    }
}

/// Adds what is wrong with the version at a key of the version that a file needs, if there is one.
fn add_version_at(
    refused: &Refused<'_, '_>,
    findings: &mut Vec<Finding>,
    versions: &Tree,
    key: &'static str,
) -> Result<(), AllocError>
    ensures { OnOk result (AddsForms refused.now.source.layers.now refused.now.source.position
        (if_given (text_faults is_version (key_in version_path key.now))
        (member_of key.now (tree_view versions.now))) findings.old.items findings.new.items) }
{
    match versions.get(key) {
        Some(version) => {
            let path = [Step::Key("nextest-version"), Step::Key(key)];
            add_version(refused, findings, &path, version, VERSION)
        }
        None => Ok(()),
    }
}

/// Adds what is wrong with a version, or with a table of versions.
fn add_version_form(
    refused: &Refused<'_, '_>,
    findings: &mut Vec<Finding>,
    given: &Tree,
) -> Result<(), AllocError>
    ensures { OnOk result (AddsForms refused.now.source.layers.now refused.now.source.position
        (version_faults (tree_view given.now)) findings.old.items findings.new.items) }
{
    let path = [Step::Key("nextest-version")];
    let Some(members) = given.as_table() else {
        return add_version(refused, findings, &path, given, VERSION_OR_TABLE);
    };
    warn_of_others(
        refused,
        findings,
        &path,
        members,
        &["required", "recommended"],
    )?;
    add_version_at(refused, findings, given, "required")?;
    add_version_at(refused, findings, given, "recommended")
}

/// Adds what is wrong with the version that a file needs.
pub fn add_versions(
    refused: &Refused<'_, '_>,
    findings: &mut Vec<Finding>,
    tree: &Tree,
) -> Result<(), AllocError>
    ensures { OnOk result (AddsForms refused.now.source.layers.now refused.now.source.position
        (if_given version_faults (member_of (codes "nextest-version") (tree_view tree.now)))
        findings.old.items findings.new.items) }
{
    match tree.get("nextest-version") {
        Some(given) => add_version_form(refused, findings, given),
        None => Ok(()),
    }
}
