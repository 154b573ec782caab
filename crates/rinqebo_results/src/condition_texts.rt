//! The texts of the conditions of rules.
ghost use Rattle.std.specs.Prelude.{◌≡◌, IfOk, option_map};
ghost use Rattle.std.specs.Option.{option_copied};
ghost use Rattle.rinqebo_origins.specs.Origins.{key_steps};
ghost use Rattle.rinqebo_results.specs.ConditionTexts.{default_text, filter_text, HasText, host_text, IsAbsent, table_text, target_text, text_at};

use rinqebo_keys::SettingKey;
use rinqebo_origins::node_alone;
use rinqebo_report::{Condition, ConditionAnswer, Origin};
use rinqebo_request::Layer;
use rinqebo_rules::default_filter_key;
use std::alloc::{AllocError, Global};

/// The name of the profile of the defaults.
const DEFAULT: &str = "default";

/// The text that the file of an origin has at a key of the rule or the profile of the origin.
fn text_at<'l>(layers: &'l [Layer<'_>], key: SettingKey, origin: &Origin) -> Option<&'l str>
    ensures { option_copied result ≡ text_at layers.now
        (key_steps (option_map (λ table. table.now) key.table) key.key.now) origin.now }
{
    node_alone(layers, key, origin, &[])?.as_str()
}

/// The text of what the host has to meet for a rule.
pub fn host_text<'l>(layers: &'l [Layer<'_>], rule: &Origin) -> Option<&'l str>
    ensures { option_copied result ≡ host_text layers.now rule.now }
{
    let key = SettingKey {
        table: Some("platform"),
        key: "host",
    };
    text_at(layers, key, rule)
}

/// The text of what the platform has to meet for a rule which a binary runs on.
pub fn target_text<'l>(layers: &'l [Layer<'_>], rule: &Origin) -> Option<&'l str>
    ensures { option_copied result ≡ target_text layers.now rule.now }
{
    let platform = SettingKey {
        table: None,
        key: "platform",
    };
    let target = SettingKey {
        table: Some("platform"),
        key: "target",
    };
    match text_at(layers, platform, rule) {
        Some(text) => Some(text),
        None => text_at(layers, target, rule),
    }
}

/// The text of the filter of a rule.
pub fn filter_text<'l>(layers: &'l [Layer<'_>], rule: &Origin) -> Option<&'l str>
    ensures { option_copied result ≡ filter_text layers.now rule.now }
{
    let key = SettingKey {
        table: None,
        key: "filter",
    };
    text_at(layers, key, rule)
}

/// The text of the default filter of the default table.
fn table_text<'l>(layers: &'l [Layer<'_>]) -> Option<&'l str>
    ensures { option_copied result ≡ table_text layers.now }
{
    let tree = layers.first()?.tree()?;
    tree.get("profile")?
        .get(DEFAULT)?
        .get("default-filter")?
        .as_str()
}

/// The text of the default filter at an origin, which the default table or a file writes.
pub fn default_text<'l>(layers: &'l [Layer<'_>], origin: &Origin) -> Option<&'l str>
    ensures { option_copied result ≡ default_text layers.now origin.now }
{
    match origin {
        Origin::DefaultTable => table_text(layers),
        Origin::Written(_) | Origin::BuiltIn | Origin::File(_) => {
            text_at(layers, default_filter_key(), origin)
        }
    }
}

/// A condition, with its text.
pub fn condition(
    alloc: Global,
    text: Option<&str>,
    answer: ConditionAnswer,
) -> Result<Condition, AllocError>
    ensures answer { IfOk result (λ condition. condition.answer ≡ answer) }
    ensures text { IfOk result (HasText (option_copied text.entry)) }
{
    Ok(Condition {
        text: String::from_str(alloc, text.unwrap_or(""))?,
        answer,
    })
}

/// A condition that a rule does not have.
pub fn no_condition(alloc: Global) -> Condition
    ensures { IsAbsent result }
{
    Condition {
        text: String::new(alloc),
        answer: ConditionAnswer::Absent,
    }
}
