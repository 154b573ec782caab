//! What a spec says of a platform.
ghost use Rattle.std.specs.Prelude.{◌≡◌, codes};
ghost use Rattle.std.specs.List.{list_any};
ghost use Rattle.platform_language.specs.Platforms.Platforms.{line_view, platform_view};
ghost use Rattle.platform_language.specs.Expressions.{leaf_view, expression_view, parts_view, spec_view};
ghost use Rattle.platform_language.specs.Values.{same_line, leaf_value, value, values, spec_value, line_of, name_of};
ghost use Rattle.platform_language.specs.Values.{lesser as lesser_of, greater as greater_of, mirror as mirror_of, least as least_of, greatest as greatest_of};

use crate::expression::{Expression, Leaf, TargetSpec};
use crate::platforms::{CfgLine, Platform};

/// The lesser of two values: false is least, and then unknown.
fn lesser(left: Option<bool>, right: Option<bool>) -> Option<bool>
    ensures { result ≡ lesser_of left right }
{
    match (left, right) {
        (Some(false), _) | (_, Some(false)) => Some(false),
        (Some(true), Some(true)) => Some(true),
        _ => None,
    }
}

/// The greater of two values: true is greatest, and then unknown.
fn greater(left: Option<bool>, right: Option<bool>) -> Option<bool>
    ensures { result ≡ greater_of left right }
{
    match (left, right) {
        (Some(true), _) | (_, Some(true)) => Some(true),
        (Some(false), Some(false)) => Some(false),
        _ => None,
    }
}

/// True and false change places.
fn mirror(value: Option<bool>) -> Option<bool>
    ensures { result ≡ mirror_of value }
{
    value.map(|known| !known)
}

/// Whether a line is a key with a value.
fn is_line(line: &CfgLine, key: &str, value: &str) -> bool
    ensures { result ≡ same_line (line_view line.now) (line_of key.now value.now) }
{
    match &line.value {
        Some(found) => line.key.as_str() == key && found.as_str() == value,
        None => false,
    }
}

/// Whether a line is a key alone.
fn is_name(line: &CfgLine, name: &str) -> bool
    ensures { result ≡ same_line (line_view line.now) (name_of name.now) }
{
    line.value.is_none() && line.key.as_str() == name
}

fn has_line(platform: &Platform, wanted: &CfgLine) -> bool
    ensures { result ≡ list_any (λ found. same_line (line_view found) (line_view wanted.now))
        platform.now.lines.items }
{
    match &wanted.value {
        Some(value) => platform
            .lines
            .iter()
            .any(|line| is_line(line, wanted.key.as_str(), value.as_str())),
        None => platform
            .lines
            .iter()
            .any(|line| is_name(line, wanted.key.as_str())),
    }
}

fn has_feature(platform: &Platform, feature: &str) -> bool
    ensures { result ≡ list_any (λ found. same_line (line_view found)
        (line_of (codes "target_feature") feature.now)) platform.now.lines.items }
{
    platform
        .lines
        .iter()
        .any(|line| is_line(line, "target_feature", feature))
}

impl Leaf {
    /// Whether it holds on a platform, or `None` where that is unknown.
    #[tactic(auto, using(crate::proofs::Lookups::line_value, crate::proofs::Lookups::feature_value))]
    pub fn eval(&self, platform: &Platform) -> Option<bool>
        ensures { result ≡ leaf_value (platform_view platform.now) (leaf_view self.now) }
    {
        match self {
            Leaf::Has(line) => Some(has_line(platform, line)),
            Leaf::Feature(feature) => {
                if platform.features_given {
                    Some(has_feature(platform, feature.as_str()))
                } else {
                    None
                }
            }
            Leaf::Never => Some(false),
        }
    }
}

impl Expression {
    /// Whether it holds on a platform, or `None` where that is unknown.
    pub fn eval(&self, platform: &Platform) -> Option<bool>
        ensures { result ≡ value (platform_view platform.now) (expression_view self.now) }
    {
        expression_value(self, platform)
    }
}

#[cycle(expression_value)]
fn expression_value(expression: &Expression, platform: &Platform) -> Option<bool>
    ensures { result ≡ value (platform_view platform.now) (expression_view expression.now) }
{
    match expression {
        Expression::Leaf(leaf) => leaf.eval(platform),
        Expression::All(parts) => least(parts, platform),
        Expression::Any(parts) => greatest(parts, platform),
        Expression::Not(part) => mirror(expression_value(part, platform)),
    }
}

/// The least of the values of parts, or true for none.
#[cycle(expression_value)]
fn least(parts: &[Expression], platform: &Platform) -> Option<bool>
    ensures { result ≡ least_of (values (platform_view platform.now) (parts_view parts.now)) }
{
    let mut value = Some(true);
    for part in parts {
        value = lesser(value, expression_value(part, platform));
    }
    value
}

/// The greatest of the values of parts, or false for none.
#[cycle(expression_value)]
fn greatest(parts: &[Expression], platform: &Platform) -> Option<bool>
    ensures { result ≡ greatest_of (values (platform_view platform.now) (parts_view parts.now)) }
{
    let mut value = Some(false);
    for part in parts {
        value = greater(value, expression_value(part, platform));
    }
    value
}

impl TargetSpec {
    /// Whether a platform meets it, or `None` where that is unknown.
    pub fn eval(&self, platform: &Platform) -> Option<bool>
        ensures { result ≡ spec_value (platform_view platform.now) (spec_view self.now) }
    {
        match self {
            TargetSpec::Triple(triple) => Some(triple.as_str() == platform.triple.as_str()),
            TargetSpec::Expression(expression) => expression.eval(platform),
        }
    }
}
