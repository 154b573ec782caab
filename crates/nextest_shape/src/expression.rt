//! The regular expressions that texts of patterns match.
ghost use Rattle.std.specs.Prelude.{◌≡◌};
ghost use Rattle.nextest_shape.specs.Page.{expression_of};

use crate::shape::Pattern;

/// The regular expression that each text of a pattern matches.
#[tactic(auto, unfolding(crate::specs::Page::duration_expression, crate::specs::Page::identifier_expression, crate::specs::Page::group_expression))]
pub(crate) fn expression_of(pattern: Pattern) -> &'static str
    ensures { result.now ≡ expression_of pattern }
{
    match pattern {
        Pattern::Duration => {
            "^(0|( *[0-9]+ *(ns|nsec|nanos|us|usec|\\u00b5s|ms|msec|millis|s|sec|secs|second|seconds|m|min|mins|minute|minutes|h|hr|hrs|hour|hours|d|day|days|w|wk|wks|week|weeks|M|month|months|y|yr|yrs|year|years))+ *)$"
        }
        Pattern::Identifier => {
            "^((@tool:[^\\x00-\\x40\\x5b-\\x60\\x7b-\\x7f][^\\x00-\\x2c\\x2e\\x2f\\x3a-\\x40\\x5b-\\x5e\\x60\\x7b-\\x7f]*:)|@org:)?[^\\x00-\\x40\\x5b-\\x60\\x7b-\\x7f][^\\x00-\\x2c\\x2e\\x2f\\x3a-\\x40\\x5b-\\x5e\\x60\\x7b-\\x7f]*$"
        }
        Pattern::TestGroup => {
            "^(@global|((@tool:[^\\x00-\\x40\\x5b-\\x60\\x7b-\\x7f][^\\x00-\\x2c\\x2e\\x2f\\x3a-\\x40\\x5b-\\x5e\\x60\\x7b-\\x7f]*:)|@org:)?[^\\x00-\\x40\\x5b-\\x60\\x7b-\\x7f][^\\x00-\\x2c\\x2e\\x2f\\x3a-\\x40\\x5b-\\x5e\\x60\\x7b-\\x7f]*)$"
        }
        Pattern::CommandLine => "[^ \\t\\n]",
        Pattern::EnvironmentKey => "^(?!NEXTEST)[A-Za-z_][A-Za-z0-9_]*$",
    }
}
