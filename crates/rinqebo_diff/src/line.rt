//! What a command line has for the words and options of `diff`.
ghost use Rattle.std.specs.Prelude.{◌≡◌, map, option_map};
ghost use Rattle.clap.specs.Walk.{all_of};
ghost use Rattle.rinqebo_request.specs.Lines.{IsFlag, has, line_of, value_at};

use clap::ArgMatches;

/// The value of a word or an option, or the first one, if there is one.
pub(crate) fn value<'a>(matches: &ArgMatches<'a>, id: &str) -> Option<&'a str>
    ensures { option_map (λ text. text.now) result ≡ value_at id.now (line_of matches.now) }
{
    matches.get_str(id)
}

/// All values of a word or an option, in their order, if a line has it.
pub(crate) fn values<'m, 'a>(matches: &'m ArgMatches<'a>, id: &str) -> Option<&'m [&'a str]>
    ensures { option_map (λ texts. map (λ text. text.now) texts.now) result
        ≡ all_of id.now (line_of matches.now) }
{
    matches.get_strs(id)
}

/// Whether a line has a word or an option.
pub(crate) fn has(matches: &ArgMatches<'_>, id: &str) -> bool
    ensures { result ≡ has id.now (line_of matches.now) }
{
    matches.contains_id(id)
}

/// Whether a flag is on.
pub(crate) fn is_on(matches: &ArgMatches<'_>, id: &str) -> bool
    ensures { IsFlag id.now (line_of matches.now) result }
{
    matches.get_flag(id)
}
