//! Hints: which known name a wrong one most likely means.
ghost use Rattle.std.specs.Prelude.{◌≡◌, ◌<◌, All, MatchOption, IfOk, length};
ghost use Rattle.std.specs.Str.{chars};
ghost use Rattle.rinqebo_report.specs.Hints.{distance, reach, IsNearest, comes_before, first_of};

use std::alloc::{AllocError, Global};
use strsim::levenshtein;

/// A known name, and how many edits lead to it.
#[derive(Clone, Copy)]
struct Candidate<'a> {
    name: &'a str,
    distance: usize,
}

impl Candidate<'_> {
    /// Whether it comes before another one: by the distance, and then by the bytes.
    fn comes_before(self, other: Candidate<'_>) -> bool
        ensures { result ≡ comes_before self.entry other.entry }
    {
        self.distance
            .cmp(&other.distance)
            .then(self.name.cmp(other.name))
            .is_lt()
    }
}

/// The one of two candidates that comes first.
fn first_of<'a>(best: Option<Candidate<'a>>, other: Candidate<'a>) -> Candidate<'a>
    ensures { result ≡ first_of best.entry other.entry }
{
    match best {
        Some(best) if !other.comes_before(best) => best,
        _ => other,
    }
}

/// The number of characters of a text.
fn char_count(text: &str) -> usize
    ensures { result ≡ length (chars text.now) }
{
    text.chars().count()
}

/// The known name that is nearest to a name, if one is near: at most a third of the name's
/// characters have to change, or one. Of names that are as near the first by bytes is taken.
pub fn nearest_name<'a>(
    alloc: Global,
    name: &str,
    known: &[&'a str],
) -> Result<Option<&'a str>, AllocError>
    ensures { IfOk result (λ found. MatchOption found
        (All (λ other. reach name.now < distance name.now other.now) known.now)
        (λ nearest. IsNearest name.now known.now nearest.now)) }
{
    let reach = (char_count(name) / 3).max(1);
    let mut nearest: Option<Candidate<'a>> = None;
    for other in known {
        let candidate = Candidate {
            name: *other,
            distance: levenshtein(alloc, name, *other)?,
        };
        if candidate.distance <= reach {
            nearest = Some(first_of(nearest, candidate));
        }
    }
    match nearest {
        Some(candidate) => Ok(Some(candidate.name)),
        None => Ok(None),
    }
}
