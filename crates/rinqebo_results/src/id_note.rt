//! The note of `explain` about filters that use what the program reads from the id of a binary
//! alone.
ghost use Rattle.nextest_tables.specs.FileTexts.{names_in, IsIn};

use crate::list_report::profile_on;
use crate::looked_up::place_text;
use filter_engine::Field;
use rinqebo_load::{Config, FoundTest, Session, TestSource, chain_of_profile};
use rinqebo_rules::filters_asking;
use std::alloc::{AllocError, Global};

/// What a list or metadata say of a binary, and its id may not.
const FIELDS: [Field; 3] = [Field::Kind, Field::BinaryName, Field::Package];

/// How many places of filters a note lists at most.
const MOST_PLACES: usize = 8;

/// The places of the first filters that a profile evaluates and that use the kind, the name or the
/// package of a binary, with commas between them, and how many more there are.
fn asking_places(
    alloc: Global,
    session: &Session<'_>,
    config: &Config,
    profile: &str,
) -> Result<String, AllocError>
    requires { IsIn (names_in config.now.config.profiles) profile.now }
{
    let on = profile_on(alloc, session, config, profile)?;
    let chain = chain_of_profile(alloc, config, profile)?;
    let mut places = String::new(alloc);
    let filters = filters_asking(alloc, &on, &FIELDS)?;
    for asking in filters.iter().take(MOST_PLACES) {
        if !places.is_empty() {
            places.push_str(", ")?;
        }
        let place = place_text(alloc, session, &chain, asking.place)?;
        places.push_str(place.as_str())?;
    }
    let more = filters.len().saturating_sub(MOST_PLACES);
    if more > 0 {
        let rest = format!(in alloc; " and {more} more")?;
        places.push_str(rest.as_str())?;
    }
    Ok(places)
}

/// What the note says on a test of whose binary only the id is known: it lists the filters that use
/// more. There is none where no filter does, or where a list or metadata have the binary.
pub fn id_note(
    alloc: Global,
    session: &Session<'_>,
    config: &Config,
    profile: &str,
    test: &FoundTest,
) -> Result<Option<String>, AllocError>
    requires { IsIn (names_in config.now.config.profiles) profile.now }
{
    match test.source {
        TestSource::List | TestSource::Metadata => return Ok(None),
        TestSource::Id => {}
    }
    let places = asking_places(alloc, session, config, profile)?;
    if places.is_empty() {
        return Ok(None);
    }
    let binary = test.binary.as_str();
    Ok(Some(format!(in alloc;
        "kind, name and package of `{binary}` are read from its id, and these filters use them: {places}; give `--list FILE` or `--metadata FILE`"
    )?))
}
