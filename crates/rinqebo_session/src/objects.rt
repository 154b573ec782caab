//! The objects of a profile, as a text.
ghost use Rattle.std.specs.Prelude.{◌≡◌, IfOk, Some, option_map, string_bytes};
ghost use Rattle.nextest_settings.specs.Profiles.Meaning.{profile_meaning};
ghost use Rattle.nextest_tables.specs.FileTexts.{names_in, IsIn};
ghost use Rattle.rinqebo_objects.specs.Scripts.{directories_view};
ghost use Rattle.rinqebo_session.specs.Opening.{directories_in, AreOriginsIn, IsObjectsText};
ghost use Rattle.rinqebo_session.specs.Readings.{filter_meaning};

use crate::loading::Loaded;
use crate::named::{Evaluated, chain_of_profile, profile_names};
use filter_engine::NextestTally;
use rinqebo_object_origins::object_origins;
use rinqebo_objects::{Directories, ObjectOrigins, Surroundings, objects_text};
use rinqebo_request::layers_of;
use std::alloc::{AllocError, Global};

/// The directories that programs are relative to, if there is a target directory.
fn directories_of(loaded: &Loaded) -> Option<Directories<'_>>
    ensures { directories_view result ≡ directories_in loaded.now }
{
    match &loaded.target_directory {
        Some(target) => Some(Directories {
            root: loaded.files.paths.workspace_root.as_str(),
            target: target.as_str(),
        }),
        None => None,
    }
}

/// Where the values that a profile has for a whole run come from, and the groups.
fn origins_of(
    alloc: Global,
    loaded: &Loaded,
    name: &str,
    profile: &Evaluated<'_>,
) -> Result<ObjectOrigins, AllocError>
    requires { IsIn (names_in loaded.now.config.config.profiles) name.now }
    ensures { IfOk result (AreOriginsIn loaded.now name.now
        (profile_meaning filter_meaning profile.now)) }
{
    let layers = layers_of(alloc, &loaded.files)?;
    let chain = chain_of_profile(alloc, &loaded.config, name)?;
    let origins = object_origins(alloc, &layers, &chain, profile)?;
    Ok(origins)
}

/// What the objects of a profile have from a configuration whose profiles have these names.
fn surroundings_of<'a>(
    loaded: &'a Loaded,
    profiles: &'a [String],
    origins: &'a ObjectOrigins,
) -> Surroundings<'a>
    ensures profiles { result.profiles.now ≡ profiles.now }
    ensures warnings { result.warnings.now ≡ loaded.now.warnings }
    ensures directories { directories_view result.directories ≡ directories_in loaded.now }
    ensures origins { option_map (λ origins. origins.now) result.origins ≡ Some origins.now }
{
    Surroundings {
        profiles,
        warnings: &loaded.warnings,
        directories: directories_of(loaded),
        origins: Some(origins),
    }
}

/// The objects of the profile of a name of a configuration, as a text.
pub fn objects_of(
    alloc: Global,
    loaded: &Loaded,
    name: &str,
    profile: &Evaluated<'_>,
) -> Result<String, AllocError>
    requires { IsIn (names_in loaded.now.config.config.profiles) name.now }
    ensures { IfOk result (λ text.
        IsObjectsText loaded.now name.now profile.now (string_bytes text)) }
{
    let profiles = profile_names(alloc, &loaded.config)?;
    let origins = origins_of(alloc, loaded, name, profile)?;
    let around = surroundings_of(loaded, &profiles, &origins);
    let mut tally = NextestTally::new();
    let text = objects_text(alloc, profile, around, &mut tally)?;
    Ok(text)
}
