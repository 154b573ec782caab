//! What to do about keys that their tables do not know.
ghost use Rattle.std.specs.Prelude.{◌≡◌, ◌++◌, ◌∷◌, [], IfOk, filter_map, find, option_map, string_bytes};
ghost use Rattle.std.specs.Option.{option_copied};
ghost use Rattle.nextest_shape.specs.FileForm.{file_form};
ghost use Rattle.nextest_shape.specs.View.{shape_view};
ghost use Rattle.rinqebo_faults.specs.Headers.{header_of};
ghost use Rattle.rinqebo_faults.specs.Hints.{name_by_front, texts};
ghost use Rattle.rinqebo_faults.specs.Shapes.{key_of};
ghost use Rattle.rinqebo_faults.specs.Tables.{known_keys};
ghost use Rattle.rinqebo_faults.specs.UnknownKeys.{help_or, in_override, in_overrides, in_part, in_profile, is_list, IsKeyHelp, IsUnknownKeyHelp, key_hint, override_knows, overrides_help, part_knows, place_elsewhere, place_in_default, place_in_profile, profile_of};

use crate::headers::header_text;
use crate::hints::{name_by_front, near_name};
use crate::paths::path_with;
use crate::shapes::shape_at;
use crate::spellings::are_tables;
use crate::tables::{has_key, key_at, keys_at, known_keys, knows, last_key, without_last};
use crate::words::is_among;
use nextest_places::Step;
use nextest_shape::{Shape, file_shape};
use rinqebo_report::HelpPlace;
use std::alloc::{AllocError, Global};

/// Whether any override of a profile knows a key.
#[tactic(auto, unfolding(crate::specs::UnknownKeys::override_knows, crate::specs::Tables::known_keys))]
fn override_knows(alloc: Global, profile: &str, key: &str) -> Result<bool, AllocError>
    ensures { IfOk result (λ known. known ≡ override_knows profile.now key.now) }
{
    let rule = [
        Step::Key("profile"),
        Step::Key(profile),
        Step::Key("overrides"),
        Step::Position(0),
    ];
    knows(alloc, &rule, key)
}

/// Where to write a key of overrides of a profile.
#[tactic(auto, unfolding(crate::specs::UnknownKeys::in_override))]
fn in_override(alloc: Global, profile: &str) -> Result<String, AllocError>
    ensures { IfOk result (λ place. string_bytes place ≡ in_override profile.now) }
{
    let path = [Step::Key("profile"), Step::Key(profile)];
    let header = header_text(alloc, &path)?;
    format!(in alloc; "write it in `[[{header}.overrides]]`")
}

/// Where a key of overrides of a profile belongs.
fn overrides_help(alloc: Global, profile: &str, key: &str) -> Result<String, AllocError>
    ensures { IfOk result (λ help. string_bytes help ≡ overrides_help profile.now key.now) }
{
    let place = in_override(alloc, profile)?;
    format!(in alloc; "`{key}` is a setting of overrides: {place}")
}

/// Where a key of a profile belongs that is one of overrides.
#[tactic(auto, unfolding(crate::specs::UnknownKeys::in_overrides))]
fn in_overrides(alloc: Global, profile: &str, key: &str) -> Result<Option<String>, AllocError>
    ensures { IfOk result (λ help. option_map string_bytes help
        ≡ in_overrides profile.now key.now) }
{
    if !override_knows(alloc, profile, key)? {
        return Ok(None);
    }
    Ok(Some(overrides_help(alloc, profile, key)?))
}

/// Where a key of another table belongs that is one of a profile.
#[tactic(auto, unfolding(crate::specs::UnknownKeys::in_profile, crate::specs::Tables::known_keys))]
fn in_profile(alloc: Global, profile: &str, key: &str) -> Result<Option<String>, AllocError>
    ensures { IfOk result (λ help. option_map string_bytes help ≡ in_profile profile.now key.now) }
{
    let path = [Step::Key("profile"), Step::Key(profile)];
    if !knows(alloc, &path, key)? {
        return Ok(None);
    }
    let header = header_text(alloc, &path)?;
    let help = format!(in alloc; "`{key}` is a setting of profiles: write it in `[{header}]`")?;
    Ok(Some(help))
}

/// Whether the table at a key of the table at a path knows a key, in a file of a shape.
#[tactic(auto, unfolding(crate::specs::UnknownKeys::part_knows))]
fn part_knows(
    alloc: Global,
    file: &Shape,
    table: &[Step<'_>],
    key: &str,
    part: &'static str,
) -> Result<bool, AllocError>
    ensures { IfOk result (λ known. known
        ≡ part_knows (shape_view file.now) table.now key.now part.now) }
{
    let keys = keys_at(alloc, file, &path_with(alloc, table, part)?)?;
    Ok(is_among(&keys, key))
}

/// The first of some keys of the table at a path at which a table knows a key.
fn knowing_part(
    alloc: Global,
    file: &Shape,
    table: &[Step<'_>],
    key: &str,
    parts: &[&'static str],
) -> Result<Option<&'static str>, AllocError>
    ensures { IfOk result (λ part. option_copied part
        ≡ find (part_knows (shape_view file.now) table.now key.now) (texts parts.now)) }
{
    for part in parts {
        if part_knows(alloc, file, table, key, *part)? {
            return Ok(Some(*part));
        }
    }
    Ok(None)
}

/// The header of the table at a key of the table at a path.
fn key_header(alloc: Global, table: &[Step<'_>], key: &str) -> Result<String, AllocError>
    ensures { IfOk result (λ header. string_bytes header
        ≡ header_of (filter_map key_of table.now ++ key.now ∷ [])) }
{
    let path = path_with(alloc, table, key)?;
    header_text(alloc, &path)
}

/// The first key of the table at a path at which a table of a file knows a key.
fn part_with(
    alloc: Global,
    table: &[Step<'_>],
    key: &str,
) -> Result<Option<&'static str>, AllocError>
    ensures { IfOk result (λ part. option_copied part
        ≡ find (part_knows file_form table.now key.now) (known_keys table.now)) }
{
    let file = file_shape(alloc)?;
    let parts = known_keys(alloc, table)?;
    knowing_part(alloc, &file, table, key, &parts)
}

/// Where a key of a table belongs that is one of a table in it: the first that knows it.
#[tactic(auto, unfolding(crate::specs::UnknownKeys::in_part))]
fn in_part(alloc: Global, table: &[Step<'_>], key: &str) -> Result<Option<String>, AllocError>
    ensures { IfOk result (λ help. option_map string_bytes help ≡ in_part table.now key.now) }
{
    let Some(part) = part_with(alloc, table, key)? else {
        return Ok(None);
    };
    let header = key_header(alloc, table, part)?;
    let help = format!(in alloc; "`{key}` is a key of `{part}`: write `{header}.{key}`")?;
    Ok(Some(help))
}

/// The name of the profile that has a path.
#[tactic(auto, unfolding(crate::specs::UnknownKeys::profile_of))]
fn profile_of<'p>(path: &[Step<'p>]) -> Option<&'p str>
    ensures { option_copied result ≡ profile_of path.now }
{
    if has_key(path, 0, "profile") {
        key_at(path, 1)
    } else {
        None
    }
}

/// Where a key belongs that a table of a profile does not know, and another one does.
#[tactic(auto, unfolding(crate::specs::UnknownKeys::place_in_profile))]
fn place_in_profile(
    alloc: Global,
    table: &[Step<'_>],
    key: &str,
) -> Result<Option<String>, AllocError>
    ensures { IfOk result (λ help. option_map string_bytes help
        ≡ place_in_profile table.now key.now) }
{
    match profile_of(table) {
        Some(profile) if table.len() == 2 => in_overrides(alloc, profile, key),
        Some(profile) => in_profile(alloc, profile, key),
        None => Ok(None),
    }
}

/// Where a key of a file belongs that is one of profiles.
#[tactic(auto, unfolding(crate::specs::UnknownKeys::place_in_default))]
fn place_in_default(
    alloc: Global,
    table: &[Step<'_>],
    key: &str,
) -> Result<Option<String>, AllocError>
    ensures { IfOk result (λ help. option_map string_bytes help
        ≡ place_in_default table.now key.now) }
{
    if table.is_empty() {
        in_profile(alloc, "default", key)
    } else {
        Ok(None)
    }
}

/// Where a key belongs that its table does not know, and another one does.
#[tactic(auto, unfolding(crate::specs::UnknownKeys::place_elsewhere))]
fn place_elsewhere(
    alloc: Global,
    table: &[Step<'_>],
    key: &str,
) -> Result<Option<String>, AllocError>
    ensures { IfOk result (λ help. option_map string_bytes help
        ≡ place_elsewhere table.now key.now) }
{
    if table.len() == 1 && has_key(table, 0, "scripts") {
        return Ok(Some(format!(in alloc;
            "write `[scripts.setup.{key}]` or `[scripts.wrapper.{key}]`"
        )?));
    }
    if let Some(help) = place_in_default(alloc, table, key)? {
        return Ok(Some(help));
    }
    if let Some(help) = place_in_profile(alloc, table, key)? {
        return Ok(Some(help));
    }
    in_part(alloc, table, key)
}

/// Whether the values of a key of a table are arrays of tables.
#[tactic(auto, unfolding(crate::specs::UnknownKeys::is_list))]
fn is_list(alloc: Global, table: &[Step<'_>], key: &str) -> Result<bool, AllocError>
    ensures { IfOk result (λ list. list ≡ is_list table.now key.now) }
{
    let path = path_with(alloc, table, key)?;
    let file = file_shape(alloc)?;
    match shape_at(&file, &path) {
        Some(shape) => Ok(are_tables(shape)),
        None => Ok(false),
    }
}

/// The hint that a key of a table is meant: by its header, where it is that of an array of tables.
#[tactic(auto, unfolding(crate::specs::UnknownKeys::key_hint))]
fn key_hint(alloc: Global, table: &[Step<'_>], key: &str) -> Result<String, AllocError>
    ensures { IfOk result (λ hint. string_bytes hint ≡ key_hint table.now key.now) }
{
    if !is_list(alloc, table, key)? {
        return format!(in alloc; "did you mean `{key}`?");
    }
    let header = key_header(alloc, table, key)?;
    format!(in alloc; "did you mean `[[{header}]]`?")
}

/// What to do about a key that its table does not know, where no key of the table is near.
fn far_help(
    alloc: Global,
    table: &[Step<'_>],
    key: &str,
    known: &[&str],
) -> Result<(Option<String>, HelpPlace), AllocError>
    ensures { IfOk result (λ help. (option_map string_bytes help.0, help.1)
        ≡ help_or (place_elsewhere table.now key.now) (name_by_front key.now (texts known.now))
        table.now) }
{
    if let Some(help) = place_elsewhere(alloc, table, key)? {
        return Ok((Some(help), HelpPlace::Below));
    }
    match name_by_front(key, known) {
        Some(near) => Ok((Some(key_hint(alloc, table, near)?), HelpPlace::Beside)),
        None => Ok((None, HelpPlace::Beside)),
    }
}

/// What to do about a key that its table does not know, and where pages show that.
fn key_help(
    alloc: Global,
    table: &[Step<'_>],
    key: &str,
) -> Result<(Option<String>, HelpPlace), AllocError>
    ensures { IfOk result (λ help. IsKeyHelp table.now key.now
        (option_map string_bytes help.0) help.1) }
{
    let known = known_keys(alloc, table)?;
    if let Some(near) = near_name(alloc, key, &known)? {
        let hint = key_hint(alloc, table, near)?;
        return Ok((Some(hint), HelpPlace::Beside));
    }
    far_help(alloc, table, key, &known)
}

/// What to do about a key that its table does not know, and whether it is that a near one is meant.
pub fn unknown_key_help(
    alloc: Global,
    path: &[Step<'_>],
) -> Result<(Option<String>, HelpPlace), AllocError>
    ensures { IfOk result (λ help. IsUnknownKeyHelp path.now (option_map string_bytes help.0)
        help.1) }
{
    match last_key(path) {
        Some(key) => key_help(alloc, without_last(path), key),
        None => Ok((None, HelpPlace::Below)),
    }
}
