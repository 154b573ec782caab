//! The faults of a file.
ghost use Rattle.std.specs.Prelude.{◌≡◌, [], IfOk};
ghost use Rattle.nextest_tables.specs.Tables.{a_file, a_scripts_table, a_store};
ghost use Rattle.nextest_tree.specs.Schema.{faults, unknown};
ghost use Rattle.nextest_tree.specs.View.{tree_view};
ghost use Rattle.nextest_shape.specs.Faults.Found.{Adds, refused_at};
ghost use Rattle.nextest_shape.specs.Faults.Places.{place_view};

use crate::faults::across::Names;
use crate::faults::element_places::group;
use crate::faults::found::FoundFault;
use crate::faults::leaf::Leaf;
use crate::faults::listing::add_faults;
use crate::faults::parts::{map_by, may, must, table, value};
use crate::faults::place::Place;
use crate::faults::profile_places::profile;
use crate::faults::script_places::{setup_script, wrapper_script};
use crate::faults::unknown::add_unknown_keys;
use nextest_tree::{Key, Tree};
use std::alloc::{AllocError, Global};

/// The store.
#[tactic(auto, unfolding(nextest_tables::specs::Tables::a_store))]
fn store(alloc: Global) -> Result<Place, AllocError>
    ensures { IfOk result (λ place. place_view place ≡ a_store) }
{
    let fields = vec![in alloc; must(Key::Dir, value(Leaf::Text))]?;
    table(alloc, fields)
}

/// The table of scripts.
#[tactic(auto, unfolding(nextest_tables::specs::Tables::a_scripts_table))]
fn scripts(alloc: Global) -> Result<Place, AllocError>
    ensures { IfOk result (λ place. place_view place ≡ a_scripts_table) }
{
    let setup = map_by(alloc, Names::Identifiers, setup_script(alloc)?)?;
    let wrapper = map_by(alloc, Names::Identifiers, wrapper_script(alloc)?)?;
    let fields = vec![in alloc; may(Key::Setup, setup), may(Key::Wrapper, wrapper)]?;
    table(alloc, fields)
}

/// A whole file.
#[tactic(auto, unfolding(nextest_tables::specs::Tables::a_file))]
fn file(alloc: Global) -> Result<Place, AllocError>
    ensures { IfOk result (λ place. place_view place ≡ a_file) }
{
    let store = store(alloc)?;
    let groups = map_by(alloc, Names::Identifiers, group(alloc)?)?;
    let script = map_by(alloc, Names::Identifiers, setup_script(alloc)?)?;
    let scripts = scripts(alloc)?;
    let profiles = map_by(alloc, Names::Any, profile(alloc)?)?;
    let fields = vec![in alloc;
        must(Key::Store, store),
        may(Key::NextestVersion, Place::Anything),
        may(Key::Experimental, Place::Anything),
        may(Key::TestGroups, groups),
        may(Key::Script, script),
        may(Key::Scripts, scripts),
        must(Key::Profile, profiles),
    ]?;
    table(alloc, fields)
}

/// Returns all faults of the elements of a file, in the order of places: a load refuses the file
/// for the first of them. The file is the tree of its text laid over the table of defaults, as a
/// load reads it.
///
/// # Errors
/// Memory was refused.
pub fn file_faults<'t>(alloc: Global, tree: &'t Tree) -> Result<Vec<FoundFault<'t>>, AllocError>
    ensures { IfOk result
        (λ found. Adds [] found.items (faults a_file [] (tree_view tree.entry.now))) }
{
    let place = file(alloc)?;
    let mut found = Vec::new(alloc);
    add_faults(alloc, &place, &[], tree, &mut found)?;
    Ok(found)
}

/// Returns all unknown keys of a file, each as the fault of a table that refuses it: the keys of
/// tables of fields that are none of these. The file is the tree of its text laid over the table of
/// defaults, as a load reads it.
///
/// # Errors
/// Memory was refused.
pub fn unknown_keys<'t>(alloc: Global, tree: &'t Tree) -> Result<Vec<FoundFault<'t>>, AllocError>
    ensures { IfOk result (λ found.
        Adds [] found.items (refused_at (unknown a_file [] (tree_view tree.entry.now)))) }
{
    let place = file(alloc)?;
    let mut found = Vec::new(alloc);
    add_unknown_keys(alloc, &place, &[], tree, &mut found)?;
    Ok(found)
}
