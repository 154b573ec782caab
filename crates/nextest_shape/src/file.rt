//! The shape of a whole file.
ghost use Rattle.std.specs.Prelude.{◌≡◌, IfOk};
ghost use Rattle.nextest_shape.specs.FileForm.{by_identifier, group_form, store_form, file_form};
ghost use Rattle.nextest_shape.specs.View.{shape_view};

use crate::parts::{map_by, optional, required, text};
use crate::profile::profiles;
use crate::scripts::{scripts, setup_script};
use crate::shape::{Pattern, Shape};
use crate::values::test_threads;
use nextest_tree::Key;
use std::alloc::{AllocError, Global};

/// The groups of tests, by their identifiers.
fn groups(alloc: Global) -> Result<Shape, AllocError>
    ensures { IfOk result (λ shape. shape_view shape ≡ by_identifier group_form) }
{
    let threads = test_threads(alloc)?;
    let group = Shape::Table(vec![in alloc; required(Key::MaxThreads, threads)]?);
    map_by(alloc, Pattern::Identifier, group)
}

/// The store.
fn store(alloc: Global) -> Result<Shape, AllocError>
    ensures { IfOk result (λ shape. shape_view shape ≡ store_form) }
{
    Ok(Shape::Table(vec![in alloc; optional(Key::Dir, text())]?))
}

/// The shape of a configuration file, over the table of defaults: nothing that this writes has to
/// appear in a file.
#[tactic(auto, unfolding(crate::specs::FileForm::file_form))]
pub fn file_shape(alloc: Global) -> Result<Shape, AllocError>
    ensures { IfOk result (λ shape. shape_view shape ≡ file_form) }
{
    let store = store(alloc)?;
    let groups = groups(alloc)?;
    let script = map_by(alloc, Pattern::Identifier, setup_script(alloc)?)?;
    let scripts = scripts(alloc)?;
    let profiles = profiles(alloc)?;
    Ok(Shape::Table(vec![in alloc;
        optional(Key::Store, store),
        optional(Key::NextestVersion, Shape::Anything),
        optional(Key::Experimental, Shape::Anything),
        optional(Key::TestGroups, groups),
        optional(Key::Script, script),
        optional(Key::Scripts, scripts),
        optional(Key::Profile, profiles),
    ]?))
}
