//! Where what files write beside all profiles comes from.
ghost use Rattle.std.specs.Prelude.{◌≡◌, ◌∷◌, [], IfOk, MatchOption, map};
ghost use Rattle.std.specs.List.{AllZip};
ghost use Rattle.nextest_documents.specs.Layers.{IsHighest, Stands, keys_view};
ghost use Rattle.rinqebo_origins.specs.Origins.{key, step_view};
ghost use Rattle.rinqebo_origins.specs.Trees.{trees_of};
ghost use Rattle.rinqebo_object_origins.specs.ObjectOrigins.{AreOriginsBeside, IsOriginBeside};

use nextest_documents::layer_of;
use nextest_places::Step;
use rinqebo_origins::{built_in, trees_of};
use rinqebo_report::Origin;
use rinqebo_request::{Layer, path_place};
use std::alloc::{AllocError, Global};

/// The path of keys.
fn steps_to<'k>(alloc: Global, path: &[&'k str]) -> Result<Vec<Step<'k>>, AllocError>
    ensures { IfOk result (λ steps. map step_view steps.items ≡ map key (keys_view path.now)) }
{
    let mut steps = Vec::new(alloc);
    for name in path {
        steps.push(Step::Key(*name))?;
    }
    Ok(steps)
}

/// What the layer at a position writes at a path beside all profiles. The lowest layer is the
/// default table.
fn origin_beside(
    alloc: Global,
    layers: &[Layer],
    position: usize,
    path: &[&str],
) -> Result<Origin, AllocError>
    ensures { IfOk result (IsOriginBeside layers.now (keys_view path.now) position) }
{
    if position == 0 {
        return Ok(Origin::DefaultTable);
    }
    let steps = steps_to(alloc, path)?;
    Ok(Origin::File(path_place(layers, position, &steps)))
}

/// What the layer at a position writes at a path beside all profiles, alone.
fn written_beside(
    alloc: Global,
    layers: &[Layer],
    position: usize,
    path: &[&str],
) -> Result<Vec<Origin>, AllocError>
    ensures { IfOk result (λ origins. AllZip (IsOriginBeside layers.now (keys_view path.now))
        (position ∷ []) origins.items) }
{
    let mut origins = Vec::new(alloc);
    origins.push(origin_beside(alloc, layers, position, path)?)?;
    Ok(origins)
}

/// The position of the highest layer that writes something at a path.
fn writing_layer(
    alloc: Global,
    layers: &[Layer],
    path: &[&str],
) -> Result<Option<usize>, AllocError>
    ensures { let trees = trees_of layers.now in
        IfOk result (λ found. MatchOption found (¬ Stands trees (keys_view path.now))
        (IsHighest trees (keys_view path.now))) }
{
    let trees = trees_of(alloc, layers)?;
    let found = layer_of(&trees, path);
    Ok(found)
}

/// Where what files write at a path beside all profiles comes from: the highest layer that writes
/// something there.
pub fn origins_beside(
    alloc: Global,
    layers: &[Layer],
    path: &[&str],
) -> Result<Vec<Origin>, AllocError>
    ensures { IfOk result (λ origins.
        AreOriginsBeside layers.now (keys_view path.now) origins.items) }
{
    match writing_layer(alloc, layers, path)? {
        Some(position) => written_beside(alloc, layers, position, path),
        None => built_in(alloc),
    }
}
