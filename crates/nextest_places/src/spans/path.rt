//! The paths of items.
ghost use Rattle.std.specs.Prelude.{◌≡◌, List, ◌∷◌, [], map, IfSome, Some};
ghost use Rattle.std.specs.Bool.{OnTrue};
ghost use Rattle.nextest_places.specs.Spans.Paths.{IsAtPath, IsEndedBy, LeadsTo, PathStep, inner_steps, key, own_steps, path_step, position};

use crate::spans::item::{Item, Role};
use crate::step::Step;

/// How many steps are before the last one of a path, if that is this key.
fn before_key(path: &[Step], name: &str) -> Option<usize>
    ensures { IfSome result (IsEndedBy path.now (key name.now ∷ [])) }
{
    let last = path.len().checked_sub(1)?;
    match path.get(last)? {
        Step::Key(step) if *step == name => Some(last),
        _ => None,
    }
}

/// How many are before it, if it is this position.
fn before_position(path: &[Step], index: usize) -> Option<usize>
    ensures { IfSome result (IsEndedBy path.now (position index ∷ [])) }
{
    let last = path.len().checked_sub(1)?;
    match path.get(last)? {
        Step::Position(step) if *step == index => Some(last),
        _ => None,
    }
}

/// How many steps of a path come before those to an item, if it ends with these.
fn before_own(role: &Role, path: &[Step]) -> Option<usize>
    ensures { IfSome result (λ n. (steps : List PathStep)
        × (own_steps role.now ≡ Some steps) × IsEndedBy path.now steps n) }
{
    match role {
        Role::Key { name, .. } => before_key(path, name.as_deref()?),
        Role::Value { position, .. } => match position {
            None => Some(path.len()),
            Some(position) => before_position(path, *position),
        },
    }
}

/// How many steps of a path come before those to what is inside an item, if it ends with these.
fn before_inner(role: &Role, path: &[Step]) -> Option<usize>
    ensures { IfSome result (λ n. (steps : List PathStep)
        × (inner_steps role.now ≡ Some steps) × IsEndedBy path.now steps n) }
{
    match role {
        Role::Key { name, element, .. } => {
            let name = name.as_deref()?;
            match element {
                None => before_key(path, name),
                Some(position) => before_element(path, name, *position),
            }
        }
        Role::Value { position, .. } => match position {
            None => Some(path.len()),
            Some(position) => before_position(path, *position),
        },
    }
}

/// How many steps of a path are before its last two, if these are a key and a position.
fn before_element(path: &[Step], name: &str, index: usize) -> Option<usize>
    ensures { IfSome result (IsEndedBy path.now (key name.now ∷ position index ∷ [])) }
{
    let list = before_position(path, index)?;
    before_key(&path[..list], name)
}

/// Whether a path leads to what is inside an item, or at the root.
fn leads_to(items: &[Item], parent: Option<usize>, path: &[Step]) -> bool
    ensures { OnTrue result (LeadsTo items.now parent (map path_step path.now)) }
{
    let mut base = parent;
    let mut left = path.len();
    'up: for _ in 0..items.len() {
        let Some(index) = base else {
            return left == 0;
        };
        let Some(item) = items.get(index) else {
            return false;
        };
        let Some(before) = before_inner(&item.role, &path[..left]) else {
            return false;
        };
        base = item.parent;
        left = before;
    }
    match base {
        None => left == 0,
        Some(_) => false,
    }
}

/// Whether an item is at a path.
pub(crate) fn is_at(items: &[Item], item: &Item, path: &[Step]) -> bool
    ensures { OnTrue result (IsAtPath items.now item.now (map path_step path.now)) }
{
    if let Some(left) = before_own(&item.role, path)
        && leads_to(items, item.parent, &path[..left])
    {
        return true;
    }
    match before_inner(&item.role, path) {
        Some(left) => leads_to(items, item.parent, &path[..left]),
        None => false,
    }
}
