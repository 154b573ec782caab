//! The groups of a page: changes that are the same for several tests.
ghost use Rattle.std.specs.Prelude.{IfOk};
ghost use Rattle.rinqebo_changes.specs.Classes.{class_items, HasHead};
ghost use Rattle.rinqebo_changes.specs.Groups.{AreGroups, IsGroup};

use crate::change::TestChanges;
use crate::classes::{Class, ClassRule, Item, classes_of, items_of};
use std::alloc::{AllocError, Global};

/// A change that is the same for several tests.
#[derive(Drop)]
pub struct Group<'c> {
    /// The change of one of them.
    pub head: Item<'c>,
    /// How many tests it has.
    pub count: usize,
    /// The changes of all of them, by binaries.
    pub binaries: Vec<Class<'c>>,
}

/// The group of a class.
fn group_of<'c>(alloc: Global, class: &Class<'c>) -> Result<Group<'c>, AllocError>
    requires { HasHead class.now }
    ensures { IfOk result (IsGroup (class_items class.now)) }
{
    Ok(Group {
        head: class.head,
        count: class.items.len(),
        binaries: classes_of(alloc, ClassRule::Binary, &class.items)?,
    })
}

/// The changes of tests in groups: in the order of the settings, and then of the first test of
/// each.
pub fn groups_of<'c>(alloc: Global, tests: &'c [TestChanges]) -> Result<Vec<Group<'c>>, AllocError>
    ensures { IfOk result (λ groups. AreGroups tests.now groups.items) }
{
    let items = items_of(alloc, tests)?;
    let classes = classes_of(alloc, ClassRule::Row, &items)?;
    let mut groups = Vec::new(alloc);
    for class in &classes {
        groups.push(group_of(alloc, class)?)?;
    }
    Ok(groups)
}
