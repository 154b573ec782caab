//! Fields that are read as empty where they are absent.
ghost use Rattle.std.specs.Prelude.{IfOk, false};
ghost use Rattle.nextest_tables.specs.Values.{nodes_at, nodes_under};
ghost use Rattle.nextest_tree.specs.Node as Node;
ghost use Rattle.nextest_tree.specs.Reads.{Gives, IsList, IsMap, reading_field, walk_view};
ghost use Rattle.nextest_tree.specs.Schema.{list_of, map_of};
ghost use Rattle.nextest_tree.specs.View.{entries_view};

use nextest_tree::{Element, ElementFault, Key, Name, Tree, Walk, optional};
use std::alloc::Global;
use std::collections::BTreeMap;

/// The items of a list, none where it is absent.
#[tactic(auto, using(crate::proofs::FieldValues::list_there, crate::proofs::FieldValues::list_absent))]
pub(crate) fn list_at<T: Element>(
    alloc: Global,
    members: &BTreeMap<String, Tree>,
    key: Key,
    walk: &mut Walk,
) -> Result<Vec<T>, ElementFault>
    ensures value { IfOk result (λ items. IsList T.is_value
        (nodes_at key (entries_view members.now.entries)) items.items) }
    ensures reads { Gives result walk.new (reading_field key false (list_of T.schema)
        (entries_view members.now.entries) (walk_view walk.old)) }
{
    match optional::<Vec<T>>(alloc, members, key, walk)? {
        Some(items) => Ok(items),
        None => Ok(Vec::new(alloc)),
    }
}

/// The entries of a map, none where it is absent.
#[tactic(auto, using(crate::proofs::FieldValues::map_there, crate::proofs::FieldValues::map_absent))]
pub(crate) fn map_at<K: Name, T: Element>(
    alloc: Global,
    members: &BTreeMap<String, Tree>,
    key: Key,
    walk: &mut Walk,
) -> Result<BTreeMap<K, T>, ElementFault>
    ensures value { IfOk result (λ values. IsMap K.text T.is_value
        (nodes_under key (entries_view members.now.entries)) values.entries) }
    ensures reads { Gives result walk.new (reading_field key false (map_of K.test T.schema)
        (entries_view members.now.entries) (walk_view walk.old)) }
{
    match optional::<BTreeMap<K, T>>(alloc, members, key, walk)? {
        Some(values) => Ok(values),
        None => Ok(BTreeMap::new(alloc)),
    }
}
