//! Changes that are the same for several tests, put together.
ghost use Rattle.std.specs.Prelude.{◌≡◌, IfOk, MatchOption, [], filter, map, not};
ghost use Rattle.std.specs.List.{All};
ghost use Rattle.rinqebo_changes.specs.Classes.{same_item, same_row, item_view, items_of, class_items, AreClasses, HasHead, IsFirstLeast};

use crate::change::{RowChange, SideRow, TestChanges};
use crate::same::is_same_setting;
use crate::same_origin::are_same_origins;
use rinqebo_report::TestId;
use std::alloc::{AllocError, Global};

/// A setting of a test that changes.
#[derive(Clone, Copy)]
pub struct Item<'c> {
    /// The test.
    pub test: &'c TestId,
    /// The setting.
    pub row: &'c RowChange,
}

/// Changes that are put together.
#[derive(Drop)]
pub struct Class<'c> {
    /// One of them, with which all are put together.
    pub head: Item<'c>,
    /// All of them, in their order.
    pub items: Vec<Item<'c>>,
}

/// When changes are put together.
#[derive(Clone, Copy)]
pub enum ClassRule {
    /// The same setting changes from the same value and origins to the same value and origins.
    Row,
    /// The tests are of the same binary.
    Binary,
}

/// Whether two rows of a side have the same value from the same origins.
fn is_same_row(a: &SideRow, b: &SideRow) -> bool
    ensures { result ≡ same_row a.now b.now }
{
    is_same_setting(&a.row.value, &b.row.value)
        && a.is_ignored == b.is_ignored
        && are_same_origins(&a.row.origins, &b.row.origins)
}

impl ClassRule {
    /// Whether two changes are put together.
    fn is_same(self, a: &Item<'_>, b: &Item<'_>) -> bool
        ensures { result ≡ same_item self a.now b.now }
    {
        match self {
            ClassRule::Row => {
                a.row.place == b.row.place
                    && is_same_row(&a.row.from, &b.row.from)
                    && is_same_row(&a.row.to, &b.row.to)
            }
            ClassRule::Binary => a.test.binary.as_str() == b.test.binary.as_str(),
        }
    }
}

/// The changes of tests, one after another, in the order of the tests and of their settings.
pub fn items_of<'c>(alloc: Global, tests: &'c [TestChanges]) -> Result<Vec<Item<'c>>, AllocError>
    ensures { IfOk result (λ items. map item_view items.items ≡ items_of tests.now) }
{
    let mut items = Vec::new(alloc);
    for test in tests {
        for row in &test.rows {
            items.push(Item {
                test: &test.test,
                row,
            })?;
        }
    }
    Ok(items)
}

/// The first of those changes whose setting comes first.
fn first_of<'c>(items: &[Item<'c>]) -> Option<Item<'c>>
    ensures { MatchOption result (items.now ≡ []) (IsFirstLeast items.now) }
{
    let mut first = *items.first()?;
    for item in items {
        if item.row.place < first.row.place {
            first = *item;
        }
    }
    Some(first)
}

/// The changes that are put together with one.
fn together_with<'c>(
    alloc: Global,
    rule: ClassRule,
    head: &Item<'c>,
    items: &[Item<'c>],
) -> Result<Vec<Item<'c>>, AllocError>
    ensures { IfOk result (λ class. class.items ≡ filter (same_item rule head.now) items.now) }
{
    items
        .iter()
        .copied()
        .filter(|item| rule.is_same(head, item))
        .collect(alloc)
}

/// The changes that are not put together with one.
fn apart_from<'c>(
    alloc: Global,
    rule: ClassRule,
    head: &Item<'c>,
    items: &[Item<'c>],
) -> Result<Vec<Item<'c>>, AllocError>
    ensures { IfOk result (λ class. class.items
        ≡ filter (λ item. not (same_item rule head.now item)) items.now) }
{
    items
        .iter()
        .copied()
        .filter(|item| !rule.is_same(head, item))
        .collect(alloc)
}

/// Changes, put together: in the order of the settings, and then of the first test of each class.
pub fn classes_of<'c>(
    alloc: Global,
    rule: ClassRule,
    items: &[Item<'c>],
) -> Result<Vec<Class<'c>>, AllocError>
    ensures classes { IfOk result (λ classes. AreClasses (same_item rule) items.now
        (map class_items classes.items)) }
    ensures heads { IfOk result (λ classes. All HasHead classes.items) }
{
    let mut classes = Vec::new(alloc);
    let mut rest: Vec<Item<'c>> = Vec::from_slice(alloc, items)?;
    while let Some(head) = first_of(&rest) {
        let others = apart_from(alloc, rule, &head, &rest)?;
        let items = together_with(alloc, rule, &head, &rest)?;
        classes.push(Class { head, items })?;
        rest = others;
    }
    Ok(classes)
}
