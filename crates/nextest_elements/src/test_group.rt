//! Groups of tests.
ghost use Rattle.std.specs.Prelude.{◌≡◌, List, Option, ℕ, Some};
ghost use Rattle.nextest_tree.specs.Schema.{FaultCause};
ghost use Rattle.nextest_tree.specs.Leaf.{Spells};
ghost use Rattle.nextest_tree.specs.Reads.{InTable};
ghost use Rattle.nextest_elements.specs.IdentifierReader.{identifier_cause, an_identifier};
ghost use Rattle.nextest_elements.specs.TestGroup.{custom_group_text, IsCustomGroup, group_text, test_group_at, a_test_group, group_fields, IsGroupTable, group_config};

use crate::identifier::ConfigIdentifier;
use crate::test_threads::TestThreads;
use nextest_tree::{
    Element, ElementCause, ElementFault, Key, Name, Record, Tree, Walk, read_record, required,
};
use std::alloc::{AllocError, Global};
use std::collections::BTreeMap;
use std::fmt;

/// A group of tests that a configuration defines. It is compared, ordered and hashed as its text.
#[derive(Debug, Drop, PartialEq, Eq, PartialOrd, Ord, Hash)]
pub struct CustomTestGroup(pub ConfigIdentifier);

/// The group that a test belongs to.
#[derive(Debug, Drop, PartialEq, Eq)]
pub enum TestGroup {
    /// The group of all tests that have no other.
    Global,
    /// A group that a configuration defines.
    Custom(CustomTestGroup),
}

/// What a configuration says of a group.
#[derive(Clone, Copy, Debug, PartialEq, Eq)]
pub struct TestGroupConfig {
    /// How many tests of the group run at a time.
    pub max_threads: TestThreads,
}

impl CustomTestGroup {
    ghost use Rattle.nextest_elements.specs.IdentifierText.{identifier_text};

    /// The identifier of the group.
    pub fn as_identifier(&self) -> &ConfigIdentifier
        ensures { identifier_text result.now ≡ custom_group_text self.now }
    {
        &self.0
    }

    /// The text of the group.
    pub fn as_str(&self) -> &str
        ensures { result.now ≡ custom_group_text self.now }
    {
        self.0.as_str()
    }
}

impl TestGroup {
    /// The text of the global group.
    pub const GLOBAL_STR: &'static str = "@global";

    /// The text of the group.
    #[tactic(auto, unfolding(crate::specs::TestGroup::global_text))]
    pub fn as_str(&self) -> &str
        ensures { result.now ≡ group_text self.now }
    {
        match self {
            TestGroup::Global => TestGroup::GLOBAL_STR,
            TestGroup::Custom(group) => group.as_str(),
        }
    }
}

impl Clone for CustomTestGroup {
    ghost is_clone = { λ group copy. copy ≡ group };

    fn clone(&self) -> Result<Self, AllocError> {
        Ok(CustomTestGroup(self.0.clone()?))
    }
}

impl Clone for TestGroup {
    ghost is_clone = { λ group copy. copy ≡ group };

    fn clone(&self) -> Result<Self, AllocError> {
        match self {
            TestGroup::Global => Ok(TestGroup::Global),
            TestGroup::Custom(group) => Ok(TestGroup::Custom(group.clone()?)),
        }
    }
}

impl fmt::Display for CustomTestGroup {
    ghost output = { λ group. Some (custom_group_text group) };

    fn fmt<W: fmt::Write>(&self, f: &mut fmt::Formatter<W>) -> fmt::Result {
        f.write_str(self.as_str())
    }
}

impl fmt::Display for TestGroup {
    ghost output = { λ group. Some (group_text group) };

    fn fmt<W: fmt::Write>(&self, f: &mut fmt::Formatter<W>) -> fmt::Result {
        f.write_str(self.as_str())
    }
}

impl Element for CustomTestGroup {
    ghost schema = { an_identifier };

    ghost is_value = { IsCustomGroup };

    fn read(alloc: Global, tree: &Tree, walk: &mut Walk) -> Result<Self, ElementFault> {
        let identifier = ConfigIdentifier::read(alloc, tree, walk)?;
        Ok(CustomTestGroup(identifier))
    }
}

impl Name for CustomTestGroup {
    ghost use Rattle.std.proofs.Common.{rules};

    ghost test = { identifier_cause };

    ghost text = { custom_group_text };

    fn read_name(alloc: Global, key: &str, walk: &Walk) -> Result<Self, ElementFault> {
        let identifier = ConfigIdentifier::read_name(alloc, key, walk)?;
        Ok(CustomTestGroup(identifier))
    }

    ghost ordered = { λ a b. Prim.search rules };
}

#[tactic(auto, unfolding(nextest_tree::specs::Reads::reading, nextest_tree::specs::Reads::walk_view, crate::specs::TestGroup::a_test_group, crate::specs::TestGroup::global_text, crate::specs::IdentifierReader::an_identifier))]
impl Element for TestGroup {
    ghost schema = { a_test_group };

    ghost is_value = { Spells test_group_at };

    fn read(alloc: Global, tree: &Tree, walk: &mut Walk) -> Result<Self, ElementFault> {
        match tree {
            Tree::Text(text) if text.as_str() == TestGroup::GLOBAL_STR => Ok(TestGroup::Global),
            _ => {
                let group = CustomTestGroup::read(alloc, tree, walk)?;
                Ok(TestGroup::Custom(group))
            }
        }
    }
}

#[tactic(auto, using(nextest_tree::proofs::Reading::leaf_read))]
impl Record for TestGroupConfig {
    ghost fields = { group_fields };

    ghost is_record = { IsGroupTable };

    fn keys() -> &'static [Key] {
        &[Key::MaxThreads]
    }

    fn read_fields(
        alloc: Global,
        members: &BTreeMap<String, Tree>,
        walk: &mut Walk,
    ) -> Result<Self, ElementFault> {
        let max_threads = required(alloc, members, Key::MaxThreads, walk)?;
        Ok(TestGroupConfig { max_threads })
    }
}

#[tactic(auto, unfolding(nextest_tree::specs::Reads::reading, nextest_tree::specs::Reads::walk_view))]
impl Element for TestGroupConfig {
    ghost schema = { group_config };

    ghost is_value = { InTable IsGroupTable };

    fn read(alloc: Global, tree: &Tree, walk: &mut Walk) -> Result<Self, ElementFault> {
        match tree {
            Tree::Table(members) => read_record(alloc, members, walk),
            _ => Err(walk.fault(alloc, ElementCause::WrongKind)),
        }
    }
}
