//! The groups that tests belong to, found out once for all tests.
ghost use Rattle.std.specs.Prelude.{◌≡◌, ◌++◌, ◌&&◌, ℕ, List, IfOk, OnOk, map, option_map, option_and_then, None, Some, if◌then◌else◌};
ghost use Rattle.std.specs.Option.{option_or};
ghost use Rattle.std.specs.Str.{bytes_eq};
ghost use Rattle.nextest_elements.specs.TestGroup.{group_text};
ghost use Rattle.nextest_elements.specs.declared.test_group.CustomTestGroup.{CustomTestGroup};
ghost use Rattle.nextest_elements.specs.declared.test_group.TestGroup.{TestGroup};
ghost use Rattle.nextest_elements.specs.declared.test_group.TestGroup.TheVariants.{Custom};
ghost use Rattle.nextest_engines.specs.Engines.{test_view};
ghost use Rattle.nextest_settings.specs.GroupView.{custom_group_in, membership_group};
ghost use Rattle.nextest_settings.specs.Queries.{custom_group, custom_group_by, is_of_name, last_group};
ghost use Rattle.nextest_settings.specs.SettingsView.{slot_at};
ghost use Rattle.nextest_settings.specs.View.{meant_override};
ghost use Rattle.nextest_elements.specs.declared.setting.Setting.{Setting};
ghost use Rattle.nextest_tables.specs.View.{settings_view};

use crate::evaluated::EvaluatedRules;
use crate::pass::winners;
use nextest_elements::{CustomTestGroup, NextestRunMode, Setting, TestGroup};
use nextest_engines::{EvalContext, Filters, NameMatcher, Specs, Tally, TestQuery};
use nextest_tables::OverrideSettings;
use std::alloc::{AllocError, Global};
use std::collections::BTreeMap;
use std::fmt;

/// Looks up the groups of tests.
pub trait GroupLookup {
    /// The group of the test of a binary and a name.
    ghost group: { Self → (binary_id name : List ℕ) → TestGroup };

    /// Whether the group of a test is among those whose names match.
    fn is_member_test<N: NameMatcher>(&self, test: &TestQuery<'_>, matcher: &N) -> bool
        ensures { result ≡ N.accepts matcher.now (group_text (group self.now
            test.now.binary_query.binary_id.now test.now.test_name.now)) };
}

/// The groups of tests, found out once: a test that has no entry here is in the global group.
#[derive(Drop)]
pub struct PrecomputedGroupMembership {
    /// By the ids of binaries, and then by the names of tests.
    groups: BTreeMap<String, BTreeMap<String, CustomTestGroup>>,
}

impl PrecomputedGroupMembership {
    /// No test is in a group of its own.
    pub fn empty(alloc: Global) -> PrecomputedGroupMembership
        ensures { (binary_id name : List ℕ) → custom_group_in result binary_id name ≡ None }
    {
        PrecomputedGroupMembership {
            groups: BTreeMap::new(alloc),
        }
    }

    /// Puts the test of a binary and a name into a group.
    fn insert(
        &mut self,
        alloc: Global,
        binary_id: &str,
        name: &str,
        group: CustomTestGroup,
    ) -> Result<(), AllocError>
        ensures { OnOk result ((id test : List ℕ) → custom_group_in self.new id test
            ≡ (if bytes_eq binary_id.now id && bytes_eq name.now test then Some group
            else custom_group_in self.old id test)) }
    {
        let binary_key = String::from_str(alloc, binary_id)?;
        let key = String::from_str(alloc, name)?;
        let mut tests = match self.groups.remove(binary_id) {
            Some(tests) => tests,
            None => BTreeMap::new(alloc),
        };
        tests.insert(key, group)?;
        self.groups.insert(binary_key, tests)?;
        Ok(())
    }

    /// Puts a test into a group, if there is one.
    fn note(
        &mut self,
        alloc: Global,
        query: &TestQuery<'_>,
        group: Option<&CustomTestGroup>,
    ) -> Result<(), AllocError>
        ensures { OnOk result ((id test : List ℕ)
            → option_map Custom (custom_group_in self.new id test)
            ≡ (if is_of_name id test (test_view query.now)
            then option_or (option_map (λ group. Custom group.now) group.entry)
            (option_map Custom (custom_group_in self.old id test))
            else option_map Custom (custom_group_in self.old id test))) }
    {
        match group {
            Some(group) => self.insert(
                alloc,
                query.binary_query.binary_id,
                query.test_name,
                group.clone()?,
            ),
            None => Ok(()),
        }
    }

    /// The group of its own that a test has, if it has one.
    fn get(&self, binary_id: &str, name: &str) -> Option<&CustomTestGroup>
        ensures { option_map (λ group. group.now) result
            ≡ custom_group_in self.now binary_id.now name.now }
    {
        match self.groups.get(binary_id) {
            Some(tests) => tests.get(name),
            None => None,
        }
    }
}

impl fmt::Debug for PrecomputedGroupMembership {
    fn fmt<W: fmt::Write>(&self, f: &mut fmt::Formatter<W>) -> fmt::Result {
        let mut count = 0_usize;
        for (_binary_id, tests) in self.groups.iter() {
            count = count.saturating_add(tests.len());
        }
        write!(
            f,
            "PrecomputedGroupMembership {{ num_assignments: {count} }}"
        )
    }
}

impl GroupLookup for PrecomputedGroupMembership {
    ghost group = { membership_group };

    fn is_member_test<N: NameMatcher>(&self, test: &TestQuery<'_>, matcher: &N) -> bool {
        let global = TestGroup::Global;
        match self.get(test.binary_query.binary_id, test.test_name) {
            Some(group) => matcher.is_match(group.as_str()),
            None => matcher.is_match(global.as_str()),
        }
    }
}

/// What the slot of the group holds.
fn group_slot<R: Copy>(slots: &[Option<R>]) -> Option<R>
    ensures { result ≡ slot_at slots.now Setting.TestGroup }
{
    slots.get(Setting::TestGroup as usize).copied().flatten()
}

/// The custom group that an override writes, if it writes one.
fn written_group(settings: &OverrideSettings) -> Option<&CustomTestGroup>
    ensures { option_map (λ group. Custom group.now) result
        ≡ option_and_then custom_group (settings_view settings.now).test_group }
{
    match &settings.outputs.test_group {
        Some(TestGroup::Custom(group)) => Some(group),
        _ => None,
    }
}

impl<'cfg, F: Filters, S: Specs> EvaluatedRules<'cfg, F, S> {
    /// The custom group that a test gets in test mode.
    fn custom_group(
        &self,
        query: &TestQuery<'_>,
        cx: &EvalContext<'_, F::Expr>,
        tally: &mut F::Tally,
    ) -> Option<&'cfg CustomTestGroup>
        ensures group { option_map (λ group. Custom group.now) result
            ≡ custom_group_by F.holds (F.meaning cx.now.default_filter.now)
            (map (meant_override F.meaning) self.now.overrides.items) (test_view query.now) }
        ensures tally { (added : List ℕ)
            × (F.Tally.numbers tally.new ≡ F.Tally.numbers tally.old ++ added) }
    {
        let mode = NextestRunMode::Test;
        let rows = self.override_rows(query.binary_query.platform, mode);
        let winners = winners(&self.overrides, rows, mode, query, cx, tally);
        match group_slot(&winners[..]) {
            Some(rule) => written_group(rule.rule.settings()),
            None => None,
        }
    }

    /// The groups of tests: that of a name is the custom group of the last of the tests of that
    /// name which gets one.
    pub fn precompute_group_memberships(
        &self,
        alloc: Global,
        queries: &[TestQuery<'_>],
        tally: &mut F::Tally,
    ) -> Result<PrecomputedGroupMembership, AllocError>
        ensures groups { IfOk result (λ found. (binary_id name : List ℕ)
            → membership_group found binary_id name ≡ last_group
            (custom_group_by F.holds (F.meaning self.now.default_filter.expr.now)
            (map (meant_override F.meaning) self.now.overrides.items))
            (map test_view queries.now) binary_id name) }
        ensures tally { (added : List ℕ)
            × (F.Tally.numbers tally.new ≡ F.Tally.numbers tally.old ++ added) }
    {
        let cx = EvalContext {
            default_filter: self.default_filter.expr,
        };
        let mut found = PrecomputedGroupMembership::empty(alloc);
        for query in queries {
            let group = self.custom_group(query, &cx, tally);
            found.note(alloc, query, group)?;
        }
        Ok(found)
    }
}
