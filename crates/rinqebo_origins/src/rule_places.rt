//! Where rules are.
ghost use Rattle.std.specs.Prelude.{◌≡◌, ◌++◌, [], ◌∷◌, ℕ, List, Option, IfOk, MatchOption, map, option_map};
ghost use Rattle.std.specs.List.{AllZip};
ghost use Rattle.nextest_rules.specs.View.{id_view, script_rule_id_view};
ghost use Rattle.nextest_sources.specs.Sources.{source_view};
ghost use Rattle.nextest_tree.specs.View.{tree_view};
ghost use Rattle.rinqebo_request.specs.Files.Origins.{HasNoFile, IsFileAt};
ghost use Rattle.rinqebo_request.specs.Files.RuleTables.{rule_in};
ghost use Rattle.rinqebo_origins.specs.Origins.{PathStep, IsOriginOf, key_steps, profile_steps, step_view};
ghost use Rattle.rinqebo_origins.specs.RulePlaces.{list_of, part_of, place_view, id_place, script_place};

use nextest_places::Step;
use nextest_rules::{OverrideId, ScriptRuleId};
use nextest_sources::ConfigSource;
use nextest_tree::Tree;
use rinqebo_keys::SettingKey;
use rinqebo_report::{Origin, Part, Written};
use rinqebo_request::{Layer, path_place, place_of, rule_at};
use std::alloc::{AllocError, Global};

/// The kinds of rules.
#[derive(Clone, Copy, PartialEq, Eq)]
pub enum RuleKind {
    /// An override.
    Override,
    /// A script rule.
    Script,
}

impl RuleKind {
    /// The list of a profile that has rules of this kind.
    fn list(self) -> &'static str
        ensures { result.now ≡ list_of self }
    {
        match self {
            RuleKind::Override => "overrides",
            RuleKind::Script => "scripts",
        }
    }

    /// The rule of this kind at a position.
    fn part(self, index: usize) -> Part
        ensures { result ≡ part_of self index }
    {
        match self {
            RuleKind::Override => Part::Override(index),
            RuleKind::Script => Part::Script(index),
        }
    }
}

/// Where a rule is.
#[derive(Clone, Copy)]
pub struct RulePlace<'c> {
    /// The source whose file has it.
    pub source: &'c ConfigSource,
    /// The profile under which it is.
    pub profile: &'c str,
    /// Its kind.
    pub kind: RuleKind,
    /// Its position among the rules of its kind of that profile in that file.
    pub index: usize,
}

/// The path of a setting in the table of a profile or of a rule, from that table's path on.
pub(crate) fn setting_path<'s>(
    alloc: Global,
    table: &[Step<'s>],
    key: SettingKey,
) -> Result<Vec<Step<'s>>, AllocError>
    ensures { IfOk result (λ path. map step_view path.items ≡ map step_view table.now
        ++ key_steps (option_map (λ table. table.now) key.table) key.key.now) }
{
    let mut path = Vec::from_slice(alloc, table)?;
    if let Some(name) = key.table {
        path.push(Step::Key(name))?;
    }
    path.push(Step::Key(key.key))?;
    Ok(path)
}

impl<'c> RulePlace<'c> {
    /// Where an override is.
    pub fn of_override(id: &'c OverrideId) -> RulePlace<'c>
        ensures { place_view result ≡ id_place (id_view id.now) }
    {
        RulePlace {
            source: &id.config_source,
            profile: id.profile_name.as_str(),
            kind: RuleKind::Override,
            index: id.index,
        }
    }

    /// Where a script rule is.
    pub fn of_script(id: &'c ScriptRuleId) -> RulePlace<'c>
        ensures { place_view result ≡ script_place (script_rule_id_view id.now) }
    {
        RulePlace {
            source: &id.config_source,
            profile: id.profile_name.as_str(),
            kind: RuleKind::Script,
            index: id.index,
        }
    }

    /// The path of the rule.
    fn path(&self) -> [Step<'c>; 4]
        ensures { let place = place_view self.now in
            map step_view result ≡ profile_steps place.profile place.part }
    {
        [
            Step::Key("profile"),
            Step::Key(self.profile),
            Step::Key(self.kind.list()),
            Step::Position(self.index),
        ]
    }

    /// What is at a path within the rule, as a report shows it.
    fn origin_at(
        &self,
        alloc: Global,
        layers: &[Layer],
        path: &[Step],
    ) -> Result<Origin, AllocError>
        ensures { (rest : List PathStep) → (let place = place_view self.now in
            map step_view path.now ≡ profile_steps place.profile place.part ++ rest)
            → IfOk result (IsOriginOf layers.now (place_view self.now) rest) }
    {
        let Some(position) = place_of(layers, self.source) else {
            return Ok(Origin::BuiltIn);
        };
        Ok(Origin::Written(Written {
            place: path_place(layers, position, path),
            profile: String::from_str(alloc, self.profile)?,
            part: self.kind.part(self.index),
        }))
    }

    /// The rule, as it is reported.
    pub fn origin(&self, alloc: Global, layers: &[Layer]) -> Result<Origin, AllocError>
        ensures { IfOk result (IsOriginOf layers.now (place_view self.now) []) }
    {
        self.origin_at(alloc, layers, &self.path())
    }

    /// Where the rule writes what is at a key.
    pub fn origin_at_key(
        &self,
        alloc: Global,
        layers: &[Layer],
        key: SettingKey,
    ) -> Result<Origin, AllocError>
        ensures { let rest = key_steps (option_map (λ table. table.now) key.table) key.key.now in
            IfOk result (IsOriginOf layers.now (place_view self.now) rest) }
    {
        let path = setting_path(alloc, &self.path(), key)?;
        self.origin_at(alloc, layers, &path)
    }

    /// Where the rule writes a setting.
    pub fn origins_at_key(
        &self,
        alloc: Global,
        layers: &[Layer],
        key: SettingKey,
    ) -> Result<Vec<Origin>, AllocError>
        ensures { let rest = key_steps (option_map (λ table. table.now) key.table) key.key.now in
            IfOk result (λ origins. AllZip (λ place origin. IsOriginOf layers.now place rest origin)
            (place_view self.now ∷ []) origins.items) }
    {
        let mut origins = Vec::new(alloc);
        origins.push(self.origin_at_key(alloc, layers, key)?)?;
        Ok(origins)
    }

    /// The table of the rule in its file.
    pub fn table<'l>(&self, layers: &'l [Layer]) -> Option<&'l Tree>
        ensures { (position : Option ℕ) × MatchOption position
            (HasNoFile layers.now (source_view self.now.source.now))
            (IsFileAt layers.now (source_view self.now.source.now))
            × (option_map (λ tree. tree_view tree.now) result
            ≡ rule_in layers.now position self.now.profile.now (list_of self.now.kind)
            self.now.index) }
    {
        let place = place_of(layers, self.source);
        rule_at(layers, place, self.profile, self.kind.list(), self.index)
    }
}
