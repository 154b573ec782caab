//! The table of a whole file.
ghost use Rattle.std.specs.Prelude.{◌≡◌, IfOk, List};
ghost use Rattle.nextest_tree.specs.Node.{Node};
ghost use Rattle.nextest_tree.specs.Reads.{Gives, InTable, walk_view, reading};
ghost use Rattle.nextest_tree.specs.View.{tree_view};
ghost use Rattle.nextest_tables.specs.Complete.{HasCompleteDefault, IsMergedTree};
ghost use Rattle.nextest_tables.specs.FileTexts.{file_text};
ghost use Rattle.nextest_tables.specs.Scripts.{AreFileScripts, file_scripts_view};
ghost use Rattle.nextest_tables.specs.Values.{AreScripts, IsFile, IsStore};
ghost use Rattle.nextest_tables.specs.Tables.{a_file, a_scripts_table, a_store, file_fields, scripts_fields, store_fields};
ghost use Rattle.nextest_tables.specs.View.{file_table_view};

use crate::fields::map_at;
use crate::profile_table::ProfileTable;
use nextest_elements::{CustomTestGroup, TestGroupConfig};
use nextest_scripts::{ScriptId, SetupScriptConfig, WrapperScriptConfig};
use nextest_tree::{
    Element, ElementFault, Ignored, Key, Record, Tree, Walk, optional, read_table, required,
};
use std::alloc::Global;
use std::collections::BTreeMap;

/// The scripts under `scripts`.
#[derive(Drop)]
pub struct ScriptsTable {
    /// The setup scripts, by id.
    pub setup: BTreeMap<ScriptId, SetupScriptConfig>,
    /// The wrapper scripts, by id.
    pub wrapper: BTreeMap<ScriptId, WrapperScriptConfig>,
}

/// A file as it is written.
#[derive(Drop)]
pub struct FileTable {
    /// The directory where a run keeps what it stores.
    pub store_dir: String,
    /// The groups that it defines, by name.
    pub test_groups: BTreeMap<CustomTestGroup, TestGroupConfig>,
    /// The setup scripts under the old key `script`, by id.
    pub script: BTreeMap<ScriptId, SetupScriptConfig>,
    /// The scripts under `scripts`.
    pub scripts: ScriptsTable,
    /// Its profiles, by name.
    pub profiles: BTreeMap<String, ProfileTable>,
}

/// The store: the directory where a run keeps what it stores.
#[derive(Drop)]
struct StoreTable {
    dir: String,
}

impl Record for StoreTable {
    ghost fields = { store_fields };

    ghost is_record = { IsStore };

    fn keys() -> &'static [Key] {
        &[Key::Dir]
    }

    fn read_fields(
        alloc: Global,
        members: &BTreeMap<String, Tree>,
        walk: &mut Walk,
    ) -> Result<Self, ElementFault> {
        let dir = required(alloc, members, Key::Dir, walk)?;
        Ok(StoreTable { dir })
    }
}

#[tactic(auto, unfolding(crate::specs::Tables::a_store))]
impl Element for StoreTable {
    ghost schema = { a_store };

    ghost is_value = { InTable IsStore };

    fn read(alloc: Global, tree: &Tree, walk: &mut Walk) -> Result<Self, ElementFault> {
        read_table(alloc, tree, walk)
    }
}

impl Record for ScriptsTable {
    ghost fields = { scripts_fields };

    ghost is_record = { AreScripts };

    fn keys() -> &'static [Key] {
        &[Key::Setup, Key::Wrapper]
    }

    fn read_fields(
        alloc: Global,
        members: &BTreeMap<String, Tree>,
        walk: &mut Walk,
    ) -> Result<Self, ElementFault> {
        let setup = map_at(alloc, members, Key::Setup, walk)?;
        let wrapper = map_at(alloc, members, Key::Wrapper, walk)?;
        Ok(ScriptsTable { setup, wrapper })
    }
}

#[tactic(auto, unfolding(crate::specs::Tables::a_scripts_table))]
impl Element for ScriptsTable {
    ghost schema = { a_scripts_table };

    ghost is_value = { InTable AreScripts };

    fn read(alloc: Global, tree: &Tree, walk: &mut Walk) -> Result<Self, ElementFault> {
        read_table(alloc, tree, walk)
    }
}

impl ScriptsTable {
    ghost use Rattle.std.specs.Prelude.{IfOk, false};
    ghost use Rattle.nextest_tree.specs.declared.key.Key.TheVariants as keys;
    ghost use Rattle.nextest_tree.specs.Reads.{Gives, reading_field, walk_view};
    ghost use Rattle.nextest_tree.specs.View.{entries_view};
    ghost use Rattle.nextest_tables.specs.Values.{nodes_under};

    /// The scripts of a file under `scripts`, none where it has no such table.
    #[tactic(auto, using(crate::proofs::FieldValues::scripts_there, crate::proofs::FieldValues::scripts_absent))]
    fn at(
        alloc: Global,
        members: &BTreeMap<String, Tree>,
        walk: &mut Walk,
    ) -> Result<ScriptsTable, ElementFault>
        ensures value { IfOk result
            (AreScripts (nodes_under keys.Scripts (entries_view members.now.entries))) }
        ensures reads { Gives result walk.new (reading_field keys.Scripts false a_scripts_table
            (entries_view members.now.entries) (walk_view walk.old)) }
    {
        match optional(alloc, members, Key::Scripts, walk)? {
            Some(scripts) => Ok(scripts),
            None => Ok(ScriptsTable {
                setup: BTreeMap::new(alloc),
                wrapper: BTreeMap::new(alloc),
            }),
        }
    }
}

#[tactic(auto, using(crate::proofs::FieldValues::store_there, crate::proofs::FieldValues::map_there))]
impl Record for FileTable {
    ghost fields = { file_fields };

    ghost is_record = { IsFile };

    fn keys() -> &'static [Key] {
        &[
            Key::Store,
            Key::NextestVersion,
            Key::Experimental,
            Key::TestGroups,
            Key::Script,
            Key::Scripts,
            Key::Profile,
        ]
    }

    fn read_fields(
        alloc: Global,
        members: &BTreeMap<String, Tree>,
        walk: &mut Walk,
    ) -> Result<Self, ElementFault> {
        let StoreTable { dir } = required(alloc, members, Key::Store, walk)?;
        let _version: Option<Ignored> = optional(alloc, members, Key::NextestVersion, walk)?;
        let _features: Option<Ignored> = optional(alloc, members, Key::Experimental, walk)?;
        let test_groups = map_at(alloc, members, Key::TestGroups, walk)?;
        let script = map_at(alloc, members, Key::Script, walk)?;
        let scripts = ScriptsTable::at(alloc, members, walk)?;
        let profiles = required(alloc, members, Key::Profile, walk)?;
        Ok(FileTable {
            store_dir: dir,
            test_groups,
            script,
            scripts,
            profiles,
        })
    }
}

#[tactic(auto, unfolding(crate::specs::Tables::a_file))]
impl Element for FileTable {
    ghost schema = { a_file };

    ghost is_value = { InTable IsFile };

    fn read(alloc: Global, tree: &Tree, walk: &mut Walk) -> Result<Self, ElementFault> {
        read_table(alloc, tree, walk)
    }
}

/// Reads a whole file: what it writes, or its first fault. The walk notes its unknown keys.
///
/// Files are read over the defaults. So the profile `default` writes every field but the path of
/// its report: a file can replace what the defaults write, and takes nothing away.
pub fn read_file(alloc: Global, tree: &Tree, walk: &mut Walk) -> Result<FileTable, ElementFault>
    ensures value { IfOk result (λ table. file_table_view table ≡ file_text (tree_view tree.now)) }
    ensures scripts { IfOk result
        (λ table. AreFileScripts (tree_view tree.now) (file_scripts_view table)) }
    ensures complete { (files : List Node) → IsMergedTree files (tree_view tree.now)
        → IfOk result (λ table. HasCompleteDefault (file_table_view table)) }
    ensures reads { Gives result walk.new
        (reading a_file (tree_view tree.now) (walk_view walk.old)) }
{
    FileTable::read(alloc, tree, walk)
}
