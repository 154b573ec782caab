//! Scripts in the order in which files define them.
ghost use Rattle.std.specs.Prelude.{◌≡◌, ◌++◌, [], List, IfOk, OnOk, Some, map, string_bytes};
ghost use Rattle.std.specs.BTreeMap.{get_by_text};
ghost use Rattle.std.specs.Option.{option_or};
ghost use Rattle.nextest_documents.specs.Text.{tree_of};
ghost use Rattle.nextest_places.specs.Order.{IsOrder};
ghost use Rattle.nextest_places.specs.Standing.{ids_view};
ghost use Rattle.nextest_scripts.specs.ScriptId.{script_text};
ghost use Rattle.nextest_tree.specs.View.{tree_view};
ghost use Rattle.nextest_rules.specs.Rules.{at_name};
ghost use Rattle.nextest_tables.specs.Written.{Name};
ghost use Rattle.nextest_load.specs.ConfigView.{scripts_view};
ghost use Rattle.nextest_load.specs.ScriptNames.{AllComeFirst, AreNamed, AreScriptNames, HaveOwnIds, by_id, script_at, tables_scripts_view};
ghost use Rattle.nextest_load.specs.Scripts.{AreScriptsOf, setup_path, old_setup_path, wrapper_path};
ghost use Rattle.nextest_load.specs.Trees.{merged_tree};
ghost use Rattle.nextest_sources.specs.Inputs.{SourceText};
ghost use Rattle.nextest_tables.specs.Scripts.{AreFileScripts};

use crate::loaded_config::ScriptConfig;
use indexmap::IndexMap;
use nextest_places::ids_in_order;
use nextest_scripts::{ScriptId, SetupScriptConfig};
use nextest_tables::ScriptsTable;
use nextest_tree::{Key, Tree};
use std::alloc::{AllocError, Global};
use std::collections::BTreeMap;

/// The ids of the scripts that sources define, in order: those of the lowest source first.
#[derive(Drop)]
pub(crate) struct ScriptNames {
    /// Those under `scripts.setup`.
    pub(crate) setup: Vec<String>,
    /// Those under the old key `script`.
    pub(crate) old_setup: Vec<String>,
    /// Those under `scripts.wrapper`.
    pub(crate) wrapper: Vec<String>,
}

impl ScriptNames {
    /// No names yet.
    pub(crate) fn new(alloc: Global) -> Self
        ensures setup { ids_view result.setup ≡ [] }
        ensures old_setup { ids_view result.old_setup ≡ [] }
        ensures wrapper { ids_view result.wrapper ≡ [] }
    {
        ScriptNames {
            setup: Vec::new(alloc),
            old_setup: Vec::new(alloc),
            wrapper: Vec::new(alloc),
        }
    }

    /// The names of one text, of which `document` is the tree.
    pub(crate) fn of_text(alloc: Global, text: &str, document: &Tree) -> Result<Self, AllocError>
        requires { tree_of text.now ≡ Some (tree_view document.now) }
        ensures setup { IfOk result (λ names. IsOrder setup_path text.now (ids_view names.setup)) }
        ensures old_setup { IfOk result
            (λ names. IsOrder old_setup_path text.now (ids_view names.old_setup)) }
        ensures wrapper { IfOk result
            (λ names. IsOrder wrapper_path text.now (ids_view names.wrapper)) }
    {
        Ok(ScriptNames {
            setup: ids_in_order(alloc, text, document, &[Key::Scripts, Key::Setup])?,
            old_setup: ids_in_order(alloc, text, document, &[Key::Script])?,
            wrapper: ids_in_order(alloc, text, document, &[Key::Scripts, Key::Wrapper])?,
        })
    }

    /// Adds the names of a source above.
    pub(crate) fn append(&mut self, mut above: ScriptNames) -> Result<(), AllocError>
        ensures setup { OnOk result
            (ids_view self.new.setup ≡ ids_view self.old.setup ++ ids_view above.setup) }
        ensures old_setup { OnOk result
            (ids_view self.new.old_setup
            ≡ ids_view self.old.old_setup ++ ids_view above.old_setup) }
        ensures wrapper { OnOk result
            (ids_view self.new.wrapper ≡ ids_view self.old.wrapper ++ ids_view above.wrapper) }
    {
        self.setup.append(&mut above.setup)?;
        self.old_setup.append(&mut above.old_setup)?;
        self.wrapper.append(&mut above.wrapper)?;
        Ok(())
    }
}

/// Adds scripts under the texts of their ids, but for those whose ids are there.
fn add_by_text<V: Drop>(
    alloc: Global,
    scripts: &mut BTreeMap<String, (ScriptId, V)>,
    more: BTreeMap<ScriptId, V>,
) -> Result<(), AllocError>
    requires { HaveOwnIds scripts.old }
    ensures own { OnOk result (HaveOwnIds scripts.new) }
    ensures scripts { (name : Name) → OnOk result
        (script_at scripts.new name
        ≡ option_or (script_at scripts.old name) (at_name name (by_id more.entries))) }
{
    for (id, script) in more {
        let text = id.to_string(alloc)?;
        if !scripts.contains_key(text.as_str()) {
            drop(scripts.insert(text, (id, script))?);
        }
    }
    Ok(())
}

/// Scripts in the order of the names, each where its id is named first.
fn in_order<V: Drop>(
    alloc: Global,
    names: &[String],
    mut left: BTreeMap<String, (ScriptId, V)>,
) -> Result<IndexMap<ScriptId, V>, AllocError>
    requires { HaveOwnIds left }
    ensures scripts { AreNamed (map string_bytes names.now) (script_at left)
        → (name : Name) → IfOk result
        (λ scripts. at_name name (by_id scripts.entries) ≡ script_at left name) }
    ensures order { IfOk result
        (λ scripts. AllComeFirst (map string_bytes names.now)
        (map (λ e. script_text e.0) scripts.entries)) }
{
    let mut scripts = IndexMap::new(alloc);
    for name in names {
        if let Some((id, script)) = left.remove(name.as_str()) {
            drop(scripts.insert(id, script)?);
        }
    }
    Ok(scripts)
}

/// The scripts of two tables in the order of the names. Where both have an id, that of the first
/// table counts.
fn place_scripts<V: Drop>(
    alloc: Global,
    names: &[String],
    scripts: BTreeMap<ScriptId, V>,
    old_scripts: BTreeMap<ScriptId, V>,
) -> Result<IndexMap<ScriptId, V>, AllocError>
    ensures scripts { let all = λ (name : Name).
        option_or (at_name name (by_id scripts.entries)) (at_name name (by_id old_scripts.entries))
        in
        AreNamed (map string_bytes names.now) all → (name : Name)
        → IfOk result (λ placed. at_name name (by_id placed.entries) ≡ all name) }
    ensures order { IfOk result
        (λ placed. AllComeFirst (map string_bytes names.now)
        (map (λ e. script_text e.0) placed.entries)) }
{
    let mut left = BTreeMap::new(alloc);
    add_by_text(alloc, &mut left, scripts)?;
    add_by_text(alloc, &mut left, old_scripts)?;
    in_order(alloc, names, left)
}

/// The scripts of the merged tree, of which the tables were read, in the order in which the sources
/// define them.
pub(crate) fn script_config(
    alloc: Global,
    names: ScriptNames,
    script: BTreeMap<ScriptId, SetupScriptConfig>,
    scripts: ScriptsTable,
) -> Result<ScriptConfig, AllocError>
    ensures { (ss : List SourceText) → AreScriptNames ss names
        → AreFileScripts (merged_tree ss) (tables_scripts_view script scripts)
        → IfOk result (λ config. AreScriptsOf ss (scripts_view config)) }
{
    let ScriptNames {
        setup: mut setup_names,
        mut old_setup,
        wrapper: wrapper_names,
    } = names;
    setup_names.append(&mut old_setup)?;
    let ScriptsTable { setup, wrapper } = scripts;
    let setup = place_scripts(alloc, &setup_names, setup, script)?;
    let wrapper = place_scripts(alloc, &wrapper_names, wrapper, BTreeMap::new(alloc))?;
    Ok(ScriptConfig { setup, wrapper })
}
