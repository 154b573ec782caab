//! The environment variables that a script sets.
ghost use Rattle.std.specs.Prelude.{◌≡◌, [], IfOk, IfErr, None, OnOk, map, option_map, string_bytes};
ghost use Rattle.std.specs.Map.{lookup};
ghost use Rattle.std.specs.Str.{bytes_eq};
ghost use Rattle.nextest_tree.specs.Leaf.{IsText, a_text};
ghost use Rattle.nextest_tree.specs.Node as Node;
ghost use Rattle.nextest_tree.specs.Reads.{Fails, Gives, IsMap, reading, test_outcome, walk_view};
ghost use Rattle.nextest_tree.specs.ReadSteps.{reading_entries, reading_entry};
ghost use Rattle.nextest_tree.specs.View.{entries_view, tree_view};
ghost use Rattle.nextest_scripts.specs.EnvMap.{IsEnvMap, an_env_map, env_key_cause, env_view};

use crate::env_key::is_env_var_key;
use nextest_tree::{Element, ElementCause, ElementFault, Tree, Walk};
use std::alloc::Global;
use std::collections::BTreeMap;
use std::collections::btree_map::Iter;

/// What a refusal of a key says was expected.
const ENV_KEY_EXPECTED: &str = "the key of an environment variable";

/// The environment variables that a script sets, by key.
#[derive(Debug, Drop, PartialEq, Eq)]
pub struct ScriptCommandEnvMap(BTreeMap<String, String>);

impl ScriptCommandEnvMap {
    /// No variables.
    pub fn empty(alloc: Global) -> ScriptCommandEnvMap
        ensures { env_view result ≡ [] }
    {
        ScriptCommandEnvMap(BTreeMap::new(alloc))
    }

    /// The text of a variable.
    pub fn get(&self, key: &str) -> Option<&str>
        ensures { option_map (λ text. text.now) result
            ≡ lookup (bytes_eq key.now) (env_view self.now) }
    {
        let text = self.0.get(key)?;
        Some(text.as_str())
    }

    /// All variables, in the order of the bytes of their keys.
    pub fn iter(&self) -> Iter<'_, String, String>
        ensures { map (λ e. (string_bytes e.0, string_bytes e.1)) result ≡ env_view self.now }
    {
        self.0.iter()
    }
}

/// Refuses a key that is none.
#[tactic(auto, unfolding(crate::specs::EnvMap::env_key_expected))]
fn check_key(alloc: Global, key: &str, walk: &Walk) -> Result<(), ElementFault>
    ensures ok { OnOk result (env_key_cause key.now ≡ None) }
    ensures err { let outcome = test_outcome (env_key_cause key.now) (walk_view walk.now) in
        IfErr result (λ e. Fails e outcome) }
{
    if is_env_var_key(key) {
        Ok(())
    } else {
        Err(walk.bad_value(alloc, key, ENV_KEY_EXPECTED))
    }
}

/// Reads a variable: its key, and then its text.
#[tactic(auto, unfolding(nextest_tree::specs::ReadSteps::reading_entry))]
fn read_variable(
    alloc: Global,
    key: &str,
    tree: &Tree,
    walk: &mut Walk,
) -> Result<(String, String), ElementFault>
    ensures key { IfOk result (λ e. string_bytes e.0 ≡ key.now) }
    ensures value { IfOk result (λ e. IsText (tree_view tree.now) e.1) }
    ensures reads { Gives result walk.new
        (reading_entry env_key_cause a_text key.now (tree_view tree.now) (walk_view walk.old)) }
{
    let outer = walk.enter(alloc, key)?;
    check_key(alloc, key, walk)?;
    let text = String::read(alloc, tree, walk)?;
    walk.leave(outer);
    match String::from_str(alloc, key) {
        Ok(key) => Ok((key, text)),
        Err(_) => Err(ElementFault::memory(alloc)),
    }
}

/// Reads each variable of a table.
fn read_variables(
    alloc: Global,
    members: &BTreeMap<String, Tree>,
    walk: &mut Walk,
) -> Result<BTreeMap<String, String>, ElementFault>
    ensures value { let es = entries_view members.now.entries in
        IfOk result (λ variables. IsMap string_bytes IsText es variables.entries) }
    ensures reads { let es = entries_view members.now.entries in
        Gives result walk.new (reading_entries env_key_cause a_text es (walk_view walk.old)) }
{
    let mut variables = BTreeMap::new(alloc);
    for (key, tree) in members.iter() {
        let (key, text) = read_variable(alloc, key.as_str(), tree, walk)?;
        let Ok(_) = variables.insert(key, text) else {
            return Err(ElementFault::memory(alloc));
        };
    }
    Ok(variables)
}

/// The variables of a table.
#[tactic(auto, using(nextest_tree::proofs::Reading::reading_map), unfolding(crate::specs::EnvMap::an_env_map))]
fn read_env_map(
    alloc: Global,
    members: &BTreeMap<String, Tree>,
    walk: &mut Walk,
) -> Result<ScriptCommandEnvMap, ElementFault>
    ensures value { IfOk result (IsEnvMap (Node.table (entries_view members.now.entries))) }
    ensures reads { let es = entries_view members.now.entries in
        Gives result walk.new (reading an_env_map (Node.table es) (walk_view walk.old)) }
{
    let variables = read_variables(alloc, members, walk)?;
    Ok(ScriptCommandEnvMap(variables))
}

#[tactic(auto, unfolding(nextest_tree::specs::Reads::reading, nextest_tree::specs::Reads::walk_view, crate::specs::EnvMap::an_env_map))]
impl Element for ScriptCommandEnvMap {
    ghost schema = { an_env_map };

    ghost is_value = { IsEnvMap };

    fn read(alloc: Global, tree: &Tree, walk: &mut Walk) -> Result<Self, ElementFault> {
        match tree {
            Tree::Table(members) => read_env_map(alloc, members, walk),
            _ => Err(walk.fault(alloc, ElementCause::WrongKind)),
        }
    }
}
