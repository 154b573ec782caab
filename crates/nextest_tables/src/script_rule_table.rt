//! The table of a script rule.
ghost use Rattle.std.specs.Prelude.{◌≡◌, map};
ghost use Rattle.nextest_scripts.specs.ScriptId.{script_text};
ghost use Rattle.nextest_tree.specs.Reads.{InTable};
ghost use Rattle.nextest_tables.specs.FileTexts.{ids_in};
ghost use Rattle.nextest_tables.specs.Values.{IsScriptRule};
ghost use Rattle.nextest_tables.specs.Tables.{a_script_rule, script_ids, script_rule_fields};

use crate::platform_strings::PlatformStrings;
use nextest_scripts::ScriptId;
use nextest_tree::{
    Element, ElementCause, ElementFault, Key, Record, Tree, Walk, optional, read_table,
};
use std::alloc::Global;
use std::collections::BTreeMap;

/// The scripts that a rule names.
#[derive(Drop)]
pub struct ScriptUses {
    /// The setup scripts, in the order of the file.
    pub setup: Vec<ScriptId>,
    /// What wraps the binaries that list their tests.
    pub list_wrapper: Option<ScriptId>,
    /// What wraps the tests that run.
    pub run_wrapper: Option<ScriptId>,
}

/// A script rule as a file writes it.
#[derive(Drop)]
pub struct ScriptRuleTable {
    /// The texts of its platform specs.
    pub platform: PlatformStrings,
    /// The text of its filter.
    pub filter: Option<String>,
    /// The scripts that it names.
    pub scripts: ScriptUses,
}

/// One id, or a list of ids.
#[derive(Drop)]
struct ScriptIds(Vec<ScriptId>);

#[tactic(auto, using(crate::proofs::Ids::one_id, crate::proofs::Ids::ids_are), unfolding(nextest_tree::specs::Reads::reading, nextest_tree::specs::Reads::walk_view, nextest_elements::specs::IdentifierReader::an_identifier, crate::specs::Tables::script_ids))]
impl Element for ScriptIds {
    ghost schema = { script_ids };

    ghost is_value = { λ n ids. map script_text ids.0.items ≡ ids_in n };

    fn read(alloc: Global, tree: &Tree, walk: &mut Walk) -> Result<Self, ElementFault> {
        match tree {
            Tree::Array(_) => {
                let ids = Vec::read(alloc, tree, walk)?;
                Ok(ScriptIds(ids))
            }
            Tree::Text(_) => {
                let id = ScriptId::read(alloc, tree, walk)?;
                let mut ids = Vec::new(alloc);
                let Ok(()) = ids.push(id) else {
                    return Err(ElementFault::memory(alloc));
                };
                Ok(ScriptIds(ids))
            }
            _ => Err(walk.fault(alloc, ElementCause::WrongKind)),
        }
    }
}

impl ScriptIds {
    ghost use Rattle.std.specs.Prelude.{◌≡◌, IfOk, false, map};
    ghost use Rattle.nextest_tree.specs.declared.key.Key.TheVariants as keys;
    ghost use Rattle.nextest_tree.specs.Key.{key_text};
    ghost use Rattle.nextest_tree.specs.Node.{get};
    ghost use Rattle.nextest_tree.specs.Reads.{Gives, reading_field, walk_view};
    ghost use Rattle.nextest_tree.specs.View.{entries_view};
    ghost use Rattle.nextest_tables.specs.FileTexts.{ids_at};

    /// The setup scripts of a rule, none where it writes none.
    #[tactic(auto, using(crate::proofs::Ids::ids_there, crate::proofs::Ids::ids_absent))]
    fn setup(
        alloc: Global,
        members: &BTreeMap<String, Tree>,
        walk: &mut Walk,
    ) -> Result<Vec<ScriptId>, ElementFault>
        ensures value { IfOk result (λ ids. map script_text ids.items
            ≡ ids_at (get (key_text keys.Setup) (entries_view members.now.entries))) }
        ensures reads { Gives result walk.new (reading_field keys.Setup false script_ids
            (entries_view members.now.entries) (walk_view walk.old)) }
    {
        match optional(alloc, members, Key::Setup, walk)? {
            Some(ScriptIds(ids)) => Ok(ids),
            None => Ok(Vec::new(alloc)),
        }
    }
}

impl Record for ScriptRuleTable {
    ghost fields = { script_rule_fields };

    ghost is_record = { IsScriptRule };

    fn keys() -> &'static [Key] {
        &[
            Key::Platform,
            Key::Filter,
            Key::Setup,
            Key::ListWrapper,
            Key::RunWrapper,
        ]
    }

    fn read_fields(
        alloc: Global,
        members: &BTreeMap<String, Tree>,
        walk: &mut Walk,
    ) -> Result<Self, ElementFault> {
        let platform = PlatformStrings::at(alloc, members, walk)?;
        let filter = optional(alloc, members, Key::Filter, walk)?;
        let setup = ScriptIds::setup(alloc, members, walk)?;
        let list_wrapper = optional(alloc, members, Key::ListWrapper, walk)?;
        let run_wrapper = optional(alloc, members, Key::RunWrapper, walk)?;
        Ok(ScriptRuleTable {
            platform,
            filter,
            scripts: ScriptUses {
                setup,
                list_wrapper,
                run_wrapper,
            },
        })
    }
}

#[tactic(auto, unfolding(crate::specs::Tables::a_script_rule))]
impl Element for ScriptRuleTable {
    ghost schema = { a_script_rule };

    ghost is_value = { InTable IsScriptRule };

    fn read(alloc: Global, tree: &Tree, walk: &mut Walk) -> Result<Self, ElementFault> {
        read_table(alloc, tree, walk)
    }
}
