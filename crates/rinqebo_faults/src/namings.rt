//! Where the rules of profiles name groups and scripts.
ghost use Rattle.std.specs.Prelude.{◌≡◌, ℕ, List, IfOk, OnOk, string_bytes, ◌++◌, Some, map, option_map};
ghost use Rattle.std.specs.Option.{option_and_then};
ghost use Rattle.nextest_tree.specs.Node.{as_array, as_text, member_of};
ghost use Rattle.nextest_tree.specs.View.{entries_view, nodes_view, tree_view};
ghost use Rattle.rinqebo_faults.specs.FileNamings.{Adds, AreNamings, file_names, item_names, name_at, naming_place, one_name, profile_names, profiles_names, rule_names, written_names};
ghost use Rattle.rinqebo_faults.specs.Repairs.{naming_mark};
ghost use Rattle.nextest_places.specs.Spans.Paths.{path_step};
ghost use Rattle.rinqebo_faults.specs.declared.namings.Namings.{Namings};
ghost use Rattle.rinqebo_faults.specs.Namings.{IsFirstNaming, earlier, first_naming, naming_of, naming_path, naming_steps};

use crate::given::profiles_of;
use crate::paths::profile_path;
use crate::tables::longer;
use nextest_places::Step;
use nextest_tree::Tree;
use std::alloc::{AllocError, Global};
use std::collections::BTreeMap;

/// A rule of a profile that has a name.
#[derive(Clone, Copy)]
struct Naming {
    /// The key at which it has the name.
    key: &'static str,
    /// Its position in the list of the profile.
    rule: usize,
    /// The position of the name in the array at the key, if it is in one.
    item: Option<usize>,
}

impl Naming {
    /// The path of the name in the list at a path.
    fn path_below<'p>(self, alloc: Global, list: &[Step<'p>]) -> Result<Vec<Step<'p>>, AllocError>
        ensures { IfOk result (λ path. map path_step path.items
            ≡ map path_step list.now ++ naming_steps (Some self)) }
    {
        let rule = [Step::Position(self.rule), Step::Key(self.key)];
        let path = longer(alloc, list, &rule)?;
        match self.item {
            Some(place) => longer(alloc, &path, &[Step::Position(place)]),
            None => Ok(path),
        }
    }
}

/// The naming that comes first: that of the lower rule, or else the earlier one.
fn earlier(first: Option<Naming>, other: Option<Naming>) -> Option<Naming>
    ensures { result ≡ earlier first other }
{
    match (first, other) {
        (Some(first), Some(other)) if other.rule < first.rule => Some(other),
        (Some(first), _) => Some(first),
        (None, other) => other,
    }
}

/// The text by which a name is found that rules of a profile have at a key.
#[tactic(auto, unfolding(crate::specs::Repairs::naming_mark))]
pub fn naming_mark(
    alloc: Global,
    profile: &str,
    key: &str,
    name: &str,
) -> Result<String, AllocError>
    ensures { IfOk result (λ mark. string_bytes mark ≡ naming_mark profile.now key.now name.now) }
{
    let length = profile.len();
    format!(in alloc; "{length}:{profile} {key} {name}")
}

/// The names that the rules of the profiles of a file have at some keys, each with the first rule of
/// a profile that has it there.
#[derive(Drop)]
pub struct Namings {
    alloc: Global,
    /// The key of the profiles at which their rules are.
    list: &'static str,
    firsts: BTreeMap<String, Naming>,
}

/// Adds a naming that is found by a text, unless an earlier one is.
fn add_first(
    firsts: &mut BTreeMap<String, Naming>,
    mark: String,
    naming: Naming,
) -> Result<(), AllocError>
    ensures { OnOk result (Adds firsts.old firsts.new
        (one_name (string_bytes mark) (naming_place naming))) }
{
    if firsts.contains_key(mark.as_str()) {
        return Ok(());
    }
    drop(firsts.insert(mark, naming)?);
    Ok(())
}

/// Adds a rule of a profile that has a name, unless an earlier one has it at the same key.
fn add_name(
    alloc: Global,
    firsts: &mut BTreeMap<String, Naming>,
    profile: &str,
    name: &str,
    naming: Naming,
) -> Result<(), AllocError>
    ensures { OnOk result (Adds firsts.old firsts.new
        (name_at profile.now (naming_place naming) (Some name.now))) }
{
    let mark = naming_mark(alloc, profile, naming.key, name)?;
    add_first(firsts, mark, naming)
}

/// Adds the name that an item of an array at a key of a rule is, if it is one.
#[tactic(auto, using(crate::proofs::Named::adds_none))]
fn add_item(
    alloc: Global,
    firsts: &mut BTreeMap<String, Naming>,
    profile: &str,
    naming: Naming,
    item: &Tree,
) -> Result<(), AllocError>
    ensures { OnOk result (Adds firsts.old firsts.new
        (name_at profile.now (naming_place naming) (as_text (tree_view item.now)))) }
{
    match item.as_str() {
        Some(name) => add_name(alloc, firsts, profile, name, naming),
        None => Ok(()),
    }
}

/// Adds the names that an array has at a key of a rule.
fn add_items(
    alloc: Global,
    firsts: &mut BTreeMap<String, Naming>,
    profile: &str,
    naming: Naming,
    items: &[Tree],
) -> Result<(), AllocError>
    ensures { OnOk result (Adds firsts.old firsts.new
        (item_names profile.now (naming_place naming) 0 (nodes_view items.now))) }
{
    for (place, item) in items.iter().enumerate() {
        let here = Naming {
            item: Some(place),
            ..naming
        };
        add_item(alloc, firsts, profile, here, item)?;
    }
    Ok(())
}

/// Adds the names that a rule has at a key: the text there, or those of the array there.
#[tactic(auto, using(crate::proofs::Named::adds_none))]
fn add_written(
    alloc: Global,
    firsts: &mut BTreeMap<String, Naming>,
    profile: &str,
    naming: Naming,
    written: &Tree,
) -> Result<(), AllocError>
    ensures { OnOk result (Adds firsts.old firsts.new
        (written_names profile.now (naming_place naming) (Some (tree_view written.now)))) }
{
    match written {
        Tree::Text(name) => add_name(alloc, firsts, profile, name.as_str(), naming),
        Tree::Array(items) => add_items(alloc, firsts, profile, naming, items),
        Tree::Table(_) | Tree::Int(_) | Tree::Bool(_) | Tree::Opaque => Ok(()),
    }
}

/// Adds the names that are at a key of a rule, if the rule has something there.
#[tactic(auto, using(crate::proofs::Named::adds_none))]
fn add_key(
    alloc: Global,
    firsts: &mut BTreeMap<String, Naming>,
    profile: &str,
    naming: Naming,
    rule: &Tree,
) -> Result<(), AllocError>
    ensures { OnOk result (Adds firsts.old firsts.new (written_names profile.now
        (naming_place naming) (member_of naming.key.now (tree_view rule.now)))) }
{
    match rule.get(naming.key) {
        Some(written) => add_written(alloc, firsts, profile, naming, written),
        None => Ok(()),
    }
}

/// Adds the names that the rule at a position has.
fn add_rule(
    alloc: Global,
    firsts: &mut BTreeMap<String, Naming>,
    profile: &str,
    position: usize,
    rule: &Tree,
    keys: &[&'static str],
) -> Result<(), AllocError>
    ensures { OnOk result (Adds firsts.old firsts.new
        (rule_names profile.now (map (λ key. key.now) keys.now) position (tree_view rule.now))) }
{
    for key in keys {
        let naming = Naming {
            key: *key,
            rule: position,
            item: None,
        };
        add_key(alloc, firsts, profile, naming, rule)?;
    }
    Ok(())
}

/// The rules in a list of a profile.
fn rules_of<'t>(table: &'t Tree, list: &str) -> Option<&'t [Tree]>
    ensures { option_map (λ rules. nodes_view rules.now) result
        ≡ option_and_then as_array (member_of list.now (tree_view table.entry.now)) }
{
    table.get(list)?.as_array()
}

/// Adds the names that the rules in a list of a profile have.
#[tactic(auto, using(crate::proofs::Named::adds_none))]
fn add_profile(
    alloc: Global,
    firsts: &mut BTreeMap<String, Naming>,
    list: &'static str,
    keys: &[&'static str],
    profile: &str,
    table: &Tree,
) -> Result<(), AllocError>
    ensures { OnOk result (Adds firsts.old firsts.new
        (profile_names list.now (map (λ key. key.now) keys.now) profile.now
        (tree_view table.now))) }
{
    let Some(rules) = rules_of(table, list) else {
        return Ok(());
    };
    for (position, rule) in rules.iter().enumerate() {
        add_rule(alloc, firsts, profile, position, rule, keys)?;
    }
    Ok(())
}

/// Adds the names that the rules in a list of each of some profiles have.
fn add_profiles(
    alloc: Global,
    firsts: &mut BTreeMap<String, Naming>,
    list: &'static str,
    keys: &[&'static str],
    profiles: &BTreeMap<String, Tree>,
) -> Result<(), AllocError>
    ensures { OnOk result (Adds firsts.old firsts.new
        (profiles_names list.now (map (λ key. key.now) keys.now)
        (entries_view profiles.now.entries))) }
{
    for (profile, table) in profiles.iter() {
        add_profile(alloc, firsts, list, keys, profile.as_str(), table)?;
    }
    Ok(())
}

/// Adds the names that the rules in a list of each profile of a file have.
#[tactic(auto, using(crate::proofs::Named::adds_none))]
fn add_file(
    alloc: Global,
    firsts: &mut BTreeMap<String, Naming>,
    list: &'static str,
    keys: &[&'static str],
    tree: Option<&Tree>,
) -> Result<(), AllocError>
    ensures { OnOk result (Adds firsts.old firsts.new
        (file_names (option_map (λ tree. tree_view tree.now) tree.entry) list.now
        (map (λ key. key.now) keys.now))) }
{
    match profiles_of(tree) {
        Some(profiles) => add_profiles(alloc, firsts, list, keys, profiles),
        None => Ok(()),
    }
}

impl Namings {
    /// The names that the rules of a list of each profile of a file have at some keys.
    pub fn of(
        alloc: Global,
        tree: Option<&Tree>,
        list: &'static str,
        keys: &[&'static str],
    ) -> Result<Namings, AllocError>
        ensures { IfOk result (AreNamings list.now (file_names
            (option_map (λ tree. tree_view tree.now) tree.entry) list.now
            (map (λ key. key.now) keys.now))) }
    {
        let mut firsts = BTreeMap::new(alloc);
        add_file(alloc, &mut firsts, list, keys, tree)?;
        Ok(Namings {
            alloc,
            list,
            firsts,
        })
    }

    /// The naming of a name at a key.
    fn naming_of(&self, profile: &str, key: &str, name: &str) -> Result<Option<Naming>, AllocError>
        ensures { IfOk result (λ naming. naming
            ≡ naming_of self.now profile.now key.now name.now) }
    {
        let mark = naming_mark(self.alloc, profile, key, name)?;
        Ok(self.firsts.get(mark.as_str()).copied())
    }

    /// The first rule of a profile that has a name at one of some keys.
    fn first(&self, profile: &str, keys: &[&str], name: &str) -> Result<Option<Naming>, AllocError>
        ensures { IfOk result (λ first. first
            ≡ first_naming self.now profile.now (map (λ key. key.now) keys.now) name.now) }
    {
        let mut first = None;
        for key in keys {
            let naming = self.naming_of(profile, *key, name)?;
            first = earlier(first, naming);
        }
        Ok(first)
    }

    /// The path at which the first rule of a profile has a name at one of some keys. It is that of
    /// the list where none does.
    pub fn path_of<'p>(
        &self,
        profile: &'p str,
        keys: &[&str],
        name: &str,
    ) -> Result<Vec<Step<'p>>, AllocError>
        ensures { IfOk result (λ path. map path_step path.items
            ≡ naming_path self.now profile.entry.now (map (λ key. key.now) keys.now) name.now) }
    {
        let alloc = self.alloc;
        let list = profile_path(profile, self.list);
        match self.first(profile, keys, name)? {
            Some(naming) => naming.path_below(alloc, &list),
            None => Vec::from_slice(alloc, &list),
        }
    }
}

/// Of the namings of a name at some keys, the first one has the lowest rule, and of those with this
/// rule the earliest key.
#[tactic(auto, using(crate::proofs::FirstNamings::is_first))]
pub fn law_first_naming()
    ensures { (namings : Namings) (profile : List ℕ) (keys : List (List ℕ)) (name : List ℕ)
        → IsFirstNaming namings profile keys name (first_naming namings profile keys name) }
{}
