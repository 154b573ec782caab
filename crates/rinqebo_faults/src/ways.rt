//! The paths of a document that a text spells: keys and positions with dots between them. Keys may
//! have dots of their own, so it may spell several.
use nextest_places::Step;
use nextest_tree::Tree;
use std::alloc::{AllocError, Global};
use std::collections::BTreeMap;

/// A path of a document that a text spells, or begins to spell.
#[derive(Drop)]
pub struct Way<'t> {
    /// Its steps.
    pub steps: Vec<Step<'t>>,
    /// What is at its end.
    pub tree: &'t Tree,
    /// The part of the text that is left.
    rest: &'t str,
}

impl<'t> Way<'t> {
    /// The way that has one more step.
    fn longer(
        &self,
        alloc: Global,
        step: Step<'t>,
        tree: &'t Tree,
        rest: &'t str,
    ) -> Result<Way<'t>, AllocError> {
        let mut steps = Vec::new(alloc);
        for earlier in &self.steps {
            steps.push(*earlier)?;
        }
        steps.push(step)?;
        Ok(Way { steps, tree, rest })
    }
}

/// Adds the way that goes on by a key, if a table has it.
fn add_key<'t>(
    alloc: Global,
    way: &Way<'t>,
    members: &'t BTreeMap<String, Tree>,
    key: &'t str,
    rest: &'t str,
    ways: &mut Vec<Way<'t>>,
) -> Result<(), AllocError> {
    if let Some(tree) = members.get(key) {
        ways.push(way.longer(alloc, Step::Key(key), tree, rest)?)?;
    }
    Ok(())
}

/// Adds the ways that go on by a key of a table: by each front of the text that ends before a dot,
/// and by the whole text.
fn add_keys<'t>(
    alloc: Global,
    way: &Way<'t>,
    members: &'t BTreeMap<String, Tree>,
    ways: &mut Vec<Way<'t>>,
) -> Result<(), AllocError> {
    let text: &'t str = way.rest;
    for (at, c) in text.char_indices() {
        if c == '.' {
            let key = text.get(..at).unwrap_or("");
            let rest = text.get(at.saturating_add(1)..).unwrap_or("");
            add_key(alloc, way, members, key, rest, ways)?;
        }
    }
    add_key(alloc, way, members, text, "", ways)
}

/// Adds the way that goes on by a position of an array.
fn add_position<'t>(
    alloc: Global,
    way: &Way<'t>,
    items: &'t [Tree],
    ways: &mut Vec<Way<'t>>,
) -> Result<(), AllocError> {
    let (name, rest) = way.rest.split_once('.').unwrap_or((way.rest, ""));
    let Ok(position) = name.parse::<usize>() else {
        return Ok(());
    };
    if let Some(tree) = items.get(position) {
        ways.push(way.longer(alloc, Step::Position(position), tree, rest)?)?;
    }
    Ok(())
}

/// Adds the ways that go on by one step.
fn add_longer<'t>(alloc: Global, way: &Way<'t>, ways: &mut Vec<Way<'t>>) -> Result<(), AllocError> {
    let tree: &'t Tree = way.tree;
    if let Some(members) = tree.as_table() {
        return add_keys(alloc, way, members, ways);
    }
    match tree.as_array() {
        Some(items) => add_position(alloc, way, items, ways),
        None => Ok(()),
    }
}

/// The ways into a document that a text spells.
pub fn ways_of<'t>(
    alloc: Global,
    tree: &'t Tree,
    text: &'t str,
) -> Result<Vec<Way<'t>>, AllocError> {
    let mut whole = Vec::new(alloc);
    let mut begun = Vec::new(alloc);
    begun.push(Way {
        steps: Vec::new(alloc),
        tree,
        rest: text,
    })?;
    for _ in 0..text.len() {
        let mut longer = Vec::new(alloc);
        for way in &begun {
            add_longer(alloc, way, &mut longer)?;
        }
        begun = Vec::new(alloc);
        for way in longer {
            if way.rest.is_empty() {
                whole.push(way)?;
            } else {
                begun.push(way)?;
            }
        }
    }
    Ok(whole)
}
