//! Expressions by the parts that their keys begin with.
ghost use Rattle.std.specs.Prelude.{◌≡◌, ◌++◌, ◌∷◌, [], ℕ, List, IfOk, OnOk, if◌then◌else◌};
ghost use Rattle.std.specs.BTreeMap.{get_by_text};
ghost use Rattle.std.specs.Option.{option_map_or};
ghost use Rattle.toml_parser.specs.Reading.{path_view};
ghost use Rattle.nextest_places.specs.Branches.{IsBranchOf, Role, elements, ends_in, is_in, numbers_at, pairs};

use crate::entry::{Entry, Kind};
use std::alloc::{AllocError, Global};
use std::collections::BTreeMap;

/// The expressions whose keys begin with the same parts, by their numbers. Each list ascends.
#[derive(Drop)]
pub(crate) struct Branch {
    /// All of them.
    pub(crate) all: Vec<usize>,
    /// Those whose keys have no more parts.
    pub(crate) ends: Ends,
    /// Those whose keys go on, by the next part.
    pub(crate) longer: BTreeMap<String, Branch>,
}

/// The expressions with the same key, by their numbers.
#[derive(Drop)]
pub(crate) struct Ends {
    /// The pairs among them.
    pub(crate) pairs: Vec<usize>,
    /// The headers in double brackets.
    pub(crate) elements: Vec<usize>,
}

impl Ends {
    /// Adds an expression by its kind.
    fn add(&mut self, kind: Kind, number: usize) -> Result<(), AllocError>
        ensures pairs { OnOk result (self.new.pairs.items ≡ self.old.pairs.items
            ++ (if ends_in pairs kind then number ∷ [] else [])) }
        ensures elements { OnOk result (self.new.elements.items ≡ self.old.elements.items
            ++ (if ends_in elements kind then number ∷ [] else [])) }
    {
        push_if(&mut self.pairs, is_pair(kind), number)?;
        push_if(&mut self.elements, is_element(kind), number)?;
        Ok(())
    }
}

fn is_pair(kind: Kind) -> bool
    ensures { result ≡ ends_in pairs kind }
{
    match kind {
        Kind::Pair => true,
        Kind::Table | Kind::Element => false,
    }
}

fn is_element(kind: Kind) -> bool
    ensures { result ≡ ends_in elements kind }
{
    match kind {
        Kind::Element => true,
        Kind::Pair | Kind::Table => false,
    }
}

/// Adds a number if a condition holds.
fn push_if(numbers: &mut Vec<usize>, holds: bool, number: usize) -> Result<(), AllocError>
    ensures { OnOk result (numbers.new.items ≡ numbers.old.items
        ++ (if holds then number ∷ [] else [])) }
{
    if !holds {
        return Ok(());
    }
    numbers.push(number)?;
    Ok(())
}

/// A branch with no expressions.
fn empty(alloc: Global) -> Branch
    ensures { (role : Role) (keys : List (List ℕ)) → numbers_at role keys result ≡ [] }
{
    Branch {
        all: Vec::new(alloc),
        ends: Ends {
            pairs: Vec::new(alloc),
            elements: Vec::new(alloc),
        },
        longer: BTreeMap::new(alloc),
    }
}

/// Adds an expression to a branch, by its kind and the rest of its key.
#[cycle(add)]
fn add(
    branch: &mut Branch,
    alloc: Global,
    kind: Kind,
    parts: &[String],
    number: usize,
) -> Result<(), AllocError>
    ensures { OnOk result ((role : Role) (keys : List (List ℕ)) → numbers_at role keys branch.new
        ≡ numbers_at role keys branch.old
        ++ (if is_in role kind keys (path_view parts.now) then number ∷ [] else [])) }
{
    branch.all.push(number)?;
    match parts.split_first() {
        Some((part, rest)) => add_longer(&mut branch.longer, alloc, kind, part, rest, number),
        None => branch.ends.add(kind, number),
    }
}

/// Adds an expression to those whose keys go on, by the next part of its key and the rest.
#[cycle(add)]
fn add_longer(
    longer: &mut BTreeMap<String, Branch>,
    alloc: Global,
    kind: Kind,
    part: &str,
    rest: &[String],
    number: usize,
) -> Result<(), AllocError>
    ensures { OnOk result ((role : Role) (k : List ℕ) (keys : List (List ℕ))
        → option_map_or (numbers_at role keys) (get_by_text longer.new k) []
        ≡ option_map_or (numbers_at role keys) (get_by_text longer.old k) []
        ++ (if is_in role kind (k ∷ keys) (part.now ∷ path_view rest.now) then number ∷ []
        else [])) }
{
    match longer.get_mut(part) {
        Some(branch) => add(branch, alloc, kind, rest, number),
        None => {
            let mut branch = empty(alloc);
            add(&mut branch, alloc, kind, rest, number)?;
            drop(longer.insert(String::from_str(alloc, part)?, branch)?);
            Ok(())
        }
    }
}

/// Some expressions by the parts that their keys begin with.
pub(crate) fn branch_of(alloc: Global, entries: &[Entry]) -> Result<Branch, AllocError>
    ensures { IfOk result (IsBranchOf entries.now) }
{
    let mut branch = empty(alloc);
    for (number, entry) in entries.iter().enumerate() {
        add(&mut branch, alloc, entry.kind, &entry.parts, number)?;
    }
    Ok(branch)
}
