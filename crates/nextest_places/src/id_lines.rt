//! The ids of a table in the expressions of a text.
ghost use denote.Ref.{Bor};
ghost use Rattle.std.specs.Prelude.{◌≡◌, ◌++◌, ◌∷◌, [], ℕ, List, IfOk, IsSome, string_bytes};
ghost use Rattle.std.specs.Bool.{OnTrue};
ghost use Rattle.std.specs.List.{AllByRecursion};
ghost use Rattle.toml_parser.specs.Reading.{path_view};
ghost use Rattle.nextest_places.specs.declared.step.Step.TheVariants.{Key};
ghost use Rattle.nextest_places.specs.Entries.{aim_along, aim_at_key, scan, waits};
ghost use Rattle.nextest_places.specs.Ids.{AreKeys, aim_at_id, lines_for, outcome_by};
ghost use Rattle.nextest_places.specs.Marks.{fresh};

use crate::entry::{Aim, Entry, Kind, aim_of};
use crate::place::Lines;
use crate::step::Step;
use std::alloc::{AllocError, Global};
use std::collections::{BTreeMap, BTreeSet};

/// The ids of a table that an expression brings.
#[derive(Clone, Copy)]
pub(crate) enum Brought<'a> {
    /// None.
    Nothing,
    /// This one.
    OneId(&'a str),
    /// All that are not there, in the value of a pair.
    AllIds,
}

/// The ids of a table that an expression brings. All steps to the table are keys.
fn ids_brought<'a>(entry: &'a Entry, table: &[Step]) -> Brought<'a>
    ensures { AreKeys table.now → (id : Bor (List ℕ))
        → aim_along entry.now.kind (path_view entry.now.parts.items) (table.now ++ Key id ∷ [])
        ≡ aim_at_id result id.now }
{
    match aim_of(entry.kind, &entry.parts, table) {
        Aim::Elsewhere => Brought::Nothing,
        Aim::Brings => match entry.parts.get(table.len()) {
            Some(id) => Brought::OneId(id.as_str()),
            None => behind_key(entry.kind),
        },
    }
}

/// The ids of a table that an expression brings whose key ends at the table or before it.
fn behind_key<'a>(kind: Kind) -> Brought<'a>
    ensures { (id : List ℕ) → aim_at_id result id ≡ aim_at_key kind }
{
    match kind {
        Kind::Pair => Brought::AllIds,
        Kind::Table | Kind::Element => Brought::Nothing,
    }
}

/// The lines of the expressions that bring the ids of a table.
#[derive(Drop)]
pub(crate) struct IdLines<'a> {
    /// Those of ids with an expression of their own.
    pub(crate) own: BTreeMap<&'a str, Lines>,
    /// Those of the pair with all other ids in its value, if there is one.
    pub(crate) all: Option<Lines>,
}

impl<'a> IdLines<'a> {
    /// The lines of the entries that bring the ids of a table, in one walk over the entries. All
    /// steps to the table are keys.
    pub(crate) fn of(
        alloc: Global,
        entries: &'a [Entry],
        table: &[Step],
    ) -> Result<IdLines<'a>, AllocError>
        requires { AreKeys table.now }
        ensures { IfOk result (λ lines. (id : Bor (List ℕ)) →
            let marks = fresh (table.now ++ Key id ∷ []) in
            scan entries.now (waits marks) ≡ outcome_by (lines_for lines id.now) marks) }
    {
        let mut own = BTreeMap::new(alloc);
        for entry in entries {
            match ids_brought(entry, table) {
                Brought::Nothing => {}
                Brought::OneId(id) => {
                    if !own.contains_key(id) {
                        own.insert(id, entry.lines)?;
                    }
                }
                Brought::AllIds => {
                    let all = Some(entry.lines);
                    return Ok(IdLines { own, all });
                }
            }
        }
        Ok(IdLines { own, all: None })
    }

    /// The lines of an id, if an entry brings it.
    pub(crate) fn get(&self, id: &str) -> Option<Lines>
        ensures { result ≡ lines_for self.now id.now }
    {
        self.own.get(id).copied().or(self.all)
    }

    /// Whether entries bring all of the ids.
    pub(crate) fn have_all(&self, ids: &[String]) -> bool
        ensures { OnTrue result
            (AllByRecursion (λ id. IsSome (lines_for self.now (string_bytes id))) ids.now) }
    {
        for id in ids {
            if self.get(id).is_none() {
                return false;
            }
        }
        true
    }
}

/// What a walk over expressions is to find. It ends once it has found that.
#[derive(Drop)]
pub(crate) enum Wanted<'a> {
    /// All expressions.
    All,
    /// Those that bring the ids of a table.
    Ids {
        /// The steps to the table.
        table: &'a [Step<'a>],
        /// The ids that no expression has brought yet.
        left: BTreeSet<&'a str>,
    },
}

impl<'a> Wanted<'a> {
    /// The ids of a table.
    pub(crate) fn of_table(
        alloc: Global,
        table: &'a [Step<'a>],
        ids: &'a [String],
    ) -> Result<Wanted<'a>, AllocError> {
        let mut left = BTreeSet::new(alloc);
        for id in ids {
            left.insert(id.as_str())?;
        }
        Ok(Wanted::Ids { table, left })
    }

    /// Whether there is more to find.
    pub(crate) fn is_open(&self) -> bool {
        match self {
            Wanted::All => true,
            Wanted::Ids { left, .. } => !left.is_empty(),
        }
    }

    /// Takes note of an expression.
    pub(crate) fn see(&mut self, entry: &Entry) {
        let brought = match self {
            Wanted::All => return,
            Wanted::Ids { table, .. } => ids_brought(entry, table),
        };
        if let Wanted::Ids { left, .. } = self {
            match brought {
                Brought::Nothing => {}
                Brought::OneId(id) => {
                    left.remove(id);
                }
                Brought::AllIds => left.clear(),
            }
        }
    }
}
