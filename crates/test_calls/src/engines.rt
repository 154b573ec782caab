//! An engine whose tally counts.
ghost use Rattle.std.specs.Prelude.{◌≡◌, ◌==◌, ◌++◌, ◌∷◌, [], List, ℕ, Bool, true, Option, None, Some, Result, Ok, Err, option_map, string_bytes, length, unwrap_or, refl, if◌then◌else◌};
ghost use Rattle.std.proofs.Common.{ap, rules};
ghost use Rattle.std.specs.List.{list_any};
ghost use Rattle.std.specs.Option.{option_map_or};
ghost use Rattle.std.specs.Str.{bytes_eq};
ghost use Rattle.nextest_engines.specs.Engines.{without_span};

use nextest_engines::history::RuleHistory;
use nextest_engines::{
    BinaryQuery, EvalContext, FilterFault, Filters, FiltersetKind, Refusal, SpecFault, Specs,
    Tally, TestQuery,
};
use std::alloc::{AllocError, Global};
use std::cell::Cell;

/// Filters by name: a text matches the binary of that id and its tests, and the empty text all. A
/// text with `!` is refused. It has memory for so many readings.
#[derive(Drop)]
pub struct Names {
    room: Cell<usize>,
}

impl Names {
    /// An engine with memory for so many readings.
    pub fn with_room(room: usize) -> Names {
        Names {
            room: Cell::new(room),
        }
    }

    /// Whether there is memory for one more reading, which is then taken.
    fn takes_room(&self) -> bool {
        let room = self.room.get();
        self.room.set(room.saturating_sub(1));
        room > 0
    }
}

/// A name, or none where all match.
#[derive(Drop)]
pub struct Name(Option<String>);

/// How many rules are counted one by one.
pub const RULES: usize = 25;

/// How often each rule was evaluated, and whether each evaluation was of the text that spells its
/// rule's number.
#[derive(Clone, Copy)]
pub struct Counts {
    pub times: [usize; RULES],
    pub is_numbered: bool,
}

impl Counts {
    fn add(&mut self, rule: usize, expr: &Name) {
        if let Some(times) = self.times.get_mut(rule) {
            *times = times.wrapping_add(1);
        }
        self.is_numbered = self.is_numbered && is_number(expr, rule);
    }
}

/// The rules that were evaluated, and their counts.
#[derive(Drop)]
pub struct Counted {
    pub counts: Counts,
    rules: RuleHistory,
}

impl Tally for Counted {
    ghost numbers = { λ tally. tally.rules };
}

impl Counted {
    pub fn new() -> Counted {
        Counted {
            counts: Counts {
                times: [0; RULES],
                is_numbered: true,
            },
            rules: RuleHistory::new(),
        }
    }

    fn record(&mut self, rule: usize, expr: &Name)
        ensures { self.new.rules ≡ self.old.rules ++ rule ∷ [] }
    {
        self.counts.add(rule, expr);
        self.rules.push(rule);
    }
}

/// Whether the text of a filter spells this rule's number.
fn is_number(expr: &Name, rule: usize) -> bool {
    match &expr.0 {
        Some(name) => name.as_str().parse::<usize>() == Ok(rule),
        None => false,
    }
}

impl Filters for Names {
    type Expr = Name;

    type Tally = Counted;

    ghost Meaning = { Option (List ℕ) };

    ghost meaning = { λ expr. option_map string_bytes expr.0 };

    ghost read = { λ _ _ text. if list_any (λ b. b == 33) text then Err (without_span [])
        else Ok (if length text == 0 then None else Some text) };

    ghost match_all = { None };

    ghost holds = { λ filter test _.
        option_map_or (λ name. bytes_eq name test.binary.binary_id) filter true };

    ghost holds_binary = { λ filter binary _.
        Some (option_map_or (λ name. bytes_eq name binary.binary_id) filter true) };

    ghost leaves = { λ _. [] };

    fn parse(&self, alloc: Global, text: &str, kind: FiltersetKind) -> Result<Name, FilterFault> {
        let _kind = kind;
        if !self.takes_room() {
            return Err(FilterFault::Memory);
        }
        if text.as_bytes().contains(&b'!') {
            return Err(FilterFault::Refused(Refusal {
                message: String::new(alloc),
                span: None,
            }));
        }
        if text.is_empty() {
            return Ok(Name(None));
        }
        match String::from_str(alloc, text) {
            Ok(name) => Ok(Name(Some(name))),
            Err(_) => Err(FilterFault::Memory),
        }
    }

    fn all(&self) -> Name {
        Name(None)
    }

    fn matches_test(
        expr: &Name,
        rule: usize,
        query: &TestQuery<'_>,
        cx: &EvalContext<'_, Name>,
        tally: &mut Counted,
    ) -> bool {
        let _cx = cx;
        tally.record(rule, expr);
        match &expr.0 {
            None => true,
            Some(name) => name.as_str() == query.binary_query.binary_id,
        }
    }

    fn matches_binary(
        expr: &Name,
        rule: usize,
        query: &BinaryQuery<'_>,
        cx: &EvalContext<'_, Name>,
        tally: &mut Counted,
    ) -> Option<bool> {
        let _cx = cx;
        tally.record(rule, expr);
        match &expr.0 {
            None => Some(true),
            Some(name) => Some(name.as_str() == query.binary_id),
        }
    }

    fn runtime_only_leaves(alloc: Global, expr: &Name) -> Result<Vec<String>, AllocError> {
        let _expr = expr;
        Ok(Vec::new(alloc))
    }

    ghost match_all_matches = { λ _ _. refl };

    ghost match_all_matches_binaries = { λ _ _. refl };

    ghost binaries_speak = { λ filter test default b is. ap (λ known. unwrap_or known true) is };

    ghost default_filters_answer = { λ _ text filter read none binary default. Prim.search rules };
}

/// Platforms that every spec holds on.
pub struct Anywhere;

impl Specs for Anywhere {
    type Spec = ();

    type Platform = ();

    ghost SpecMeaning = { Unit {0} };

    ghost spec_meaning = { λ spec. spec };

    ghost read_spec = { λ _ _. Ok tt };

    ghost holds_on = { λ _ _. Some true };

    fn parse(&self, alloc: Global, text: &str) -> Result<(), SpecFault> {
        let _alloc = alloc;
        let _text = text;
        Ok(())
    }

    fn eval(spec: &(), platform: &()) -> Option<bool> {
        let _spec = spec;
        let _platform = platform;
        Some(true)
    }
}
