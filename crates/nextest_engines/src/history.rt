//! The rules that an engine evaluated, kept for contracts alone.
use std::marker::Model;
use std::mem;
use std::snapshot::Snapshot;

/// The numbers of rules, in order, as contracts see them. It has no bytes and takes no memory.
#[derive(Drop)]
pub struct RuleHistory {
    evaluations: Snapshot<Evaluations>,
}

/// One rule after another.
#[derive(Drop)]
enum Evaluations {
    None,
    After(Snapshot<Evaluations>, usize),
}

impl Model for RuleHistory {
    ghost use Rattle.std.specs.Prelude.{List, ℕ};

    ghost Value = { List ℕ };

    ghost use Rattle.nextest_engines.specs.RuleHistory.{numbers_in};

    ghost view = { λ history. numbers_in history.evaluations.value };
}

impl RuleHistory {
    ghost use Rattle.std.specs.Prelude.{◌≡◌, ◌++◌, ◌∷◌, []};

    /// No rule yet.
    pub fn new() -> RuleHistory
        ensures { result ≡ [] }
    {
        RuleHistory {
            evaluations: Snapshot::of(&Evaluations::None),
        }
    }

    /// Adds a rule's number.
    pub fn push(&mut self, rule: usize)
        ensures { self.new ≡ self.old ++ rule ∷ [] }
    {
        let before = mem::replace(&mut self.evaluations, Snapshot::of(&Evaluations::None));
        self.evaluations = Snapshot::of(&Evaluations::After(before, rule));
    }
}
