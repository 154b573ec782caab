//! What is open around a place.
ghost use Rattle.std.specs.Prelude.{◌≡◌, ◌+◌, ◌∷◌, ℕ, List, true, false, nat_lt, not, None, Some, [], IfOk, if◌then◌else◌};
ghost use Rattle.filter_language.specs.Nesting.{shape_view, start_shape, negated_shape, opened_shape, complete_shape, joined_shape, closed_shape};

use std::alloc::{AllocError, Global};

/// The most `not`s and parentheses around one place.
pub const MAX_NESTING: usize = 128;

/// What is open around a place.
#[derive(Drop)]
pub struct Nesting {
    /// The `not`s and parentheses around each level further out, the outermost first.
    pub outer: Vec<usize>,
    /// The `not`s and parentheses around the innermost level.
    pub around: usize,
    /// The `not`s that wait for an operand.
    pub nots: usize,
    /// Whether an operand is due.
    pub wants_operand: bool,
}

impl Nesting {
    /// Nothing is open.
    pub fn new(alloc: Global) -> Nesting
        ensures { shape_view result ≡ start_shape }
    {
        Nesting {
            outer: Vec::new(alloc),
            around: 0,
            nots: 0,
            wants_operand: true,
        }
    }

    /// Whether a further level may be opened.
    #[tactic(auto, using(crate::proofs::Shapes::room_is))]
    fn has_room(&self) -> bool
        ensures { result ≡ nat_lt (self.now.around + self.now.nots) 128 }
    {
        self.around.saturating_add(self.nots) < MAX_NESTING
    }

    /// Whether a parenthesis is open.
    pub fn is_inside(&self) -> bool
        ensures out { result ≡ false → (shape_view self.now).outer ≡ [] }
        ensures inside { result ≡ true → (a : ℕ) × (more : List ℕ)
            × ((shape_view self.now).outer ≡ a ∷ more) }
    {
        !self.outer.is_empty()
    }

    /// A `not`. Returns whether it is within the bound.
    pub fn negate(&mut self) -> bool
        ensures { (if result then Some (shape_view self.new) else None)
            ≡ negated_shape (shape_view self.old) }
    {
        if !self.has_room() {
            return false;
        }
        self.nots += 1;
        true
    }

    /// A `(`. Returns whether it is within the bound.
    pub fn open(&mut self) -> Result<bool, AllocError>
        ensures { IfOk result (λ is_open. (if is_open then Some (shape_view self.new) else None)
            ≡ opened_shape (shape_view self.old)) }
    {
        if !self.has_room() {
            return Ok(false);
        }
        self.outer.push(self.around)?;
        self.around = self.around + self.nots + 1;
        self.nots = 0;
        Ok(true)
    }

    /// An operand is complete.
    pub fn complete(&mut self)
        ensures { shape_view self.new ≡ complete_shape (shape_view self.old) }
    {
        self.nots = 0;
        self.wants_operand = false;
    }

    /// An operator.
    pub fn join(&mut self)
        ensures { shape_view self.new ≡ joined_shape (shape_view self.old) }
    {
        self.wants_operand = true;
    }

    /// A `)`. Returns whether it ends a level.
    pub fn close(&mut self) -> bool
        ensures value { (if result then Some (shape_view self.new) else None)
            ≡ closed_shape (shape_view self.old).outer }
        ensures same { result ≡ false → shape_view self.new ≡ shape_view self.old }
    {
        let Some(around) = self.outer.pop() else {
            return false;
        };
        self.around = around;
        self.complete();
        true
    }
}
