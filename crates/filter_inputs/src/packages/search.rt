//! The search for what marked packages reach.
ghost use Rattle.std.specs.Prelude.{◌≡◌, ◌<◌, ◌↔◌, ℕ, All, MatchBool, map, slice_set, vec_len, true};
ghost use Rattle.std.specs.Bool.{OnTrue, OnFalse};
ghost use Rattle.filter_inputs.specs.Packages.Edges.{oriented, Reaches};
ghost use Rattle.filter_inputs.specs.Packages.Marks.{IsMarked, unmarked, IsBelow, KeepsMarks, MarksReached, IsClosed};

use crate::packages::edges::{Direction, Edge};

/// Marks the end of an edge whose start is marked, and returns whether that mark is new.
fn follow(edge: Edge, marks: &mut Vec<bool>) -> bool
    requires { IsBelow (vec_len marks.old) edge }
    ensures length { vec_len marks.new ≡ vec_len marks.old }
    ensures mark { let old = marks.old.items in let new = marks.new.items in MatchBool result
        (IsMarked old edge.from × ¬ IsMarked old edge.to × (new ≡ slice_set old edge.to true))
        ((new ≡ old) × (IsMarked old edge.from → IsMarked old edge.to)) }
{
    let is_new = marks[edge.from] && !marks[edge.to];
    if is_new {
        marks[edge.to] = true;
    }
    is_new
}

/// Follows each edge once, and returns whether there is a new mark.
fn spread(edges: &[Edge], direction: Direction, marks: &mut Vec<bool>) -> bool
    requires { All (IsBelow (vec_len marks.old)) edges.now }
    ensures length { vec_len marks.new ≡ vec_len marks.old }
    ensures keeps { KeepsMarks marks.old.items marks.new.items }
    ensures reached { MarksReached (map (oriented direction) edges.now)
        marks.old.items marks.new.items }
    ensures fewer { OnTrue result (unmarked marks.new.items < unmarked marks.old.items) }
    ensures closed { OnFalse result
        (IsClosed (map (oriented direction) edges.now) marks.new.items) }
{
    let mut has_grown = false;
    for edge in edges {
        has_grown |= follow(edge.oriented(direction), marks);
    }
    has_grown
}

/// Marks all packages that marked ones reach.
///
/// Follows all edges again as long as there is a new mark.
pub fn reach(edges: &[Edge], direction: Direction, marks: &mut Vec<bool>)
    requires { All (IsBelow (vec_len marks.old)) edges.now }
    ensures length { vec_len marks.new ≡ vec_len marks.old }
    ensures reached { (place : ℕ) → IsMarked marks.new.items place
        ↔ ((start : ℕ) × IsMarked marks.old.items start
        × Reaches (map (oriented direction) edges.now) start place) }
{
    while spread(edges, direction, marks) {}
}
