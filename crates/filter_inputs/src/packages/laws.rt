//! Laws of reaching.
ghost use Rattle.std.specs.Prelude.{◌↔◌, ℕ, List, map};
ghost use Rattle.filter_inputs.specs.declared.packages.edges.Edge.{Edge};
ghost use Rattle.filter_inputs.specs.declared.packages.edges.Direction.TheVariants.{Dependents};
ghost use Rattle.filter_inputs.specs.Packages.Edges.{DependsOn, Reaches, oriented};

/// A package reaches itself, those on which it depends, and what these reach; and it reaches
/// another one exactly if that one reaches it over the edges turned round.
pub fn law_reaching()
    ensures itself { (edges : List Edge) (a : ℕ) → Reaches edges a a }
    ensures next { (edges : List Edge) (a b : ℕ) → DependsOn edges a b → Reaches edges a b }
    ensures through { (edges : List Edge) (a b c : ℕ)
        → Reaches edges a b → Reaches edges b c → Reaches edges a c }
    ensures turned { (edges : List Edge) (a b : ℕ)
        → Reaches (map (oriented Dependents) edges) b a ↔ Reaches edges a b }
{}
