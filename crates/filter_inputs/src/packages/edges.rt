//! The dependencies between packages.
ghost use Rattle.std.specs.Prelude.{◌≡◌};
ghost use Rattle.filter_inputs.specs.Packages.Edges.{oriented};

/// A dependency, by the indices of two packages in the metadata's list.
#[derive(Clone, Copy, Debug, PartialEq, Eq, Drop)]
pub struct Edge {
    /// The package that depends on the other one.
    pub from: usize,
    /// The package on which it depends.
    pub to: usize,
}

/// The way in which a search follows dependencies.
#[derive(Clone, Copy, Debug, PartialEq, Eq, Drop)]
pub enum Direction {
    /// From a package to those on which it depends.
    Dependencies,
    /// From a package to those that depend on it.
    Dependents,
}

impl Edge {
    /// Returns the edge, turned to start at the package from which a search follows it.
    pub fn oriented(self, direction: Direction) -> Edge
        ensures { result ≡ oriented direction self }
    {
        match direction {
            Direction::Dependencies => self,
            Direction::Dependents => Edge {
                from: self.to,
                to: self.from,
            },
        }
    }
}
