//! What is refused, so that another fault may only follow from it.
ghost use Rattle.std.specs.Prelude.{◌≡◌, OnOk};
ghost use Rattle.rinqebo_faults.specs.Edits.{left_out_view, may_be, names_view, no_names, nothing_left_out, with_name};
ghost use Rattle.rinqebo_faults.specs.Paths.{shown_path};

use crate::paths::path_text;
use nextest_places::Step;
use std::alloc::{AllocError, Global};
use std::collections::BTreeSet;

/// Names of one kind.
#[derive(Drop)]
pub struct Names {
    alloc: Global,
    /// Whether any name may be one of these.
    pub is_any: bool,
    names: BTreeSet<String>,
}

impl Names {
    /// No names.
    fn new(alloc: Global) -> Names
        ensures { names_view result ≡ no_names }
    {
        Names {
            alloc,
            is_any: false,
            names: BTreeSet::new(alloc),
        }
    }

    /// Adds a name.
    pub fn add(&mut self, name: &str) -> Result<(), AllocError>
        ensures { OnOk result (names_view self.new ≡ with_name name.now (names_view self.old)) }
    {
        self.names.insert(String::from_str(self.alloc, name)?)?;
        Ok(())
    }

    /// Adds a path, as findings show it.
    pub fn add_path(&mut self, path: &[Step<'_>]) -> Result<(), AllocError>
        ensures { OnOk result (names_view self.new
            ≡ with_name (shown_path path.now) (names_view self.old)) }
    {
        let text = path_text(self.alloc, path)?;
        self.add(text.as_str())
    }

    /// Whether a name may be one of these.
    #[tactic(auto, unfolding(crate::specs::Edits::names_view))]
    pub fn has(&self, name: &str) -> bool
        ensures { result ≡ may_be (names_view self.now) name.now }
    {
        self.is_any || self.names.contains(name)
    }
}

/// The names whose definitions are refused, so that a rule which names them is not at fault itself.
#[derive(Drop)]
pub struct LeftOut {
    /// Those of groups.
    pub groups: Names,
    /// Those of scripts.
    pub scripts: Names,
    /// The paths of the script rules of profiles, of which a value is refused.
    pub rules: Names,
}

impl LeftOut {
    /// No names.
    #[tactic(auto, unfolding(crate::specs::Edits::left_out_view))]
    pub fn new(alloc: Global) -> LeftOut
        ensures { left_out_view result ≡ nothing_left_out }
    {
        LeftOut {
            groups: Names::new(alloc),
            scripts: Names::new(alloc),
            rules: Names::new(alloc),
        }
    }
}
