//! The names that files define, as far as they are known.
use crate::names::add_names;
use nextest_tables::FileTable;
use std::alloc::{AllocError, Global};
use std::collections::BTreeSet;

/// The names that some files define.
#[derive(Drop)]
pub struct KnownNames {
    alloc: Global,
    pub(crate) groups: BTreeSet<String>,
    pub(crate) setup_scripts: BTreeSet<String>,
    pub(crate) wrapper_scripts: BTreeSet<String>,
    pub(crate) profiles: BTreeSet<String>,
}

impl KnownNames {
    ghost use Rattle.std.specs.Prelude.{◌≡◌, List, [], OnOk};
    ghost use Rattle.nextest_rules.specs.Known.{known_names, known_to, sets_of};
    ghost use Rattle.nextest_rules.specs.KnownView.{known_view};
    ghost use Rattle.nextest_tables.specs.FileTexts.{FileText};
    ghost use Rattle.nextest_tables.specs.View.{file_table_view};

    /// No name.
    pub fn new(alloc: Global) -> KnownNames
        ensures { known_view result ≡ sets_of (known_names []) }
    {
        KnownNames {
            alloc,
            groups: BTreeSet::new(alloc),
            setup_scripts: BTreeSet::new(alloc),
            wrapper_scripts: BTreeSet::new(alloc),
            profiles: BTreeSet::new(alloc),
        }
    }

    /// Adds the names that a file defines.
    pub fn add(&mut self, file: &FileTable) -> Result<(), AllocError>
        ensures { (below : List FileText) → known_view self.old ≡ sets_of (known_names below)
            → OnOk result (known_view self.new
            ≡ sets_of (known_to below (file_table_view file.now))) }
    {
        let alloc = self.alloc;
        add_names(alloc, &mut self.groups, &file.test_groups)?;
        add_names(alloc, &mut self.setup_scripts, &file.scripts.setup)?;
        add_names(alloc, &mut self.setup_scripts, &file.script)?;
        add_names(alloc, &mut self.wrapper_scripts, &file.scripts.wrapper)?;
        add_names(alloc, &mut self.profiles, &file.profiles)
    }
}
