//! A sink that has memory for so many warnings.
use crate::loads::{ends_by_room, load_text};
use nextest_config::{ConfigSource, ConfigWarnings, DefaultConfigWarnings, ParseContext};
use nextest_explain::engines::filters::ToyFilters;
use nextest_explain::engines::platforms::ToySpecs;
use std::alloc::{AllocError, Global};
use std::collections::BTreeSet;
use std::test::Fail;

/// The engines of a load.
const ENGINES: ParseContext<'static, ToyFilters, ToySpecs> = ParseContext {
    filters: &ToyFilters,
    specs: &ToySpecs,
};

/// Keeps so many warnings, and then has no memory.
#[derive(Drop)]
struct Scarce {
    kept: DefaultConfigWarnings,
    room: usize,
}

impl ConfigWarnings for Scarce {
    ghost use Rattle.nextest_sources.specs.WarningsView.{warnings_view};

    ghost warnings = { λ sink. warnings_view sink.kept };

    fn unknown_config_keys(
        &mut self,
        alloc: Global,
        source: &ConfigSource,
        keys: &BTreeSet<String>,
    ) -> Result<(), AllocError> {
        self.room = self.room.checked_sub(1).ok_or(AllocError)?;
        self.kept.unknown_config_keys(alloc, source, keys)
    }

    fn unknown_reserved_profiles(
        &mut self,
        alloc: Global,
        source: &ConfigSource,
        names: &[&str],
    ) -> Result<(), AllocError> {
        self.room = self.room.checked_sub(1).ok_or(AllocError)?;
        self.kept.unknown_reserved_profiles(alloc, source, names)
    }

    fn deprecated_script_config(
        &mut self,
        alloc: Global,
        source: &ConfigSource,
    ) -> Result<(), AllocError> {
        self.room = self.room.checked_sub(1).ok_or(AllocError)?;
        self.kept.deprecated_script_config(alloc, source)
    }

    fn empty_script_sections(
        &mut self,
        alloc: Global,
        source: &ConfigSource,
        profile: &str,
        count: usize,
    ) -> Result<(), AllocError> {
        self.room = self.room.checked_sub(1).ok_or(AllocError)?;
        self.kept
            .empty_script_sections(alloc, source, profile, count)
    }
}

/// A file with a warning of each kind.
static WARNED: &str = r#"
zz = 1
[script.s]
command = "x"
[profile.default-x]
[[profile.default.scripts]]
filter = "all()"
"#;

/// Whether with memory for so many warnings these are kept, and the load ends so.
fn keeps_room(alloc: Global, room: usize) -> bool {
    let mut sink = Scarce {
        kept: DefaultConfigWarnings::new(alloc),
        room,
    };
    let loaded = load_text(alloc, &ENGINES, WARNED, &mut sink);
    sink.kept.warnings().len() == room.min(4) && ends_by_room(&loaded, 4, room)
}

#[test]
fn warnings_without_memory(rt: HostRuntime) -> Result<(), Fail> {
    for room in 0..6 {
        assert!(rt; keeps_room(rt.alloc(), room), "with room for {room}");
    }
    Ok(())
}
