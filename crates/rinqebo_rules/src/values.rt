//! The settings of a test, each with what decides it.
use nextest_settings::{SettingSource, TestSettings};

/// The settings of a test, each with what decides it.
pub type SourcedSettings<'c, F, S> = TestSettings<'c, F, S, SettingSource<'c, F, S>>;
