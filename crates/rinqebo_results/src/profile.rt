//! The profile of a name, before the platforms of a build are known.
ghost use Rattle.std.specs.Prelude.{IfOk};
ghost use Rattle.nextest_settings.specs.Profiles.Profiles.{IsProfileOf};
ghost use Rattle.nextest_tables.specs.FileTexts.{names_in, IsIn};
ghost use Rattle.rinqebo_results.specs.ListedBy.{read_by};

use filter_engine::NextestFilters;
use nextest_config::EarlyProfile;
use platform_language::TargetSpecs;
use rinqebo_load::{Config, Session};
use std::alloc::{AllocError, Global};

/// A profile before the platforms of a build are known.
pub type Early<'c> = EarlyProfile<'c, NextestFilters, TargetSpecs>;

/// The profile of a name.
pub fn early_profile<'c>(
    alloc: Global,
    session: &Session<'_>,
    config: &'c Config,
    profile: &'c str,
) -> Result<Early<'c>, AllocError>
    requires { IsIn (names_in config.now.config.profiles) profile.now }
    ensures { IfOk result (IsProfileOf (read_by session.now config.now) profile.now) }
{
    let root = session.gathered.paths.workspace_root.as_str();
    EarlyProfile::new(alloc, root, config, profile)
}
