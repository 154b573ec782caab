//! The experimental features of a session.
ghost use Rattle.std.specs.Prelude.{◌≡◌, IfOk};
ghost use Rattle.nextest_elements.specs.declared.experimental.ConfigExperimental.{ConfigExperimental};
ghost use Rattle.nextest_rules.specs.KnownView.{features_view};
ghost use Rattle.rinqebo_session.specs.Loading.{is_on};

use nextest_config::ConfigExperimental;
use rinqebo_forms::Switches;
use std::alloc::{AllocError, Global};
use std::collections::BTreeSet;

/// The features that are switched on.
pub fn features_of(
    alloc: Global,
    switches: Switches,
) -> Result<BTreeSet<ConfigExperimental>, AllocError>
    ensures { IfOk result (λ features. (feature : ConfigExperimental)
        → features_view features feature ≡ is_on switches feature) }
{
    let mut features = BTreeSet::new(alloc);
    if switches.setup_scripts {
        features.insert(ConfigExperimental::SetupScripts)?;
    }
    if switches.wrapper_scripts {
        features.insert(ConfigExperimental::WrapperScripts)?;
    }
    Ok(features)
}
