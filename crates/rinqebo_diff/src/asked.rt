//! Which settings of tests are compared.
ghost use Rattle.std.specs.Prelude.{◌≡◌, IfOk, true};
ghost use Rattle.rinqebo_request.specs.declared.request.RequestedSettings.TheVariants.{These};
ghost use Rattle.rinqebo_diff.specs.Asked.{are_named, compares_runs, AreAll};

use nextest_config::Setting;
use rinqebo_request::RequestedSettings;
use std::alloc::{AllocError, Global};

/// Which settings of tests are compared: some that are named, so that both sides report the same.
#[derive(Drop)]
pub struct ComparedSettings {
    asked: RequestedSettings,
    ghost named: { are_named asked ≡ true },
}

impl ComparedSettings {
    /// Compares settings, in this order, and before them whether tests run, if `runs` is set.
    pub fn new(runs: bool, settings: Vec<Setting>) -> ComparedSettings
        ensures { result.asked ≡ These runs settings }
    {
        ComparedSettings {
            asked: RequestedSettings::These { runs, settings },
        }
    }

    /// Compares whether tests run, and all settings.
    pub fn all(alloc: Global) -> Result<ComparedSettings, AllocError>
        ensures { IfOk result (λ all. AreAll all.asked) }
    {
        let mut settings = Vec::new(alloc);
        for setting in Setting::ALL.iter() {
            settings.push(*setting)?;
        }
        Ok(ComparedSettings::new(true, settings))
    }

    /// The settings, for the request of either side.
    pub fn asked(&self) -> &RequestedSettings
        ensures { result.now ≡ self.now.asked }
    {
        &self.asked
    }

    /// Whether `runs` is compared.
    pub fn with_runs(&self) -> bool
        ensures { result ≡ compares_runs self.now.asked }
    {
        match &self.asked {
            RequestedSettings::Decided => true,
            RequestedSettings::These { runs, .. } => *runs,
        }
    }
}
