//! The experimental features, and their names.
ghost use Rattle.std.specs.Prelude.{◌≡◌, ◌≢◌, ◌↔◌, Contains, IsTrue, MatchOption};
ghost use Rattle.nextest_elements.specs.Experimental.{experimental_text};
ghost use Rattle.nextest_elements.specs.declared.experimental.ConfigExperimental.{ConfigExperimental};

use nextest_elements::ConfigExperimental;

/// All features.
pub const FEATURES: [ConfigExperimental; 2] = [
    ConfigExperimental::SetupScripts,
    ConfigExperimental::WrapperScripts,
];

/// The name of a feature.
pub fn feature_name(feature: ConfigExperimental) -> &'static str
    ensures { result.now ≡ experimental_text feature }
{
    match feature {
        ConfigExperimental::SetupScripts => "setup-scripts",
        ConfigExperimental::WrapperScripts => "wrapper-scripts",
    }
}

/// Whether a feature has a name.
fn has_name(feature: ConfigExperimental, name: &str) -> bool
    ensures { IsTrue result ↔ (experimental_text feature ≡ name.now) }
{
    feature_name(feature) == name
}

/// The feature of a name.
pub fn feature_of(name: &str) -> Option<ConfigExperimental>
    ensures { MatchOption result
        ((feature : ConfigExperimental) → experimental_text feature ≢ name.now)
        (λ feature. experimental_text feature ≡ name.now) }
{
    for feature in FEATURES.iter() {
        if has_name(*feature, name) {
            return Some(*feature);
        }
    }
    None
}

/// Each feature is among all.
pub fn law_all_features()
    ensures { (feature : ConfigExperimental) → Contains FEATURES feature }
{}
