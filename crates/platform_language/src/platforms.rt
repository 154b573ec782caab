//! Platforms as data: a triple, and the lines that the compiler prints for it.
//!
//! A platform is one of a table, or is read from what `rustc --print cfg` prints.

ghost use Rattle.std.specs.Prelude.{◌≡◌, true};
ghost use Rattle.platform_language.specs.Platforms.Platforms.{platform_view};

mod builtin;
mod cfg_list;
mod fault;
pub mod laws;
mod lines;
mod row;
mod table;

pub use fault::PlatformFault;
pub use row::TargetRow;
pub use table::targets;

/// A platform, as the compiler prints it.
#[derive(Debug, Drop)]
pub struct Platform {
    /// Its name, as `x86_64-unknown-linux-gnu`.
    pub triple: String,
    /// What the compiler prints for it, in that order.
    pub lines: Vec<CfgLine>,
    /// Whether the lines of `target_feature` are all of its features. Otherwise they are not known.
    pub features_given: bool,
}

/// A line that the compiler prints: a key alone, or a key with a value.
#[derive(Debug, Drop)]
pub struct CfgLine {
    /// The whole line, or the part before `=`.
    pub key: String,
    /// The text between quotes after `=`.
    pub value: Option<String>,
}

impl Platform {
    /// The same platform, whose features are known to be those of its lines.
    pub fn with_features(self) -> Platform
        ensures { platform_view result ≡ record (platform_view self) { features_given = true } }
    {
        Platform {
            features_given: true,
            ..self
        }
    }
}
