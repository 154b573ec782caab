//! The names of profiles with a meaning of their own.
ghost use Rattle.std.specs.Prelude.{◌≡◌};
ghost use Rattle.nextest_inheritance.specs.Names as names;

/// The name of the profile that every configuration has.
pub const DEFAULT_PROFILE: &str = "default";

/// How the names of profiles begin that nextest itself defines.
const DEFAULT_PREFIX: &str = "default-";

/// The profile beside `default` that the table of defaults defines.
pub const DEFAULT_MIRI_PROFILE: &str = "default-miri";

/// Whether a profile is `default`, or one whose name begins `default-`.
pub(crate) fn is_base(name: &str) -> bool
    ensures { result ≡ names.is_base name.now }
{
    name == DEFAULT_PROFILE || name.starts_with(DEFAULT_PREFIX)
}

/// Whether a name is kept for profiles that nextest itself will define: it begins `default-`, and
/// is not `default-miri`.
pub fn is_reserved(name: &str) -> bool
    ensures { result ≡ names.is_reserved name.now }
{
    name.starts_with(DEFAULT_PREFIX) && name != DEFAULT_MIRI_PROFILE
}
