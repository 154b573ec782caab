//! The keys of leaves.
ghost use Rattle.std.specs.Prelude.{◌≡◌};
ghost use Rattle.platform_language.specs.Keys.{is_family as family_test, is_never as never_test, is_free as free_test, is_free_system as free_system_test, other_key as other_key_of};

/// The kind of a key.
#[derive(Clone, Copy, Debug, PartialEq, Eq)]
pub enum KeyKind {
    /// `unix` or `windows`, a family of platforms.
    Family,
    /// A name that holds on no platform, as `test`.
    Never,
    /// `feature`, of a crate.
    CrateFeature,
    /// A key of the platform with any value, as `target_os`.
    Free,
    /// `target_endian`
    Endian,
    /// `target_pointer_width`
    Width,
    /// `target_has_atomic`
    Atomic,
    /// `target_feature`
    TargetFeature,
    /// Any other name that begins `target_`.
    UnknownTarget,
    /// Any other name.
    Other,
}

fn is_family(name: &str) -> bool
    ensures { result ≡ family_test name.now }
{
    name == "unix" || name == "windows"
}

fn is_never(name: &str) -> bool
    ensures { result ≡ never_test name.now }
{
    name == "test" || name == "debug_assertions" || name == "proc_macro"
}

fn is_free(name: &str) -> bool
    ensures { result ≡ free_test name.now }
{
    is_free_system(name)
        || name == "target_env"
        || name == "target_vendor"
        || name == "target_abi"
        || name == "panic"
}

fn is_free_system(name: &str) -> bool
    ensures { result ≡ free_system_test name.now }
{
    name == "target_arch" || name == "target_os" || name == "target_family"
}

/// What a name means that is `feature` or begins with `target_`, or is any other.
fn other_key(name: &str) -> KeyKind
    ensures { result ≡ other_key_of name.now }
{
    if name == "feature" {
        return KeyKind::CrateFeature;
    }
    if name == "target_endian" {
        return KeyKind::Endian;
    }
    if name == "target_pointer_width" {
        return KeyKind::Width;
    }
    if name == "target_has_atomic" {
        return KeyKind::Atomic;
    }
    if name == "target_feature" {
        return KeyKind::TargetFeature;
    }
    if name.starts_with("target_") {
        return KeyKind::UnknownTarget;
    }
    KeyKind::Other
}

impl KeyKind {
    ghost use Rattle.platform_language.specs.Keys.{key_kind};

    /// The kind of the key with this name.
    pub fn of(name: &str) -> KeyKind
        ensures { result ≡ key_kind name.now }
    {
        if is_family(name) {
            return KeyKind::Family;
        }
        if is_never(name) {
            return KeyKind::Never;
        }
        if is_free(name) {
            return KeyKind::Free;
        }
        other_key(name)
    }
}
