//! Keys of environment variables that a script may set.

ghost use Rattle.std.specs.Prelude.{◌≡◌, ◌↔◌, IfErr, IsOk, IsTrue};
ghost use Rattle.nextest_scripts.specs.EnvKey.{IsEnvVarKey, IsFaultOf, is_env_var_key, is_plain, is_reserved_key, starts_well};

use std::alloc::{AllocError, Global};
use thiserror::Error;

/// Why a key is refused.
#[derive(Debug, Drop, Error)]
pub enum EnvVarError {
    /// Its first character is no ASCII letter and no underscore, or there is none.
    #[error("key `{0}` does not start with a letter or underscore")]
    InvalidKeyStartChar(String),
    /// A later character is no ASCII letter, digit or underscore.
    #[error("key `{0}` does not consist solely of letters, digits, and underscores")]
    InvalidKey(String),
    /// It begins with `NEXTEST`.
    #[error("key `{0}` begins with `NEXTEST`, which is reserved for internal use")]
    ReservedKey(String),
    /// There was no memory for the key that the error names.
    #[error("out of memory")]
    Memory,
}

impl From<AllocError> for EnvVarError {
    ghost use Rattle.nextest_scripts.specs.declared.env_key.EnvVarError.TheVariants.{Memory};

    ghost from_gives = { λ _ e. e ≡ Memory };

    fn from(_error: AllocError) -> Self {
        EnvVarError::Memory
    }
}

/// Tests a key: how it starts, then its other characters, then whether it is reserved.
///
/// A good key takes no memory.
pub fn validate_env_var_key(alloc: Global, key: &str) -> Result<(), EnvVarError>
    ensures accepted { IsOk result ↔ IsEnvVarKey key.now }
    ensures refused { IfErr result (IsFaultOf key.now) }
{
    if !has_good_start(key) {
        return Err(EnvVarError::InvalidKeyStartChar(String::from_str(alloc, key)?));
    }
    if !has_plain_characters(key) {
        return Err(EnvVarError::InvalidKey(String::from_str(alloc, key)?));
    }
    if begins_reserved(key) {
        return Err(EnvVarError::ReservedKey(String::from_str(alloc, key)?));
    }
    Ok(())
}

/// Whether a key passes the three tests.
pub fn is_env_var_key(key: &str) -> bool
    ensures value { result ≡ is_env_var_key key.now }
    ensures meaning { IsTrue result ↔ IsEnvVarKey key.now }
{
    has_good_start(key) && has_plain_characters(key) && !begins_reserved(key)
}

fn has_good_start(key: &str) -> bool
    ensures { result ≡ starts_well key.now }
{
    match key.as_bytes() {
        [first, ..] => first.is_ascii_alphabetic() || *first == b'_',
        [] => false,
    }
}

fn has_plain_characters(key: &str) -> bool
    ensures { result ≡ is_plain key.now }
{
    key.bytes()
        .all(|byte| byte.is_ascii_alphanumeric() || byte == b'_')
}

fn begins_reserved(key: &str) -> bool
    ensures { result ≡ is_reserved_key key.now }
{
    key.as_bytes().starts_with(b"NEXTEST")
}
