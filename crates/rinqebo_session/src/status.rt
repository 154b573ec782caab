//! The numbers that calls return for how they went.

/// The call did what it is for.
pub const DONE: u32 = 0;
/// The configuration is refused.
pub const REFUSED: u32 = 1;
/// The buffer is too small.
pub const SMALL: u32 = 2;
/// Bytes are not valid UTF-8.
pub const NOT_TEXT: u32 = 3;
/// Memory was refused.
pub const MEMORY: u32 = 4;
/// The request is not valid JSON, or not of its form.
pub const NOT_UNDERSTOOD: u32 = 5;
/// The metadata or a machine of the request is not understood.
pub const NO_ENGINES: u32 = 6;
/// There is no such profile.
pub const NO_PROFILE: u32 = 7;
/// The session holds no configuration.
pub const NOT_LOADED: u32 = 8;
/// A number has no meaning: a platform, a mode, a kind of text or an index.
pub const UNKNOWN_NUMBER: u32 = 9;
/// The size in a struct is not that of this version's.
pub const BAD_SIZE: u32 = 10;
/// A filter uses a part of a test that the caller does not have.
pub const NOT_KNOWN: u32 = 11;
