//! Tests, as a caller in C names them.
ghost use Rattle.std.specs.Prelude.{◌≡◌, IfOk, IfErr, MatchOption};
ghost use Rattle.nextest_engines.specs.Engines.{binary_view, test_view};
ghost use Rattle.rinqebo_session.specs.Asking.{IsTestOf, IsTestFault, IsBytesFault, IsNoText, platform_numbered, mode_numbered, fault_status, binary_of};

use crate::status::{NOT_KNOWN, NOT_TEXT, UNKNOWN_NUMBER};
use nextest_config::{BinaryQuery, BuildPlatform, NextestRunMode, TestQuery};

/// A test, and what is known of its binary. Its texts are UTF-8.
#[repr(C)]
#[derive(Clone, Copy, Debug, Drop)]
pub struct CallerTest<'a> {
    /// The size of the struct, as the caller has it.
    pub size: usize,
    /// The id of the binary's package, as cargo writes it.
    pub package: &'a [u8],
    /// The id of the binary, as nextest writes it.
    pub binary: &'a [u8],
    /// The kind of the binary's target, as `lib` or `test`.
    pub kind: &'a [u8],
    /// The name of the binary's target.
    pub target: &'a [u8],
    /// The name of the test.
    pub name: &'a [u8],
    /// For which machine the binary is built: 0 for the host, 1 for the target.
    pub platform: u32,
    /// What tests are run for: 0 for tests, 1 for benchmarks.
    pub mode: u32,
}

/// Why there are no settings of a test.
#[derive(Clone, Copy, Debug, PartialEq, Eq, Drop)]
pub enum TestFault {
    /// A text of it is not valid UTF-8.
    NotText,
    /// The number of its platform or its mode has no meaning.
    UnknownNumber,
    /// A filter of the profile uses a part of it that the caller does not have.
    NotKnown,
}

impl TestFault {
    /// The number of the fault.
    pub fn status(self) -> u32
        ensures { result ≡ fault_status self }
    {
        match self {
            TestFault::NotText => NOT_TEXT,
            TestFault::UnknownNumber => UNKNOWN_NUMBER,
            TestFault::NotKnown => NOT_KNOWN,
        }
    }
}

/// A test that is understood.
#[derive(Clone, Copy, Debug, Drop)]
pub struct Asked<'a> {
    pub query: TestQuery<'a>,
    pub mode: NextestRunMode,
}

/// The platform of a number.
fn platform_numbered(number: u32) -> Option<BuildPlatform>
    ensures { result ≡ platform_numbered number }
{
    match number {
        0 => Some(BuildPlatform::Host),
        1 => Some(BuildPlatform::Target),
        _ => None,
    }
}

/// The mode of a number.
fn mode_numbered(number: u32) -> Option<NextestRunMode>
    ensures { result ≡ mode_numbered number }
{
    match number {
        0 => Some(NextestRunMode::Test),
        1 => Some(NextestRunMode::Benchmark),
        _ => None,
    }
}

/// The text of some bytes.
fn text_of(bytes: &[u8]) -> Result<&str, TestFault>
    ensures ok { IfOk result (λ text. text.now ≡ bytes.now) }
    ensures err { IfErr result (λ fault. IsNoText bytes.now fault) }
{
    match std::str::from_utf8(bytes) {
        Ok(text) => Ok(text),
        Err(_) => Err(TestFault::NotText),
    }
}

impl<'a> CallerTest<'a> {
    /// The binary, on a platform.
    fn binary_query(&self, platform: BuildPlatform) -> Result<BinaryQuery<'a>, TestFault>
        ensures ok { IfOk result (λ query. binary_view query ≡ binary_of self.now platform) }
        ensures err { IfErr result (IsBytesFault self.now) }
    {
        Ok(BinaryQuery {
            package_id: text_of(self.package)?,
            binary_id: text_of(self.binary)?,
            kind: text_of(self.kind)?,
            binary_name: text_of(self.target)?,
            platform,
        })
    }

    /// The test, where it is understood.
    pub fn read(&self) -> Result<Asked<'a>, TestFault>
        ensures ok { IfOk result (λ asked. IsTestOf self.now (test_view asked.query) asked.mode) }
        ensures err { IfErr result (IsTestFault self.now) }
    {
        let Some(platform) = platform_numbered(self.platform) else {
            return Err(TestFault::UnknownNumber);
        };
        let Some(mode) = mode_numbered(self.mode) else {
            return Err(TestFault::UnknownNumber);
        };
        let query = TestQuery {
            binary_query: self.binary_query(platform)?,
            test_name: text_of(self.name)?,
        };
        Ok(Asked { query, mode })
    }
}
