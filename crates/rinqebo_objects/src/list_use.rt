//! What a list uses of the scripts of a profile, as it is known.
ghost use Rattle.std.specs.Prelude.{◌≡◌};

use crate::script_use::ScriptUse;
use nextest_engines::TestQuery;
use nextest_scripts::ScriptId;

/// What a list uses of the scripts of a profile.
#[derive(Clone, Copy)]
pub(crate) struct ListUse<'a, 'c> {
    /// The tests, in the order of the list.
    pub(crate) tests: &'a [TestQuery<'a>],
    /// What each of these tests uses.
    pub(crate) uses: &'a [ScriptUse<'c>],
    /// The ids of the wrappers that wrap the run of some test or the listing of some binary.
    pub(crate) wrappers: &'a [&'c ScriptId],
}

/// What a list of these tests uses, by what each of them uses and by the ids of the wrappers.
pub(crate) fn known_use<'a, 'c>(
    tests: &'a [TestQuery<'a>],
    uses: &'a [ScriptUse<'c>],
    wrappers: &'a [&'c ScriptId],
) -> ListUse<'a, 'c>
    ensures tests { result.tests.now ≡ tests.now }
    ensures uses { result.uses.now ≡ uses.now }
    ensures wrappers { result.wrappers.now ≡ wrappers.now }
{
    ListUse {
        tests,
        uses,
        wrappers,
    }
}
