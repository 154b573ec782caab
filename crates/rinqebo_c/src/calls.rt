//! The exports: one call for a whole run, one for what changes between two, and those of runs and
//! sessions. A run, a session and its profiles lie in room of the caller's, who never looks inside.
ghost use Rattle.std.specs.Prelude.{◌≡◌, [], ℕ, List, length, string_bytes, take};
ghost use Rattle.std.specs.Mem.{type_size};
ghost use base.Fml.{Share, flft};
ghost use base.Fraction.{full_share};
ghost use contract.BorrowLft.{◌⊑◌};
ghost use denote.RawPtr.{lies_at, room_at};
ghost use types.Logic.{sem};
ghost use Rattle.rinqebo_resolve.specs.Comparison.Comparisons.{IsCompared, IsDiffFor, counts_origins};
ghost use Rattle.rinqebo_resolve.specs.Endings.{IsAnswerTo, IsResolved, IsSilent, ending_status, ending_text};
ghost use Rattle.rinqebo_resolve.specs.Pieces.{IsPieceOf};
ghost use Rattle.rinqebo_resolve.specs.contracts.run.Run.{the_row as run_row};
ghost use Rattle.rinqebo_resolve.specs.declared.run.Run.{Run};
ghost use Rattle.rinqebo_session.specs.Answering.{ReturnsNumbers};
ghost use Rattle.rinqebo_session.specs.Arguments.{IsArgumentCopied};
ghost use Rattle.rinqebo_session.specs.Copies.{IsCopiedOut};
ghost use Rattle.rinqebo_session.specs.Sessions.{session_status};
ghost use Rattle.rinqebo_session.specs.declared.status.TheConstants.{DONE};
ghost use Rattle.rinqebo_session.specs.Texts.{profile_status, IsTextCopied};
ghost use Rattle.rinqebo_session.specs.Versions.{version_number, version_text};
ghost use Rattle.rinqebo_session.specs.declared.version.TheConstants.{MAJOR, MINOR, PATCH};
ghost use Rattle.rinqebo_session.specs.contracts.session.Session.{the_row};
ghost use Rattle.rinqebo_session.specs.declared.profile.Profile.{Profile};
ghost use Rattle.rinqebo_session.specs.declared.session.Session.{Session};
ghost use Rattle.rinqebo_c.specs.Handles.{compared, finished, lent_run, loaded, lent, profile_row, opened, lent_profile};

use rinqebo_resolve::{Run, compare, compared_run, resolve};
use rinqebo_session::version::{copy_version, version_number};
use rinqebo_session::{CallerTest, Profile, Session, SettingNumbers};
use std::alloc::Global;
use std::mem::size_of;

/// Resolves a request in JSON for a whole run: writes the document of the result, or why there is
/// none, at the start of a buffer, and returns the status. If the buffer is too small, it is
/// unchanged, and `needed` is the size that it must have.
#[unsafe(no_mangle)]
pub extern "C" fn rinqebo_resolve(
    alloc: Global,
    request: &[u8],
    answer: &mut [u8],
    needed: &mut usize,
) -> u32
    ensures resolved { IsResolved request.now answer.old answer.new needed.new result }
    ensures done { result ≡ DONE → IsAnswerTo request.now (take needed.new answer.new) }
    ensures kept { IsSilent result → answer.new ≡ answer.old }
{
    resolve(alloc, request, answer, needed)
}

/// Compares the runs of two requests in JSON: writes the document of what changes from the first to
/// the second, or why there is none, at the start of a buffer, and returns the status. If the
/// buffer is too small, it is unchanged, and `needed` is the size that it must have. `side` is the
/// side that has no result. Unless `origins` is 0, a value that is the same and comes from
/// elsewhere is a change too.
#[unsafe(no_mangle)]
pub extern "C" fn rinqebo_diff(
    alloc: Global,
    from: &[u8],
    to: &[u8],
    origins: u32,
    answer: &mut [u8],
    needed: &mut usize,
    side: &mut u32,
) -> u32
    ensures compared { IsCompared from.now to.now origins answer.old answer.new needed.new side.new
        result }
    ensures done { result ≡ DONE → (side.new ≡ 0)
        × IsDiffFor from.now to.now (counts_origins origins) (take needed.new answer.new) }
    ensures kept { IsSilent result → answer.new ≡ answer.old }
{
    compare(alloc, from, to, origins, answer, needed, side)
}

/// Copies out the version of the library, as a text.
#[unsafe(no_mangle)]
pub extern "C" fn rinqebo_version(out: &mut [u8], needed: &mut usize) -> u32
    ensures { IsCopiedOut (version_text MAJOR MINOR PATCH) out.old out.new needed.new result }
{
    copy_version(out, needed)
}

/// The version of the library, as a number: a later version has a higher one.
#[unsafe(no_mangle)]
pub extern "C" fn rinqebo_version_number() -> u32
    ensures { result ≡ version_number MAJOR MINOR PATCH }
{
    version_number()
}

/// The bytes of a run.
#[unsafe(no_mangle)]
pub extern "C" fn rinqebo_run_size() -> usize
    ensures { result ≡ type_size run_row }
{
    size_of::<Run>()
}

/// Makes the run of a request in JSON, in memory for a run. It always leaves a run there, which has
/// the status.
#[unsafe(no_mangle)]
pub unsafe extern "C" fn rinqebo_run_new(alloc: Global, request: &[u8], room: *mut u8)
    // The room has the size and the alignment of a run, and holds none.
    requires* { sem 𝓛 (room_at run_row room) }
    ensures* { sem 𝓛 (finished request.now room) }
{
    (room as *mut Run).write(Run::new(alloc, request));
}

/// Compares the runs of two requests in JSON, as `rinqebo_diff` does, and keeps the output as a
/// run, in memory for a run. It always leaves a run there, which has the status.
#[unsafe(no_mangle)]
pub unsafe extern "C" fn rinqebo_diff_new(
    alloc: Global,
    from: &[u8],
    to: &[u8],
    origins: u32,
    room: *mut u8,
    side: &mut u32,
)
    // The room has the size and the alignment of a run, and holds none.
    requires* { sem 𝓛 (room_at run_row room) }
    ensures* { sem 𝓛 (compared from.now to.now origins side.new room) }
{
    (room as *mut Run).write(compared_run(alloc, from, to, origins, side));
}

/// How a run ended.
#[unsafe(no_mangle)]
pub unsafe extern "C" fn rinqebo_run_status(run: *const u8) -> u32
    ghost g: { List ℕ × Share × Run }
    // A run lies there, and nothing writes it during the call.
    requires* { sem 𝓛 (lent_run g.0 g.1 run g.2) }
    ensures* { sem 𝓛 (lent_run g.0 g.1 run g.2) ∗ ⌜ result ≡ ending_status g.2.ending ⌝ }
{
    Run::status(&*(run as *const Run))
}

/// How long the text of a run is.
#[unsafe(no_mangle)]
pub unsafe extern "C" fn rinqebo_run_length(run: *const u8) -> usize
    ghost g: { List ℕ × Share × Run }
    // A run lies there, and nothing writes it during the call.
    requires* { sem 𝓛 (lent_run g.0 g.1 run g.2) }
    ensures* { sem 𝓛 (lent_run g.0 g.1 run g.2) ∗ ⌜ result ≡ length (ending_text g.2.ending) ⌝ }
{
    Run::length(&*(run as *const Run))
}

/// Copies the part of a run's text from an offset on that a buffer has room for, and returns how
/// long that is.
#[unsafe(no_mangle)]
pub unsafe extern "C" fn rinqebo_run_text(run: *const u8, offset: usize, out: &mut [u8]) -> usize
    ghost g: { List ℕ × Share × Run }
    // A run lies there, and nothing writes it during the call.
    requires* { sem 𝓛 (lent_run g.0 g.1 run g.2) }
    ensures* { sem 𝓛 (lent_run g.0 g.1 run g.2)
        ∗ ⌜ IsPieceOf (ending_text g.2.ending) offset out.old out.new result ⌝ }
{
    Run::copy_piece(&*(run as *const Run), offset, out)
}

/// Frees what a run owns. The room is the caller's again.
#[unsafe(no_mangle)]
pub unsafe extern "C" fn rinqebo_run_free(run: *mut u8)
    ghost value: { Run }
    // A run lies there.
    requires* { sem 𝓛 (lies_at run_row full_share run value) }
    ensures* { sem 𝓛 (room_at run_row run) }
{
    close_run((run as *mut Run).read());
}

/// The bytes of a session.
#[unsafe(no_mangle)]
pub extern "C" fn rinqebo_session_size() -> usize
    ensures { result ≡ type_size the_row }
{
    size_of::<Session>()
}

/// Loads a request in JSON into memory for a session. It always leaves a session there, which has
/// the status.
#[unsafe(no_mangle)]
pub unsafe extern "C" fn rinqebo_session_load(alloc: Global, request: &[u8], room: *mut u8)
    // The room has the size and the alignment of a session, and holds none.
    requires* { sem 𝓛 (room_at the_row room) }
    ensures* { sem 𝓛 (loaded request.now room) }
{
    (room as *mut Session).write(Session::load(alloc, request));
}

/// Returns the status of a load.
#[unsafe(no_mangle)]
pub unsafe extern "C" fn rinqebo_session_status(session: *const u8) -> u32
    ghost g: { List ℕ × Share × Session }
    // A session lies there, and nothing writes it during the call.
    requires* { sem 𝓛 (lent g.0 g.1 session g.2) }
    ensures* { sem 𝓛 (lent g.0 g.1 session g.2) ∗ ⌜ result ≡ session_status g.2 ⌝ }
{
    Session::status(&*(session as *const Session))
}

/// Copies out why a session has no configuration; the text is empty if it has one.
#[unsafe(no_mangle)]
pub unsafe extern "C" fn rinqebo_session_reason(
    session: *const u8,
    out: &mut [u8],
    needed: &mut usize,
) -> u32
    ghost g: { List ℕ × Share × Session }
    // A session lies there, and nothing writes it during the call.
    requires* { sem 𝓛 (lent g.0 g.1 session g.2) }
    ensures* { sem 𝓛 (lent g.0 g.1 session g.2)
        ∗ ⌜ IsCopiedOut (string_bytes g.2.reason) out.old out.new needed.new result ⌝ }
{
    Session::copy_reason(&*(session as *const Session), out, needed)
}

/// Frees what a session owns. The memory is the caller's again.
#[unsafe(no_mangle)]
pub unsafe extern "C" fn rinqebo_session_free(session: *mut u8)
    ghost value: { Session }
    // A session is there, and no profile of it is left, which would read freed memory.
    requires* { sem 𝓛 (lies_at the_row full_share session value) }
    ensures* { sem 𝓛 (room_at the_row session) }
{
    close_session((session as *mut Session).read());
}

/// The bytes of a profile.
#[unsafe(no_mangle)]
pub extern "C" fn rinqebo_profile_size() -> usize
    ensures { result ≡ type_size (profile_row []) }
{
    size_of::<Profile<'static>>()
}

/// Opens a profile of a session, by its name, in memory for a profile. It always leaves a profile
/// there, which has the status.
#[unsafe(no_mangle)]
pub unsafe extern "C" fn rinqebo_profile_open(
    alloc: Global,
    session: *const u8,
    name: &[u8],
    room: *mut u8,
)
    ghost g: { List ℕ × Share × Session }
    // A session lies there, and stays as long as the profile; the room has the size and the
    // alignment of a profile, and holds none.
    requires* { sem 𝓛 (lent g.0 g.1 session g.2) ∗ sem 𝓛 (room_at (profile_row g.0) room) }
    ensures* { sem 𝓛 (lent g.0 g.1 session g.2) ∗ sem 𝓛 (opened g.0 g.2 name.now room) }
{
    (room as *mut Profile<'_>).write(Profile::open(alloc, &*(session as *const Session), name));
}

/// Returns the status of an opened profile.
#[unsafe(no_mangle)]
pub unsafe extern "C" fn rinqebo_profile_status(profile: *const u8) -> u32
    ghost g: { List ℕ × List ℕ × Share × Share × Profile }
    // A profile lies there, its session is still loaded, and nothing writes either during the call.
    requires* loan { sem 𝓛 (lent_profile g.0 g.1 g.2 g.3 profile g.4) }
    requires within { g.0 ⊑ g.1 }
    ensures* { sem 𝓛 (lent_profile g.0 g.1 g.2 g.3 profile g.4)
        ∗ ⌜ result ≡ profile_status g.4 ⌝ }
{
    Profile::status(&*(profile as *const Profile<'_>))
}

/// Writes the settings that a profile gives to a test, as numbers, and returns the status. It takes
/// no memory.
#[unsafe(no_mangle)]
pub unsafe extern "C" fn rinqebo_profile_ask(
    profile: *const u8,
    test: &CallerTest<'_>,
    settings: &mut SettingNumbers,
) -> u32
    ghost g: { List ℕ × List ℕ × Share × Share × Profile }
    // A profile lies there, its session is still loaded, and nothing writes either during the call.
    requires* loan { sem 𝓛 (lent_profile g.0 g.1 g.2 g.3 profile g.4) }
    requires within { g.0 ⊑ g.1 }
    ensures* { sem 𝓛 (lent_profile g.0 g.1 g.2 g.3 profile g.4)
        ∗ ⌜ ReturnsNumbers g.4 test.now settings.old settings.new result ⌝ }
{
    Profile::ask(&*(profile as *const Profile<'_>), test, settings)
}

/// Copies out the argument with this index that a profile gives to a test. It takes no memory.
#[unsafe(no_mangle)]
pub unsafe extern "C" fn rinqebo_profile_argument(
    profile: *const u8,
    test: &CallerTest<'_>,
    index: usize,
    out: &mut [u8],
    needed: &mut usize,
) -> u32
    ghost g: { List ℕ × List ℕ × Share × Share × Profile }
    // A profile lies there, its session is still loaded, and nothing writes either during the call.
    requires* loan { sem 𝓛 (lent_profile g.0 g.1 g.2 g.3 profile g.4) }
    requires within { g.0 ⊑ g.1 }
    ensures* { sem 𝓛 (lent_profile g.0 g.1 g.2 g.3 profile g.4)
        ∗ ⌜ IsArgumentCopied g.4 test.now index out.old out.new needed.new result ⌝ }
{
    Profile::copy_argument(&*(profile as *const Profile<'_>), test, index, out, needed)
}

/// Copies out a text of a profile: of kind 0 why it is not open, of kind 1 the name of the group of
/// an index, of kind 2 the id of the wrapper of an index, of kind 3 its objects in JSON.
#[unsafe(no_mangle)]
pub unsafe extern "C" fn rinqebo_profile_text(
    profile: *const u8,
    kind: u32,
    index: usize,
    out: &mut [u8],
    needed: &mut usize,
) -> u32
    ghost g: { List ℕ × List ℕ × Share × Share × Profile }
    // A profile lies there, its session is still loaded, and nothing writes either during the call.
    requires* loan { sem 𝓛 (lent_profile g.0 g.1 g.2 g.3 profile g.4) }
    requires within { g.0 ⊑ g.1 }
    ensures* { sem 𝓛 (lent_profile g.0 g.1 g.2 g.3 profile g.4)
        ∗ ⌜ IsTextCopied g.4 kind index out.old out.new needed.new result ⌝ }
{
    Profile::copy_text(&*(profile as *const Profile<'_>), kind, index, out, needed)
}

/// Frees what a profile owns. The room is the caller's again.
#[unsafe(no_mangle)]
pub unsafe extern "C" fn rinqebo_profile_free(profile: *mut u8)
    ghost g: { List ℕ × Share × Profile }
    // A profile lies there, and its session is still loaded.
    requires* { sem 𝓛 (flft g.0 g.1) ∗ sem 𝓛 (lies_at (profile_row g.0) full_share profile g.2) }
    ensures* { sem 𝓛 (flft g.0 g.1) ∗ sem 𝓛 (room_at (profile_row g.0) profile) }
{
    close_profile((profile as *mut Profile<'_>).read());
}

/// Drops a run.
fn close_run(_run: Run) {}

/// Drops a session.
fn close_session(_session: Session) {}

/// Drops a profile.
fn close_profile(_profile: Profile<'_>) {}
