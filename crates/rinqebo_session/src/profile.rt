//! Profiles of a session, and what their calls return.
ghost use Rattle.std.specs.Prelude.{◌≡◌, ◌≢◌, ◌↔◌, IfOk, IfErr, IsTrue, map, option_map, slice_get, string_bytes};
ghost use Rattle.nextest_load.specs.ConfigView.{groups_view};
ghost use Rattle.nextest_scripts.specs.ScriptId.{script_text};
ghost use Rattle.nextest_tables.specs.FileTexts.{names_in, IsIn};
ghost use Rattle.rinqebo_session.specs.Answering.{ReturnsNumbers, ReturnsBy, ReturnsTest, AreSized, IsAnswerOf};
ghost use Rattle.rinqebo_session.specs.Arguments.{ReturnsArgument, ReturnsArgumentBy, IsArgumentCopied, IsArgumentOf, IsCopiedOrNone};
ghost use Rattle.rinqebo_session.specs.Asking.{needs_on, IsFaultIn, IsKnownTest};
ghost use Rattle.rinqebo_session.specs.Opening.{group_entry, IsOpened, IsNotOpened, IsProfileIn, IsOpenedIn};
ghost use Rattle.nextest_engines.specs.Engines.{test_view};
ghost use Rattle.filter_engine.specs.Engine.{filter_holds};
ghost use Rattle.rinqebo_session.specs.Readings.{filter_meaning};
ghost use Rattle.rinqebo_session.specs.Sizes.{test_size};
ghost use Rattle.rinqebo_session.specs.Texts.{MayNotOpenFor, profile_status, name_at, text_at, IsTextCopied};

use crate::copies::{copy_nothing, copy_out};
use crate::failure::OpenFailure;
use crate::loading::Loaded;
use crate::named::{Evaluated, evaluated, known_name, missing_profile};
use crate::needs::Needs;
use crate::objects::objects_of;
use crate::session::Session;
use crate::settings::{SettingNumbers, numbers_of};
use crate::status::{BAD_SIZE, DONE, UNKNOWN_NUMBER};
use crate::test::{Asked, CallerTest, TestFault};
use filter_engine::{NextestFilters, NextestTally};
use indexmap::IndexMap;
use nextest_config::{
    BuildPlatform, CustomTestGroup, Filters, ScriptId, TestGroupConfig, TestThreads,
    WrapperScriptConfig,
};
use std::alloc::{AllocError, Global};
use std::collections::BTreeMap;
use std::mem::size_of;

/// A group that a configuration defines.
#[derive(Clone, Copy, Debug, Drop)]
pub struct Group<'a> {
    /// Its name.
    pub name: &'a str,
    /// How many of its tests run at a time.
    pub threads: TestThreads,
}

/// A profile on the platforms of a build, with the names that its settings give.
#[derive(Drop)]
pub struct Opened<'a> {
    /// The profile.
    pub profile: Evaluated<'a>,
    /// The groups that the configuration defines.
    pub groups: Vec<Group<'a>>,
    /// The ids of the wrapper scripts that it defines.
    pub wrappers: Vec<&'a str>,
    /// The parts that its filters use, for binaries of the host.
    pub for_host: Needs,
    /// The parts that its filters use, for binaries of the target.
    pub for_target: Needs,
    /// Its objects, as a text in JSON.
    pub objects: String,
}

/// A profile that was opened, or why it is not open.
#[derive(Drop)]
pub struct Profile<'a> {
    /// What was opened.
    pub outcome: Result<Opened<'a>, OpenFailure>,
    /// Why it is not open; empty where it is.
    pub reason: String,
}

/// The groups of a table.
fn groups_of<'a>(
    alloc: Global,
    table: &'a BTreeMap<CustomTestGroup, TestGroupConfig>,
) -> Result<Vec<Group<'a>>, AllocError>
    ensures { IfOk result (λ groups. map group_entry groups.items
        ≡ groups_view table.now.entries) }
{
    let mut groups = Vec::new(alloc);
    for (group, config) in table.iter() {
        groups.push(Group {
            name: group.as_str(),
            threads: config.max_threads,
        })?;
    }
    Ok(groups)
}

/// The ids of the scripts of a table.
fn ids_of<'a>(
    alloc: Global,
    table: &'a IndexMap<ScriptId, WrapperScriptConfig>,
) -> Result<Vec<&'a str>, AllocError>
    ensures { IfOk result (λ ids. map (λ id. id.now) ids.items
        ≡ map (λ e. script_text e.0) table.now.entries) }
{
    let mut ids = Vec::new(alloc);
    for id in table.keys() {
        ids.push(id.as_identifier().as_str())?;
    }
    Ok(ids)
}

/// A profile that a configuration has.
fn opened_as<'a>(alloc: Global, loaded: &'a Loaded, name: &'a str) -> Result<Opened<'a>, AllocError>
    requires { IsIn (names_in loaded.now.config.config.profiles) name.now }
    ensures { IfOk result (IsOpened loaded.now name.now) }
{
    let profile = evaluated(alloc, loaded, name)?;
    let groups = groups_of(alloc, profile.test_group_config())?;
    let wrappers = ids_of(alloc, &profile.script_config().wrapper)?;
    let for_host = Needs::of(&profile, BuildPlatform::Host);
    let for_target = Needs::of(&profile, BuildPlatform::Target);
    let objects = objects_of(alloc, loaded, name, &profile)?;
    Ok(Opened {
        profile,
        groups,
        wrappers,
        for_host,
        for_target,
        objects,
    })
}

/// The profile of a name in a configuration.
fn opened_of<'a>(alloc: Global, loaded: &'a Loaded, name: &str) -> Result<Opened<'a>, OpenFailure>
    ensures ok { IfOk result (IsOpened loaded.now name.now) }
    ensures err { IfErr result (IsNotOpened loaded.now name.now) }
{
    match known_name(&loaded.config, name) {
        Some(known) => Ok(opened_as(alloc, loaded, known)?),
        None => {
            let missing = missing_profile(alloc, &loaded.config, name)?;
            Err(OpenFailure::NotFound(missing))
        }
    }
}

/// The profile of a name in a session.
fn opened_in<'a>(
    alloc: Global,
    session: &'a Session,
    name: &[u8],
) -> Result<Opened<'a>, OpenFailure>
    ensures { IsOpenedIn session.now name.now result }
{
    let Ok(loaded) = &session.outcome else {
        return Err(OpenFailure::NotLoaded);
    };
    let Ok(name) = std::str::from_utf8(name) else {
        return Err(OpenFailure::NotText);
    };
    opened_of(alloc, loaded, name)
}

/// The profile that says why it is not open.
fn not_opened<'a>(alloc: Global, failure: OpenFailure) -> Profile<'a>
    ensures { MayNotOpenFor failure result }
{
    match format!(in alloc; "{failure}") {
        Ok(reason) => Profile {
            outcome: Err(failure),
            reason,
        },
        Err(_) => Profile {
            outcome: Err(OpenFailure::Memory),
            reason: String::new(alloc),
        },
    }
}

/// Whether the size in a test is that of this version.
fn is_sized(test: &CallerTest<'_>) -> bool
    ensures { IsTrue result ↔ (test.now.size ≡ test_size) }
{
    test.size == size_of::<CallerTest<'static>>()
}

/// Whether the sizes in a test and in settings are those of this version.
fn are_sized(test: &CallerTest<'_>, settings: &SettingNumbers) -> bool
    ensures { IsTrue result ↔ AreSized test.now settings.now }
{
    test.size == size_of::<CallerTest<'static>>() && settings.size == size_of::<SettingNumbers>()
}

/// The argument of an index, if there is one.
fn argument_at(arguments: &[String], index: usize) -> Option<&str>
    ensures { option_map (λ text. text.now) result
        ≡ slice_get (map string_bytes arguments.now) index }
{
    match arguments.get(index) {
        Some(text) => Some(text.as_str()),
        None => None,
    }
}

/// Copies out a text, if there is one.
fn copy_text_or_none(text: Option<&str>, out: &mut [u8], needed: &mut usize) -> u32
    ensures { IsCopiedOrNone (option_map (λ text. text.now) text.entry) out.old out.new needed.new
        result }
{
    match text {
        Some(text) => copy_out(text.as_bytes(), out, needed),
        None => copy_nothing(UNKNOWN_NUMBER, needed),
    }
}

impl Opened<'_> {
    /// Whether the profile's default filter matches a test.
    fn is_in_default_filter(&self, asked: &Asked<'_>) -> bool
        ensures { let filter = filter_meaning self.now.profile.default_filter.filter in
            result ≡ filter_holds filter (test_view asked.now.query) filter }
    {
        let cx = self.profile.filterset_ecx();
        let mut tally = NextestTally::new();
        NextestFilters::matches_test(cx.default_filter, 0, &asked.query, &cx, &mut tally)
    }

    /// The parts that its filters use, for binaries of a platform.
    fn needs_on(&self, platform: BuildPlatform) -> Needs
        ensures { result ≡ needs_on self.now platform }
    {
        match platform {
            BuildPlatform::Host => self.for_host,
            BuildPlatform::Target => self.for_target,
        }
    }

    /// The test, if it is understood and has each part that a filter uses.
    fn known<'t>(&self, test: &CallerTest<'t>) -> Result<Asked<'t>, TestFault>
        ensures ok { IfOk result (λ asked.
            IsKnownTest self.now test.now (test_view asked.query) asked.mode) }
        ensures err { IfErr result (IsFaultIn self.now test.now) }
    {
        let asked = test.read()?;
        let needs = self.needs_on(asked.query.binary_query.platform);
        if needs.are_missing(test) {
            return Err(TestFault::NotKnown);
        }
        Ok(asked)
    }

    /// The settings of a test, as numbers.
    fn answer(&self, test: &CallerTest<'_>) -> Result<SettingNumbers, TestFault>
        ensures ok { IfOk result (IsAnswerOf self.now test.now) }
        ensures err { IfErr result (IsFaultIn self.now test.now) }
    {
        let asked = self.known(test)?;
        let mut tally = NextestTally::new();
        let settings = self
            .profile
            .settings_for(asked.mode, &asked.query, &mut tally);
        let in_default_filter = self.is_in_default_filter(&asked);
        Ok(numbers_of(&self.groups, &self.wrappers, &settings, in_default_filter))
    }

    /// Writes the settings of a test, as numbers, or returns why there are none.
    fn write_answer(&self, test: &CallerTest<'_>, settings: &mut SettingNumbers) -> u32
        ensures answers { ReturnsTest self.now test.now settings.new result }
        ensures kept { result ≢ DONE → settings.new ≡ settings.old }
    {
        match self.answer(test) {
            Ok(numbers) => {
                *settings = numbers;
                DONE
            }
            Err(fault) => fault.status(),
        }
    }

    /// The argument of an index that the profile gives to a test, if it gives so many.
    fn argument(&self, test: &CallerTest<'_>, index: usize) -> Result<Option<&str>, TestFault>
        ensures ok { IfOk result (λ text.
            IsArgumentOf self.now test.now index (option_map (λ text. text.now) text)) }
        ensures err { IfErr result (IsFaultIn self.now test.now) }
    {
        let asked = self.known(test)?;
        let mut tally = NextestTally::new();
        let settings = self
            .profile
            .settings_for(asked.mode, &asked.query, &mut tally);
        let arguments = settings.run_extra_args();
        Ok(argument_at(arguments, index))
    }

    /// Copies out the argument of an index that the profile gives to a test, or returns why there
    /// is none.
    fn copy_argument(
        &self,
        test: &CallerTest<'_>,
        index: usize,
        out: &mut [u8],
        needed: &mut usize,
    ) -> u32
        ensures { ReturnsArgument self.now test.now index out.old out.new needed.new result }
    {
        match self.argument(test, index) {
            Ok(text) => copy_text_or_none(text, out, needed),
            Err(fault) => copy_nothing(fault.status(), needed),
        }
    }

    /// The name of a group or of a wrapper: of kind 1 those of groups, of kind 2 those of wrappers.
    /// Of kind 3 the objects, whatever the index.
    fn name(&self, kind: u32, index: usize) -> Option<&str>
        ensures { option_map (λ name. name.now) result ≡ name_at self.now kind index }
    {
        match kind {
            1 => self.groups.get(index).map(|group| group.name),
            2 => self.wrappers.get(index).copied(),
            3 => Some(self.objects.as_str()),
            _ => None,
        }
    }
}

impl<'a> Profile<'a> {
    /// The profile of a name in a session. It is always returned: where it is not open, its status
    /// says why, and its reason is the message.
    pub fn open(alloc: Global, session: &'a Session, name: &[u8]) -> Profile<'a>
        ensures { IsProfileIn session.now name.now result }
    {
        match opened_in(alloc, session, name) {
            Ok(opened) => Profile {
                outcome: Ok(opened),
                reason: String::new(alloc),
            },
            Err(failure) => not_opened(alloc, failure),
        }
    }

    /// How the opening went.
    pub fn status(&self) -> u32
        ensures { result ≡ profile_status self.now }
    {
        match &self.outcome {
            Ok(_) => DONE,
            Err(failure) => failure.status(),
        }
    }

    /// Writes the settings of a test, as numbers, where the profile is open.
    fn ask_if_open(&self, test: &CallerTest<'_>, settings: &mut SettingNumbers) -> u32
        ensures answers { ReturnsBy self.now.outcome test.now settings.new result }
        ensures kept { result ≢ DONE → settings.new ≡ settings.old }
    {
        match &self.outcome {
            Ok(opened) => opened.write_answer(test, settings),
            Err(failure) => failure.status(),
        }
    }

    /// Writes the settings of a test, as numbers, and returns how it went. Where the size in one of
    /// the two is not this version's, or there are no settings, nothing is written. It takes no
    /// memory.
    pub fn ask(&self, test: &CallerTest<'_>, settings: &mut SettingNumbers) -> u32
        ensures { ReturnsNumbers self.now test.now settings.old settings.new result }
    {
        if !are_sized(test, settings) {
            return BAD_SIZE;
        }
        self.ask_if_open(test, settings)
    }

    /// Copies out the argument of an index that the profile gives to a test, if the profile is
    /// open.
    fn copy_argument_if_open(
        &self,
        test: &CallerTest<'_>,
        index: usize,
        out: &mut [u8],
        needed: &mut usize,
    ) -> u32
        ensures { ReturnsArgumentBy self.now.outcome test.now index out.old out.new needed.new
            result }
    {
        match &self.outcome {
            Ok(opened) => opened.copy_argument(test, index, out, needed),
            Err(failure) => copy_nothing(failure.status(), needed),
        }
    }

    /// Copies out the argument of an index that the profile gives to a test. It takes no memory.
    pub fn copy_argument(
        &self,
        test: &CallerTest<'_>,
        index: usize,
        out: &mut [u8],
        needed: &mut usize,
    ) -> u32
        ensures { IsArgumentCopied self.now test.now index out.old out.new needed.new result }
    {
        if !is_sized(test) {
            return copy_nothing(BAD_SIZE, needed);
        }
        self.copy_argument_if_open(test, index, out, needed)
    }

    /// The text of a kind and an index: of kind 0 why the profile is not open, of kind 1 the name
    /// of a group, of kind 2 the id of a wrapper, of kind 3 the objects.
    fn text(&self, kind: u32, index: usize) -> Option<&str>
        ensures { option_map (λ text. text.now) result ≡ text_at self.now kind index }
    {
        if kind == 0 {
            return Some(self.reason.as_str());
        }
        match &self.outcome {
            Ok(opened) => opened.name(kind, index),
            Err(_) => None,
        }
    }

    /// Copies out the text of a kind and an index: why the profile is not open, the name of a
    /// group, the id of a wrapper, or the objects in JSON: what the profile says for a whole run,
    /// the groups, the scripts, and the warnings of the load.
    pub fn copy_text(&self, kind: u32, index: usize, out: &mut [u8], needed: &mut usize) -> u32
        ensures { IsTextCopied self.now kind index out.old out.new needed.new result }
    {
        match self.text(kind, index) {
            Some(text) => copy_out(text.as_bytes(), out, needed),
            None => {
                *needed = 0;
                UNKNOWN_NUMBER
            }
        }
    }
}
