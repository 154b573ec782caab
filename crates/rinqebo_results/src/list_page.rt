//! The page of a list. The program writes it test after test, as it resolves them.
ghost use Rattle.std.specs.Prelude.{◌≡◌, ◌<◌, ◌^◌, ◌++◌, ◌∷◌, [], IfErr, IfOk, List, OnOk, length, map, string_bytes};
ghost use Rattle.std.specs.Io.KnownBytes.{Appends};
ghost use Rattle.filter_language.specs.Filtersets.{marks_view};
ghost use Rattle.nextest_engines.specs.Engines.{test_view};
ghost use Rattle.filter_engine.specs.Compiling.{names_of};
ghost use Rattle.filter_engine.specs.Engine.{Filter, filter_holds};
ghost use Rattle.nextest_inheritance.specs.Parents.{parents_in};
ghost use Rattle.nextest_inheritance.specs.View.{borrowed_view};
ghost use Rattle.nextest_load.specs.Config.{config_parents};
ghost use Rattle.nextest_settings.specs.Profiles.Meaning.{profile_meaning};
ghost use Rattle.nextest_settings.specs.Profiles.Profiles.{IsChainAndDefault};
ghost use Rattle.nextest_settings.specs.Deciding.{QueryContext};
ghost use Rattle.nextest_settings.specs.Queries.{query_in};
ghost use Rattle.nextest_tables.specs.FileTexts.{names_in, IsIn};
ghost use Rattle.filter_inputs.specs.Lists.ListView.{list_test_view, list_view};
ghost use Rattle.filter_inputs.specs.Lists.Lists.{all_tests, list_tests};
ghost use Rattle.rinqebo_rules.specs.Conditions.{is_met_by};
ghost use Rattle.rinqebo_rules.specs.Unused.{AreUsedIn};
ghost use Rattle.rinqebo_report.specs.Headers.{list_head_runs};
ghost use Rattle.rinqebo_report.specs.Pieces.{page_text};
ghost use Rattle.rinqebo_results.specs.Listed.{IsProfileOn};
ghost use Rattle.rinqebo_results.specs.ListedBy.{basis_of, places_of, read_by};
ghost use Rattle.rinqebo_results.specs.Begun.{AreFirstWritten, AreWritten};
ghost use Rattle.rinqebo_results.specs.Prefixes.{AppendsPrefix};
ghost use Rattle.rinqebo_results.specs.Written.{AreFirstBy, EndsPage, ShowsTest, StopsList, WritesPage, WritesRest};
ghost use Rattle.rinqebo_results.specs.declared.list_stop.ListStop.TheVariants as faults;

use crate::asked::requested_of;
use crate::list_origins::unused_origins;
use crate::list_report::{Profile, profile_on};
use crate::list_scripts::scripts_by_used;
use crate::list_stop::ListStop;
use crate::streams::{write_bytes, write_whole};
use filter_engine::{NextestFilters, NextestTally};
use filter_inputs::ListedTest;
use nextest_config::NextestRunMode;
use platform_language::TargetSpecs;
use rinqebo_load::{Config, Session, chain_of_profile};
use rinqebo_origins::Origins;
use rinqebo_report::{Asked, Paper, Report, render_list_end, render_list_head, render_listed};
use rinqebo_request::RequestedSettings;
use rinqebo_rules::{Lister, Listing, Progress, UnusedRules, UsedRules};
use std::alloc::{AllocError, Global};
use std::io::Write;

/// Resolves the tests of a list.
type TestLister<'l, 'c> = Lister<'l, 'c, NextestFilters, TargetSpecs>;

/// Resolves the tests of a list in turn.
type TestListing<'l, 'c> = Listing<'l, 'c, NextestFilters, TargetSpecs>;

/// The request of a list.
#[derive(Clone, Copy)]
pub struct RequestedList<'q> {
    /// The name of the profile.
    pub profile: &'q str,
    /// What the tests are run for.
    pub mode: NextestRunMode,
    /// Which settings are reported.
    pub settings: &'q RequestedSettings,
}

/// The page of a list.
#[derive(Clone, Copy)]
pub struct ListPage<'c, 'g> {
    pub session: &'c Session<'g>,
    /// The configuration that the session loaded.
    pub config: &'c Config,
    pub list: RequestedList<'c>,
    /// The report that the page shows, without its content.
    pub head: &'c Report,
    /// What the page is written on.
    pub paper: Paper,
}

/// Writes a text.
pub fn write_text<W: Write>(text: &str, out: &mut W) -> Result<(), ListStop>
    ensures ok { OnOk result (Appends (W.contents out.old) (W.contents out.new) text.now) }
    ensures err { IfErr result (λ fault. fault ≡ faults.Write) }
    ensures begun { AppendsPrefix (W.contents out.old) (W.contents out.new) text.now }
{
    write_bytes(text.as_bytes(), out)?;
    Ok(())
}

/// Writes the last text of a page.
pub fn write_last<W: Write>(text: &str, out: &mut W) -> Result<(), ListStop>
    ensures ok { OnOk result (Appends (W.contents out.old) (W.contents out.new) text.now) }
    ensures err { IfErr result (λ fault. fault ≡ faults.Write) }
    ensures begun { AppendsPrefix (W.contents out.old) (W.contents out.new) text.now }
{
    write_whole(text, out)?;
    Ok(())
}

impl<'c> ListPage<'c, '_> {
    /// Resolves a test, and returns its lines. Adds it to the tests for which rules hold.
    fn test_text(
        &self,
        alloc: Global,
        listing: &mut TestListing<'_, 'c>,
        test: &ListedTest<'_>,
        used: &mut UsedRules,
        tally: &mut NextestTally,
        origins: &mut Origins<'_, '_, 'c>,
    ) -> Result<String, AllocError>
        ensures lister { listing.new.lister ≡ listing.old.lister }
        ensures same { origins.new ≡ origins.old }
        ensures shown { let asking = listing.old.lister in
            let profile = profile_meaning (marks_view names_of) asking.profile.now in
            IfOk result (λ text. ShowsTest origins.old
            (query_in filter_holds profile (test_view test.now.query)) asking.mode profile
            asking.asked.now (list_test_view test.now) self.now.head.now self.now.paper
            (string_bytes text)) }
        ensures used { (tests : List (QueryContext Filter))
            → let asking = listing.old.lister in
            let profile = profile_meaning (marks_view names_of) asking.profile.now in
            let query = query_in filter_holds profile (test_view test.now.query) in
            AreUsedIn tests asking.mode profile used.old
            → IfOk result (λ _. AreUsedIn (tests ++ query ∷ []) asking.mode profile used.new) }
    {
        let rows = listing.next_test(alloc, test, used, tally, origins)?;
        let text = render_listed(alloc, self.head, self.paper, &rows)?;
        Ok(text)
    }

    /// Writes the tests one after another, and returns which rules of the profile hold for some of
    /// them. The rows of a test are dropped once they are written.
    fn write_tests<O: Write, P: Progress>(
        &self,
        alloc: Global,
        asking: &TestLister<'_, 'c>,
        listed: &[ListedTest<'_>],
        origins: &mut Origins<'_, '_, 'c>,
        progress: &mut P,
        out: &mut O,
    ) -> Result<UsedRules, ListStop>
        ensures tests { IfOk result (λ _. AreWritten origins.old filter_holds asking.now.mode
            (profile_meaning (marks_view names_of) asking.now.profile.now) asking.now.asked.now
            (map list_test_view listed.now) self.now.head.now self.now.paper
            (O.contents out.old) (O.contents out.new)) }
        ensures used { let profile = profile_meaning (marks_view names_of)
            asking.now.profile.now in
            IfOk result (AreUsedIn (map (query_in filter_holds profile)
            (map (λ t. t.test) (map list_test_view listed.now))) asking.now.mode profile) }
        ensures err { IfErr result (StopsList (λ _. ⊥) (AreFirstWritten origins.old filter_holds
            asking.now.mode (profile_meaning (marks_view names_of) asking.now.profile.now)
            asking.now.asked.now (map list_test_view listed.now) self.now.head.now self.now.paper
            (O.contents out.old)) (λ _. ⊥) (O.contents out.old) (O.contents out.new)) }
    {
        let mut tally = NextestTally::new();
        let mut used = asking.before_tests(alloc)?;
        let mut listing = asking.in_turn();
        for (place, test) in listed.iter().enumerate() {
            let text = self.test_text(alloc, &mut listing, test, &mut used, &mut tally, origins)?;
            write_text(text.as_str(), out)?;
            progress.asked(place + 1, listed.len());
        }
        Ok(used)
    }

    /// Writes the tests by a profile on the platforms of the build, and returns how many there are
    /// and which rules of the profile hold for some of them.
    fn write_rows<O: Write, P: Progress>(
        &self,
        alloc: Global,
        chain: &[&str],
        on: &Profile<'c>,
        progress: &mut P,
        out: &mut O,
    ) -> Result<(usize, UsedRules), ListStop>
        ensures tests { IfOk result (λ _. AreWritten
            (basis_of self.now.session.now (borrowed_view chain.now)) filter_holds
            self.now.list.mode (profile_meaning (marks_view names_of) on.now)
            self.now.list.settings.now
            (list_tests (list_view self.now.session.now.tests)) self.now.head.now self.now.paper
            (O.contents out.old) (O.contents out.new)) }
        ensures count { IfOk result (λ end.
            end.0 ≡ length (list_tests (list_view self.now.session.now.tests))) }
        ensures fits { IfOk result (λ end. end.0 < 2 ^ 63) }
        ensures used { let profile = profile_meaning (marks_view names_of) on.now in
            IfOk result (λ end. AreUsedIn (map (query_in filter_holds profile)
            (all_tests (list_view self.now.session.now.tests))) self.now.list.mode profile end.1) }
        ensures err { IfErr result (StopsList (λ _. ⊥) (AreFirstWritten
            (basis_of self.now.session.now (borrowed_view chain.now)) filter_holds
            self.now.list.mode (profile_meaning (marks_view names_of) on.now)
            self.now.list.settings.now
            (list_tests (list_view self.now.session.now.tests)) self.now.head.now self.now.paper
            (O.contents out.old)) (λ _. ⊥) (O.contents out.old) (O.contents out.new)) }
    {
        let asking = Lister {
            profile: on,
            mode: self.list.mode,
            asked: self.list.settings,
        };
        let tests = self.session.tests.tests(alloc)?;
        let mut origins = Origins::new(alloc, &self.session.layers, chain);
        let used = self.write_tests(alloc, &asking, &tests, &mut origins, progress, out)?;
        Ok((tests.len(), used))
    }

    /// Writes the header: what the user requests.
    fn write_head<O: Write>(
        &self,
        alloc: Global,
        asked: &Asked,
        out: &mut O,
    ) -> Result<(), ListStop>
        ensures ok { OnOk result (Appends (O.contents out.old) (O.contents out.new)
            (page_text self.now.paper.colour (list_head_runs self.now.paper.columns asked.now))) }
        ensures err { IfErr result (StopsList (λ _. ⊥) (λ _. ⊥)
            (λ whole. Appends (O.contents out.old) whole
            (page_text self.now.paper.colour (list_head_runs self.now.paper.columns asked.now)))
            (O.contents out.old) (O.contents out.new)) }
    {
        let text = render_list_head(alloc, asked, self.paper)?;
        write_text(text.as_str(), out)?;
        Ok(())
    }

    /// Writes the lines behind the tests: how many there are, and the rules that hold for none.
    fn write_end<O: Write>(
        &self,
        alloc: Global,
        count: u64,
        unused: &UnusedRules<'_>,
        out: &mut O,
    ) -> Result<(), ListStop>
        ensures ok { OnOk result (EndsPage self.now.session.now self.now.head.now self.now.paper
            count (places_of unused.now) (O.contents out.old) (O.contents out.new)) }
        ensures err { IfErr result (StopsList (λ _. ⊥) (λ _. ⊥) (EndsPage self.now.session.now
            self.now.head.now self.now.paper count (places_of unused.now) (O.contents out.old))
            (O.contents out.old) (O.contents out.new)) }
    {
        let origins = unused_origins(alloc, &self.session.layers, unused)?;
        let text = render_list_end(alloc, self.head, self.paper, count, &origins)?;
        write_last(text.as_str(), out)?;
        Ok(())
    }

    /// Writes the tests by a profile on the platforms of the build, and the lines behind them. The
    /// report of a list has its scripts too, which the page does not show.
    fn write_rest<O: Write, P: Progress>(
        &self,
        alloc: Global,
        chain: &[&str],
        on: &Profile<'c>,
        progress: &mut P,
        out: &mut O,
    ) -> Result<(), ListStop>
        ensures ok { OnOk result (WritesRest self.now.session.now (borrowed_view chain.now)
            (profile_meaning (marks_view names_of) on.now) self.now.list.mode
            self.now.list.settings.now self.now.head.now self.now.paper
            (O.contents out.old) (O.contents out.new)) }
        ensures err { IfErr result (StopsList (λ _. ⊥) (AreFirstWritten
            (basis_of self.now.session.now (borrowed_view chain.now)) filter_holds
            self.now.list.mode (profile_meaning (marks_view names_of) on.now)
            self.now.list.settings.now (list_tests (list_view self.now.session.now.tests))
            self.now.head.now self.now.paper (O.contents out.old))
            (WritesRest self.now.session.now (borrowed_view chain.now)
            (profile_meaning (marks_view names_of) on.now) self.now.list.mode
            self.now.list.settings.now self.now.head.now self.now.paper (O.contents out.old))
            (O.contents out.old) (O.contents out.new)) }
    {
        let (count, used) = self.write_rows(alloc, chain, on, progress, out)?;
        let rules = used.unused(alloc, on)?;
        scripts_by_used(alloc, self.session, on, &used)?;
        self.write_end(alloc, count as u64, &rules, out)
    }

    /// Writes the page by a profile on the platforms of the build.
    fn write_on<O: Write, P: Progress>(
        &self,
        alloc: Global,
        chain: &[&str],
        on: &Profile<'c>,
        progress: &mut P,
        out: &mut O,
    ) -> Result<(), ListStop>
        requires is_chain { IsChainAndDefault
            (parents_in (config_parents self.now.config.now.config)) self.now.list.profile.now
            (borrowed_view chain.now) }
        requires is_profile { IsProfileOn is_met_by self.now.session.now.engines.platforms
            (read_by self.now.session.now self.now.config.now) self.now.list.profile.now on.now }
        ensures ok { OnOk result (WritesPage self.now.session.now self.now.config.now
            self.now.list.profile.now self.now.list.mode self.now.list.settings.now
            self.now.head.now self.now.paper (O.contents out.old) (O.contents out.new)) }
        ensures err { IfErr result (StopsList (λ _. ⊥) (AreFirstBy self.now.session.now
            self.now.config.now self.now.list.profile.now self.now.list.mode
            self.now.list.settings.now self.now.paper (O.contents out.old))
            (WritesPage self.now.session.now self.now.config.now self.now.list.profile.now
            self.now.list.mode self.now.list.settings.now self.now.head.now self.now.paper
            (O.contents out.old)) (O.contents out.old) (O.contents out.new)) }
    {
        let asked = requested_of(
            alloc,
            self.session,
            self.list.profile,
            chain,
            self.list.mode,
        )?;
        self.write_head(alloc, &asked, out)?;
        self.write_rest(alloc, chain, on, progress, out)
    }

    /// Writes the page.
    pub fn write<O: Write, P: Progress>(
        &self,
        alloc: Global,
        progress: &mut P,
        out: &mut O,
    ) -> Result<(), ListStop>
        requires { IsIn (names_in self.now.config.now.config.profiles) self.now.list.profile.now }
        ensures ok { OnOk result (WritesPage self.now.session.now self.now.config.now
            self.now.list.profile.now self.now.list.mode self.now.list.settings.now
            self.now.head.now self.now.paper (O.contents out.old) (O.contents out.new)) }
        ensures err { IfErr result (StopsList (λ _. ⊥) (AreFirstBy self.now.session.now
            self.now.config.now self.now.list.profile.now self.now.list.mode
            self.now.list.settings.now self.now.paper (O.contents out.old))
            (WritesPage self.now.session.now self.now.config.now self.now.list.profile.now
            self.now.list.mode self.now.list.settings.now self.now.head.now self.now.paper
            (O.contents out.old)) (O.contents out.old) (O.contents out.new)) }
    {
        let chain = chain_of_profile(alloc, self.config, self.list.profile)?;
        let on = profile_on(alloc, self.session, self.config, self.list.profile)?;
        self.write_on(alloc, &chain, &on, progress, out)
    }
}
