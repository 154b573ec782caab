//! The laws: what commands report of one test agrees.
ghost use Rattle.std.specs.Prelude.{◌≡◌, ℕ, Contains, List, Some, slice_get, string_bytes};
ghost use Rattle.filter_inputs.specs.Lists.ListView.{list_view};
ghost use Rattle.filter_inputs.specs.Lists.Lists.{list_tests};
ghost use Rattle.nextest_elements.specs.declared.setting.Setting.{Setting};
ghost use Rattle.nextest_tables.specs.Written.{Name};
ghost use Rattle.rinqebo_request.specs.declared.files.gathering.Gathered.{Gathered};
ghost use Rattle.rinqebo_laws.specs.Reasons.{AgreesWithRules, HaveKeyIfDecided, HaveOneResult};
ghost use Rattle.rinqebo_laws.specs.Runs.{AgreesWithFilters};
ghost use Rattle.rinqebo_laws.specs.Rows.{AgreeOnTest, AreOneTest, ListsTest, SaySameOfTest};
ghost use Rattle.rinqebo_load.specs.FindTests.{IsFoundFor};
ghost use Rattle.rinqebo_load.specs.FoundTests.{found_view};
ghost use Rattle.rinqebo_load.specs.SessionOf.{IsSessionOf};
ghost use Rattle.rinqebo_load.specs.declared.found_test.FoundTest.{FoundTest};
ghost use Rattle.rinqebo_load.specs.declared.found_test.TestSource.{TestSource};
ghost use Rattle.rinqebo_load.specs.declared.session.Session.{Session};
ghost use Rattle.rinqebo_report.specs.declared.report.Report.{Report};
ghost use Rattle.rinqebo_report.specs.declared.report.SettingRow.{SettingRow};
ghost use Rattle.rinqebo_request.specs.declared.request.Request.{Request};
ghost use Rattle.rinqebo_request.specs.declared.request.RequestedSettings.{RequestedSettings};
ghost use Rattle.rinqebo_request.specs.declared.request.RequestedTest.{RequestedTest};
ghost use Rattle.rinqebo_results.specs.Explained.{Explains, IfExplained};
ghost use Rattle.rinqebo_results.specs.Listed.{IfListed, ReportsTests};
ghost use Rattle.rinqebo_results.specs.ReportsReasons.{IfWhy, ReportsReasons};
ghost use Rattle.rinqebo_results.specs.RunsReasons.{ReportsRunsReasons};

/// What `explain --why` and `explain` report of a setting of a test agree, in one session, profile
/// and mode. At most one rule decides. If one does, the value is what that rule writes, and it
/// comes from the place of the key in that rule. If none does, the value and the origins are those
/// of the fallback, and come from the chain of profiles; of a run wrapper, which has neither, the
/// fallback is built in, and `explain` reports no origins. If no keys are requested, `explain`
/// reports the setting exactly if some rule decides.
pub fn law_why_agrees()
    ensures one { (session : Session) (profile : Name) (test : FoundTest) (s : Setting)
        (why : Report) → ReportsReasons session profile test s why
        → IfWhy why.content (λ named key rules ignored. HaveOneResult rules) }
    ensures agrees { (request : Request) (gathered : Gathered) (session : Session)
        (profile : Name) (test other : FoundTest) (s : Setting) (asked : RequestedSettings)
        (why explained : Report) → IsSessionOf request gathered session → AreOneTest test other
        → ReportsReasons session profile test s why
        → Explains session profile other asked explained
        → IfWhy why.content (λ named key rules ignored. IfExplained explained.content
        (λ told. (row : SettingRow) → Contains told.settings.items row
        → string_bytes row.key ≡ key
        → AgreesWithRules session profile s test.mode rules row)) }
    ensures listed { (session : Session) (profile : Name) (test other : FoundTest) (s : Setting)
        (why explained : Report) → AreOneTest test other
        → ReportsReasons session profile test s why
        → Explains session profile other RequestedSettings.Decided explained
        → IfWhy why.content (λ named key rules ignored. IfExplained explained.content
        (λ told. HaveKeyIfDecided rules told.settings.items key)) }
{}

/// What `explain --why runs` and `explain` report of whether a test runs agree, in one session,
/// profile and mode. At most one override decides. If one does, the test runs exactly if the
/// default filter of this override matches it and no list marks it as ignored, and that comes from
/// the place of the filter. If none does, the same is so of the default filter of the chain of
/// profiles, and both report the same origins of it.
pub fn law_why_runs_agrees()
    ensures one { (session : Session) (profile : Name) (test : FoundTest) (why : Report)
        → ReportsRunsReasons session profile test why
        → IfWhy why.content (λ named key rules ignored. HaveOneResult rules) }
    ensures agrees { (request : Request) (gathered : Gathered) (session : Session)
        (profile : Name) (test other : FoundTest) (asked : RequestedSettings)
        (why explained : Report) → IsSessionOf request gathered session → AreOneTest test other
        → ReportsRunsReasons session profile test why
        → Explains session profile other asked explained
        → IfWhy why.content (λ named key rules ignored. IfExplained explained.content
        (λ told. AgreesWithFilters session profile ignored rules told.runs)) }
{}

/// What a list and `explain` report of a test of the list agree, in one session, profile and mode:
/// whether it runs, and the value and the origins of each setting that both report. If the same
/// settings are requested, both report the same settings, in the same order. A test that `explain`
/// finds in a list is a test of the list, and the same one each time.
pub fn law_list_agrees()
    ensures agrees { (request : Request) (gathered : Gathered) (session : Session)
        (profile : Name) (test : FoundTest) (asked others : RequestedSettings)
        (listed explained : Report) (n : ℕ) → IsSessionOf request gathered session
        → ReportsTests session profile test.mode asked listed
        → Explains session profile test others explained
        → slice_get (list_tests (list_view session.tests)) n ≡ Some (found_view test)
        → IfListed listed.content (λ tests unused scripts objects.
        IfExplained explained.content (λ told. ListsTest tests n (AgreeOnTest told))) }
    ensures same { (request : Request) (gathered : Gathered) (session : Session)
        (profile : Name) (test : FoundTest) (asked : RequestedSettings)
        (listed explained : Report) (n : ℕ) → IsSessionOf request gathered session
        → ReportsTests session profile test.mode asked listed
        → Explains session profile test asked explained
        → slice_get (list_tests (list_view session.tests)) n ≡ Some (found_view test)
        → IfListed listed.content (λ tests unused scripts objects.
        IfExplained explained.content (λ told. ListsTest tests n (SaySameOfTest told))) }
    ensures found { (session : Session) (requested : RequestedTest) (found : FoundTest)
        → IsFoundFor session requested found → found.source ≡ TestSource.List
        → (n : ℕ) × (slice_get (list_tests (list_view session.tests)) n
        ≡ Some (found_view found)) }
    ensures one { (session : Session) (requested : RequestedTest) (found other : FoundTest)
        → IsFoundFor session requested found → IsFoundFor session requested other
        → found.source ≡ TestSource.List → AreOneTest found other }
{}
