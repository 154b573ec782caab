//! The settings of a test of a binary that decides some overrides alone.
ghost use Rattle.std.specs.Prelude.{◌≡◌, ◌∷◌, [], List, Some, length, map, option_map, is_some};
ghost use Rattle.nextest_load.specs.ConfigView.{scripts_view};
ghost use Rattle.nextest_rules.specs.Rules.{at_name};
ghost use Rattle.nextest_settings.specs.Binaries.{AreKnownFor, EvaluatesOpen};
ghost use Rattle.nextest_settings.specs.ChainValues.{AreValues};
ghost use Rattle.nextest_settings.specs.Deciding.{asked_from};
ghost use Rattle.nextest_settings.specs.Engines.{test_query_by};
ghost use Rattle.nextest_settings.specs.Platforms.{rule_text};
ghost use Rattle.nextest_settings.specs.Queries.{deciding_override, origin_by, value_by, wrapping_rule};
ghost use Rattle.nextest_settings.specs.SettingsView.{origin_at, override_at, value_at, wrapper_at, wrapping_use_at};
ghost use Rattle.nextest_settings.specs.View.{KnowsRunWrappers, meant_override, meant_script_rule, override_text_meaning};
ghost use Rattle.nextest_elements.specs.declared.setting.Setting.{Setting};
ghost use Rattle.nextest_tables.specs.Written.{WrittenFields};

use crate::evaluated::EvaluatedRules;
use crate::index::Wrapper;
use crate::pass::open_winners;
use crate::test_settings::{TestSettings, Winners};
use crate::values::ProfileValues;
use crate::wrappers::run_wrapper;
use nextest_elements::{NextestRunMode, TestGroup};
use nextest_engines::{EvalContext, Filters, Specs, Tally, TestQuery};
use nextest_load::ScriptConfig;

impl<'cfg, F: Filters, S: Specs> EvaluatedRules<'cfg, F, S> {
    /// The settings that these rules give a test, over the values of a profile, where of some
    /// overrides it is known whether they hold for the test. Filters of the other overrides and of
    /// script rules are evaluated, and go into the tally in order.
    pub(crate) fn open_settings_for<Source>(
        &self,
        values: ProfileValues<'cfg>,
        scripts: &'cfg ScriptConfig,
        mode: NextestRunMode,
        query: &TestQuery<'_>,
        known: &[Option<bool>],
        tally: &mut F::Tally,
    ) -> TestSettings<'cfg, F, S, Source>
        requires { KnowsRunWrappers (scripts_view scripts.now) self.now.script_rules.items }
        ensures values { let query = test_query_by F.Filters
            self.now.default_filter.expr.now query.now in
            AreKnownFor query (map (meant_override F.meaning) self.now.overrides.items) known.now
            → (fields : List WrittenFields) → AreValues fields values.entry
            → (s : Setting) → value_at result s ≡ value_by query mode
            (map (meant_override F.meaning) self.now.overrides.items)
            (map (meant_script_rule F.meaning) self.now.script_rules.items) fields s }
        ensures origins { let query = test_query_by F.Filters
            self.now.default_filter.expr.now query.now in
            AreKnownFor query (map (meant_override F.meaning) self.now.overrides.items) known.now
            → (s : Setting) → origin_at result s ≡ origin_by query mode
            (map (meant_override F.meaning) self.now.overrides.items)
            (map (meant_script_rule F.meaning) self.now.script_rules.items) s }
        ensures overrides { let query = test_query_by F.Filters
            self.now.default_filter.expr.now query.now in
            AreKnownFor query (map (meant_override F.meaning) self.now.overrides.items) known.now
            → (s : Setting) → option_map (override_text_meaning F.meaning) (override_at result s)
            ≡ option_map rule_text (deciding_override query mode
            (map (meant_override F.meaning) self.now.overrides.items) s) }
        ensures script_rule { let query = test_query_by F.Filters
            self.now.default_filter.expr.now query.now in
            wrapping_use_at result ≡ option_map (λ r. r.writes)
            (wrapping_rule query
            (map (meant_script_rule F.meaning) self.now.script_rules.items)) }
        ensures wrapper { option_map Some (wrapper_at result)
            ≡ option_map (λ id. at_name id (scripts_view scripts.now).wrapper)
            (value_at result Setting.RunWrapper) }
        ensures tally { let query = test_query_by F.Filters
            self.now.default_filter.expr.now query.now in
            EvaluatesOpen known.now (asked_from ((λ w. is_some w.scripts.run_wrapper) ∷ [])
            (length (map (meant_override F.meaning) self.now.overrides.items)) query []
            (map (meant_script_rule F.meaning) self.now.script_rules.items))
            (F.Tally.numbers tally.old) (F.Tally.numbers tally.new) }
    {
        let cx = EvalContext {
            default_filter: self.default_filter.expr,
        };
        let platform = query.binary_query.platform;
        TestSettings {
            values,
            mode,
            global_group: TestGroup::Global,
            winners: Winners {
                slots: open_winners(
                    &self.overrides,
                    self.override_rows(platform, mode),
                    known,
                    mode,
                    query,
                    &cx,
                    tally,
                ),
            },
            run_wrapper: run_wrapper(
                &self.script_rules,
                self.wrapper_rows(platform, Wrapper::Run),
                scripts,
                self.overrides.len(),
                query,
                &cx,
                tally,
            ),
            mark: None,
        }
    }
}
