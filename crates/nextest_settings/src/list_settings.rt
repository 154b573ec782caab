//! The settings that a profile gives to a binary which lists its tests.
ghost use Rattle.std.specs.Prelude.{◌≡◌, ◌++◌, map, length, option_map, Some, None};
ghost use Rattle.nextest_load.specs.ConfigView.{scripts_view};
ghost use Rattle.nextest_rules.specs.Rules.{at_name};
ghost use Rattle.nextest_scripts.specs.ScriptTexts.{wrapper_script_view};
ghost use Rattle.nextest_settings.specs.Engines.{binary_query_by};
ghost use Rattle.nextest_settings.specs.ListView.{list_wrapper_at};
ghost use Rattle.nextest_settings.specs.Queries.{AnswerForBinaries, list_wrapper_by, listed_by, listing_rule};
ghost use Rattle.nextest_settings.specs.View.{meant_script_rule, script_rule_ref_view, KnowsListWrappers};

use crate::evaluated::EvaluatedRules;
use crate::index::Wrapper;
use crate::wrappers::{list_wrapper, list_wrapper_rule};
use nextest_engines::{BinaryQuery, EvalContext, Filters, Specs, Tally};
use nextest_load::ScriptConfig;
use nextest_rules::CompiledProfileScripts;
use nextest_scripts::WrapperScriptConfig;

/// The settings of a binary that lists its tests.
#[derive(Drop)]
pub struct ListSettings<'p, Source = ()> {
    list_wrapper: Option<&'p WrapperScriptConfig>,
    /// Always absent: it only names the type.
    mark: Option<Source>,
}

impl<'p> ListSettings<'p> {
    /// Settings without a wrapper, for tests.
    pub fn debug_empty() -> Self
        ensures { list_wrapper_at result ≡ None }
    {
        ListSettings {
            list_wrapper: None,
            mark: None,
        }
    }

    /// Sets the wrapper, for tests.
    pub fn debug_set_list_wrapper(&mut self, wrapper: &'p WrapperScriptConfig)
        ensures { list_wrapper_at self.new ≡ Some (wrapper_script_view wrapper.now) }
    {
        self.list_wrapper = Some(wrapper);
    }
}

impl<'p, Source> ListSettings<'p, Source> {
    /// The script that wraps the binary.
    pub fn list_wrapper(&self) -> Option<&'p WrapperScriptConfig>
        ensures { option_map (λ script. wrapper_script_view script.now) result
            ≡ list_wrapper_at self.now }
    {
        self.list_wrapper
    }
}

impl<'cfg, F: Filters, S: Specs> EvaluatedRules<'cfg, F, S> {
    /// The settings that these rules give a binary. Script rules whose filters are evaluated go
    /// into the tally, numbered on from the overrides.
    pub fn list_settings_for<Source>(
        &self,
        scripts: &'cfg ScriptConfig,
        query: &BinaryQuery<'_>,
        tally: &mut F::Tally,
    ) -> ListSettings<'cfg, Source>
        requires known { KnowsListWrappers (scripts_view scripts.now)
            self.now.script_rules.items }
        requires answers { AnswerForBinaries F.holds_binary
            (map (meant_script_rule F.meaning) self.now.script_rules.items) }
        ensures wrapper { let query = binary_query_by F.Filters
            self.now.default_filter.expr.now query.now in
            option_map Some (list_wrapper_at result)
            ≡ option_map (λ id. at_name id (scripts_view scripts.now).wrapper)
            (list_wrapper_by query
            (map (meant_script_rule F.meaning) self.now.script_rules.items)) }
        ensures tally { let query = binary_query_by F.Filters
            self.now.default_filter.expr.now query.now in
            F.Tally.numbers tally.new ≡ F.Tally.numbers tally.old
            ++ listed_by query (length self.now.overrides.items)
            (map (meant_script_rule F.meaning) self.now.script_rules.items) }
    {
        let cx = EvalContext {
            default_filter: self.default_filter.expr,
        };
        ListSettings {
            list_wrapper: list_wrapper(
                &self.script_rules,
                self.wrapper_rows(query.platform, Wrapper::List),
                scripts,
                self.overrides.len(),
                query,
                &cx,
                tally,
            ),
            mark: None,
        }
    }

    /// The script rule that names the list wrapper of a binary: the first one that matches it and
    /// names one. Script rules whose filters are evaluated go into the tally, numbered on from the
    /// overrides.
    pub fn list_wrapper_rule(
        &self,
        query: &BinaryQuery<'_>,
        tally: &mut F::Tally,
    ) -> Option<&'cfg CompiledProfileScripts<F, S>>
        requires { AnswerForBinaries F.holds_binary
            (map (meant_script_rule F.meaning) self.now.script_rules.items) }
        ensures rule { let query = binary_query_by F.Filters
            self.now.default_filter.expr.now query.now in
            option_map (λ rule. (script_rule_ref_view rule).writes) result
            ≡ option_map (λ rule. rule.writes)
            (listing_rule query (map (meant_script_rule F.meaning) self.now.script_rules.items)) }
        ensures tally { let query = binary_query_by F.Filters
            self.now.default_filter.expr.now query.now in
            F.Tally.numbers tally.new ≡ F.Tally.numbers tally.old
            ++ listed_by query (length self.now.overrides.items)
            (map (meant_script_rule F.meaning) self.now.script_rules.items) }
    {
        let cx = EvalContext {
            default_filter: self.default_filter.expr,
        };
        let rows = self.wrapper_rows(query.platform, Wrapper::List);
        let first = self.overrides.len();
        match list_wrapper_rule(&self.script_rules, rows, first, query, &cx, tally) {
            Some(found) => Some(found.rule),
            None => None,
        }
    }
}
