//! Laws of what is checked of a source.
ghost use Rattle.std.specs.Prelude.{◌≡◌, ◌↔◌, None};
ghost use Rattle.std.specs.Cmp.Lexicographic.{slice_cmp};
ghost use Rattle.std.specs.List.Sorted.{IsStrictlySortedBy};
ghost use Rattle.std.specs.Ordering.{nat_cmp};
ghost use Rattle.nextest_engines.specs.Readings.{readings_view};
ghost use Rattle.nextest_rules.specs.Accepted.{AreAcceptedDefinitions, AreAcceptedRules};
ghost use Rattle.nextest_rules.specs.Definitions.{Features};
ghost use Rattle.nextest_rules.specs.Known.{KnownNames, sets_of};
ghost use Rattle.nextest_rules.specs.Steps.{definition_steps, rule_steps};
ghost use Rattle.nextest_sources.specs.Causes.{NameSet};
ghost use Rattle.nextest_sources.specs.Sources.{Source};
ghost use Rattle.nextest_sources.specs.Steps.{first_fault};
ghost use Rattle.nextest_tables.specs.FileTexts.{FileText, names_in};

use nextest_engines::{Filters, ParseContext, Specs};

/// What a source defines has no fault exactly if it is accepted.
pub fn law_accepted_definitions()
    ensures { (features : Features) (source : Source) (file : FileText)
        → (first_fault (definition_steps features source file) ≡ None)
        ↔ AreAcceptedDefinitions features source file }
{}

/// The rules of a source, whose profiles are sorted by name, have no fault over lower files exactly
/// where they are accepted.
pub fn law_accepted_rules<F: Filters, S: Specs>(_pcx: &ParseContext<'_, F, S>)
    ensures { let engines = readings_view F.Filters S.Specs _pcx.now in
        (lower : NameSet) (known : KnownNames) (source : Source) (file : FileText)
        → IsStrictlySortedBy (slice_cmp nat_cmp) (names_in file.profiles)
        → (first_fault (rule_steps engines lower (sets_of known) source file) ≡ None)
        ↔ AreAcceptedRules engines lower known file }
{}
