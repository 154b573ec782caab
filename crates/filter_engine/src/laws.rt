//! Laws of what filters match, in words: no function of the engine is in them.
ghost use Rattle.std.specs.Prelude.{◌≡◌, ◌≤◌, ◌++◌, ℕ, Bool, List, None, codes};
ghost use Rattle.std.specs.Str.Iter.{HasSubslice};
ghost use Rattle.filter_language.specs.Bans.{field_ban};
ghost use Rattle.filter_language.specs.Formula.{Pattern};
ghost use Rattle.filter_language.specs.Values.{package_name};
ghost use Rattle.filter_language.specs.Writing.{SpellsFilled, SpellsRegex, SpellsPattern};
ghost use Rattle.filter_engine.specs.GlobSizes.{glob_size};
ghost use Rattle.filter_engine.specs.Globs.{IsGlob, GlobMatches};
ghost use Rattle.filter_engine.specs.RegexSizes.{most_states, regex_size};
ghost use Rattle.filter_engine.specs.RegexTexts.{IsRegex};
ghost use Rattle.filter_inputs.specs.declared.packages.graph.PackageGraph.{PackageGraph};
ghost use Rattle.filter_inputs.specs.Packages.GraphView.{graph_view};
ghost use Rattle.filter_engine.specs.declared.engine.NextestFilters.{NextestFilters};
ghost use Rattle.filter_engine.specs.declared.engine.Packages.TheVariants.{Known};
ghost use Rattle.filter_engine.specs.Compiling.{reads_packages, compiled_in};
ghost use Rattle.filter_engine.specs.Truth.{HasRegexMatch, IsInDeps, IsInRdeps, PatternMeets, FiltersTellTheTruth, IsReadAs};
ghost use Rattle.nextest_engines.specs.declared.queries.FiltersetKind.{FiltersetKind};

/// A filter that the engine reads matches exactly the tests of which it is true, beside a default
/// filter that it reads: `and`, `or`, `not` and `-` are the logical words, and each predicate says
/// of the name of its field what its sign and its text say.
pub fn law_filters()
    ensures { (engine : NextestFilters) → FiltersTellTheTruth engine }
{}

/// A text of one predicate is read if its pattern compiles and its field is allowed in a filter of
/// the kind, and it matches exactly the tests of which the predicate is true.
pub fn law_predicates()
    ensures { (engine : NextestFilters) (kind : FiltersetKind) (p : Pattern (List ℕ → Bool))
        (spelling : List ℕ) → SpellsPattern (compiled_in engine) p spelling
        → field_ban kind (reads_packages engine.packages) p.field ≡ None
        → IsReadAs engine kind spelling (PatternMeets engine.packages p) }
{}

/// `test(=TEXT)` matches a test exactly if its name is the text.
pub fn law_equality()
    ensures { (engine : NextestFilters) (kind : FiltersetKind) (bytes text : List ℕ)
        → SpellsFilled bytes text
        → IsReadAs engine kind (codes "test(=" ++ (text ++ codes ")")) (λ test. test.name ≡ bytes) }
{}

/// `test(~TEXT)` matches a test exactly if the text is a contiguous part of its name.
pub fn law_substring()
    ensures { (engine : NextestFilters) (kind : FiltersetKind) (bytes text : List ℕ)
        → SpellsFilled bytes text
        → IsReadAs engine kind (codes "test(~" ++ (text ++ codes ")"))
        (λ test. HasSubslice test.name bytes) }
{}

/// `test(#GLOB)` matches a test exactly if the glob takes its whole name.
pub fn law_glob()
    ensures { (engine : NextestFilters) (kind : FiltersetKind) (bytes text : List ℕ)
        → SpellsFilled bytes text → IsGlob bytes → glob_size bytes ≤ most_states
        → IsReadAs engine kind (codes "test(#" ++ (text ++ codes ")"))
        (λ test. GlobMatches bytes test.name) }
{}

/// `test(/REGEX/)` matches a test exactly if a search from the start of its name finds a match of the
/// regular expression.
pub fn law_regex()
    ensures { (engine : NextestFilters) (kind : FiltersetKind) (bytes text : List ℕ)
        → SpellsRegex bytes text → IsRegex bytes → regex_size bytes ≤ most_states
        → IsReadAs engine kind (codes "test(/" ++ (text ++ codes ")"))
        (λ test. HasRegexMatch bytes test.name) }
{}

/// With a package graph, `deps(=NAME)` matches a test exactly if a member of this name reaches the
/// test's package over dependencies, and `rdeps(=NAME)` if the test's package reaches such a member.
/// Each package reaches itself.
pub fn law_deps()
    ensures deps { (engine : NextestFilters) (kind : FiltersetKind) (graph : PackageGraph)
        (bytes text : List ℕ) → engine.packages ≡ Known graph → SpellsFilled bytes text
        → IsReadAs engine kind (codes "deps(=" ++ (text ++ codes ")"))
        (λ test. IsInDeps (graph_view graph) (λ name. name ≡ bytes)
        (package_name test.binary.binary_id)) }
    ensures rdeps { (engine : NextestFilters) (kind : FiltersetKind) (graph : PackageGraph)
        (bytes text : List ℕ) → engine.packages ≡ Known graph → SpellsFilled bytes text
        → IsReadAs engine kind (codes "rdeps(=" ++ (text ++ codes ")"))
        (λ test. IsInRdeps (graph_view graph) (λ name. name ≡ bytes)
        (package_name test.binary.binary_id)) }
{}
