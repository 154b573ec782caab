//! Laws of what filters say.
ghost use Rattle.std.specs.Prelude.{◌≡◌, ◌≤◌, ◌↔◌, ℕ, Bool, Ok, Err, Some, List};
ghost use Rattle.nextest_engines.specs.declared.queries.FiltersetKind.{FiltersetKind};
ghost use Rattle.filter_language.specs.declared.fault.FiltersetFault.{FiltersetFault};
ghost use Rattle.filter_language.specs.Formula.{Formula};
ghost use Rattle.filter_language.specs.Grammar.{Mark, Spells, nesting};
ghost use Rattle.filter_language.specs.Nesting.{Shape, start_shape};
ghost use Rattle.filter_language.specs.Predicates.{Compiler};
ghost use Rattle.filter_language.specs.Filters.{MarkRead, filter_in};
ghost use Rattle.filter_language.specs.FirstFault.{ReadsTo, IsFirstFault, IsWellBegun};
ghost use Rattle.filter_language.specs.Writing.{Writes, WritesFilter, IsFilter};
ghost use Rattle.filter_language.specs.Reading.{read};
ghost use Rattle.filter_language.specs.Values.{value, Subject, answer};
ghost use Rattle.filter_language.specs.Binaries.{MarksSpeakForTests};
ghost use Rattle.filter_language.specs.Evaluation.{marks_value};
ghost use Rattle.filter_language.specs.Truth.{ValuesAreTrue, BinariesSpeakForTests, OnlyTestsAreUnknown, OppositesChangePlaces};

use crate::matchers::Matchers;

/// Marks are read to a filter exactly if they spell it and it nests within the bound.
pub fn law_grammar<E: Matchers>()
    ensures { (marks : List (Mark E.Meaning)) (f : Formula E.Meaning)
        → (read marks ≡ Some f) ↔ (Spells marks f × (nesting f ≤ 128)) }
{}

/// A text is read to marks exactly if it writes them, they write a filter that nests within the
/// bound, and each is allowed in a filter of the kind.
pub fn law_texts<E: Matchers>()
    ensures { (compiler : Compiler E.Meaning) (knows_packages : Bool) (kind : FiltersetKind)
        (text : List ℕ) (marks : List (Mark E.Meaning))
        → (filter_in compiler knows_packages kind text ≡ Ok marks)
        ↔ IsFilter compiler knows_packages kind text marks }
{}

/// A text writes one list of marks at most, and one filter at most.
pub fn law_one_filter<E: Matchers>()
    ensures marks { (compiler : Compiler E.Meaning) (text : List ℕ)
        (marks more : List (Mark E.Meaning))
        → Writes compiler text marks → Writes compiler text more → marks ≡ more }
    ensures filter { (compiler : Compiler E.Meaning) (text : List ℕ) (f g : Formula E.Meaning)
        → WritesFilter compiler text f → WritesFilter compiler text g → f ≡ g }
{}

/// The fault of a text is its first one, from left to right: what is wrong with the first mark that
/// can't be read, or, if the whole text can be read, with the first mark that is not allowed in a
/// filter of the kind. The marks before it are those that the text writes there, and they are the
/// beginning of a filter.
pub fn law_first_fault<E: Matchers>()
    ensures first { (compiler : Compiler E.Meaning) (knows_packages : Bool) (kind : FiltersetKind)
        (text : List ℕ) (fault : FiltersetFault)
        → (filter_in compiler knows_packages kind text ≡ Err fault)
        ↔ IsFirstFault compiler knows_packages kind text fault }
    ensures before { (compiler : Compiler E.Meaning) (knows_packages : Bool) (kind : FiltersetKind)
        (text : List ℕ) (marks : List (MarkRead E.Meaning)) (last : Shape) (end : List ℕ)
        → ReadsTo compiler knows_packages kind start_shape text marks last end
        → IsWellBegun compiler text marks end }
{}

/// What marks say is the value of the filter that they spell.
pub fn law_marks<E: Matchers>()
    ensures { (s : Subject) (marks : List (Mark E.Meaning)) (f : Formula E.Meaning)
        → Spells marks f → nesting f ≤ 128
        → marks_value (answer E.accepts s) marks ≡ value E.accepts s f }
{}

/// The value of a filter at a test is known, and is the truth of the filter.
pub fn law_values<E: Matchers>()
    ensures { ValuesAreTrue E.accepts }
{}

/// The known value of a filter at a binary is its value at each test of the binary.
pub fn law_binaries<E: Matchers>()
    ensures { BinariesSpeakForTests E.accepts }
{}

/// What marks say of a binary, they say of each test of the binary, whether they spell a filter or not.
pub fn law_marks_of_binaries<E: Matchers>()
    ensures { MarksSpeakForTests E.accepts }
{}

/// A filter that needs neither a test nor the default filter has a value for each binary.
pub fn law_decided<E: Matchers>()
    ensures { OnlyTestsAreUnknown E.accepts }
{}

/// `not (a or b)` has the value of `not a and not b`, and `not (a and b)` that of `not a or not b`.
pub fn law_opposites<E: Matchers>()
    ensures { OppositesChangePlaces E.accepts }
{}
