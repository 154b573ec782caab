//! Laws of texts, and of the values of specs.
ghost use Rattle.std.specs.Prelude.{◌≡◌, ◌↔◌, Ok};
ghost use Rattle.platform_language.specs.Expressions.{Spec};
ghost use Rattle.platform_language.specs.Texts.{IsSpec, spec_in};
ghost use Rattle.platform_language.specs.Laws.{AllIsLeast, AnyIsGreatest, LinesAreAmong, ValuesAreKnown, FeaturesChangeNothingKnown, OrderIsFree, OppositesChangePlaces};

/// A text is read to a spec exactly if it writes it.
pub fn law_grammar(text: &str)
    ensures { (s : Spec) → (spec_in text.now ≡ Ok s) ↔ IsSpec text.now s }
{
    let _text = text;
}

/// A text writes one spec at most.
pub fn law_one_spec(text: &str)
    ensures { (s t : Spec) → IsSpec text.now s → IsSpec text.now t → s ≡ t }
{
    let _text = text;
}

/// What `all(..)` says is the least of what its parts say.
pub fn law_least()
    ensures { AllIsLeast }
{}

/// What `any(..)` says is the greatest of what its parts say.
pub fn law_greatest()
    ensures { AnyIsGreatest }
{}

/// A platform has a line exactly if it is among its lines.
pub fn law_lines()
    ensures { LinesAreAmong }
{}

/// Where features are given, or the spec names none, a spec has a known value.
pub fn law_known()
    ensures { ValuesAreKnown }
{}

/// To give a platform's features changes no known value.
pub fn law_features()
    ensures { FeaturesChangeNothingKnown }
{}

/// The order of parts does not matter.
pub fn law_order()
    ensures { OrderIsFree }
{}

/// `not(all(..))` is `any` of the opposites, and `not(any(..))` is `all` of them.
pub fn law_opposites()
    ensures { OppositesChangePlaces }
{}
