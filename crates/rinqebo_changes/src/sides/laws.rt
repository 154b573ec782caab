//! Laws of what two sides have, as contracts.
ghost use Rattle.std.specs.Prelude.{List};
ghost use Rattle.filter_inputs.specs.Lists.Lists.{ListTest as Test};
ghost use Rattle.rinqebo_changes.specs.Sides.Matched.{ArePairs, TestPair as Pairing};
ghost use Rattle.rinqebo_changes.specs.Sides.Own.{AreOwn, NamesOnce};

/// A list has all its own tests, and where it names each test once, its pairs with itself are each
/// of one test.
pub fn law_own_tests()
    ensures { (tests : List Test) (pairs : List Pairing) → NamesOnce tests
        → ArePairs tests tests pairs → AreOwn tests pairs }
{}
