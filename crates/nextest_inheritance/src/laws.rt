//! Laws of parents, chains and cycles.
ghost use Rattle.std.specs.Prelude.{◌≡◌, ◌↔◌, [], List, Bool, true};
ghost use Rattle.std.specs.Cmp.Lexicographic.{slice_cmp};
ghost use Rattle.std.specs.List.{AllByRecursion, IsDistinct};
ghost use Rattle.std.specs.List.Sorted.{IsStrictlySortedBy};
ghost use Rattle.std.specs.Map.{keys_of};
ghost use Rattle.std.specs.Ordering.{nat_cmp};
ghost use Rattle.std.specs.Str.{bytes_eq};
ghost use Rattle.nextest_inheritance.specs.Cycles.{AreCycles, cycles_in};
ghost use Rattle.nextest_inheritance.specs.Faults.{AreSoundParents, inheritance_faults, is_known};
ghost use Rattle.nextest_inheritance.specs.Names.{Name, IsIn};
ghost use Rattle.nextest_inheritance.specs.Parents.{WrittenParents, Parents, parents_in, LeadToDefault, IsChain, HasOneChain};

/// A name has one chain at most. Names that lead from it to `default` repeat none, whatever the
/// parents are.
pub fn law_one_chain_at_most()
    ensures one { (parents : Parents) (name : Name) (chain other : List Name)
        → IsChain parents name chain → IsChain parents name other → other ≡ chain }
    ensures distinct { (parents : Parents) (name : Name) (names : List Name)
        → LeadToDefault parents name names → IsDistinct bytes_eq names }
{}

/// Where parents are sound, and only profiles are known, each profile has one chain, and each name
/// in it is a profile.
pub fn law_each_has_one_chain()
    ensures { (written : WrittenParents) (known : Name → Bool)
        → ((name : Name) → known name ≡ true → IsIn (keys_of written) name)
        → AreSoundParents (parents_in written) known
        → AllByRecursion (HasOneChain (parents_in written) (keys_of written)) (keys_of written) }
{}

/// The cycles that the list of faults names are exactly the cycles, and there is no fault exactly
/// where parents are sound.
pub fn law_faults()
    ensures cycles { (written : WrittenParents)
        → IsStrictlySortedBy (slice_cmp nat_cmp) (keys_of written)
        → AreCycles (parents_in written) (cycles_in written) }
    ensures sound { (lower : Name → Bool) (written : WrittenParents)
        → IsStrictlySortedBy (slice_cmp nat_cmp) (keys_of written)
        → (inheritance_faults lower written ≡ [])
        ↔ AreSoundParents (parents_in written) (is_known lower written) }
{}
