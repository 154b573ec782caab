//! Who owns a name.
ghost use Rattle.std.specs.Cmp.{partial_equiv_from_equiv};
ghost use Rattle.nextest_elements.specs.Owner.{is_same_owner};
ghost use Rattle.nextest_elements.specs.OwnerEquality.{owner_equiv};
ghost use Rattle.nextest_elements.specs.OwnerView.{owner_view};

/// Who owns a name, and so may define it.
#[derive(Clone, Copy, Debug)]
pub enum IdentifierOwner<'a> {
    /// Nobody: any file of the repository defines it.
    Nobody,
    /// The organisation.
    Organisation,
    /// The tool of this name.
    Tool(&'a str),
}

impl PartialEq for IdentifierOwner<'_> {
    ghost eq = { λ a b. is_same_owner (owner_view a) (owner_view b) };

    ghost laws = { partial_equiv_from_equiv owner_equiv };

    fn eq(&self, other: &Self) -> bool {
        match self {
            IdentifierOwner::Nobody => matches!(other, IdentifierOwner::Nobody),
            IdentifierOwner::Organisation => matches!(other, IdentifierOwner::Organisation),
            IdentifierOwner::Tool(tool) => match other {
                IdentifierOwner::Tool(other_tool) => *tool == *other_tool,
                IdentifierOwner::Nobody | IdentifierOwner::Organisation => false,
            },
        }
    }
}

impl Eq for IdentifierOwner<'_> {
    ghost laws = { owner_equiv };
}
