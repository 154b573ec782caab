//! Laws of identifiers.
ghost use Rattle.std.specs.Prelude.{◌≡◌, ◌↔◌, ℕ, List, Some};
ghost use Rattle.nextest_elements.specs.Identifier.{Form, HasForm, HasToolParts, IsOrganisationIdentifier, IsToolIdentifier, form_of};
ghost use Rattle.nextest_elements.specs.Owner.{nobody, the_organisation, a_tool, owner_of_name};

/// The form of a text is exactly the one that the grammar gives it.
pub fn law_form()
    ensures { (text : List ℕ) (form : Form) → (form_of text ≡ Some form) ↔ HasForm text form }
{}

/// A tool and the organisation own exactly their identifiers, and nobody owns exactly the names
/// that are neither's.
pub fn law_owner()
    ensures tool { (name tool : List ℕ)
        → (owner_of_name name ≡ a_tool tool) ↔ ((part : List ℕ) × HasToolParts name tool part) }
    ensures organisation { (name : List ℕ)
        → (owner_of_name name ≡ the_organisation) ↔ IsOrganisationIdentifier name }
    ensures nobody { (name : List ℕ) → (owner_of_name name ≡ nobody)
        ↔ ((¬ IsToolIdentifier name) × (¬ IsOrganisationIdentifier name)) }
{}
