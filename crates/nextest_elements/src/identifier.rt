//! Names that a configuration defines, and the names of tools.
ghost use Rattle.std.specs.Prelude.{◌≡◌, ◌↔◌, ◌≢◌, IsTrue, IsFalse, IfOk, OnOk, IfErr, IfSome, IfNone, Err, string_bytes, is_ok, ◌==◌, drop, length};
ghost use Rattle.std.specs.List.{position_or_len};
ghost use Rattle.nextest_elements.specs.Identifier.{IsPart, HasOrganisationPart, HasToolParts, IsOrganisationIdentifier, IsToolIdentifier, IsIdentifier, HasPartFlaw, HasFlaw, is_part, is_identifier, has_organisation_form, has_organisation_prefix, has_tool_form, has_tool_prefix, organisation_name_of, tool_of, name_of};

use std::alloc::Global;
use std::marker::Model;
use thiserror::Error;

mod name_text;
mod owner;
mod tool_name;
mod traits;

use name_text::NameText;
pub use owner::IdentifierOwner;
pub use tool_name::ToolName;

/// Why a text is not an identifier, or not the name of a tool.
#[derive(Clone, Copy, Debug, PartialEq, Eq, Error)]
pub enum InvalidIdentifier {
    /// The text is empty.
    #[error("an identifier may not be empty")]
    Empty,

    /// The first character cannot begin an identifier.
    #[error("an identifier begins with a letter")]
    BadStart,

    /// A character after the first cannot be part of an identifier.
    #[error("an identifier consists of letters, digits, `_` and `-`")]
    BadCharacter,

    /// The text begins with `@tool:`, and what follows is not a tool's name, a colon and a name.
    #[error("an identifier of a tool has the form `@tool:<tool name>:<name>`")]
    BadToolForm,

    /// The text begins with `@org:`, and what follows is not a name.
    #[error("an identifier of the organisation has the form `@org:<name>`")]
    BadOrganisationForm,

    /// Memory ran out.
    #[error("out of memory")]
    Memory,
}

/// The name of a group or of a script, as `build-db`, `@org:build-db` or `@tool:my-tool:build-db`.
#[derive(Debug, Drop, PartialEq, Eq, PartialOrd, Ord, Hash)]
pub struct ConfigIdentifier {
    text: NameText,
}

impl Model for ConfigIdentifier {
    ghost use Rattle.std.specs.Prelude.{ℕ, List};
    ghost use Rattle.nextest_elements.specs.Identifier.{IsIdentifier};

    ghost Value = { List ℕ };

    ghost view = { λ identifier. identifier.text };

    ghost invariant = { λ identifier. IsIdentifier identifier.text };

    ghost inverse = { λ text. record { text = text } };
}

impl ConfigIdentifier {
    ghost use Rattle.nextest_elements.specs.IdentifierText.{identifier_text};
    ghost use Rattle.nextest_elements.specs.Owner.{owner_of_name};
    ghost use Rattle.nextest_elements.specs.OwnerView.{owner_view};

    /// Makes an identifier of a text.
    ///
    /// A text with several flaws is refused for one of them.
    #[tactic(auto, using(crate::proofs::Identifiers::is_identifier_law))]
    pub fn new(alloc: Global, text: &str) -> Result<Self, InvalidIdentifier>
        ensures text { IfOk result (λ identifier. identifier_text identifier ≡ text.now) }
        ensures ok { OnOk result (IsIdentifier text.now) }
        ensures refused { IfErr result
            (λ e. e ≢ InvalidIdentifier.Memory → ¬ IsIdentifier text.now) }
        ensures refused_by_test { IfErr result
            (λ e. e ≢ InvalidIdentifier.Memory → IsFalse (is_identifier text.now)) }
        ensures memory { result ≡ Err InvalidIdentifier.Memory → IsIdentifier text.now }
        ensures flaw { IfErr result (λ e. e ≢ InvalidIdentifier.Memory → HasFlaw text.now e) }
        ensures test { IsTrue (is_identifier text.now) ↔ IsIdentifier text.now }
    {
        check_identifier(text)?;
        let text = NameText::new(alloc, text)?;
        Ok(ConfigIdentifier { text })
    }

    /// The text of the identifier.
    pub fn as_str(&self) -> &str
        ensures text { result.now ≡ identifier_text self.now }
        ensures valid { IsIdentifier result.now }
    {
        self.text.as_str()
    }

    /// Whether the identifier is one of a tool, as `@tool:my-tool:build-db`.
    pub fn is_tool_identifier(&self) -> bool
        ensures { IsTrue result ↔ IsToolIdentifier (identifier_text self.now) }
    {
        self.tool_components().is_some()
    }

    /// The tool's name and the name that follows it, where the identifier is one of a tool.
    pub fn tool_components(&self) -> Option<(&str, &str)>
        ensures none { IfNone result (¬ IsToolIdentifier (identifier_text self.now)) }
        ensures parts { IfSome result
            (λ parts. HasToolParts (identifier_text self.now) parts.0.now parts.1.now) }
    {
        split_tool(self.as_str())
    }

    /// Whether the identifier is one of the organisation, as `@org:build-db`. It is none of a tool
    /// then.
    pub fn is_organisation_identifier(&self) -> bool
        ensures verdict { IsTrue result ↔ IsOrganisationIdentifier (identifier_text self.now) }
        ensures no_tool { IsTrue result → ¬ IsToolIdentifier (identifier_text self.now) }
    {
        self.organisation_component().is_some()
    }

    /// The name that follows `@org:`, where the identifier is one of the organisation.
    pub fn organisation_component(&self) -> Option<&str>
        ensures none { IfNone result (¬ IsOrganisationIdentifier (identifier_text self.now)) }
        ensures name { IfSome result
            (λ name. HasOrganisationPart (identifier_text self.now) name.now) }
    {
        split_organisation(self.as_str())
    }

    /// Who owns the name.
    pub fn owner(&self) -> IdentifierOwner<'_>
        ensures { owner_view result ≡ owner_of_name (identifier_text self.now) }
    {
        if self.is_organisation_identifier() {
            return IdentifierOwner::Organisation;
        }
        match self.tool_components() {
            Some((tool, _)) => IdentifierOwner::Tool(tool),
            None => IdentifierOwner::Nobody,
        }
    }
}

#[tactic(auto, using(crate::proofs::Identifiers::plain_identifier, crate::proofs::Identifiers::tool_prefixed_identifier, crate::proofs::Identifiers::organisation_prefixed_identifier))]
fn check_identifier(text: &str) -> Result<(), InvalidIdentifier>
    ensures verdict { is_ok result ≡ is_identifier text.now }
    ensures cause { result ≢ Err InvalidIdentifier.Memory }
    ensures flaw { IfErr result (HasFlaw text.now) }
{
    if has_tool_prefix(text) {
        check_tool_form(text)
    } else if has_organisation_prefix(text) {
        check_organisation_form(text)
    } else {
        check_part(text)
    }
}

/// Looks for the name of a tool and a name around the first colon that follows `@tool:`.
fn check_tool_form(text: &str) -> Result<(), InvalidIdentifier>
    ensures verdict { is_ok result ≡ has_tool_form text.now }
    ensures cause { IfErr result (λ e. e ≡ InvalidIdentifier.BadToolForm) }
{
    match split_tool(text) {
        Some((tool, name)) if is_part(tool) && is_part(name) => Ok(()),
        _ => Err(InvalidIdentifier::BadToolForm),
    }
}

/// Looks for a name behind `@org:`.
fn check_organisation_form(text: &str) -> Result<(), InvalidIdentifier>
    ensures verdict { is_ok result ≡ has_organisation_form text.now }
    ensures cause { IfErr result (λ e. e ≡ InvalidIdentifier.BadOrganisationForm) }
{
    match split_organisation(text) {
        Some(name) if is_part(name) => Ok(()),
        _ => Err(InvalidIdentifier::BadOrganisationForm),
    }
}

fn has_tool_prefix(text: &str) -> bool
    ensures { result ≡ has_tool_prefix text.now }
{
    text.starts_with("@tool:")
}

fn has_organisation_prefix(text: &str) -> bool
    ensures { result ≡ has_organisation_prefix text.now }
{
    text.starts_with("@org:")
}

/// What is behind `@org:`.
fn split_organisation(text: &str) -> Option<&str>
    ensures none { IfNone result (IsFalse (has_organisation_prefix text.now)) }
    ensures prefix { IfSome result (λ _. IsTrue (has_organisation_prefix text.now)) }
    ensures name { IfSome result (λ name. name.now ≡ organisation_name_of text.now) }
{
    text.strip_prefix("@org:")
}

/// What is before and after the first colon that follows `@tool:`.
fn split_tool(text: &str) -> Option<(&str, &str)>
    ensures none { IfNone result (IsTrue (has_tool_prefix text.now)
        → position_or_len (λ byte. byte == 58) (drop 6 text.now) ≡ length (drop 6 text.now)) }
    ensures prefix { IfSome result (λ _. IsTrue (has_tool_prefix text.now)) }
    ensures tool { IfSome result (λ parts. parts.0.now ≡ tool_of text.now) }
    ensures name { IfSome result (λ parts. parts.1.now ≡ name_of text.now) }
{
    text.strip_prefix("@tool:")?.split_once(':')
}

fn is_part(text: &str) -> bool
    ensures { result ≡ is_part text.now }
{
    check_part(text).is_ok()
}

fn check_part(text: &str) -> Result<(), InvalidIdentifier>
    ensures verdict { is_ok result ≡ is_part text.now }
    ensures cause { result ≢ Err InvalidIdentifier.Memory }
    ensures flaw { IfErr result (HasPartFlaw text.now) }
{
    let mut characters = text.chars();
    let Some(first) = characters.next() else {
        return Err(InvalidIdentifier::Empty);
    };
    if !unicode_ident::is_xid_start(first) {
        return Err(InvalidIdentifier::BadStart);
    }
    if !characters.all(|character| unicode_ident::is_xid_continue(character) || character == '-') {
        return Err(InvalidIdentifier::BadCharacter);
    }
    Ok(())
}
