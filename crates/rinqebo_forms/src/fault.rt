//! Faults of requests.
use filter_inputs::fields::{JsonField, Misfit};
use serde_json::Value;
use std::alloc::{AllocError, AllocFailed};
use std::fmt;
use thiserror::Error;

/// The object in a request that has a key.
#[derive(Clone, Copy, Debug, PartialEq, Eq, Drop)]
pub enum Holder {
    /// The request itself.
    Request,
    /// The repository's own file.
    File,
    /// The file that a user names in place of the repository's own.
    ConfigFile,
    /// The organisation's file.
    OrganisationConfigFile,
    /// The file of a tool, by its index.
    Tool(usize),
    /// The experimental features.
    Features,
    /// The host.
    Host,
    /// The target.
    Target,
}

impl fmt::Display for Holder {
    fn fmt<W: fmt::Write>(&self, f: &mut fmt::Formatter<W>) -> fmt::Result {
        match self {
            Holder::Request => Ok(()),
            Holder::File => f.write_str("file."),
            Holder::ConfigFile => f.write_str("config-file."),
            Holder::OrganisationConfigFile => f.write_str("organisation-config-file."),
            Holder::Tool(place) => write!(f, "tools[{place}]."),
            Holder::Features => f.write_str("features."),
            Holder::Host => f.write_str("host."),
            Holder::Target => f.write_str("target."),
        }
    }
}

impl Holder {
    ghost use Rattle.std.specs.Prelude.{◌≡◌};

    /// Returns the path of a key of the object.
    pub fn at(self, key: &'static str) -> FieldPlace
        ensures { result.key.now ≡ key.now }
    {
        FieldPlace { holder: self, key }
    }
}

/// The path of a value in a request.
#[derive(Clone, Copy, Debug, PartialEq, Eq, Drop)]
pub struct FieldPlace {
    /// The object that has the key.
    pub holder: Holder,
    /// The key.
    pub key: &'static str,
}

impl fmt::Display for FieldPlace {
    fn fmt<W: fmt::Write>(&self, f: &mut fmt::Formatter<W>) -> fmt::Result {
        write!(f, "{}{}", self.holder, self.key)
    }
}

impl FieldPlace {
    ghost use Rattle.std.specs.Prelude.{◌≡◌};
    ghost use Rattle.serde_json.specs.Find.{get};
    ghost use Rattle.serde_json.specs.View.{view};
    ghost use Rattle.filter_inputs.specs.Fields.Fields.{found_at};

    /// Returns the field at the path, of the object that has the key.
    pub(crate) fn of(self, value: &Value) -> JsonField<'_, FieldPlace>
        ensures { found_at result ≡ get self.key.now (view value.now) }
    {
        JsonField::under(value, self.key, self)
    }
}

/// The value that is wanted at a path.
#[derive(Clone, Copy, Debug, PartialEq, Eq, Drop)]
pub enum ExpectedValue {
    /// A JSON value of a type.
    Value(filter_inputs::fields::Wanted),
    /// The name of a tool.
    ToolName,
    /// The outcome of reading a file.
    Outcome,
    /// The mode of a run.
    Mode,
}

impl fmt::Display for ExpectedValue {
    fn fmt<W: fmt::Write>(&self, f: &mut fmt::Formatter<W>) -> fmt::Result {
        match self {
            ExpectedValue::Value(wanted) => write!(f, "{wanted}"),
            ExpectedValue::ToolName => f.write_str("the name of a tool"),
            ExpectedValue::Outcome => f.write_str("text, not-found, not-a-directory or failed"),
            ExpectedValue::Mode => f.write_str("test or benchmark"),
        }
    }
}

/// Why no request can be read from a text.
#[derive(Clone, Copy, Debug, PartialEq, Eq, Drop, Error)]
pub enum RequestFault {
    /// The text isn't JSON.
    #[error("the request is not valid JSON")]
    NotJson,
    /// The value at the path isn't the one that is wanted, or is missing.
    #[error("expected {0} at `{1}`")]
    Expected(ExpectedValue, FieldPlace),
    /// An allocation failed.
    #[error("out of memory")]
    Memory,
}

impl From<Misfit<FieldPlace>> for RequestFault {
    ghost use Rattle.std.specs.Prelude.{◌≡◌};
    ghost use Rattle.rinqebo_forms.specs.declared.fault.RequestFault.TheVariants.{Expected};
    ghost use Rattle.rinqebo_forms.specs.declared.fault.ExpectedValue.TheVariants.{Value};

    ghost from_gives = { λ misfit fault. fault ≡ Expected (Value misfit.wanted) misfit.place };

    fn from(misfit: Misfit<FieldPlace>) -> Self {
        RequestFault::Expected(ExpectedValue::Value(misfit.wanted), misfit.place)
    }
}

impl From<AllocError> for RequestFault {
    ghost use Rattle.std.specs.Prelude.{◌≡◌};
    ghost use Rattle.rinqebo_forms.specs.declared.fault.RequestFault.TheVariants.{Memory};

    ghost from_gives = { λ _ e. e ≡ Memory };

    fn from(_error: AllocError) -> Self {
        RequestFault::Memory
    }
}

impl<T: Drop> From<AllocFailed<T>> for RequestFault {
    ghost use Rattle.std.specs.Prelude.{◌≡◌};
    ghost use Rattle.rinqebo_forms.specs.declared.fault.RequestFault.TheVariants.{Memory};

    ghost from_gives = { λ _ e. e ≡ Memory };

    fn from(_error: AllocFailed<T>) -> Self {
        RequestFault::Memory
    }
}
