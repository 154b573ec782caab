//! Specs as texts that say their parts.

use crate::expression::{Expression, Leaf, TargetSpec};
use std::fmt::{Display, Error, Formatter, Write};

impl Display for Leaf {
    fn fmt<W: Write>(&self, f: &mut Formatter<W>) -> Result<(), Error> {
        match self {
            Leaf::Has(line) => match &line.value {
                Some(value) => write!(f, "has({}=\"{value}\")", line.key),
                None => write!(f, "has({})", line.key),
            },
            Leaf::Feature(feature) => write!(f, "feature(\"{feature}\")"),
            Leaf::Never => write!(f, "never"),
        }
    }
}

#[cycle(expression_text)]
fn write_parts<W: Write>(f: &mut Formatter<W>, parts: &[Expression]) -> Result<(), Error> {
    for (i, part) in parts.iter().enumerate() {
        if i > 0 {
            write!(f, ", ")?;
        }
        write!(f, "{part}")?;
    }
    Ok(())
}

impl Display for Expression {
    #[cycle(expression_text)]
    fn fmt<W: Write>(&self, f: &mut Formatter<W>) -> Result<(), Error> {
        match self {
            Expression::Leaf(leaf) => write!(f, "{leaf}"),
            Expression::All(parts) => {
                write!(f, "all(")?;
                write_parts(f, parts)?;
                write!(f, ")")
            }
            Expression::Any(parts) => {
                write!(f, "any(")?;
                write_parts(f, parts)?;
                write!(f, ")")
            }
            Expression::Not(part) => write!(f, "not({part})"),
        }
    }
}

impl Display for TargetSpec {
    fn fmt<W: Write>(&self, f: &mut Formatter<W>) -> Result<(), Error> {
        match self {
            TargetSpec::Triple(triple) => write!(f, "triple(\"{triple}\")"),
            TargetSpec::Expression(expression) => write!(f, "{expression}"),
        }
    }
}
