//! What a spec says.

use crate::platforms::CfgLine;

/// What joins parts to an expression.
#[derive(Clone, Copy, Debug, PartialEq, Eq)]
pub enum Function {
    /// `all(..)`
    All,
    /// `any(..)`
    Any,
    /// `not(..)`
    Not,
}

/// A question about a platform, in an expression.
#[derive(Debug, Drop)]
pub enum Leaf {
    /// Whether the platform has this line.
    Has(CfgLine),
    /// Whether the platform has this feature.
    Feature(String),
    /// What holds on no platform, as `test`.
    Never,
}

/// An expression.
#[derive(Debug)]
pub enum Expression {
    /// A question.
    Leaf(Leaf),
    /// All parts hold.
    All(Vec<Expression>),
    /// Some part holds.
    Any(Vec<Expression>),
    /// The part does not hold.
    Not(Box<Expression>),
}

// Written out, so that a caller's proof sees one call and not the drop of each case.
impl Drop for Expression {
    fn drop(self) {
        match self {
            Expression::Leaf(_leaf) => {}
            Expression::All(_parts) | Expression::Any(_parts) => {}
            Expression::Not(_part) => {}
        }
    }
}

/// A platform spec.
#[derive(Debug, Drop)]
pub enum TargetSpec {
    /// The platform of this triple.
    Triple(String),
    /// The platforms on which an expression holds.
    Expression(Expression),
}
