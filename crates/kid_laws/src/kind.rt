//! The kinds of laws.

/// A law is an equation of two terms, or an implication, which says that a term is true.
#[derive(Clone, Copy, Debug, PartialEq, Eq)]
pub enum LawKind {
    Equation,
    Implication,
}
