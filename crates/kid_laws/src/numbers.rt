//! The laws of numbers.

use crate::heads::{
    A, ADD, AND, B, C, D, EQ, IF, LE, LT, MAX, MIN, MUL, NEG, NOT, ONE, SUB, TRUE, ZERO,
};
use crate::step::Row;

/// A sum, in either order.
pub(crate) const E14: Row = Row {
    variables: b"ab",
    conditions: &[],
    left: &[ADD, A, B],
    right: &[ADD, B, A],
};

/// A sum, in either grouping.
pub(crate) const E15: Row = Row {
    variables: b"abc",
    conditions: &[],
    left: &[ADD, A, ADD, B, C],
    right: &[ADD, ADD, A, B, C],
};

/// Nothing added.
pub(crate) const E16: Row = Row {
    variables: b"a",
    conditions: &[],
    left: &[ADD, A, ZERO],
    right: &[A],
};

/// To take away is to add the opposite.
pub(crate) const E17: Row = Row {
    variables: b"ab",
    conditions: &[],
    left: &[SUB, A, B],
    right: &[ADD, A, NEG, B],
};

/// A number and its opposite.
pub(crate) const E18: Row = Row {
    variables: b"a",
    conditions: &[],
    left: &[ADD, A, NEG, A],
    right: &[ZERO],
};

/// A product, in either order.
pub(crate) const E19: Row = Row {
    variables: b"ab",
    conditions: &[],
    left: &[MUL, A, B],
    right: &[MUL, B, A],
};

/// A number taken once.
pub(crate) const E21: Row = Row {
    variables: b"a",
    conditions: &[],
    left: &[MUL, A, ONE],
    right: &[A],
};

/// A product spreads over a sum.
pub(crate) const E22: Row = Row {
    variables: b"abc",
    conditions: &[],
    left: &[MUL, A, ADD, B, C],
    right: &[ADD, MUL, A, B, MUL, A, C],
};

/// Less is not at least.
pub(crate) const E23: Row = Row {
    variables: b"ab",
    conditions: &[],
    left: &[LT, A, B],
    right: &[NOT, LE, B, A],
};

/// The same added on both sides.
pub(crate) const E24: Row = Row {
    variables: b"acb",
    conditions: &[],
    left: &[LE, ADD, A, C, ADD, B, C],
    right: &[LE, A, B],
};

/// Equal numbers are at most each other.
pub(crate) const E25: Row = Row {
    variables: b"ab",
    conditions: &[],
    left: &[EQ, A, B],
    right: &[AND, LE, A, B, LE, B, A],
};

/// The greater of two.
pub(crate) const E26: Row = Row {
    variables: b"ab",
    conditions: &[],
    left: &[MAX, A, B],
    right: &[IF, LE, A, B, B, A],
};

/// The smaller of two.
pub(crate) const E27: Row = Row {
    variables: b"ab",
    conditions: &[],
    left: &[MIN, A, B],
    right: &[IF, LE, A, B, A, B],
};

/// At most, by way of a number between.
pub(crate) const M2: Row = Row {
    variables: b"abc",
    conditions: &[&[LE, A, B], &[LE, B, C]],
    left: &[LE, A, C],
    right: &[TRUE],
};

/// Two inequalities, added.
pub(crate) const M3: Row = Row {
    variables: b"abcd",
    conditions: &[&[LE, A, B], &[LE, C, D]],
    left: &[LE, ADD, A, C, ADD, B, D],
    right: &[TRUE],
};

/// An inequality times a number that is not negative.
pub(crate) const M5: Row = Row {
    variables: b"abc",
    conditions: &[&[LE, A, B], &[LE, ZERO, C]],
    left: &[LE, MUL, A, C, MUL, B, C],
    right: &[TRUE],
};
