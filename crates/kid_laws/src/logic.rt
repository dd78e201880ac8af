//! The laws of truth values and equality.

use crate::heads::{AND, EQ, FALSE, IF, IMPLIES, NOT, OR, P, Q, R, TRUE, X, Y};
use crate::step::Row;

/// Both, in either order.
pub(crate) const E1: Row = Row {
    variables: b"pq",
    conditions: &[],
    left: &[AND, P, Q],
    right: &[AND, Q, P],
};

/// Both, in either grouping.
pub(crate) const E2: Row = Row {
    variables: b"pqr",
    conditions: &[],
    left: &[AND, P, AND, Q, R],
    right: &[AND, AND, P, Q, R],
};

/// The same twice is the same once.
pub(crate) const E3: Row = Row {
    variables: b"p",
    conditions: &[],
    left: &[AND, P, P],
    right: &[P],
};

/// Both, where one is true, is the other.
pub(crate) const E4: Row = Row {
    variables: b"p",
    conditions: &[],
    left: &[AND, P, TRUE],
    right: &[P],
};

/// Both, where one is false, is false.
pub(crate) const E5: Row = Row {
    variables: b"p",
    conditions: &[],
    left: &[AND, P, FALSE],
    right: &[FALSE],
};

/// One of two holds where not both fail.
pub(crate) const E6: Row = Row {
    variables: b"pq",
    conditions: &[],
    left: &[OR, P, Q],
    right: &[NOT, AND, NOT, P, NOT, Q],
};

/// Not not.
pub(crate) const E7: Row = Row {
    variables: b"p",
    conditions: &[],
    left: &[NOT, NOT, P],
    right: &[P],
};

/// The first implies the second where it fails or the second holds.
pub(crate) const E8: Row = Row {
    variables: b"pq",
    conditions: &[],
    left: &[IMPLIES, P, Q],
    right: &[OR, NOT, P, Q],
};

/// What is implied by true.
pub(crate) const E9: Row = Row {
    variables: b"p",
    conditions: &[],
    left: &[IMPLIES, TRUE, P],
    right: &[P],
};

/// The first of two where the test is true.
pub(crate) const E10: Row = Row {
    variables: b"xy",
    conditions: &[],
    left: &[IF, TRUE, X, Y],
    right: &[X],
};

/// The second of two where the test is false.
pub(crate) const E11: Row = Row {
    variables: b"xy",
    conditions: &[],
    left: &[IF, FALSE, X, Y],
    right: &[Y],
};

/// A value equals itself.
pub(crate) const E12: Row = Row {
    variables: b"x",
    conditions: &[],
    left: &[EQ, X, X],
    right: &[TRUE],
};

/// Equality, in either order.
pub(crate) const E13: Row = Row {
    variables: b"xy",
    conditions: &[],
    left: &[EQ, X, Y],
    right: &[EQ, Y, X],
};

/// A value equals itself.
pub(crate) const M1: Row = Row {
    variables: b"x",
    conditions: &[],
    left: &[EQ, X, X],
    right: &[TRUE],
};
