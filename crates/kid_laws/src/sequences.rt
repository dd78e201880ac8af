//! The laws of sequences.

use crate::heads::{
    A, ADD, AT, IN, ITEMS, LE, LEAST, LEN, ONE, PREFIX, RANGE, SNOC, SUBSET, TOTAL, TRUE, V, W,
    WITH, X, Y, ZERO,
};
use crate::step::Row;

/// The length with one item more.
pub(crate) const E42: Row = Row {
    variables: b"vx",
    conditions: &[],
    left: &[LEN, SNOC, V, X],
    right: &[ADD, LEN, V, ONE],
};

/// The items with one more.
pub(crate) const E43: Row = Row {
    variables: b"vx",
    conditions: &[],
    left: &[ITEMS, SNOC, V, X],
    right: &[WITH, X, ITEMS, V],
};

/// The total with one number more.
pub(crate) const E44: Row = Row {
    variables: b"va",
    conditions: &[],
    left: &[TOTAL, SNOC, V, A],
    right: &[ADD, TOTAL, V, A],
};

/// An item of a prefix is that of the whole.
pub(crate) const E45: Row = Row {
    variables: b"vwax",
    conditions: &[&[PREFIX, V, W], &[IN, A, RANGE, ONE, LEN, V]],
    left: &[AT, W, A, X],
    right: &[AT, V, A, X],
};

/// The last item is the one that was added.
pub(crate) const E46: Row = Row {
    variables: b"vxy",
    conditions: &[],
    left: &[AT, SNOC, V, X, ADD, LEN, V, ONE, Y],
    right: &[X],
};

/// A prefix is no longer than the whole.
pub(crate) const M15: Row = Row {
    variables: b"vw",
    conditions: &[&[PREFIX, V, W]],
    left: &[LE, LEN, V, LEN, W],
    right: &[TRUE],
};

/// The items of a prefix are items of the whole.
pub(crate) const M16: Row = Row {
    variables: b"vw",
    conditions: &[&[PREFIX, V, W]],
    left: &[SUBSET, ITEMS, V, ITEMS, W],
    right: &[TRUE],
};

/// A sequence is a prefix of itself with one item more.
pub(crate) const M17: Row = Row {
    variables: b"vx",
    conditions: &[],
    left: &[PREFIX, V, SNOC, V, X],
    right: &[TRUE],
};

/// A prefix of numbers that are not negative has no greater total.
pub(crate) const M18: Row = Row {
    variables: b"vw",
    conditions: &[&[PREFIX, V, W], &[LE, ZERO, LEAST, ITEMS, W, ZERO]],
    left: &[LE, TOTAL, V, TOTAL, W],
    right: &[TRUE],
};
