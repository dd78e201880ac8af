//! The laws of maps.

use crate::heads::{
    D, DOM, EMPTY, FITS, GET, IN, M, N, NOT, PUT, SUBMAP, SUBSET, TRUE, WITH, X, Y,
};
use crate::step::Row;

/// What was put at a key stands there.
pub(crate) const E20: Row = Row {
    variables: b"mxyd",
    conditions: &[],
    left: &[GET, PUT, M, X, Y, X, D],
    right: &[Y],
};

/// The keys with one more.
pub(crate) const E47: Row = Row {
    variables: b"mxy",
    conditions: &[],
    left: &[DOM, PUT, M, X, Y],
    right: &[WITH, X, DOM, M],
};

/// What a part of a map has at a key, the whole has there.
pub(crate) const E48: Row = Row {
    variables: b"mnxy",
    conditions: &[&[SUBMAP, M, N], &[IN, X, DOM, M]],
    left: &[GET, N, X, Y],
    right: &[GET, M, X, Y],
};

/// A map lies within itself with a new key.
pub(crate) const M4: Row = Row {
    variables: b"xmy",
    conditions: &[&[NOT, IN, X, DOM, M]],
    left: &[SUBMAP, M, PUT, M, X, Y],
    right: &[TRUE],
};

/// The keys of a part of a map are keys of the whole.
pub(crate) const M19: Row = Row {
    variables: b"mn",
    conditions: &[&[SUBMAP, M, N]],
    left: &[SUBSET, DOM, M, DOM, N],
    right: &[TRUE],
};

/// A map that fits one of sets has at each of its keys a member of the set there.
pub(crate) const M20: Row = Row {
    variables: b"mnxy",
    conditions: &[&[FITS, M, N], &[IN, X, DOM, N]],
    left: &[IN, GET, M, X, Y, GET, N, X, EMPTY],
    right: &[TRUE],
};
