//! The laws of sets.

use crate::heads::{
    A, ADD, AND, B, C, CARD, D, DIFF, EMPTY, EQ, IN, INTER, LE, LEAST, NOT, ONE, OR, RANGE, S, SET,
    SUBSET, SUM, T, TRUE, U, UNION, WITH, WITHOUT, X, Y, ZERO,
};
use crate::step::Row;

/// A union, in either order.
pub(crate) const E28: Row = Row {
    variables: b"st",
    conditions: &[],
    left: &[UNION, S, T],
    right: &[UNION, T, S],
};

/// A union, in either grouping.
pub(crate) const E29: Row = Row {
    variables: b"stu",
    conditions: &[],
    left: &[UNION, S, UNION, T, U],
    right: &[UNION, UNION, S, T, U],
};

/// A union with the empty set.
pub(crate) const E30: Row = Row {
    variables: b"s",
    conditions: &[],
    left: &[UNION, S, EMPTY],
    right: &[S],
};

/// What two sets share, in either order.
pub(crate) const E31: Row = Row {
    variables: b"st",
    conditions: &[],
    left: &[INTER, S, T],
    right: &[INTER, T, S],
};

/// One member more is a union with its set.
pub(crate) const E32: Row = Row {
    variables: b"xs",
    conditions: &[],
    left: &[WITH, X, S],
    right: &[UNION, SET, X, S],
};

/// One member less is a difference by its set.
pub(crate) const E33: Row = Row {
    variables: b"xs",
    conditions: &[],
    left: &[WITHOUT, X, S],
    right: &[DIFF, S, SET, X],
};

/// A member of a union is one of either.
pub(crate) const E34: Row = Row {
    variables: b"xst",
    conditions: &[],
    left: &[IN, X, UNION, S, T],
    right: &[OR, IN, X, S, IN, X, T],
};

/// A member of what two sets share is one of both.
pub(crate) const E35: Row = Row {
    variables: b"xst",
    conditions: &[],
    left: &[IN, X, INTER, S, T],
    right: &[AND, IN, X, S, IN, X, T],
};

/// A member of a difference is one of the first alone.
pub(crate) const E36: Row = Row {
    variables: b"xst",
    conditions: &[],
    left: &[IN, X, DIFF, S, T],
    right: &[AND, IN, X, S, NOT, IN, X, T],
};

/// The one member of a set of one.
pub(crate) const E37: Row = Row {
    variables: b"xy",
    conditions: &[],
    left: &[IN, X, SET, Y],
    right: &[EQ, X, Y],
};

/// A member of a range lies between its ends.
pub(crate) const E38: Row = Row {
    variables: b"abc",
    conditions: &[],
    left: &[IN, A, RANGE, B, C],
    right: &[AND, LE, B, A, LE, A, C],
};

/// A subset leaves nothing of itself outside.
pub(crate) const E39: Row = Row {
    variables: b"st",
    conditions: &[],
    left: &[SUBSET, S, T],
    right: &[EQ, DIFF, S, T, EMPTY],
};

/// The sum with one number more.
pub(crate) const E40: Row = Row {
    variables: b"as",
    conditions: &[&[NOT, IN, A, S]],
    left: &[SUM, WITH, A, S],
    right: &[ADD, SUM, S, A],
};

/// The size with one member more.
pub(crate) const E41: Row = Row {
    variables: b"xs",
    conditions: &[&[NOT, IN, X, S]],
    left: &[CARD, WITH, X, S],
    right: &[ADD, CARD, S, ONE],
};

/// A subset, by way of a set between.
pub(crate) const M6: Row = Row {
    variables: b"stu",
    conditions: &[&[SUBSET, S, T], &[SUBSET, T, U]],
    left: &[SUBSET, S, U],
    right: &[TRUE],
};

/// A member of a subset is one of the whole.
pub(crate) const M7: Row = Row {
    variables: b"stx",
    conditions: &[&[SUBSET, S, T], &[IN, X, S]],
    left: &[IN, X, T],
    right: &[TRUE],
};

/// A set lies within its union with another.
pub(crate) const M8: Row = Row {
    variables: b"st",
    conditions: &[],
    left: &[SUBSET, S, UNION, S, T],
    right: &[TRUE],
};

/// The least member is a member.
pub(crate) const M9: Row = Row {
    variables: b"sx",
    conditions: &[&[NOT, EQ, S, EMPTY]],
    left: &[IN, LEAST, S, X, S],
    right: &[TRUE],
};

/// A subset has no more members.
pub(crate) const M10: Row = Row {
    variables: b"st",
    conditions: &[&[SUBSET, S, T]],
    left: &[LE, CARD, S, CARD, T],
    right: &[TRUE],
};

/// A subset of numbers that are not negative has no greater sum.
pub(crate) const M11: Row = Row {
    variables: b"st",
    conditions: &[&[SUBSET, S, T], &[LE, ZERO, LEAST, T, ZERO]],
    left: &[LE, SUM, S, SUM, T],
    right: &[TRUE],
};

/// A member of one of two sets that share nothing is not in the other.
pub(crate) const M12: Row = Row {
    variables: b"stx",
    conditions: &[&[EQ, INTER, S, T, EMPTY], &[IN, X, T]],
    left: &[NOT, IN, X, S],
    right: &[TRUE],
};

/// A range lies within one that reaches further on both ends.
pub(crate) const M13: Row = Row {
    variables: b"abcd",
    conditions: &[&[LE, A, B], &[LE, C, D]],
    left: &[SUBSET, RANGE, B, C, RANGE, A, D],
    right: &[TRUE],
};

/// The least member is at most each.
pub(crate) const M14: Row = Row {
    variables: b"as",
    conditions: &[&[IN, A, S]],
    left: &[LE, LEAST, S, A, A],
    right: &[TRUE],
};
