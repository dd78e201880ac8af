//! Walks over two ascending lists side by side, each of which is passed once.
ghost use Rattle.std.specs.Prelude.{◌≡◌, ◌∷◌, [], ◌+◌, ◌<◌, IfOk, MatchOption, map, length};
ghost use Rattle.kid_value.specs.ValueSet.{Ascends, union, is_subset as is_subset_of};
ghost use Rattle.kid_value.specs.ValueView.{plain};
ghost use Rattle.kid_ops.specs.Merged.{from_on, starts_with as begins_with};
ghost use Rattle.kid_ops.specs.Chosen.{chosen};

use kid_value::{Memory, Value, Values, cmp};
use std::alloc::Global;
use std::cmp::Ordering;

/// What is left of the values from the first on that is not before `x`.
fn rest_from<'a>(values: &'a [Value], x: &Value) -> &'a [Value]
    ensures { map plain result.now ≡ from_on (plain x.now) (map plain values.now) }
{
    let mut rest = values;
    while let Some((first, later)) = rest.split_first() {
        if !cmp(first, x).is_lt() {
            return rest;
        }
        rest = later;
    }
    rest
}

fn starts_with(values: &[Value], x: &Value) -> bool
    ensures { result ≡ begins_with (plain x.now) (map plain values.now) }
{
    match values.first() {
        None => false,
        Some(first) => cmp(first, x).is_eq(),
    }
}

/// The values of the first list that are in the second, or, where `present` is false, those that
/// are not.
pub(crate) fn choose(
    alloc: Global,
    xs: &[Value],
    ys: &[Value],
    present: bool,
) -> Result<Values, Memory>
    requires first { Ascends (map plain xs.now) }
    requires second { Ascends (map plain ys.now) }
    ensures { IfOk result (λ v. v ≡ chosen present (map plain xs.now) (map plain ys.now)) }
{
    let mut values = Values::new(alloc);
    let mut rest = ys;
    for x in xs {
        rest = rest_from(rest, x);
        if starts_with(rest, x) == present {
            values.push(x.copy(alloc)?)?;
        }
    }
    Ok(values)
}

/// Whether each value of the first list is in the second.
pub(crate) fn is_subset(xs: &[Value], ys: &[Value]) -> bool
    requires first { Ascends (map plain xs.now) }
    requires second { Ascends (map plain ys.now) }
    ensures { result ≡ is_subset_of (map plain xs.now) (map plain ys.now) }
{
    let mut rest = ys;
    for x in xs {
        rest = rest_from(rest, x);
        if !starts_with(rest, x) {
            return false;
        }
    }
    true
}

/// The least of the values of both lists, and what is left of the two.
fn least_of_both<'a>(
    xs: &'a [Value],
    ys: &'a [Value],
) -> Option<(&'a Value, &'a [Value], &'a [Value])>
    requires first { Ascends (map plain xs.now) }
    requires second { Ascends (map plain ys.now) }
    ensures union { MatchOption result (union (map plain xs.now) (map plain ys.now) ≡ []) (λ n. union (map plain xs.now) (map plain ys.now) ≡ plain n.0.now ∷ union (map plain n.1.now) (map plain n.2.now)) }
    ensures left { MatchOption result (Unit {0}) (λ n. Ascends (map plain n.1.now) × Ascends (map plain n.2.now) × (length n.1.now + length n.2.now < length xs.now + length ys.now)) }
{
    match (xs.split_first(), ys.split_first()) {
        (None, None) => None,
        (Some((x, later)), None) => Some((x, later, ys)),
        (None, Some((y, later))) => Some((y, xs, later)),
        (Some((x, later_xs)), Some((y, later_ys))) => Some(match cmp(x, y) {
            Ordering::Less => (x, later_xs, ys),
            Ordering::Equal => (x, later_xs, later_ys),
            Ordering::Greater => (y, xs, later_ys),
        }),
    }
}

/// The values of both lists.
pub(crate) fn merge(alloc: Global, xs: &[Value], ys: &[Value]) -> Result<Values, Memory>
    requires first { Ascends (map plain xs.now) }
    requires second { Ascends (map plain ys.now) }
    ensures { IfOk result (λ v. v ≡ union (map plain xs.now) (map plain ys.now)) }
{
    let mut values = Values::new(alloc);
    let mut left = xs;
    let mut right = ys;
    while let Some((least, later_left, later_right)) = least_of_both(left, right) {
        values.push(least.copy(alloc)?)?;
        left = later_left;
        right = later_right;
    }
    Ok(values)
}
