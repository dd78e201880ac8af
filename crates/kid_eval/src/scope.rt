ghost use Rattle.std.specs.Prelude.{◌≡◌, IfOk, map};
ghost use Rattle.kid_value.specs.ValueView.{plain};
ghost use Rattle.kid_value.specs.NameView.{plain_name};
ghost use Rattle.kid_term.specs.Eval.{value_at, bound};
ghost use Rattle.kid_eval.specs.ScopeView.{env_of, plain_seen};

use crate::env::{Binding, latest};
use kid_term::substitute::is_same;
use kid_value::{Memory, Sort, Text, Value};
use std::alloc::Global;

/// A value that was made, or one that a name has.
#[derive(Drop)]
pub enum Seen<'a> {
    Owned(Value),
    Lent(&'a Value),
}

/// Names with their values, the innermost first: those of an environment, parameters with the
/// values of arguments, and the names of binders inside them.
#[derive(Clone, Copy)]
pub enum Scope<'a> {
    Names(&'a [Binding<'a>], &'a [(Text, Sort)], &'a [Value]),
    Parameters(&'a [(Text, Sort)], &'a [Seen<'a>]),
    More(&'a Text, &'a Value, &'a Scope<'a>),
}

/// The value that was seen.
pub fn seen_value<'a>(seen: &'a Seen<'a>) -> &'a Value
    ensures { plain result.now ≡ plain_seen seen.now }
{
    match seen {
        Seen::Owned(v) => v,
        Seen::Lent(v) => v,
    }
}

/// The value that was seen, copied only where it is lent.
pub fn into_owned<'a>(alloc: Global, seen: Seen<'a>) -> Result<Value, Memory>
    ensures { IfOk result (λ v. plain v ≡ plain_seen seen.entry) }
{
    match seen {
        Seen::Owned(v) => Ok(v),
        Seen::Lent(v) => v.copy(alloc),
    }
}

/// The value of a name, and false where the name has none.
pub fn look_up<'a>(scope: &'a Scope<'a>, x: &Text) -> Seen<'a>
    ensures { plain_seen result ≡ value_at x.now (env_of scope.now) }
{
    match *scope {
        Scope::Names(items, names, values) => latest(items, names, values, x),
        Scope::Parameters(parameters, values) => argument(parameters, values, x),
        Scope::More(y, v, rest) => if is_same(x, y) {
            Seen::Lent(v)
        } else {
            look_up(rest, x)
        },
    }
}

fn argument<'a>(parameters: &'a [(Text, Sort)], values: &'a [Seen<'a>], x: &Text) -> Seen<'a>
    ensures { plain_seen result ≡ value_at x.now (bound (map plain_name parameters.now) (map plain_seen values.now)) }
{
    match (parameters.split_first(), values.split_first()) {
        (Some((p, parameters)), Some((v, values))) => if is_same(x, &p.0) {
            Seen::Lent(seen_value(v))
        } else {
            argument(parameters, values, x)
        },
        _ => Seen::Owned(Value::Bool(false)),
    }
}
