ghost use Rattle.std.specs.Prelude.{◌≡◌, ◌∷◌, ◌++◌, [], OnOk, OnErr, map, reverse, length, drop};
ghost use Rattle.kid_value.specs.NameView.{plain_name};
ghost use Rattle.kid_value.specs.ValueView.{plain};
ghost use Rattle.kid_term.specs.Eval.{value_at, bound};
ghost use Rattle.kid_eval.specs.EnvView.{plain_binding};
ghost use Rattle.kid_eval.specs.ScopeView.{env_of, plain_seen};

use crate::scope::{Scope, Seen};
use kid_term::substitute::is_same;
use kid_value::{Memory, Sort, Text, Value};
use std::alloc::Global;
use std::cmp;
use std::marker::Model;

/// A name with its value.
#[derive(Drop)]
pub struct Binding<'a> {
    name: &'a Text,
    value: Value,
}

/// Names with their values, the last put innermost, inside names that were lent with theirs. Of two equal names the inner
/// one counts.
#[derive(Drop)]
pub struct Env<'a> {
    items: Vec<Binding<'a>>,
    names: &'a [(Text, Sort)],
    values: &'a [Value],
}

impl<'a> Model for Env<'a> {
    ghost use Rattle.std.specs.Prelude.{◌++◌, map, reverse};
    ghost use Rattle.kid_value.specs.NameView.{plain_name};
    ghost use Rattle.kid_value.specs.ValueView.{plain};
    ghost use Rattle.kid_term.specs.Eval.{Env as PlainEnv, bound};
    ghost use Rattle.kid_eval.specs.EnvCode.{coded_env};
    ghost use Rattle.kid_eval.specs.EnvView.{plain_binding};

    ghost Value = { PlainEnv };

    ghost coded = { coded_env };

    ghost view = { λ e. reverse (map plain_binding e.items.items) ++ bound (map plain_name e.names.now) (map plain e.values.now) };
}

impl<'a> Env<'a> {
    /// No names. Takes no memory.
    pub fn new(alloc: Global) -> Env<'a>
        ensures { result ≡ [] }
    {
        Env::over(alloc, &[], &[])
    }

    /// Names that are lent with their values, the first innermost: as many as there are both of names and of values. Takes no
    /// memory.
    pub fn over(alloc: Global, names: &'a [(Text, Sort)], values: &'a [Value]) -> Env<'a>
        ensures { result ≡ bound (map plain_name names.now) (map plain values.now) }
    {
        Env {
            items: Vec::new(alloc),
            names,
            values,
        }
    }

    /// Puts a name with its value inside the others.
    ///
    /// # Errors
    ///
    /// Fails where memory is wanting, and then changes nothing.
    #[tactic(auto, using(crate::proofs::EnvLemmas::pushed_first))]
    pub fn push(&mut self, name: &'a Text, value: Value) -> Result<(), Memory>
        ensures ok { OnOk result (self.new ≡ (name.now, plain value) ∷ self.old) }
        ensures err { OnErr result (self.new ≡ self.old) }
    {
        self.items.push(Binding { name, value })?;
        Ok(())
    }

    /// Takes away the innermost name with its value. Does nothing where there is none.
    pub fn pop(&mut self)
        ensures { self.new ≡ drop 1 self.old }
    {
        if self.items.pop().is_some() {
            return;
        }
        if let (Some((_, names)), Some((_, values))) = (
            self.names.split_first(),
            self.values.split_first(),
        ) {
            self.names = names;
            self.values = values;
        }
    }

    /// How many names there are.
    #[tactic(auto, using(crate::proofs::EnvLemmas::length_env))]
    pub fn len(&self) -> usize
        ensures { result ≡ length self.now }
    {
        self.items.len() + cmp::min(self.names.len(), self.values.len())
    }

    /// The names as a scope.
    pub(crate) fn scope(&self) -> Scope<'_>
        ensures { env_of result ≡ self.now }
    {
        Scope::Names(self.items.as_slice(), self.names, self.values)
    }
}

/// The value of a name among those that were put, and else among those that were lent; false where the name has none.
#[tactic(auto, using(crate::proofs::EnvLemmas::latest_here, crate::proofs::EnvLemmas::latest_earlier))]
pub(crate) fn latest<'a>(
    items: &'a [Binding<'a>],
    names: &'a [(Text, Sort)],
    values: &'a [Value],
    x: &Text,
) -> Seen<'a>
    ensures { plain_seen result ≡ value_at x.now (reverse (map plain_binding items.now) ++ bound (map plain_name names.now) (map plain values.now)) }
{
    match items.split_last() {
        None => given(names, values, x),
        Some((binding, earlier)) => if is_same(x, binding.name) {
            Seen::Lent(&binding.value)
        } else {
            latest(earlier, names, values, x)
        },
    }
}

/// The value that stands at the place of the name, and false where the name does not stand.
fn given<'a>(names: &[(Text, Sort)], values: &'a [Value], x: &Text) -> Seen<'a>
    ensures { plain_seen result ≡ value_at x.now (bound (map plain_name names.now) (map plain values.now)) }
{
    match (names.split_first(), values.split_first()) {
        (Some((name, names)), Some((value, values))) => if is_same(x, &name.0) {
            Seen::Lent(value)
        } else {
            given(names, values, x)
        },
        _ => Seen::Owned(Value::Bool(false)),
    }
}
