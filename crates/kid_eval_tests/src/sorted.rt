//! Evaluation of terms that have a sort, which is where `eval` may be called.
ghost use Rattle.std.specs.Prelude.{◌≡◌, ◌∷◌, ◌++◌, [], true, IfOk, MatchOption, map};
ghost use Rattle.kid_value.specs.NameView.{plain_name};
ghost use Rattle.kid_value.specs.ValueView.{plain};
ghost use Rattle.kid_term.specs.DefView.{plain_def};
ghost use Rattle.kid_term.specs.TermView.{plain_term};
ghost use Rattle.kid_term.specs.Eval.{bound};
ghost use Rattle.kid_term.specs.Fitting.{AreSound};
ghost use Rattle.kid_term.specs.Small.{StaysSmall};
ghost use Rattle.kid_term.specs.Sorting.{sort_of as sort_of_term};
ghost use Rattle.kid_sorting.specs.Declaring.{is_sorted_definition};
ghost use Rattle.kid_eval_tests.specs.Given.{is_given, are_given, is_sorted};

use kid_eval::{Env, eval};
use kid_sorting::judge::is_sorted_definition;
use kid_sorting::{SortFault, sort_over};
use kid_term::{Def, Defs, Term};
use kid_value::{Memory, Sort, Text, Value, has_sort, sort_ok};
use std::alloc::Global;

fn is_given(name: &(Text, Sort), value: &Value) -> bool
    ensures { result ≡ is_given (plain_name name.now) (plain value.now) }
{
    sort_ok(&name.1) && has_sort(value, &name.1)
}

/// Whether there are as many values as names, each of its name's sort.
fn are_given(names: &[(Text, Sort)], values: &[Value]) -> bool
    ensures { result ≡ are_given (map plain_name names.now) (map plain values.now) }
{
    match (names.split_first(), values.split_first()) {
        (None, None) => true,
        (Some((name, names)), Some((value, values))) => {
            is_given(name, value) && are_given(names, values)
        }
        _ => false,
    }
}

fn last_of(defs: &[Def]) -> Option<(&Def, &[Def])>
    ensures { MatchOption result (defs.now ≡ []) (λ p. defs.now ≡ p.1.now ++ p.0.now ∷ []) }
{
    defs.split_last()
}

fn is_sound(alloc: Global, earlier: &[Def], def: &Def) -> bool
    ensures { result ≡ true → is_sorted_definition (map plain_def earlier.now) (plain_def def.now) ≡ true }
{
    match is_sorted_definition(alloc, earlier, def) {
        Ok(sound) => sound,
        Err(_) => false,
    }
}

/// Whether each definition is sorted over those before it.
fn are_sound(alloc: Global, defs: &[Def]) -> bool
    ensures { result ≡ true → AreSound (map plain_def defs.now) }
{
    match last_of(defs) {
        None => true,
        Some((last, earlier)) => is_sound(alloc, earlier, last) && are_sound(alloc, earlier),
    }
}

fn is_sorted(alloc: Global, defs: &[Def], names: &[(Text, Sort)], term: &Term) -> bool
    ensures { result ≡ true → is_sorted (sort_of_term (map plain_def defs.now) (map plain_name names.now) (plain_term term.now)) ≡ true }
{
    match sort_over(alloc, defs, names, term) {
        Ok(_) => true,
        Err(_) => false,
    }
}

/// Whether the definitions are sound and the term has a sort over them.
fn is_sorted_over(alloc: Global, defs: &Defs, names: &[(Text, Sort)], term: &Term) -> bool
    ensures sound { result ≡ true → AreSound defs.now }
    ensures sorted { result ≡ true → is_sorted (sort_of_term defs.now (map plain_name names.now) (plain_term term.now)) ≡ true }
{
    are_sound(alloc, defs.items()) && is_sorted(alloc, defs.items(), names, term)
}

/// Whether the term has a sort over sound definitions and over names that have values of their sorts.
fn is_fit(alloc: Global, defs: &Defs, names: &[(Text, Sort)], values: &[Value], term: &Term) -> bool
    ensures { result ≡ true → StaysSmall defs.now (bound (map plain_name names.now) (map plain values.now)) (plain_term term.now) }
{
    are_given(names, values) && is_sorted_over(alloc, defs, names, term)
}

/// The value of the term where it has a sort and the names have these values.
fn value_in_env(
    alloc: Global,
    defs: &Defs,
    names: &[(Text, Sort)],
    values: &[Value],
    env: &Env,
    term: &Term,
) -> Result<Value, SortFault>
    requires { env.now ≡ bound (map plain_name names.now) (map plain values.now) }
{
    if is_fit(alloc, defs, names, values, term) {
        Ok(eval(alloc, defs, env, term)?)
    } else {
        Err(SortFault::Kind)
    }
}

/// The value of a sorted term, where the names are lent with their values.
pub fn value_over(
    alloc: Global,
    defs: &Defs,
    names: &[(Text, Sort)],
    values: &[Value],
    term: &Term,
) -> Result<Value, SortFault> {
    let env = Env::over(alloc, names, values);
    value_in_env(alloc, defs, names, values, &env, term)
}

/// These names with their values, of which the first was put inside the others, which are lent with theirs.
fn env_of<'a>(
    alloc: Global,
    names: &'a [(Text, Sort)],
    values: &'a [Value],
) -> Result<Env<'a>, Memory>
    ensures { IfOk result (λ e. e ≡ bound (map plain_name names.now) (map plain values.now)) }
{
    match (names.split_first(), values.split_first()) {
        (Some((name, names)), Some((value, values))) => {
            let value = value.copy(alloc)?;
            let mut env = Env::over(alloc, names, values);
            env.push(&name.0, value)?;
            Ok(env)
        }
        _ => Err(Memory),
    }
}

/// The value of a sorted term, where the first name is put with its value inside the others.
pub fn value_inside(
    alloc: Global,
    names: &[(Text, Sort)],
    values: &[Value],
    term: &Term,
) -> Result<Value, SortFault> {
    let env = env_of(alloc, names, values)?;
    value_in_env(alloc, &Defs::new(alloc), names, values, &env, term)
}
