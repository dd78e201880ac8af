ghost use Rattle.std.specs.Prelude.{◌≡◌, ◌∷◌, [], true, IfOk, map};
ghost use Rattle.std.specs.List.{list_all};
ghost use Rattle.kid_value.specs.ValueView.{plain};
ghost use Rattle.kid_value.specs.SortView.{plain_sort};
ghost use Rattle.kid_value.specs.Rows.Parts.{truth_of, members_of};
ghost use Rattle.kid_term.specs.TermView.{plain_term};
ghost use Rattle.kid_term.specs.Eval.{eval as value, op_value, cast_value, binder_value, calls_of, call_at};
ghost use Rattle.kid_term.specs.LogicRows.{logic_value};
ghost use Rattle.kid_term.specs.Small.{StaysSmall, is_small, op_small, binder_small, check_at, checks_of};
ghost use Rattle.kid_eval.specs.KnownView.{known_of};
ghost use Rattle.kid_eval.specs.ScopeView.{plain_seen};
ghost use Rattle.kid_eval.specs.Binding.{is_found};
ghost use Rattle.kid_eval.specs.Inside.{value_in, values_in, value_with, small_in, all_small_in, op_small_in, small_with};

use crate::binder::{image, is_true, kept, members, total};
use crate::cast::cast;
use crate::env::Env;
use crate::logic::truth;
use crate::opened::{Known, opened};
use crate::row::row;
use crate::scope::{Scope, Seen, look_up, seen_value};
use crate::terms::{couple, single, triple};
use kid_term::{Binder, Defs, Head, Literal, LogicOp, Op, Term};
use kid_value::{Memory, Sort, Text, Value};
use std::alloc::Global;

/// The value of a term: each name's value is the one that the environment has, and each call is
/// of the last definition of its name.
///
/// The condition holds of every term that has a sort over sound definitions, where the
/// environment has values of the names' sorts.
///
/// # Errors
///
/// Fails only where memory is wanting.
#[tactic(auto, using(crate::proofs::OpeningLemmas::all_known))]
pub fn eval(alloc: Global, defs: &Defs, env: &Env, term: &Term) -> Result<Value, Memory>
    requires { StaysSmall defs.now env.now (plain_term term.now) }
    ensures { IfOk result (λ v. plain v ≡ value (calls_of defs.now) env.now (plain_term term.now)) }
{
    let scope = env.scope();
    let known = Known {
        defs,
        count: defs.len(),
    };
    value_of(alloc, &known, &scope, term)
}

#[cycle(eval)]
fn value_of<'a>(
    alloc: Global,
    known: &'a Known<'a>,
    scope: &'a Scope<'a>,
    term: &'a Term,
) -> Result<Value, Memory>
    requires { small_in (known_of known.now) scope.now term.now ≡ true }
    ensures { IfOk result (λ v. plain v ≡ value_in (known_of known.now) scope.now term.now) }
{
    match term {
        Term::Var(x) => seen_value(&look_up(scope, x)).copy(alloc),
        Term::Lit(Literal::Int(n)) => Ok(Value::Int(*n)),
        Term::Lit(Literal::Bool(b)) => Ok(Value::Bool(*b)),
        Term::Lit(Literal::Tag(name)) => Ok(Value::Tag(name.copy(alloc)?)),
        Term::App(Head::Op(op), args) => operate(alloc, known, scope, *op, args.items()),
        Term::App(Head::Call(f), args) => {
            let values = see_all(alloc, known, scope, args.items())?;
            // Lent anew, as the values live less long than the definitions.
            call(alloc, &*known, f, &values)
        }
        Term::App(Head::Cast(sort), args) => convert(alloc, known, scope, sort, args.items()),
        Term::Bind(binder, x, set, body) => {
            let set = see(alloc, known, scope, set.get())?;
            bind(
                alloc,
                &*known,
                &*scope,
                *binder,
                x,
                seen_value(&set),
                body.get(),
            )
        }
    }
}

/// What an operator gives at the values of terms. Of the last two terms of `if` one alone is evaluated, and the second of `and`
/// only where the first is true.
#[cycle(eval)]
fn operate<'a>(
    alloc: Global,
    known: &'a Known<'a>,
    scope: &'a Scope<'a>,
    op: Op,
    terms: &'a [Term],
) -> Result<Value, Memory>
    requires { op_small_in (known_of known.now) scope.now op terms.now ≡ true }
    ensures { IfOk result (λ v. plain v ≡ op_value op (values_in (known_of known.now) scope.now terms.now)) }
{
    if let (Op::Logic(LogicOp::And), Some((a, b))) = (op, couple(terms)) {
        return both(alloc, known, scope, a, b);
    }
    if let Some((a, b)) = couple(terms) {
        return binary(alloc, known, scope, op, a, b);
    }
    if let Some(a) = single(terms) {
        return unary(alloc, known, scope, op, a);
    }
    if let (Op::Logic(LogicOp::If), Some((test, a, b))) = (op, triple(terms)) {
        return choose(alloc, known, scope, test, a, b);
    }
    let values = see_all(alloc, known, scope, terms)?;
    row(alloc, op, &values)
}

/// What an operator gives at the value of a term.
#[cycle(eval)]
fn unary<'a>(
    alloc: Global,
    known: &'a Known<'a>,
    scope: &'a Scope<'a>,
    op: Op,
    a: &'a Term,
) -> Result<Value, Memory>
    requires part { small_in (known_of known.now) scope.now a.now ≡ true }
    requires sums { op_small op (value_in (known_of known.now) scope.now a.now ∷ []) ≡ true }
    requires small { is_small (op_value op (value_in (known_of known.now) scope.now a.now ∷ [])) ≡ true }
    ensures { IfOk result (λ v. plain v ≡ op_value op (value_in (known_of known.now) scope.now a.now ∷ [])) }
{
    let x = see(alloc, known, scope, a)?;
    row(alloc, op, &[x])
}

/// What an operator gives at the values of two terms.
#[cycle(eval)]
fn binary<'a>(
    alloc: Global,
    known: &'a Known<'a>,
    scope: &'a Scope<'a>,
    op: Op,
    a: &'a Term,
    b: &'a Term,
) -> Result<Value, Memory>
    requires first { small_in (known_of known.now) scope.now a.now ≡ true }
    requires second { small_in (known_of known.now) scope.now b.now ≡ true }
    requires sums { op_small op (value_in (known_of known.now) scope.now a.now ∷ value_in (known_of known.now) scope.now b.now ∷ []) ≡ true }
    requires small { is_small (op_value op (value_in (known_of known.now) scope.now a.now ∷ value_in (known_of known.now) scope.now b.now ∷ [])) ≡ true }
    ensures { IfOk result (λ v. plain v ≡ op_value op (value_in (known_of known.now) scope.now a.now ∷ value_in (known_of known.now) scope.now b.now ∷ [])) }
{
    let x = see(alloc, known, scope, a)?;
    let y = see(alloc, known, scope, b)?;
    row(alloc, op, &[x, y])
}

/// The value of the one term as one of a sort. False where there is not just one.
#[cycle(eval)]
fn convert<'a>(
    alloc: Global,
    known: &'a Known<'a>,
    scope: &'a Scope<'a>,
    sort: &Sort,
    terms: &'a [Term],
) -> Result<Value, Memory>
    requires { all_small_in (known_of known.now) scope.now terms.now ≡ true }
    ensures { IfOk result (λ v. plain v ≡ cast_value (plain_sort sort.now) (values_in (known_of known.now) scope.now terms.now)) }
{
    let Some(term) = single(terms) else {
        return Ok(Value::Bool(false));
    };
    let seen = see(alloc, known, scope, term)?;
    cast(alloc, sort, seen)
}

/// Whether both terms are true.
#[cycle(eval)]
#[tactic(auto, using(crate::proofs::LogicLemmas::and_both))]
fn both<'a>(
    alloc: Global,
    known: &'a Known<'a>,
    scope: &'a Scope<'a>,
    a: &'a Term,
    b: &'a Term,
) -> Result<Value, Memory>
    requires first { small_in (known_of known.now) scope.now a.now ≡ true }
    requires second { small_in (known_of known.now) scope.now b.now ≡ true }
    ensures { IfOk result (λ v. plain v ≡ logic_value LogicOp.And (value_in (known_of known.now) scope.now a.now ∷ value_in (known_of known.now) scope.now b.now ∷ [])) }
{
    let first = value_of(alloc, known, scope, a)?;
    if !is_true(&first) {
        return Ok(Value::Bool(false));
    }
    let second = value_of(alloc, known, scope, b)?;
    Ok(Value::Bool(is_true(&second)))
}

/// The value of the first term where the test is true, and of the second where it is false.
#[cycle(eval)]
fn choose<'a>(
    alloc: Global,
    known: &'a Known<'a>,
    scope: &'a Scope<'a>,
    test: &'a Term,
    a: &'a Term,
    b: &'a Term,
) -> Result<Value, Memory>
    requires test { small_in (known_of known.now) scope.now test.now ≡ true }
    requires first { small_in (known_of known.now) scope.now a.now ≡ true }
    requires second { small_in (known_of known.now) scope.now b.now ≡ true }
    ensures { IfOk result (λ v. plain v ≡ logic_value LogicOp.If (value_in (known_of known.now) scope.now test.now ∷ value_in (known_of known.now) scope.now a.now ∷ value_in (known_of known.now) scope.now b.now ∷ [])) }
{
    let value = value_of(alloc, known, scope, test)?;
    match truth(&value) {
        Some(true) => value_of(alloc, known, scope, a),
        Some(false) => value_of(alloc, known, scope, b),
        None => Ok(Value::Bool(false)),
    }
}

/// The value of a term, not copied where the term is a name.
#[cycle(eval)]
fn see<'a>(
    alloc: Global,
    known: &'a Known<'a>,
    scope: &'a Scope<'a>,
    term: &'a Term,
) -> Result<Seen<'a>, Memory>
    requires { small_in (known_of known.now) scope.now term.now ≡ true }
    ensures { IfOk result (λ v. plain_seen v ≡ value_in (known_of known.now) scope.now term.now) }
{
    match term {
        Term::Var(x) => Ok(look_up(scope, x)),
        _ => {
            let v = value_of(alloc, known, scope, term)?;
            Ok(Seen::Owned(v))
        }
    }
}

#[cycle(eval)]
fn see_all<'a>(
    alloc: Global,
    known: &'a Known<'a>,
    scope: &'a Scope<'a>,
    terms: &'a [Term],
) -> Result<Vec<Seen<'a>>, Memory>
    requires { all_small_in (known_of known.now) scope.now terms.now ≡ true }
    ensures { IfOk result (λ v. map plain_seen v.items ≡ values_in (known_of known.now) scope.now terms.now) }
{
    let mut values = Vec::new(alloc);
    for t in terms {
        let seen = see(alloc, known, scope, t)?;
        values.push(seen)?;
    }
    Ok(values)
}

/// What the last definition of the name gives at the values.
#[cycle(eval)]
fn call<'a>(
    alloc: Global,
    known: &'a Known<'a>,
    f: &'a Text,
    values: &'a [Seen<'a>],
) -> Result<Value, Memory>
    requires { check_at f.now (checks_of (known_of known.now)) (map plain_seen values.now) ≡ true }
    ensures { IfOk result (λ v. plain v ≡ call_at f.now (calls_of (known_of known.now)) (map plain_seen values.now)) }
{
    match opened(known, f) {
        None => Ok(Value::Bool(false)),
        Some((def, place)) => {
            if values.len() != def.parameters.items().len() {
                return Ok(Value::Bool(false));
            }
            let earlier = Known {
                defs: known.defs,
                count: place,
            };
            let scope = Scope::Parameters(def.parameters.items(), values);
            value_of(alloc, &earlier, &scope, &def.body)
        }
    }
}

/// What a binder makes of the members of its set.
#[cycle(eval)]
fn bind<'a>(
    alloc: Global,
    known: &'a Known<'a>,
    scope: &'a Scope<'a>,
    binder: Binder,
    x: &'a Text,
    set: &'a Value,
    body: &'a Term,
) -> Result<Value, Memory>
    requires each { list_all (small_with (known_of known.now) scope.now x.now body.now) (members_of (plain set.now)) ≡ true }
    requires sums { binder_small binder (members_of (plain set.now)) (value_with (known_of known.now) scope.now x.now body.now) ≡ true }
    ensures { IfOk result (λ v. plain v ≡ binder_value binder (members_of (plain set.now)) (value_with (known_of known.now) scope.now x.now body.now)) }
{
    let members = members(set);
    match binder {
        Binder::All => {
            let fails = finds(alloc, known, scope, x, members, body, false)?;
            Ok(Value::Bool(!fails))
        }
        Binder::Some => {
            let holds = finds(alloc, known, scope, x, members, body, true)?;
            Ok(Value::Bool(holds))
        }
        Binder::SetOf => {
            let truths = values_over(alloc, known, scope, x, members, body)?;
            kept(alloc, members, &truths)
        }
        Binder::Image => {
            let values = values_over(alloc, known, scope, x, members, body)?;
            image(alloc, values)
        }
        Binder::SumOf => {
            let values = values_over(alloc, known, scope, x, members, body)?;
            Ok(Value::Int(total(&values)))
        }
    }
}

/// Whether the body has the truth value at some member.
#[cycle(eval)]
fn finds<'a>(
    alloc: Global,
    known: &'a Known<'a>,
    scope: &'a Scope<'a>,
    x: &'a Text,
    members: &'a [Value],
    body: &'a Term,
    truth: bool,
) -> Result<bool, Memory>
    requires { list_all (small_with (known_of known.now) scope.now x.now body.now) (map plain members.now) ≡ true }
    ensures { IfOk result (λ r. r ≡ is_found truth (map (λ v. truth_of (value_with (known_of known.now) scope.now x.now body.now v)) (map plain members.now))) }
{
    for v in members {
        let inner = Scope::More(x, v, scope);
        let holds = value_of(alloc, &*known, &inner, body)?;
        if is_true(&holds) == truth {
            return Ok(true);
        }
    }
    Ok(false)
}

/// The body's value at each member.
#[cycle(eval)]
fn values_over<'a>(
    alloc: Global,
    known: &'a Known<'a>,
    scope: &'a Scope<'a>,
    x: &'a Text,
    members: &'a [Value],
    body: &'a Term,
) -> Result<Vec<Value>, Memory>
    requires { list_all (small_with (known_of known.now) scope.now x.now body.now) (map plain members.now) ≡ true }
    ensures { IfOk result (λ r. map plain r.items ≡ map (value_with (known_of known.now) scope.now x.now body.now) (map plain members.now)) }
{
    let mut values = Vec::new(alloc);
    for v in members {
        let inner = Scope::More(x, v, scope);
        let value = value_of(alloc, &*known, &inner, body)?;
        values.push(value)?;
    }
    Ok(values)
}
