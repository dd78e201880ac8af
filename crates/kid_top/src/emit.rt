//! The program that searches a theory's output by halving its range.
ghost use Rattle.std.specs.Prelude.{◌≡◌, ◌∷◌, [], Some, true, IfOk, pos, neg_ℤ, ◌+ℤ◌, ◌-ℤ◌, int_lt, codes};
ghost use Rattle.kid_value.specs.PlainSort.{ints};
ghost use Rattle.kid_value.specs.SortView.{plain_sort};
ghost use Rattle.kid_term.specs.PlainTerm.{var, number as number_term, app, op, term, no_term};
ghost use Rattle.kid_term.specs.TermView.{plain_term};
ghost use Rattle.kid_kernel.specs.TheoryView.{plain_theory};
ghost use Rattle.kid_prog.specs.StmtView.{plain_stmt};
ghost use Rattle.kid_prog.specs.ProgramView.{plain_program};
ghost use Rattle.kid_top.specs.Refusal.{Gives};
ghost use Rattle.kid_top.specs.Emitted.{low, high, number_pair, equal_ends, middle, leaf, open_call, leaf_part, kid_part, emitted_with, is_apart, has_ends, if_takes_leaf, program_for};

use crate::refusal::Refusal;
use kid_kernel::Theory;
use kid_prog::{Program, Stmt, Stmts};
use kid_sorting::Signature;
use kid_sorting::names::{copied, is_new, with_name};
use kid_term::substitute::SubstFault;
use kid_term::{Head, Literal, LogicOp, NumberOp, Op, Term, Terms};
use kid_value::{LIMIT, Memory, Names, Sort, Text};
use std::alloc::Global;

/// The name of the lower end of what is left to search.
const LOW: &[u8] = b"low";

/// The name of the upper end.
const HIGH: &[u8] = b"high";

fn low(alloc: Global) -> Result<Term, Memory>
    ensures { IfOk result (λ t. plain_term t ≡ low) }
{
    Ok(Term::Var(Text::from_slice(alloc, LOW)?))
}

fn high(alloc: Global) -> Result<Term, Memory>
    ensures { IfOk result (λ t. plain_term t ≡ high) }
{
    Ok(Term::Var(Text::from_slice(alloc, HIGH)?))
}

fn number(n: i64) -> Term
    ensures { plain_term result ≡ number_term n }
{
    Term::Lit(Literal::Int(n))
}

/// An operator at two terms.
fn applied(alloc: Global, head: Op, first: Term, second: Term) -> Result<Term, Memory>
    ensures { IfOk result (λ t. plain_term t ≡ app (op head) (term (plain_term first) (term (plain_term second) no_term))) }
{
    let mut terms = Terms::new(alloc);
    terms.push(first)?;
    terms.push(second)?;
    Ok(Term::App(Head::Op(head), terms))
}

fn middle(alloc: Global) -> Result<Term, Memory>
    ensures { IfOk result (λ t. plain_term t ≡ middle) }
{
    let sum = applied(alloc, Op::Number(NumberOp::Add), low(alloc)?, high(alloc)?)?;
    applied(alloc, Op::Number(NumberOp::Div), sum, number(2))
}

/// The value of the output where one integer is left.
fn leaf(alloc: Global, sort: &Sort) -> Result<Term, Memory>
    ensures { IfOk result (λ t. plain_term t ≡ leaf (plain_sort sort.now)) }
{
    let mut terms = Terms::new(alloc);
    terms.push(low(alloc)?)?;
    Ok(Term::App(Head::Cast(sort.copy(alloc)?), terms))
}

fn single(alloc: Global, statement: Stmt) -> Result<Stmts, Memory>
    ensures { IfOk result (λ s. s ≡ plain_stmt statement ∷ []) }
{
    let mut statements = Stmts::new(alloc);
    statements.push(statement)?;
    Ok(statements)
}

/// A call that no filter guards.
fn open_call(alloc: Global, first: Term, second: Term) -> Result<Stmt, Memory>
    ensures { IfOk result (λ s. plain_stmt s ≡ open_call (plain_term first) (plain_term second)) }
{
    let mut terms = Terms::new(alloc);
    terms.push(first)?;
    terms.push(second)?;
    let body = single(alloc, Stmt::Call(terms))?;
    Ok(Stmt::If(Term::Lit(Literal::Bool(true)), body))
}

/// Where one integer is left: it is found where the test is true.
fn leaf_part(alloc: Global, sort: &Sort, test: Term) -> Result<Stmt, Memory>
    ensures { IfOk result (λ s. plain_stmt s ≡ leaf_part (plain_sort sort.now) (plain_term test)) }
{
    let found = single(alloc, Stmt::Emit(leaf(alloc, sort)?))?;
    let tested = single(alloc, Stmt::If(test, found))?;
    let equal = applied(alloc, Op::Logic(LogicOp::Eq), low(alloc)?, high(alloc)?)?;
    Ok(Stmt::If(equal, tested))
}

/// Where more are left: the halves in their order.
fn kid_part(alloc: Global) -> Result<Stmt, Memory>
    ensures { IfOk result (λ s. plain_stmt s ≡ kid_part) }
{
    let mut halves = Stmts::new(alloc);
    halves.push(open_call(alloc, low(alloc)?, middle(alloc)?)?)?;
    let next = applied(alloc, Op::Number(NumberOp::Add), middle(alloc)?, number(1))?;
    halves.push(open_call(alloc, next, high(alloc)?)?)?;
    let wide = applied(alloc, Op::Number(NumberOp::Lt), low(alloc)?, high(alloc)?)?;
    Ok(Stmt::If(wide, halves))
}

/// The integer after this one.
fn after(n: i64) -> i64
    requires { int_lt n (pos 4611686018427387904) ≡ true }
    ensures { result ≡ n +ℤ pos 1 }
{
    n + 1
}

/// The integer before this one.
fn before(n: i64) -> i64
    requires { int_lt (neg_ℤ (pos 4611686018427387904)) n ≡ true }
    ensures { result ≡ n -ℤ pos 1 }
{
    n - 1
}

/// The two ends with their sorts, each one wider than the output's on one side.
#[tactic(auto, using(crate::proofs::EndLemmas::ends))]
fn parameters(alloc: Global, lo: i64, hi: i64) -> Result<Names, Memory>
    requires ends { has_ends lo hi ≡ true }
    ensures { IfOk result (λ ns. ns ≡ (codes "low", ints lo (hi +ℤ pos 1)) ∷ (codes "high", ints (lo -ℤ pos 1) hi) ∷ []) }
{
    let mut names = Names::new(alloc);
    let low = Sort::Int { lo, hi: after(hi) };
    let high = Sort::Int { lo: before(lo), hi };
    names.push(Text::from_slice(alloc, LOW)?, low)?;
    names.push(Text::from_slice(alloc, HIGH)?, high)?;
    Ok(names)
}

/// The definitions and the inputs of a theory.
fn signature(alloc: Global, theory: &Theory) -> Result<Signature, Memory>
    ensures { IfOk result (λ s. s ≡ record { definitions = theory.now.signature.definitions; inputs = theory.now.spec.inputs }) }
{
    let definitions = theory.signature.defs().copy(alloc)?;
    let inputs = copied(alloc, &theory.spec.inputs)?;
    Ok(Signature::from_parts(definitions, inputs))
}

/// The program that searches from `lo` to `hi` with this test for one integer.
fn emitted(alloc: Global, theory: &Theory, test: Term, lo: i64, hi: i64) -> Result<Program, Memory>
    requires ends { has_ends lo hi ≡ true }
    ensures { IfOk result (λ p. plain_program p ≡ emitted_with (plain_theory theory.now) (plain_term test) lo hi) }
{
    let mut search = Stmts::new(alloc);
    search.push(leaf_part(alloc, &theory.spec.sort, test)?)?;
    search.push(kid_part(alloc)?)?;
    Ok(Program {
        signature: signature(alloc, theory)?,
        condition: theory.spec.condition.copy(alloc)?,
        output: theory.spec.output.copy(alloc)?,
        sort: theory.spec.sort.copy(alloc)?,
        first: theory.spec.first,
        main: single(alloc, open_call(alloc, number(lo), number(hi))?)?,
        parameters: parameters(alloc, lo, hi)?,
        search,
    })
}

fn has_ends(lo: i64, hi: i64) -> bool
    ensures { result ≡ has_ends lo hi }
{
    -LIMIT < lo && lo <= hi && hi < LIMIT
}

/// Whether no input and not the output has one of the search's own names.
fn is_apart(alloc: Global, theory: &Theory) -> Result<bool, Refusal>
    ensures { Gives (λ b. b) result (Some (is_apart (plain_theory theory.now))) }
{
    let spec = &theory.spec;
    let scope = with_name(alloc, &spec.inputs, &spec.output, &spec.sort)?;
    let low = Text::from_slice(alloc, LOW)?;
    let high = Text::from_slice(alloc, HIGH)?;
    Ok(is_new(&scope, &low) && is_new(&scope, &high))
}

/// The program that searches from `lo` to `hi`.
fn searching(alloc: Global, theory: &Theory, lo: i64, hi: i64) -> Result<Program, Refusal>
    requires ends { has_ends lo hi ≡ true }
    ensures { Gives plain_program result (if_takes_leaf (plain_theory theory.now) lo hi) }
{
    let spec = &theory.spec;
    let leaf = leaf(alloc, &spec.sort)?;
    match spec.relation.substitute(alloc, &spec.output, &leaf) {
        Ok(test) => Ok(emitted(alloc, theory, test, lo, hi)?),
        Err(SubstFault::Capture) => Err(Refusal::Unbuilt),
        Err(SubstFault::Memory) => Err(Refusal::Memory),
    }
}

/// The program for a theory.
///
/// # Errors
///
/// `Unbuilt`: the output is no range, the ends of the search are beyond the limits of integers, an input or the output has a name
/// of the search's own, or a name would be captured. `Memory`: memory is wanting.
pub fn program_for(alloc: Global, theory: &Theory) -> Result<Program, Refusal>
    ensures { Gives plain_program result (program_for (plain_theory theory.now)) }
{
    let Sort::Int { lo, hi } = theory.spec.sort else {
        return Err(Refusal::Unbuilt);
    };
    if !has_ends(lo, hi) || !is_apart(alloc, theory)? {
        return Err(Refusal::Unbuilt);
    }
    searching(alloc, theory, lo, hi)
}
