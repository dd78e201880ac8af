//! Calls of definitions, opened and closed again.
ghost use Rattle.std.specs.Prelude.{◌≡◌, IfOk, Ok, map, length, option_map};
ghost use Rattle.kid_value.specs.NameView.{plain_name};
ghost use Rattle.kid_term.specs.DefView.{plain_def};
ghost use Rattle.kid_term.specs.PlainTerm.{app, call, term_row};
ghost use Rattle.kid_term.specs.TermView.{plain_term};
ghost use Rattle.kid_scope.specs.InstanceView.{TermGiven, InstanceGiven};
ghost use Rattle.kid_scope.specs.Unfolding as spec;

use crate::copies::copied;
use crate::given::same_term;
use crate::instance::{Instance, just};
use kid_term::{Def, Defs, Head, Subst, SubstFault, Term, Terms, Why};
use kid_value::{Memory, Text};
use std::alloc::Global;

/// Each parameter with its argument.
///
/// # Errors
///
/// Fails where memory is wanting.
pub fn paired(
    alloc: Global,
    parameters: &[(Text, kid_value::Sort)],
    args: &[Term],
) -> Result<Subst, Memory>
    requires { length args.now ≡ length parameters.now }
    ensures { IfOk result (λ s. s ≡ spec.paired (map plain_name parameters.now) (map plain_term args.now)) }
{
    let mut pairs = Subst::new(alloc);
    for (i, arg) in args.iter().enumerate() {
        pairs.push(parameters[i].0.copy(alloc)?, arg.copy(alloc)?)?;
    }
    Ok(pairs)
}

/// The body with the arguments in the parameters' places, where there are as many.
fn body_with(alloc: Global, def: &Def, args: &[Term]) -> Result<Term, Why>
    requires { length args.now ≡ length def.now.parameters }
    ensures { TermGiven result (spec.opened (plain_def def.now) (map plain_term args.now)) }
{
    match paired(alloc, def.parameters.items(), args) {
        Err(_) => Err(Why::Memory),
        Ok(pairs) => match def.body.substitute_all(alloc, &pairs) {
            Ok(body) => Ok(body),
            Err(SubstFault::Capture) => Err(Why::Capture),
            Err(SubstFault::Memory) => Err(Why::Memory),
        },
    }
}

/// The body of a definition with the arguments in the parameters' places.
fn opened(alloc: Global, def: &Def, args: &[Term]) -> Result<Term, Why>
    ensures { TermGiven result (spec.opened (plain_def def.now) (map plain_term args.now)) }
{
    if args.len() != def.parameters.items().len() {
        return Err(Why::NoMatch);
    }
    body_with(alloc, def, args)
}

fn opened_call(alloc: Global, found: Option<&Def>, args: &[Term]) -> Result<Instance, Why>
    ensures { InstanceGiven result (spec.opened_call (option_map (λ d. plain_def d.now) found.entry) (map plain_term args.now)) }
{
    match found {
        None => Err(Why::NoMatch),
        Some(def) => match opened(alloc, def, args) {
            Ok(body) => Ok(just(alloc, body)),
            Err(why) => Err(why),
        },
    }
}

/// The body of the definition that the term calls, with the arguments in the parameters' places.
///
/// # Errors
///
/// `NoMatch` exactly where the term is no call of a definition with as many arguments as that has
/// parameters, `Capture` exactly where else a name of an argument would be bound in the body, and
/// `Memory` where memory is wanting.
#[tactic(auto, using(crate::proofs::Facts::terms_row))]
pub fn unfold_call(alloc: Global, defs: &Defs, term: &Term) -> Result<Instance, Why>
    ensures { InstanceGiven result (spec.opened_in defs.now (plain_term term.now)) }
{
    match term {
        Term::App(Head::Call(name), args) => opened_call(alloc, defs.find(name), args.items()),
        _ => Err(Why::NoMatch),
    }
}

/// The call, where the term is the body that it opens to.
fn closed_from(
    alloc: Global,
    name: &Text,
    args: &Terms,
    body: &Term,
    term: &Term,
) -> Result<Instance, Why>
    ensures { InstanceGiven result (spec.closed_from (Ok (plain_term body.now)) (app (call name.now) (term_row args.now)) (plain_term term.now)) }
{
    if !same_term(body, term) {
        return Err(Why::NoMatch);
    }
    match called(alloc, name, args) {
        Ok(new) => Ok(just(alloc, new)),
        Err(_) => Err(Why::Memory),
    }
}

fn called(alloc: Global, name: &Text, args: &Terms) -> Result<Term, Memory>
    ensures { IfOk result (λ t. plain_term t ≡ app (call name.now) (term_row args.now)) }
{
    let name = name.copy(alloc)?;
    let args = copied(alloc, args)?;
    Ok(Term::App(Head::Call(name), args))
}

fn closed_with(
    alloc: Global,
    def: &Def,
    name: &Text,
    args: &Terms,
    term: &Term,
) -> Result<Instance, Why>
    ensures { InstanceGiven result (spec.closed_from (spec.opened (plain_def def.now) args.now) (app (call name.now) (term_row args.now)) (plain_term term.now)) }
{
    match opened(alloc, def, args.items()) {
        Ok(body) => closed_from(alloc, name, args, &body, term),
        Err(Why::Memory) => Err(Why::Memory),
        Err(_) => Err(Why::NoMatch),
    }
}

/// The call of a definition with these arguments, where the term is the body that it opens to.
///
/// # Errors
///
/// `UnknownLaw` exactly where there is no such definition; `NoMatch` exactly where else it is wanted
/// backwards, or the definition takes another number of arguments, a name of an argument would be
/// bound in the body, or the term is another; and `Memory` where memory is wanting.
pub fn fold_call(
    alloc: Global,
    defs: &Defs,
    name: &Text,
    back: bool,
    args: &Terms,
    term: &Term,
) -> Result<Instance, Why>
    ensures { InstanceGiven result (spec.fold_by name.now back args.now defs.now (plain_term term.now)) }
{
    match defs.find(name) {
        None => Err(Why::UnknownLaw),
        Some(def) => if back {
            Err(Why::NoMatch)
        } else {
            closed_with(alloc, def, name, args, term)
        },
    }
}
