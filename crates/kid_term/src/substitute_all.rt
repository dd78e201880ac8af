//! Terms in the places of several names at once.
ghost use Rattle.std.specs.Prelude.{◌≡◌, ◌++◌, ◌↔◌, true, Err, IfOk, map, option_map};
ghost use Rattle.kid_term.specs.TermView.{plain_term};
ghost use Rattle.kid_term.specs.PlainTerm.{term_row};
ghost use Rattle.kid_term.specs.Eval.{Env, Calls, eval};
ghost use Rattle.kid_term.specs.Substitution.{captures};
ghost use Rattle.kid_term.specs.Simultaneous as spec;
ghost use Rattle.kid_term.specs.Simultaneous.{or_itself, term_for, values_of};
ghost use Rattle.kid_term.specs.SubstView.{plain_pair, subst_of};

use crate::subst::{Subst, found};
use crate::substitute::{SubstFault, is_same};
use crate::{BoxedTerm, Term, Terms};
use kid_value::{Memory, Text};
use std::alloc::Global;

/// Names with their terms, many or one, and the names of binders inside them, which have
/// themselves.
#[derive(Clone, Copy)]
pub enum Scope<'a> {
    Many(&'a [(Text, Term)]),
    One(&'a Text, &'a Term),
    Under(&'a Text, &'a Scope<'a>),
}

impl Term {
    /// Whether a free name of some name's term is bound above a free place of that name. Takes no
    /// memory.
    pub fn captures_any(&self, subst: &Subst) -> bool
        ensures { result ≡ spec.captures_any subst.now (plain_term self.now) }
    {
        some_captured(self, subst.items(), subst)
    }

    /// The term with its term in each free place of each name, all at once: what was put in is not
    /// looked at again.
    ///
    /// # Errors
    ///
    /// `Capture` exactly where a free name of some name's term is bound above a free place of that
    /// name, and `Memory` where memory is wanting.
    pub fn substitute_all(&self, alloc: Global, subst: &Subst) -> Result<Term, SubstFault>
        ensures substituted { IfOk result (λ t. plain_term t ≡ spec.substituted subst.now (plain_term self.now)) }
        ensures capture { (result ≡ Err SubstFault.Capture) ↔ (spec.captures_any subst.now (plain_term self.now) ≡ true) }
        // The new term has the value that the old one has where the names have the values of their terms.
        ensures value { IfOk result (λ t. (calls : Calls) (env : Env)
            → eval calls env (plain_term t) ≡ eval calls (values_of calls env subst.now ++ env) (plain_term self.now)) }
    {
        if self.captures_any(subst) {
            return Err(SubstFault::Capture);
        }
        match substituted(alloc, &Scope::Many(subst.items()), self) {
            Ok(t) => Ok(t),
            Err(_) => Err(SubstFault::Memory),
        }
    }
}

/// Whether the term that a name has, or itself, would be captured.
fn captures_found(term: &Term, x: &Text, found: Option<&Term>) -> bool
    ensures { result ≡ captures x.now (or_itself x.now (option_map (λ t. plain_term t.now) found.entry)) (plain_term term.now) }
{
    match found {
        Some(new) => term.captures(x, new),
        None => false,
    }
}

fn is_captured(term: &Term, x: &Text, subst: &Subst) -> bool
    ensures { result ≡ captures x.now (term_for x.now subst.now) (plain_term term.now) }
{
    captures_found(term, x, subst.get(x))
}

fn some_captured(term: &Term, items: &[(Text, Term)], subst: &Subst) -> bool
    ensures { result ≡ spec.some_captured subst.now (plain_term term.now) (map plain_pair items.now) }
{
    for item in items {
        if is_captured(term, &item.0, subst) {
            return true;
        }
    }
    false
}

/// A copy of the term that a name has, or the name.
fn found_or_itself(alloc: Global, x: &Text, found: Option<&Term>) -> Result<Term, Memory>
    ensures { IfOk result (λ t. plain_term t ≡ or_itself x.now (option_map (λ t. plain_term t.now) found.entry)) }
{
    match found {
        Some(t) => t.copy(alloc),
        None => Ok(Term::Var(x.copy(alloc)?)),
    }
}

fn look_up<'a>(alloc: Global, scope: &'a Scope<'a>, x: &Text) -> Result<Term, Memory>
    ensures { IfOk result (λ t. plain_term t ≡ term_for x.now (subst_of scope.now)) }
{
    match *scope {
        Scope::Many(items) => found_or_itself(alloc, x, found(items, x)),
        Scope::One(y, new) => found_or_itself(
            alloc,
            x,
            if is_same(x, y) { Some(new) } else { None },
        ),
        Scope::Under(y, rest) => if is_same(x, y) {
            found_or_itself(alloc, y, None)
        } else {
            look_up(alloc, rest, x)
        },
    }
}

/// The term with its term in each free place of each name.
#[cycle(substituted)]
pub(crate) fn substituted<'a>(
    alloc: Global,
    scope: &'a Scope<'a>,
    term: &'a Term,
) -> Result<Term, Memory>
    ensures { IfOk result (λ t. plain_term t ≡ spec.substituted (subst_of scope.now) (plain_term term.now)) }
{
    match term {
        Term::Var(x) => look_up(alloc, scope, x),
        Term::Lit(l) => Ok(Term::Lit(l.copy(alloc)?)),
        Term::App(head, args) => {
            let head = head.copy(alloc)?;
            let items = all_substituted(alloc, scope, &args.items)?;
            Ok(Term::App(head, Terms { items }))
        }
        Term::Bind(binder, y, set, body) => {
            let name = y.copy(alloc)?;
            let set = substituted(alloc, scope, &set.inner)?;
            let inside = Scope::Under(y, scope);
            let body = substituted(alloc, &inside, &body.inner)?;
            let set = BoxedTerm::new(alloc, set)?;
            let body = BoxedTerm::new(alloc, body)?;
            Ok(Term::Bind(*binder, name, set, body))
        }
    }
}

#[cycle(substituted)]
fn all_substituted<'a>(
    alloc: Global,
    scope: &'a Scope<'a>,
    terms: &'a [Term],
) -> Result<Vec<Term>, Memory>
    ensures { IfOk result (λ v. term_row (map plain_term v.items) ≡ spec.all_substituted (subst_of scope.now) (term_row (map plain_term terms.now))) }
{
    let mut made = Vec::new(alloc);
    for t in terms {
        made.push(substituted(alloc, scope, t)?)?;
    }
    Ok(made)
}
