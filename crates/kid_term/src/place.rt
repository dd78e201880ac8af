//! Subterms by their paths.
ghost use Rattle.std.specs.Prelude.{◌≡◌, ◌∷◌, MatchOption, MatchResult, map};
ghost use Rattle.kid_term.specs.TermView.{plain_term};
ghost use Rattle.kid_term.specs.PlainTerm.{PlainTerm, term_row};
ghost use Rattle.kid_term.specs.Replacing.{subterm, subterm_among, Replaces, ReplacesAmong, Refuses, RefusesAmong};

use crate::{BoxedTerm, Literal, Path, Term, Terms};
use std::mem;

impl Term {
    /// The subterm at the path, or none where the path is not there. Takes no memory.
    pub fn at(&self, path: &Path) -> Option<&Term>
        ensures { MatchOption result (subterm (plain_term self.now) path.now ≡ None) (λ t. subterm (plain_term self.now) path.now ≡ Some (plain_term t.now)) }
    {
        self.below(path.as_slice())
    }

    #[cycle(below)]
    fn below(&self, path: &[u32]) -> Option<&Term>
        ensures { MatchOption result (subterm (plain_term self.now) path.now ≡ None) (λ t. subterm (plain_term self.now) path.now ≡ Some (plain_term t.now)) }
    {
        let Some((i, rest)) = path.split_first() else {
            return Some(self);
        };
        match self {
            Term::App(_, args) => below_among(&args.items, *i, rest),
            Term::Bind(_, _, set, body) => match *i {
                0 => set.inner.below(rest),
                1 => body.inner.below(rest),
                _ => None,
            },
            Term::Var(_) | Term::Lit(_) => None,
        }
    }

    /// The term with another at the path, and what stood there. Takes no memory.
    ///
    /// # Errors
    ///
    /// Gives both terms back exactly where the path is not there.
    pub fn replace(self, path: &Path, new: Term) -> Result<(Term, Term), (Term, Term)>
        ensures { MatchResult result (λ p. Replaces (plain_term self) path.now (plain_term new) (plain_term p.0) (plain_term p.1)) (λ p. Refuses (plain_term self) path.now (plain_term new) (plain_term p.0) (plain_term p.1)) }
    {
        self.replace_at(path.as_slice(), new)
    }

    #[cycle(replace)]
    fn replace_at(self, path: &[u32], new: Term) -> Result<(Term, Term), (Term, Term)>
        ensures { MatchResult result (λ p. Replaces (plain_term self) path.now (plain_term new) (plain_term p.0) (plain_term p.1)) (λ p. Refuses (plain_term self) path.now (plain_term new) (plain_term p.0) (plain_term p.1)) }
    {
        match path.split_first() {
            None => Ok((new, self)),
            Some((i, rest)) => match self {
                Term::App(head, args) => match args.replace_at(*i, rest, new) {
                    Ok((args, old)) => Ok((Term::App(head, args), old)),
                    Err((args, new)) => Err((Term::App(head, args), new)),
                },
                Term::Bind(binder, x, set, body) => if *i == 0 {
                    match set.replace_at(rest, new) {
                        Ok((set, old)) => Ok((Term::Bind(binder, x, set, body), old)),
                        Err((set, new)) => Err((Term::Bind(binder, x, set, body), new)),
                    }
                } else if *i == 1 {
                    match body.replace_at(rest, new) {
                        Ok((body, old)) => Ok((Term::Bind(binder, x, set, body), old)),
                        Err((body, new)) => Err((Term::Bind(binder, x, set, body), new)),
                    }
                } else {
                    Err((Term::Bind(binder, x, set, body), new))
                },
                Term::Var(x) => Err((Term::Var(x), new)),
                Term::Lit(l) => Err((Term::Lit(l), new)),
            },
        }
    }
}

impl BoxedTerm {
    #[cycle(replace)]
    fn replace_at(self, path: &[u32], new: Term) -> Result<(BoxedTerm, Term), (BoxedTerm, Term)>
        ensures { MatchResult result (λ p. Replaces self path.now (plain_term new) p.0 (plain_term p.1)) (λ p. Refuses self path.now (plain_term new) p.0 (plain_term p.1)) }
    {
        let BoxedTerm { mut inner } = self;
        let child = mem::replace(&mut *inner, Term::Lit(Literal::Bool(false)));
        match child.replace_at(path, new) {
            Ok((whole, old)) => {
                *inner = whole;
                Ok((BoxedTerm { inner }, old))
            }
            Err((whole, new)) => {
                *inner = whole;
                Err((BoxedTerm { inner }, new))
            }
        }
    }
}

impl Terms {
    #[cycle(replace)]
    fn replace_at(self, i: u32, path: &[u32], new: Term) -> Result<(Terms, Term), (Terms, Term)>
        ensures { MatchResult result (λ p. ReplacesAmong (term_row self) i path.now (plain_term new) (term_row p.0) (plain_term p.1)) (λ p. RefusesAmong (term_row self) i path.now (plain_term new) (term_row p.0) (plain_term p.1)) }
    {
        let Terms { mut items } = self;
        let at = i as usize;
        if at >= items.len() {
            return Err((Terms { items }, new));
        }
        let child = mem::replace(&mut items[at], Term::Lit(Literal::Bool(false)));
        match child.replace_at(path, new) {
            Ok((whole, old)) => {
                items[at] = whole;
                Ok((Terms { items }, old))
            }
            Err((whole, new)) => {
                items[at] = whole;
                Err((Terms { items }, new))
            }
        }
    }
}

#[cycle(below)]
fn below_among<'a>(terms: &'a [Term], i: u32, path: &[u32]) -> Option<&'a Term>
    ensures { MatchOption result (subterm_among (term_row (map plain_term terms.now)) i path.now ≡ None) (λ t. subterm_among (term_row (map plain_term terms.now)) i path.now ≡ Some (plain_term t.now)) }
{
    let at = i as usize;
    if at < terms.len() {
        terms[at].below(path)
    } else {
        None
    }
}
