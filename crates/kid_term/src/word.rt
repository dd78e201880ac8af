//! Whether a term has operators on words and rows.
ghost use Rattle.std.specs.Prelude.{◌≡◌, map};
ghost use Rattle.kid_term.specs.TermView.{plain_term, plain_head};
ghost use Rattle.kid_term.specs.PlainTerm.{term_row};
ghost use Rattle.kid_term.specs.WordTerms as spec;

use crate::{Head, Op, Term};

fn is_word_head(head: &Head) -> bool
    ensures { result ≡ spec.is_word_head (plain_head head.now) }
{
    match head {
        Head::Op(Op::Word(_)) => true,
        _ => false,
    }
}

impl Term {
    /// Whether an operator on words or rows stands anywhere in the term. Takes no memory.
    #[cycle(words)]
    pub fn holds_word_operator(&self) -> bool
        ensures { result ≡ spec.holds_word_operator (plain_term self.now) }
    {
        match self {
            Term::Var(_) | Term::Lit(_) => false,
            Term::App(head, args) => is_word_head(head) || some_hold_word_operator(&args.items),
            Term::Bind(_, _, set, body) => set.inner.holds_word_operator()
                || body.inner.holds_word_operator(),
        }
    }
}

#[cycle(words)]
fn some_hold_word_operator(terms: &[Term]) -> bool
    ensures { result ≡ spec.some_hold_word_operator (term_row (map plain_term terms.now)) }
{
    for t in terms {
        if t.holds_word_operator() {
            return true;
        }
    }
    false
}
