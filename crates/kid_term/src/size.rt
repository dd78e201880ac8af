//! How large and how deep a term is.
ghost use Rattle.std.specs.Prelude.{◌≡◌, map, min};
ghost use Rattle.kid_term.specs.TermView.{plain_term};
ghost use Rattle.kid_term.specs.PlainTerm.{term_row, node_count, node_counts, depth as depth_of, depths};

use crate::Term;

impl Term {
    /// How many names, literals, applications and binders the term has, or the greatest number
    /// where there are more. The sort of a cast counts nothing.
    #[cycle(nodes)]
    pub fn nodes(&self) -> u64
        ensures { result ≡ min (node_count (plain_term self.now)) u64.MAX }
    {
        match self {
            Term::Var(_) | Term::Lit(_) => 1,
            Term::App(_, args) => all_nodes(&args.items).saturating_add(1),
            Term::Bind(_, _, set, body) => {
                let below = set.inner.nodes().saturating_add(body.inner.nodes());
                below.saturating_add(1)
            }
        }
    }

    /// How deep the term is, or the greatest number where it is deeper. A term without children
    /// has depth 1, another one more than its deepest child.
    #[cycle(depth)]
    pub fn depth(&self) -> u64
        ensures { result ≡ min (depth_of (plain_term self.now)) u64.MAX }
    {
        match self {
            Term::Var(_) | Term::Lit(_) => 1,
            Term::App(_, args) => deepest(&args.items).saturating_add(1),
            Term::Bind(_, _, set, body) => {
                let below = set.inner.depth().max(body.inner.depth());
                below.saturating_add(1)
            }
        }
    }
}

#[cycle(nodes)]
fn all_nodes(terms: &[Term]) -> u64
    ensures { result ≡ min (node_counts (term_row (map plain_term terms.now))) u64.MAX }
{
    let mut total = 0u64;
    for t in terms {
        total = total.saturating_add(t.nodes());
    }
    total
}

#[cycle(depth)]
fn deepest(terms: &[Term]) -> u64
    ensures { result ≡ min (depths (term_row (map plain_term terms.now))) u64.MAX }
{
    let mut most = 0u64;
    for t in terms {
        most = most.max(t.depth());
    }
    most
}
