//! The definitions that a term sees, and the one that a call opens.
ghost use Rattle.std.specs.Prelude.{◌≡◌, ◌<◌, MatchOption, get_or, length, take};
ghost use Rattle.kid_term.specs.DefView.{plain_def};
ghost use Rattle.kid_eval.specs.KnownView.{known_of};
ghost use Rattle.kid_eval.specs.Opening.{Opens, IsUndefined};

use kid_term::{Def, Defs};
use kid_value::Text;

/// The first so many of definitions.
#[derive(Clone, Copy)]
pub struct Known<'a> {
    pub defs: &'a Defs,
    pub count: usize,
}

/// The last definition of the name among those that are known, with its place.
pub fn opened<'a>(known: &'a Known<'a>, f: &Text) -> Option<(&'a Def, usize)>
    ensures { MatchOption result (IsUndefined f.now (known_of known.now)) (λ p. Opens f.now (known_of known.now) (plain_def p.0.now) (take p.1 known.now.defs.now)) }
{
    match known.defs.place(known.count, f) {
        Some(place) => Some((definition_at(known.defs.items(), place), place)),
        None => None,
    }
}

fn definition_at(definitions: &[Def], place: usize) -> &Def
    requires { place < length definitions.now }
    ensures { result.now ≡ get_or definitions.now place result.now }
{
    &definitions[place]
}
