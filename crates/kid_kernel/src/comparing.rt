//! What a condition compares, and the parts of a conjunction.
ghost use Rattle.std.specs.Prelude.{◌≡◌, ◌≢◌, ◌∷◌, [], MatchOption, Some, None, map, length, option_map};
ghost use Rattle.kid_term.specs.PlainTerm.{term_row};
ghost use Rattle.kid_term.specs.TermView.{plain_term};
ghost use Rattle.kid_kernel.specs.Comparing as spec;
ghost use Rattle.kid_kernel.specs.ComparisonView.{plain_comparison};

use kid_term::{Head, LogicOp, NumberOp, Op, Term};

/// Two terms of which the first is at most the second, or less than it.
#[derive(Clone, Copy)]
pub enum Comparison<'a> {
    AtMost(&'a Term, &'a Term),
    Below(&'a Term, &'a Term),
}

/// The term of a list of one.
pub fn single(terms: &[Term]) -> Option<&Term>
    ensures { MatchOption result (length terms.now ≢ 1) (λ t. terms.now ≡ t.now ∷ []) }
{
    let [first] = terms else {
        return None;
    };
    Some(first)
}

/// The terms of a list of two.
pub fn couple(terms: &[Term]) -> Option<(&Term, &Term)>
    ensures { MatchOption result (length terms.now ≢ 2) (λ p. terms.now ≡ p.0.now ∷ p.1.now ∷ []) }
{
    let [first, second] = terms else {
        return None;
    };
    Some((first, second))
}

/// The two parts of a conjunction.
#[tactic(auto, using(crate::proofs::ComparingLemmas::two_parts, crate::proofs::ComparingLemmas::no_parts))]
pub fn conjuncts(condition: &Term) -> Option<(&Term, &Term)>
    ensures { MatchOption result (spec.conjuncts (plain_term condition.now) ≡ None) (λ p. spec.conjuncts (plain_term condition.now) ≡ Some (plain_term p.0.now, plain_term p.1.now)) }
{
    match condition {
        Term::App(Head::Op(Op::Logic(LogicOp::And)), args) => couple(args.items()),
        _ => None,
    }
}

/// The two sides that the condition compares.
pub fn compared(condition: &Term) -> Option<Comparison<'_>>
    ensures { option_map plain_comparison result ≡ spec.compared (plain_term condition.now) }
{
    match condition {
        Term::App(Head::Op(Op::Number(NumberOp::Le)), args) => at_most(args.items()),
        Term::App(Head::Op(Op::Number(NumberOp::Lt)), args) => below(args.items()),
        Term::App(Head::Op(Op::Logic(LogicOp::Not)), args) => not_at_most(args.items()),
        _ => None,
    }
}

#[tactic(auto, using(crate::proofs::ComparingLemmas::at_most_two, crate::proofs::ComparingLemmas::at_most_others))]
fn at_most(sides: &[Term]) -> Option<Comparison<'_>>
    ensures { option_map plain_comparison result ≡ spec.at_most (term_row (map plain_term sides.now)) }
{
    match couple(sides) {
        Some((a, b)) => Some(Comparison::AtMost(a, b)),
        None => None,
    }
}

#[tactic(auto, using(crate::proofs::ComparingLemmas::below_two, crate::proofs::ComparingLemmas::below_others))]
fn below(sides: &[Term]) -> Option<Comparison<'_>>
    ensures { option_map plain_comparison result ≡ spec.below (term_row (map plain_term sides.now)) }
{
    match couple(sides) {
        Some((a, b)) => Some(Comparison::Below(a, b)),
        None => None,
    }
}

/// Of the negation of what is at most another, the other, which is below it.
#[tactic(auto, using(crate::proofs::ComparingLemmas::turned_one, crate::proofs::ComparingLemmas::turned_others))]
fn not_at_most(parts: &[Term]) -> Option<Comparison<'_>>
    ensures { option_map plain_comparison result ≡ spec.not_at_most (term_row (map plain_term parts.now)) }
{
    match single(parts) {
        Some(part) => turned(part),
        None => None,
    }
}

fn turned(condition: &Term) -> Option<Comparison<'_>>
    ensures { option_map plain_comparison result ≡ spec.turned (plain_term condition.now) }
{
    match condition {
        Term::App(Head::Op(Op::Number(NumberOp::Le)), args) => above(args.items()),
        _ => None,
    }
}

#[tactic(auto, using(crate::proofs::ComparingLemmas::above_two, crate::proofs::ComparingLemmas::above_others))]
fn above(sides: &[Term]) -> Option<Comparison<'_>>
    ensures { option_map plain_comparison result ≡ spec.above (term_row (map plain_term sides.now)) }
{
    match couple(sides) {
        Some((a, b)) => Some(Comparison::Below(b, a)),
        None => None,
    }
}
