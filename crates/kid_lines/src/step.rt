//! Moves.
ghost use Rattle.std.specs.Prelude.{◌≡◌, true, IfOk, Some};
ghost use Rattle.kid_sexp.specs.Plain.{list, one};
ghost use Rattle.kid_sexp.specs.Tree.{plain, plains};
ghost use Rattle.kid_term.specs.PlainTerm.{term_row};
ghost use Rattle.kid_moves.specs.MoveView.{plain_move};
ghost use Rattle.kid_moves.specs.PlainRule.{both_of, concluded_by, after_lines};
ghost use Rattle.kid_moves.specs.RuleView.{plain_rule};
ghost use Rattle.kid_codec.specs.Reading.{Finds};
ghost use Rattle.kid_codec.specs.SortSpelling.{headed};
ghost use Rattle.kid_codec.specs.TermSpelling.{term_spellings};
ghost use Rattle.kid_lines.specs.LineAnswers.{IsSpelling, IsReading};
ghost use Rattle.kid_lines.specs.LineReading.{one_fact, two_facts, concluding, copying, move_by, spelled_move};
ghost use Rattle.kid_lines.specs.LineSpelling.{index_spelling, move_spelling, is_spelled_move, SpellsMove};

use crate::index::{index_of, index_tree};
use crate::line::{lines_of, put_lines};
use crate::ruled::{bare_rule, headed_parts, rule_tree};
use crate::terms::{put_terms, term_list};
use kid_codec::shape::{couple, single};
use kid_codec::{CodecFault, begun};
use kid_moves::{Lines, Move, Rule};
use kid_sexp::{Forest, Tree};
use kid_term::{Terms, Why};
use kid_value::{Memory, Text};
use std::alloc::Global;

fn one_fact(trees: &[Tree]) -> Result<u32, CodecFault>
    ensures { Finds (λ k. k) result (one_fact (plains trees.now)) }
{
    match single(trees) {
        Some(tree) => index_of(tree),
        None => Err(CodecFault::Form),
    }
}

fn two_facts(trees: &[Tree]) -> Result<Move, CodecFault>
    ensures { Finds plain_move result (two_facts (plains trees.now)) }
{
    let Some((first, second)) = couple(trees) else {
        return Err(CodecFault::Form);
    };
    let k = index_of(first)?;
    let l = index_of(second)?;
    Ok(Move::Join(k, l))
}

fn concluding(alloc: Global, trees: &[Tree]) -> Result<Move, CodecFault>
    ensures { Finds plain_move result (concluding (plains trees.now)) }
{
    let Some((first, second)) = couple(trees) else {
        return Err(CodecFault::Form);
    };
    let rule = bare_rule(alloc, first)?;
    let terms = term_list(alloc, second)?;
    Ok(Move::Have(rule, terms))
}

fn copying(alloc: Global, trees: &[Tree]) -> Result<Move, CodecFault>
    ensures { Finds plain_move result (copying (plains trees.now)) }
{
    let Some((first, rest)) = trees.split_first() else {
        return Err(CodecFault::Form);
    };
    let k = index_of(first)?;
    let lines = lines_of(alloc, rest)?;
    Ok(Move::Copy(k, lines))
}

fn move_by(alloc: Global, word: &Text, trees: &[Tree]) -> Result<Move, CodecFault>
    ensures { Finds plain_move result (move_by word.now (plains trees.now)) }
{
    if word.is(b"left") {
        return Ok(Move::Left(one_fact(trees)?));
    }
    if word.is(b"right") {
        return Ok(Move::Right(one_fact(trees)?));
    }
    if word.is(b"join") {
        return two_facts(trees);
    }
    if word.is(b"again") {
        return Ok(Move::Again(one_fact(trees)?));
    }
    if word.is(b"have") {
        return concluding(alloc, trees);
    }
    if word.is(b"copy") {
        return copying(alloc, trees);
    }
    Err(CodecFault::Form)
}

/// The move that a tree spells. [`move_of`] tells a fault in the words of refusals.
///
/// # Errors
///
/// `Form`: the tree spells no move. `Memory`: memory is wanting.
pub fn read_move(alloc: Global, tree: &Tree) -> Result<Move, CodecFault>
    ensures { Finds plain_move result (spelled_move (plain tree.now)) }
{
    match headed_parts(tree) {
        Some((word, parts)) => move_by(alloc, word, parts),
        None => Err(CodecFault::Form),
    }
}

/// The move that a tree spells: `(left K)`, `(right K)`, `(join K L)`, `(again K)`,
/// `(have RULE (t ..))` with a rule without arguments, or `(copy K LINE ..)`.
///
/// # Errors
///
/// `Form`: the tree spells no move, as where a term in it casts to a sort that is not allowed or
/// holds an operator on words or rows. `Memory`: memory is wanting.
pub fn move_of(alloc: Global, tree: &Tree) -> Result<Move, Why>
    ensures reading { IsReading plain_move (spelled_move (plain tree.now)) result }
    ensures spelling { IsSpelling plain_move (SpellsMove (plain tree.now)) result }
{
    match read_move(alloc, tree) {
        Ok(step) => Ok(step),
        Err(CodecFault::Memory) => Err(Why::Memory),
        Err(_) => Err(Why::Form),
    }
}

fn fact_tree(alloc: Global, word: &[u8], k: u32) -> Result<Tree, Memory>
    ensures { IfOk result (λ t. plain t ≡ headed word.now (one (index_spelling k))) }
{
    let mut trees = begun(alloc, word)?;
    trees.push(index_tree(alloc, k)?)?;
    Ok(Tree::List(trees))
}

fn facts_tree(alloc: Global, k: u32, l: u32) -> Result<Tree, Memory>
    ensures { IfOk result (λ t. plain t ≡ move_spelling (both_of k l)) }
{
    let mut trees = begun(alloc, b"join")?;
    trees.push(index_tree(alloc, k)?)?;
    trees.push(index_tree(alloc, l)?)?;
    Ok(Tree::List(trees))
}

fn terms_tree(alloc: Global, terms: &Terms) -> Result<Tree, Memory>
    ensures { IfOk result (λ t. plain t ≡ list (term_spellings (term_row terms.now))) }
{
    let mut trees = Forest::new(alloc);
    put_terms(alloc, &mut trees, terms.items())?;
    Ok(Tree::List(trees))
}

fn conclusion_tree(alloc: Global, rule: &Rule, terms: &Terms) -> Result<Tree, Memory>
    ensures { IfOk result (λ t. plain t ≡ move_spelling (concluded_by (plain_rule rule.now) terms.now)) }
{
    let mut trees = begun(alloc, b"have")?;
    trees.push(rule_tree(alloc, rule, &[])?)?;
    trees.push(terms_tree(alloc, terms)?)?;
    Ok(Tree::List(trees))
}

fn copy_tree(alloc: Global, k: u32, lines: &Lines) -> Result<Tree, Memory>
    ensures { IfOk result (λ t. plain t ≡ move_spelling (after_lines k lines.now)) }
{
    let mut trees = begun(alloc, b"copy")?;
    trees.push(index_tree(alloc, k)?)?;
    put_lines(alloc, &mut trees, lines.items())?;
    Ok(Tree::List(trees))
}

/// The tree of any move, whether or not it reads back. [`move_tree`] takes those that do.
///
/// # Errors
///
/// Fails where memory is wanting.
pub fn tree_of_move(alloc: Global, step: &Move) -> Result<Tree, Memory>
    ensures { IfOk result (λ t. plain t ≡ move_spelling (plain_move step.now)) }
{
    match step {
        Move::Left(k) => fact_tree(alloc, b"left", *k),
        Move::Right(k) => fact_tree(alloc, b"right", *k),
        Move::Join(k, l) => facts_tree(alloc, *k, *l),
        Move::Again(k) => fact_tree(alloc, b"again", *k),
        Move::Have(rule, terms) => conclusion_tree(alloc, rule, terms),
        Move::Copy(k, lines) => copy_tree(alloc, *k, lines),
    }
}

/// The tree of a move, which reads back to it. The names in the move are names, its terms have a
/// spelling and hold no operator on words or rows, and its lines have a spelling.
///
/// # Errors
///
/// Fails where memory is wanting.
pub fn move_tree(alloc: Global, step: &Move) -> Result<Tree, Memory>
    requires { is_spelled_move (plain_move step.now) ≡ true }
    ensures spelling { IfOk result (λ t. SpellsMove (plain t) (plain_move step.now)) }
    ensures back { IfOk result (λ t. spelled_move (plain t) ≡ Some (plain_move step.now)) }
{
    tree_of_move(alloc, step)
}
