//! Rules with their arguments.
ghost use Rattle.std.specs.Prelude.{◌≡◌, [], IfOk, option_map, map};
ghost use Rattle.kid_sexp.specs.Tree.{plain, plains};
ghost use Rattle.kid_term.specs.TermView.{plain_term};
ghost use Rattle.kid_moves.specs.PlainRule.{by_folding, by_fact};
ghost use Rattle.kid_moves.specs.RuleView.{plain_rule};
ghost use Rattle.kid_codec.specs.Reading.{Finds};
ghost use Rattle.kid_lines.specs.LineReading.{bare_rule};
ghost use Rattle.kid_lines.specs.RuleReading.{headed_parts, used, folded, argued, ruled_by, spelled_rule};
ghost use Rattle.kid_lines.specs.RuleSpelling.{lettered, worded, rule_spelling};

use crate::index::{index_of, index_tree};
use crate::terms::{plain_terms_of, put_terms};
use crate::words::{lettered, word_rule};
use kid_codec::shape::single;
use kid_codec::{CodecFault, begun, spelled_name, word_tree};
use kid_moves::Rule;
use kid_sexp::Tree;
use kid_term::{Term, Terms};
use kid_value::{Memory, Text};
use std::alloc::Global;

/// The word that a list begins with, and what stands behind it.
pub fn headed_parts(tree: &Tree) -> Option<(&Text, &[Tree])>
    ensures { option_map (λ p. (p.0.now, plains p.1.now)) result ≡ headed_parts (plain tree.now) }
{
    let Tree::List(trees) = tree else {
        return None;
    };
    match trees.as_slice().split_first() {
        Some((Tree::Atom(word), parts)) => Some((word, parts)),
        _ => None,
    }
}

fn used(alloc: Global, trees: &[Tree]) -> Result<(Rule, Terms), CodecFault>
    ensures { Finds (λ p. (plain_rule p.0, p.1)) result (used (plains trees.now)) }
{
    let Some(tree) = single(trees) else {
        return Err(CodecFault::Form);
    };
    let k = index_of(tree)?;
    Ok((Rule::UseFact(k), Terms::new(alloc)))
}

fn folded(alloc: Global, trees: &[Tree]) -> Result<(Rule, Terms), CodecFault>
    ensures { Finds (λ p. (plain_rule p.0, p.1)) result (folded (plains trees.now)) }
{
    let Some((first, rest)) = trees.split_first() else {
        return Err(CodecFault::Form);
    };
    let name = spelled_name(alloc, first)?;
    let args = plain_terms_of(alloc, rest)?;
    Ok((Rule::Fold(name), args))
}

fn argued(alloc: Global, word: &Text, trees: &[Tree]) -> Result<(Rule, Terms), CodecFault>
    ensures { Finds (λ p. (plain_rule p.0, p.1)) result (argued word.now (plains trees.now)) }
{
    if trees.is_empty() {
        return Err(CodecFault::Form);
    }
    let rule = word_rule(alloc, word)?;
    let args = plain_terms_of(alloc, trees)?;
    Ok((rule, args))
}

fn ruled_by(alloc: Global, word: &Text, trees: &[Tree]) -> Result<(Rule, Terms), CodecFault>
    ensures { Finds (λ p. (plain_rule p.0, p.1)) result (ruled_by word.now (plains trees.now)) }
{
    if word.is(b"use") {
        return used(alloc, trees);
    }
    if word.is(b"fold") {
        return folded(alloc, trees);
    }
    argued(alloc, word, trees)
}

/// A rule with its arguments: `(use K)`, `(fold f t ..)`, a word, or a list of a word and terms.
pub fn ruled_of(alloc: Global, tree: &Tree) -> Result<(Rule, Terms), CodecFault>
    ensures { Finds (λ p. (plain_rule p.0, p.1)) result (spelled_rule (plain tree.now)) }
{
    if let Tree::Atom(word) = tree {
        let rule = word_rule(alloc, word)?;
        return Ok((rule, Terms::new(alloc)));
    }
    match headed_parts(tree) {
        Some((word, parts)) => ruled_by(alloc, word, parts),
        None => Err(CodecFault::Form),
    }
}

/// A rule without arguments.
pub fn bare_rule(alloc: Global, tree: &Tree) -> Result<Rule, CodecFault>
    ensures { Finds plain_rule result (bare_rule (plain tree.now)) }
{
    let (rule, args) = ruled_of(alloc, tree)?;
    if args.len() == 0 {
        Ok(rule)
    } else {
        Err(CodecFault::Form)
    }
}

/// A word alone, or a list of it and the terms.
fn worded(alloc: Global, word: &[u8], args: &[Term]) -> Result<Tree, Memory>
    ensures { IfOk result (λ t. plain t ≡ worded word.now (map plain_term args.now)) }
{
    if args.is_empty() {
        return word_tree(alloc, word);
    }
    let mut trees = begun(alloc, word)?;
    put_terms(alloc, &mut trees, args)?;
    Ok(Tree::List(trees))
}

fn numbered(alloc: Global, letter: u8, n: u8, args: &[Term]) -> Result<Tree, Memory>
    ensures { IfOk result (λ t. plain t ≡ worded (lettered letter n) (map plain_term args.now)) }
{
    let word = lettered(alloc, letter, n)?;
    worded(alloc, word.as_slice(), args)
}

fn fold_tree(alloc: Global, name: &Text, args: &[Term]) -> Result<Tree, Memory>
    ensures { IfOk result (λ t. plain t ≡ rule_spelling (by_folding name.now) (map plain_term args.now)) }
{
    let mut trees = begun(alloc, b"fold")?;
    trees.push(word_tree(alloc, name.as_slice())?)?;
    put_terms(alloc, &mut trees, args)?;
    Ok(Tree::List(trees))
}

fn use_tree(alloc: Global, k: u32) -> Result<Tree, Memory>
    ensures { IfOk result (λ t. plain t ≡ rule_spelling (by_fact k) []) }
{
    let mut trees = begun(alloc, b"use")?;
    trees.push(index_tree(alloc, k)?)?;
    Ok(Tree::List(trees))
}

/// The tree of a rule with these arguments, whether or not it reads back.
pub fn rule_tree(alloc: Global, rule: &Rule, args: &[Term]) -> Result<Tree, Memory>
    ensures { IfOk result (λ t. plain t ≡ rule_spelling (plain_rule rule.now) (map plain_term args.now)) }
{
    match rule {
        Rule::Equation(n) => numbered(alloc, b'e', *n, args),
        Rule::Implication(n) => numbered(alloc, b'm', *n, args),
        Rule::Binder(n) => numbered(alloc, b'b', *n, args),
        Rule::Law(name) => worded(alloc, name.as_slice(), args),
        Rule::Unfold => worded(alloc, b"unfold", args),
        Rule::Fold(name) => fold_tree(alloc, name, args),
        Rule::Compute => worded(alloc, b"compute", args),
        Rule::UseFact(k) => use_tree(alloc, *k),
        Rule::Holds => worded(alloc, b"holds", args),
        Rule::Fails => worded(alloc, b"fails", args),
        Rule::Uncast => worded(alloc, b"uncast", args),
    }
}
