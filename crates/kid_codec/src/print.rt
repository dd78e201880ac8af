//! Sorts, values and terms as trees.
ghost use Rattle.std.specs.Prelude.{◌≡◌, true, Ok, Some, IfOk, map, codes};
ghost use Rattle.kid_sexp.specs.Plain.{atom, list, join, one};
ghost use Rattle.kid_sexp.specs.Tree.{plain as plain_tree};
ghost use Rattle.kid_term.specs.PlainTerm.{term_row};
ghost use Rattle.kid_term.specs.TermView.{plain_term, plain_head};
ghost use Rattle.kid_value.specs.PlainValue.{row, table};
ghost use Rattle.kid_value.specs.SortView.{plain_sort};
ghost use Rattle.kid_value.specs.ValueView.{plain, plain_entry};
ghost use Rattle.kid_codec.specs.NameSpelling.{name_spellings, tag_word};
ghost use Rattle.kid_codec.specs.SortSpelling.{number_tree, sort_spelling, is_spelled_sort, sort_reading};
ghost use Rattle.kid_codec.specs.SpelledValue.{Spells};
ghost use Rattle.kid_codec.specs.TermSpelling.{head_spelling, term_spelling, term_spellings, is_spelled_term, term_reading};
ghost use Rattle.kid_codec.specs.ValueSpelling.{truth_word, value_spelling, value_spellings, entry_spellings, is_spelled_value, spelled_value};

use crate::word::{binder_word, operator_word};
use itoa::Buffer;
use kid_sexp::{Forest, Tree};
use kid_term::{Head, Literal, Term};
use kid_value::{Memory, Sort, Text, Value};
use std::alloc::Global;

/// The tree that is a word.
///
/// # Errors
///
/// Fails where memory is wanting.
pub fn word_tree(alloc: Global, word: &[u8]) -> Result<Tree, Memory>
    ensures { IfOk result (λ t. plain_tree t ≡ atom word.now) }
{
    Ok(Tree::Atom(Text::from_slice(alloc, word)?))
}

/// The tree of a number, which is its decimal text. It reads back to the number within plus or minus 4611686018427387904.
///
/// # Errors
///
/// Fails where memory is wanting.
pub fn number_tree(alloc: Global, n: i64) -> Result<Tree, Memory>
    ensures { IfOk result (λ t. plain_tree t ≡ number_tree n) }
{
    let mut buffer = Buffer::new();
    word_tree(alloc, buffer.format(n).as_bytes())
}

fn truth_tree(alloc: Global, truth: bool) -> Result<Tree, Memory>
    ensures { IfOk result (λ t. plain_tree t ≡ atom (truth_word truth)) }
{
    if truth {
        word_tree(alloc, b"true")
    } else {
        word_tree(alloc, b"false")
    }
}

/// An apostrophe and a name.
fn tag_tree(alloc: Global, name: &[u8]) -> Result<Tree, Memory>
    ensures { IfOk result (λ t. plain_tree t ≡ atom (tag_word name.now)) }
{
    let mut word = Text::from_slice(alloc, b"'")?;
    for byte in name {
        word.push(*byte)?;
    }
    Ok(Tree::Atom(word))
}

/// A list that begins with a word, to which trees are added.
///
/// # Errors
///
/// Fails where memory is wanting.
pub fn begun(alloc: Global, word: &[u8]) -> Result<Forest, Memory>
    ensures { IfOk result (λ f. f ≡ one (atom word.now)) }
{
    let mut trees = Forest::new(alloc);
    trees.push(word_tree(alloc, word)?)?;
    Ok(trees)
}

/// The list of a word and two trees.
fn headed_pair(alloc: Global, word: &[u8], first: Tree, second: Tree) -> Result<Tree, Memory>
    ensures { IfOk result (λ t. plain_tree t ≡ list (join (one (atom word.now)) (join (one (plain_tree first)) (one (plain_tree second))))) }
{
    let mut trees = begun(alloc, word)?;
    trees.push(first)?;
    trees.push(second)?;
    Ok(Tree::List(trees))
}

fn names_tree(alloc: Global, names: &[Text]) -> Result<Tree, Memory>
    ensures { IfOk result (λ t. plain_tree t ≡ list (join (one (atom (codes "enum"))) (name_spellings names.now))) }
{
    let mut trees = begun(alloc, b"enum")?;
    for name in names {
        trees.push(word_tree(alloc, name.as_slice())?)?;
    }
    Ok(Tree::List(trees))
}

/// The tree of any sort, whether or not it reads back. [`sort_tree`] takes those that do.
///
/// # Errors
///
/// Fails where memory is wanting.
pub fn tree_of_sort(alloc: Global, sort: &Sort) -> Result<Tree, Memory>
    ensures { IfOk result (λ t. plain_tree t ≡ sort_spelling (plain_sort sort.now)) }
{
    match sort {
        Sort::Never => Ok(Tree::List(Forest::new(alloc))),
        Sort::Bool => word_tree(alloc, b"bool"),
        Sort::Int { lo, hi } => {
            let low = number_tree(alloc, *lo)?;
            let high = number_tree(alloc, *hi)?;
            headed_pair(alloc, b"int", low, high)
        }
        Sort::Pair(a, b) => {
            let first = tree_of_sort(alloc, a)?;
            let second = tree_of_sort(alloc, b)?;
            headed_pair(alloc, b"pair", first, second)
        }
        Sort::Set(a) => {
            let mut trees = begun(alloc, b"set")?;
            trees.push(tree_of_sort(alloc, a)?)?;
            Ok(Tree::List(trees))
        }
        Sort::Seq { item, bound } => {
            let item = tree_of_sort(alloc, item)?;
            let bound = number_tree(alloc, i64::from(*bound))?;
            headed_pair(alloc, b"seq", item, bound)
        }
        Sort::Map(a, b) => {
            let key = tree_of_sort(alloc, a)?;
            let value = tree_of_sort(alloc, b)?;
            headed_pair(alloc, b"map", key, value)
        }
        Sort::Enum(names) => names_tree(alloc, names.items()),
    }
}

/// The tree of a sort, which reads back to it. The sort is an allowed one, holds no `Never`, and its enums list names.
///
/// # Errors
///
/// Fails where memory is wanting.
pub fn sort_tree(alloc: Global, sort: &Sort) -> Result<Tree, Memory>
    requires { is_spelled_sort (plain_sort sort.now) ≡ true }
    ensures spelling { IfOk result (λ t. plain_tree t ≡ sort_spelling (plain_sort sort.now)) }
    ensures back { IfOk result (λ t. sort_reading (plain_tree t) ≡ Ok (plain_sort sort.now)) }
{
    tree_of_sort(alloc, sort)
}

/// The tree of any value, whether or not it reads back. [`value_tree`] takes those that do.
///
/// # Errors
///
/// Fails where memory is wanting.
#[cycle(value_tree)]
pub fn tree_of_value(alloc: Global, value: &Value) -> Result<Tree, Memory>
    ensures { IfOk result (λ t. plain_tree t ≡ value_spelling (plain value.now)) }
{
    match value {
        Value::Int(n) => number_tree(alloc, *n),
        Value::Bool(b) => truth_tree(alloc, *b),
        Value::Pair(a, b) => {
            let first = tree_of_value(alloc, a.get())?;
            let second = tree_of_value(alloc, b.get())?;
            headed_pair(alloc, b"pair", first, second)
        }
        Value::Set(members) => values_tree(alloc, b"set", members.items()),
        Value::Seq(values) => values_tree(alloc, b"seq", values.items()),
        Value::Map(entries) => entries_tree(alloc, entries.items()),
        Value::Tag(name) => tag_tree(alloc, name.as_slice()),
    }
}

#[cycle(value_tree)]
fn values_tree(alloc: Global, word: &[u8], values: &[Value]) -> Result<Tree, Memory>
    ensures { IfOk result (λ t. plain_tree t ≡ list (join (one (atom word.now)) (value_spellings (row (map plain values.now))))) }
{
    let mut trees = begun(alloc, word)?;
    for value in values {
        trees.push(tree_of_value(alloc, value)?)?;
    }
    Ok(Tree::List(trees))
}

#[cycle(value_tree)]
fn entries_tree(alloc: Global, entries: &[(Value, Value)]) -> Result<Tree, Memory>
    ensures { IfOk result (λ t. plain_tree t ≡ list (join (one (atom (codes "map"))) (entry_spellings (table (map plain_entry entries.now))))) }
{
    let mut trees = begun(alloc, b"map")?;
    for entry in entries {
        let key = tree_of_value(alloc, &entry.0)?;
        let value = tree_of_value(alloc, &entry.1)?;
        trees.push(couple(alloc, key, value)?)?;
    }
    Ok(Tree::List(trees))
}

/// The list of two trees.
fn couple(alloc: Global, first: Tree, second: Tree) -> Result<Tree, Memory>
    ensures { IfOk result (λ t. plain_tree t ≡ list (join (one (plain_tree first)) (one (plain_tree second)))) }
{
    let mut trees = Forest::new(alloc);
    trees.push(first)?;
    trees.push(second)?;
    Ok(Tree::List(trees))
}

/// The tree of a value, which reads back to it. Sets and maps ascend. Each integer in the value lies within plus or minus
/// 4611686018427387904, and each tag is a name.
///
/// # Errors
///
/// Fails where memory is wanting.
pub fn value_tree(alloc: Global, value: &Value) -> Result<Tree, Memory>
    requires { is_spelled_value (plain value.now) ≡ true }
    ensures spelling { IfOk result (λ t. plain_tree t ≡ value_spelling (plain value.now)) }
    ensures back { IfOk result (λ t. spelled_value (plain_tree t) ≡ Some (plain value.now)) }
    ensures spells { IfOk result (λ t. Spells (plain_tree t) (plain value.now)) }
{
    value.canonical();
    tree_of_value(alloc, value)
}

fn trees_of_head(alloc: Global, head: &Head) -> Result<Forest, Memory>
    ensures { IfOk result (λ f. f ≡ head_spelling (plain_head head.now)) }
{
    match head {
        Head::Op(op) => begun(alloc, operator_word(*op)),
        Head::Call(name) => begun(alloc, name.as_slice()),
        Head::Cast(sort) => {
            let mut trees = begun(alloc, b"cast")?;
            trees.push(tree_of_sort(alloc, sort)?)?;
            Ok(trees)
        }
    }
}

/// The tree of any term, whether or not it reads back. [`term_tree`] takes those that do.
///
/// # Errors
///
/// Fails where memory is wanting.
#[cycle(term_tree)]
pub fn tree_of_term(alloc: Global, term: &Term) -> Result<Tree, Memory>
    ensures { IfOk result (λ t. plain_tree t ≡ term_spelling (plain_term term.now)) }
{
    match term {
        Term::Var(name) => word_tree(alloc, name.as_slice()),
        Term::Lit(Literal::Int(n)) => number_tree(alloc, *n),
        Term::Lit(Literal::Bool(b)) => truth_tree(alloc, *b),
        Term::Lit(Literal::Tag(name)) => tag_tree(alloc, name.as_slice()),
        Term::App(head, terms) => {
            let trees = trees_of_head(alloc, head)?;
            terms_tree(alloc, trees, terms.items())
        }
        Term::Bind(binder, name, set, body) => {
            let mut trees = begun(alloc, binder_word(*binder))?;
            trees.push(word_tree(alloc, name.as_slice())?)?;
            trees.push(tree_of_term(alloc, set.get())?)?;
            trees.push(tree_of_term(alloc, body.get())?)?;
            Ok(Tree::List(trees))
        }
    }
}

/// The list of these trees and those of the terms.
#[cycle(term_tree)]
fn terms_tree(alloc: Global, mut trees: Forest, terms: &[Term]) -> Result<Tree, Memory>
    ensures { IfOk result (λ t. plain_tree t ≡ list (join trees (term_spellings (term_row (map plain_term terms.now))))) }
{
    for term in terms {
        trees.push(tree_of_term(alloc, term)?)?;
    }
    Ok(Tree::List(trees))
}

/// The tree of a term, which reads back to it. The names and tags in the term are names, its integers lie within plus or minus
/// 4611686018427387904, its operators stand before as many arguments as they take, with literals where they take numbers that
/// are written, and it casts one term each to a sort that is allowed and holds no `Never`.
///
/// # Errors
///
/// Fails where memory is wanting.
pub fn term_tree(alloc: Global, term: &Term) -> Result<Tree, Memory>
    requires { is_spelled_term (plain_term term.now) ≡ true }
    ensures spelling { IfOk result (λ t. plain_tree t ≡ term_spelling (plain_term term.now)) }
    ensures back { IfOk result (λ t. term_reading (plain_tree t) ≡ Ok (plain_term term.now)) }
{
    tree_of_term(alloc, term)
}
