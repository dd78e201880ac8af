ghost use Rattle.std.specs.Prelude.{◌≡◌, true, IfOk, option_map};
ghost use Rattle.kid_sexp.specs.Tree.{plain, plains};
ghost use Rattle.kid_value.specs.SortView.{plain_sort};
ghost use Rattle.kid_codec.specs.NameSpelling.{spelled_names};
ghost use Rattle.kid_codec.specs.Reading.{Gives, Finds};
ghost use Rattle.kid_value.specs.PlainSort.{ints, seqs, enums};
ghost use Rattle.kid_value.specs.SortOrder.{both};
ghost use Rattle.kid_codec.specs.SortSpelling.{bound_from, spelled_number, spelled_bound, spelled_sort, sort_of_list, sort_of_parts, sort_of_one, sort_of_two, sort_spelling, is_spelled_sort, sort_reading};

use crate::fault::CodecFault;
use crate::number::number_of;
use crate::parts::{couple, single};
use crate::tree_name::spelled_names;
use kid_sexp::Tree;
use kid_value::{Sort, Text, sort_ok};
use std::alloc::Global;

/// The bound that stands for each number that is none.
const NO_BOUND: u32 = 65537;

fn spelled_number(tree: &Tree) -> Option<i64>
    ensures { result ≡ spelled_number (plain tree.now) }
{
    match tree {
        Tree::Atom(word) => number_of(word.as_slice()),
        Tree::List(_) => None,
    }
}

fn bound_from(n: i64) -> u32
    ensures { result ≡ bound_from n }
{
    if 0 <= n && n < 65537 {
        n as u32
    } else {
        NO_BOUND
    }
}

fn spelled_bound(tree: &Tree) -> Option<u32>
    ensures { result ≡ spelled_bound (plain tree.now) }
{
    match spelled_number(tree) {
        None => None,
        Some(n) => Some(bound_from(n)),
    }
}

/// The sort that a tree has the shape of, allowed or not. A bound of a sequence sort that is no such number stands as 65537.
///
/// # Errors
///
/// `Form`: the tree has no such shape. `Memory`: memory is wanting.
#[cycle(spelled_sort)]
pub fn spelled_sort(alloc: Global, tree: &Tree) -> Result<Sort, CodecFault>
    ensures { Finds plain_sort result (spelled_sort (plain tree.now)) }
{
    match tree {
        Tree::Atom(word) => if word.is(b"bool") {
            Ok(Sort::Bool)
        } else {
            Err(CodecFault::Form)
        },
        Tree::List(trees) => sort_of_list(alloc, trees.as_slice()),
    }
}

#[cycle(spelled_sort)]
fn sort_of_list(alloc: Global, trees: &[Tree]) -> Result<Sort, CodecFault>
    ensures { Finds plain_sort result (sort_of_list (plains trees.now)) }
{
    match trees.split_first() {
        Some((Tree::Atom(word), parts)) => if word.is(b"enum") {
            enum_sort(alloc, parts)
        } else {
            sort_of_parts(alloc, word, parts)
        },
        _ => Err(CodecFault::Form),
    }
}

fn enum_sort(alloc: Global, trees: &[Tree]) -> Result<Sort, CodecFault>
    ensures { Finds plain_sort result (option_map enums (spelled_names (plains trees.now))) }
{
    Ok(Sort::Enum(spelled_names(alloc, trees)?))
}

#[cycle(spelled_sort)]
#[tactic(auto, using(crate::proofs::Lengths::lengths))]
fn sort_of_parts(alloc: Global, word: &Text, trees: &[Tree]) -> Result<Sort, CodecFault>
    ensures { Finds plain_sort result (sort_of_parts (plains trees.now) word.now) }
{
    match couple(trees) {
        Some((first, second)) => sort_of_two(alloc, word, first, second),
        None => match single(trees) {
            Some(first) => sort_of_one(alloc, word, first),
            None => Err(CodecFault::Form),
        },
    }
}

#[cycle(spelled_sort)]
fn sort_of_one(alloc: Global, word: &Text, tree: &Tree) -> Result<Sort, CodecFault>
    ensures { Finds plain_sort result (sort_of_one word.now (spelled_sort (plain tree.now))) }
{
    if !word.is(b"set") {
        return Err(CodecFault::Form);
    }
    let member = spelled_sort(alloc, tree)?;
    Ok(Sort::Set(Box::new(alloc, member)?))
}

fn int_sort(lo: Option<i64>, hi: Option<i64>) -> Result<Sort, CodecFault>
    ensures { Finds plain_sort result (both ints lo hi) }
{
    match (lo, hi) {
        (Some(lo), Some(hi)) => Ok(Sort::Int { lo, hi }),
        _ => Err(CodecFault::Form),
    }
}

fn seq_sort(alloc: Global, item: Sort, bound: Option<u32>) -> Result<Sort, CodecFault>
    ensures { Finds plain_sort result (option_map (λ n. seqs (plain_sort item) n) bound) }
{
    match bound {
        Some(bound) => Ok(Sort::Seq {
            item: Box::new(alloc, item)?,
            bound,
        }),
        None => Err(CodecFault::Form),
    }
}

#[cycle(spelled_sort)]
fn sort_of_two(alloc: Global, word: &Text, first: &Tree, second: &Tree) -> Result<Sort, CodecFault>
    ensures { Finds plain_sort result (sort_of_two word.now (spelled_sort (plain first.now)) (spelled_sort (plain second.now)) (plain first.now) (plain second.now)) }
{
    if word.is(b"int") {
        return int_sort(spelled_number(first), spelled_number(second));
    }
    if word.is(b"pair") {
        let a = spelled_sort(alloc, first)?;
        let b = spelled_sort(alloc, second)?;
        return Ok(Sort::Pair(Box::new(alloc, a)?, Box::new(alloc, b)?));
    }
    if word.is(b"seq") {
        let item = spelled_sort(alloc, first)?;
        return seq_sort(alloc, item, spelled_bound(second));
    }
    if word.is(b"map") {
        let key = spelled_sort(alloc, first)?;
        let value = spelled_sort(alloc, second)?;
        return Ok(Sort::Map(Box::new(alloc, key)?, Box::new(alloc, value)?));
    }
    Err(CodecFault::Form)
}

/// The sort that a tree spells: `bool`, `(int lo hi)`, `(pair A B)`, `(set A)`, `(seq A n)`, `(map A B)` or `(enum NAME ..)`.
///
/// # Errors
///
/// `Form`: the tree has no such shape. `Sort`: it has, and the sort is not allowed, as where `lo` is greater than `hi`, `n`
/// is not from 0 to 65536, or the names are none, more than 64 or do not ascend. `Memory`: memory is wanting.
pub fn sort_from(alloc: Global, tree: &Tree) -> Result<Sort, CodecFault>
    ensures reading { Gives plain_sort result (sort_reading (plain tree.now)) }
    // So the tree is the one that is printed for the sort.
    ensures spelling { IfOk result (λ s. plain tree.now ≡ sort_spelling (plain_sort s)) }
    ensures spelled { IfOk result (λ s. is_spelled_sort (plain_sort s) ≡ true) }
{
    let sort = spelled_sort(alloc, tree)?;
    if sort_ok(&sort) {
        Ok(sort)
    } else {
        Err(CodecFault::Sort)
    }
}
