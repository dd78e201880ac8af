ghost use Rattle.std.specs.Prelude.{◌≡◌, ◌^◌, ◌≤◌, ◌∷◌, [], map};
ghost use Rattle.kid_value.specs.SortView.{plain_sort};
ghost use Rattle.kid_value.specs.Rows.Kinds.{natural as natural_of};
ghost use Rattle.kid_term.specs.PlainTerm.{term_row};
ghost use Rattle.kid_term.specs.TermView.{plain_term};
ghost use Rattle.kid_value.specs.SortOrder.{join as join_of};
ghost use Rattle.kid_value.specs.Rows.Word.{word_size};
ghost use Rattle.kid_term.specs.Sorted.{Kind, allowed, with_join};
ghost use Rattle.kid_term.specs.WordSorts.{word_sort as sort_of_word, words as sort_of_words, word_bound as bound_of_word, bit_count as bits_in, keys_from as keys_upward, given};
ghost use Rattle.kid_term.specs.Written.{number_in as number_in_term, first_number as first_number_in, written};
ghost use Rattle.kid_term.specs.declared.operator.WordOp.TheVariants.{Wenc, Wdec, Wor, Wand, Wnot, Wcard, Win, Wleast};
ghost use Rattle.kid_sorting.specs.Answers.{SortGives};

use crate::allow::between;
use crate::fault::SortFault;
use crate::keys::{are_keys, count_in, key_or, set_of_keys};
use crate::row::{rdec, rdrop, renc, rget, rput};
use kid_term::{Literal, Term, WordOp};
use kid_value::Sort;
use std::alloc::Global;

/// As many bits as a word has.
const WORD_SIZE: u32 = 62;

/// The greatest word.
const GREATEST_WORD: i64 = 4611686018427387903;

/// The first two arguments, where they are written as numbers.
#[derive(Clone, Copy)]
pub struct Numbers {
    pub first: Option<i64>,
    pub second: Option<i64>,
}

/// The sort of an operator on words and rows at its arguments and their sorts.
pub fn word_sort(
    alloc: Global,
    op: WordOp,
    terms: &[Term],
    sorts: &[Sort],
) -> Result<Sort, SortFault>
    ensures { SortGives result (sort_of_word op (written (term_row (map plain_term terms.now))) (map plain_sort sorts.now)) }
{
    let numbers = numbers_in(terms);
    match op {
        WordOp::Wenc => wenc(&numbers, sorts),
        WordOp::Wdec => wdec(alloc, &numbers, sorts),
        WordOp::Wor => wor(sorts),
        WordOp::Wand => wand(sorts),
        WordOp::Wnot => wnot(sorts),
        WordOp::Wcard => wcard(sorts),
        WordOp::Win => win(&numbers, sorts),
        WordOp::Wleast => wleast(alloc, &numbers, sorts),
        WordOp::Renc => renc(alloc, &numbers, sorts),
        WordOp::Rdec => rdec(alloc, &numbers, sorts),
        WordOp::Rget => rget(alloc, &numbers, sorts),
        WordOp::Rput => rput(alloc, &numbers, sorts),
        WordOp::Rdrop => rdrop(alloc, &numbers, sorts),
    }
}

fn numbers_in(terms: &[Term]) -> Numbers
    ensures { (result.first, result.second) ≡ written (term_row (map plain_term terms.now)) }
{
    match terms.split_first() {
        Some((first, rest)) => Numbers {
            first: number_in(first),
            second: first_number(rest),
        },
        None => Numbers {
            first: None,
            second: None,
        },
    }
}

fn first_number(terms: &[Term]) -> Option<i64>
    ensures { result ≡ first_number_in (term_row (map plain_term terms.now)) }
{
    match terms.split_first() {
        Some((first, _)) => number_in(first),
        None => None,
    }
}

/// The number that a term is, where it is one.
fn number_in(term: &Term) -> Option<i64>
    ensures { result ≡ number_in_term (plain_term term.now) }
{
    match term {
        Term::Lit(Literal::Int(n)) => Some(*n),
        _ => None,
    }
}

/// The upper bound of a sort of words, or `None` where it is of no words.
fn word_bound(sort: &Sort) -> Option<i64>
    ensures { result ≡ bound_of_word (plain_sort sort.now) }
{
    match sort {
        Sort::Int { lo, hi } => if 0 <= *lo && *hi <= GREATEST_WORD {
            Some(*hi)
        } else {
            None
        },
        _ => None,
    }
}

/// Two to the power of a size.
fn power(size: u32) -> u64
    requires { size ≤ 62 }
    ensures { result ≡ 2 ^ size }
{
    1 << size
}

/// The sort of the words of so many bits.
fn words(size: u32) -> Result<Sort, SortFault>
    requires { size ≤ 62 }
    ensures { SortGives result (allowed (sort_of_words size)) }
{
    between(0, (power(size) - 1) as i64)
}

/// As many bits as a number has, but at most `size`.
fn bit_count(size: u32, number: u64) -> u32
    requires { size ≤ 62 }
    ensures count { result ≡ bits_in size number }
    ensures most { result ≤ 62 }
{
    let mut count = size;
    while count > 0 && number < power(count - 1) {
        count -= 1;
    }
    count
}

fn natural(n: i64) -> u64
    ensures { result ≡ natural_of n }
{
    if n < 0 { 0 } else { n as u64 }
}

/// The word of a set's members.
fn wenc(numbers: &Numbers, sorts: &[Sort]) -> Result<Sort, SortFault>
    ensures { SortGives result (sort_of_word Wenc (numbers.now.first, numbers.now.second) (map plain_sort sorts.now)) }
{
    let [_, _, set] = sorts else {
        return Err(SortFault::Kind);
    };
    let (Some(_), Some(size)) = (numbers.first, numbers.second) else {
        return Err(SortFault::Kind);
    };
    let Sort::Set(element) = set else {
        return Err(SortFault::Kind);
    };
    if !are_keys(element) {
        return Err(SortFault::Kind);
    }
    match count_in(WORD_SIZE, size) {
        Some(size) => words(size),
        None => Err(SortFault::Bounds),
    }
}

/// The set that a word stands for.
fn wdec(alloc: Global, numbers: &Numbers, sorts: &[Sort]) -> Result<Sort, SortFault>
    ensures { SortGives result (sort_of_word Wdec (numbers.now.first, numbers.now.second) (map plain_sort sorts.now)) }
{
    let [_, _, word] = sorts else {
        return Err(SortFault::Kind);
    };
    let (Some(lo), Some(size)) = (numbers.first, numbers.second) else {
        return Err(SortFault::Kind);
    };
    if word_bound(word).is_none() {
        return Err(SortFault::Kind);
    }
    match count_in(WORD_SIZE, size) {
        Some(size) => set_of_keys(alloc, lo, size),
        None => Err(SortFault::Bounds),
    }
}

/// The bits of either word.
fn wor(sorts: &[Sort]) -> Result<Sort, SortFault>
    ensures { SortGives result (sort_of_word Wor (None, None) (map plain_sort sorts.now)) }
{
    match sorts {
        [first, second] => either(first, second),
        _ => Err(SortFault::Kind),
    }
}

fn either(first: &Sort, second: &Sort) -> Result<Sort, SortFault>
    ensures { SortGives result (sort_of_word Wor (None, None) (plain_sort first.now ∷ plain_sort second.now ∷ [])) }
{
    let Some(b) = word_bound(first) else {
        return Err(SortFault::Kind);
    };
    let Some(d) = word_bound(second) else {
        return Err(SortFault::Kind);
    };
    words(bit_count(WORD_SIZE, natural(b).max(natural(d))))
}

/// The bits of both words.
fn wand(sorts: &[Sort]) -> Result<Sort, SortFault>
    ensures { SortGives result (sort_of_word Wand (None, None) (map plain_sort sorts.now)) }
{
    let [first, second] = sorts else {
        return Err(SortFault::Kind);
    };
    let Some(b) = word_bound(first) else {
        return Err(SortFault::Kind);
    };
    let Some(d) = word_bound(second) else {
        return Err(SortFault::Kind);
    };
    between(0, b.min(d))
}

/// The bits of the first word that the second lacks.
fn wnot(sorts: &[Sort]) -> Result<Sort, SortFault>
    ensures { SortGives result (sort_of_word Wnot (None, None) (map plain_sort sorts.now)) }
{
    let [first, second] = sorts else {
        return Err(SortFault::Kind);
    };
    let Some(b) = word_bound(first) else {
        return Err(SortFault::Kind);
    };
    if word_bound(second).is_none() {
        return Err(SortFault::Kind);
    }
    between(0, b)
}

/// The number of bits.
fn wcard(sorts: &[Sort]) -> Result<Sort, SortFault>
    ensures { SortGives result (sort_of_word Wcard (None, None) (map plain_sort sorts.now)) }
{
    let [word] = sorts else {
        return Err(SortFault::Kind);
    };
    match word_bound(word) {
        Some(_) => between(0, i64::from(WORD_SIZE)),
        None => Err(SortFault::Kind),
    }
}

/// Whether a number has its bit.
fn win(numbers: &Numbers, sorts: &[Sort]) -> Result<Sort, SortFault>
    ensures { SortGives result (sort_of_word Win (numbers.now.first, numbers.now.second) (map plain_sort sorts.now)) }
{
    let [_, number, word] = sorts else {
        return Err(SortFault::Kind);
    };
    if numbers.first.is_none() {
        return Err(SortFault::Kind);
    }
    match (number, word_bound(word)) {
        (Sort::Int { .. }, Some(_)) => Ok(Sort::Bool),
        _ => Err(SortFault::Kind),
    }
}

/// The least number that has its bit, or another where no bit is set.
fn wleast(alloc: Global, numbers: &Numbers, sorts: &[Sort]) -> Result<Sort, SortFault>
    ensures { SortGives result (sort_of_word Wleast (numbers.now.first, numbers.now.second) (map plain_sort sorts.now)) }
{
    match sorts {
        [_, other, word] => least_or(alloc, numbers, other, word),
        _ => Err(SortFault::Kind),
    }
}

fn least_or(alloc: Global, numbers: &Numbers, other: &Sort, word: &Sort) -> Result<Sort, SortFault>
    ensures { SortGives result (given Kind numbers.now.first (λ lo. given Kind (bound_of_word (plain_sort word.now)) (λ _. with_join (join_of (keys_upward lo word_size) (plain_sort other.now)) allowed))) }
{
    let Some(lo) = numbers.first else {
        return Err(SortFault::Kind);
    };
    match word_bound(word) {
        Some(_) => key_or(alloc, lo, WORD_SIZE, other),
        None => Err(SortFault::Kind),
    }
}
