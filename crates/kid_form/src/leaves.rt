//! The forms of words, names, numbers, sorts and terms.
ghost use Rattle.std.specs.Prelude.{◌≡◌, map};
ghost use Rattle.kid_form.specs.Leaves.{natural_up_to};

use crate::lists::{put_each, read_listed};
use crate::tree_form::TreeForm;
use kid_codec::{
    CodecFault, number_of, number_tree, spelled_name, spelled_sort, spelled_term, term_of,
    tree_of_sort, tree_of_term, word_tree,
};
use kid_sexp::{Forest, Tree};
use kid_term::{Path, Term};
use kid_value::{Memory, Sort, Text};
use std::alloc::Global;

/// Any word, of which it is tested later whether it is a name.
pub struct AnyWord;

impl TreeForm for AnyWord {
    type Of = Text;

    ghost use Rattle.std.specs.Prelude.{List, ℕ};
    ghost use Rattle.kid_form.specs.Leaves.{word_form};

    ghost Seen = { List ℕ };

    ghost view = { λ w. w };

    ghost form = { word_form };

    fn read(alloc: Global, tree: &Tree) -> Result<Text, CodecFault> {
        match tree {
            Tree::Atom(word) => Ok(word.copy(alloc)?),
            Tree::List(_) => Err(CodecFault::Form),
        }
    }

    fn tree(alloc: Global, of: &Text) -> Result<Tree, Memory> {
        word_tree(alloc, of.as_slice())
    }
}

/// A name.
pub struct Name;

impl TreeForm for Name {
    type Of = Text;

    ghost use Rattle.std.specs.Prelude.{List, ℕ};
    ghost use Rattle.kid_form.specs.Leaves.{name_form};

    ghost Seen = { List ℕ };

    ghost view = { λ w. w };

    ghost form = { name_form };

    fn read(alloc: Global, tree: &Tree) -> Result<Text, CodecFault> {
        spelled_name(alloc, tree)
    }

    fn tree(alloc: Global, of: &Text) -> Result<Tree, Memory> {
        word_tree(alloc, of.as_slice())
    }
}

/// A number within the limits of values.
pub struct Number;

impl TreeForm for Number {
    type Of = i64;

    ghost use Rattle.std.specs.Prelude.{ℤ};
    ghost use Rattle.kid_form.specs.Leaves.{number_form};

    ghost Seen = { ℤ };

    ghost view = { λ n. n };

    ghost form = { number_form };

    fn read(_alloc: Global, tree: &Tree) -> Result<i64, CodecFault> {
        let Tree::Atom(word) = tree else {
            return Err(CodecFault::Form);
        };
        match number_of(word.as_slice()) {
            Some(n) => Ok(n),
            None => Err(CodecFault::Form),
        }
    }

    fn tree(alloc: Global, of: &i64) -> Result<Tree, Memory> {
        number_tree(alloc, *of)
    }
}

fn natural(n: i64) -> Option<u32>
    ensures { result ≡ natural_up_to 4294967295 n }
{
    if 0 <= n && n <= 4294967295 {
        Some(n as u32)
    } else {
        None
    }
}

/// The number of a child or of a fact.
pub struct Index;

impl TreeForm for Index {
    type Of = u32;

    ghost use Rattle.std.specs.Prelude.{ℕ};
    ghost use Rattle.kid_form.specs.Leaves.{index_form};

    ghost Seen = { ℕ };

    ghost view = { λ n. n };

    ghost form = { index_form };

    fn read(_alloc: Global, tree: &Tree) -> Result<u32, CodecFault> {
        let Tree::Atom(word) = tree else {
            return Err(CodecFault::Form);
        };
        let Some(n) = number_of(word.as_slice()) else {
            return Err(CodecFault::Form);
        };
        match natural(n) {
            Some(index) => Ok(index),
            None => Err(CodecFault::Form),
        }
    }

    fn tree(alloc: Global, of: &u32) -> Result<Tree, Memory> {
        number_tree(alloc, i64::from(*of))
    }
}

/// The child numbers from the root of a term down.
pub struct PathForm;

impl TreeForm for PathForm {
    type Of = Path;

    ghost use Rattle.std.specs.Prelude.{List, ℕ};
    ghost use Rattle.kid_form.specs.Leaves.{path_form};

    ghost Seen = { List ℕ };

    ghost view = { λ p. p };

    ghost form = { path_form };

    fn read(alloc: Global, tree: &Tree) -> Result<Path, CodecFault> {
        let steps = read_listed::<Index>(alloc, tree)?;
        Ok(Path::from_vec(steps))
    }

    fn tree(alloc: Global, of: &Path) -> Result<Tree, Memory> {
        let mut trees = Forest::new(alloc);
        put_each::<Index>(alloc, &mut trees, of.as_slice())?;
        Ok(Tree::List(trees))
    }
}

/// A sort, which may be allowed or not.
pub struct SortForm;

impl TreeForm for SortForm {
    type Of = Sort;

    ghost use Rattle.kid_value.specs.PlainSort.{PlainSort};
    ghost use Rattle.kid_value.specs.SortView.{plain_sort};
    ghost use Rattle.kid_form.specs.Leaves.{sort_form};

    ghost Seen = { PlainSort };

    ghost view = { plain_sort };

    ghost form = { sort_form };

    fn read(alloc: Global, tree: &Tree) -> Result<Sort, CodecFault> {
        spelled_sort(alloc, tree)
    }

    fn tree(alloc: Global, of: &Sort) -> Result<Tree, Memory> {
        tree_of_sort(alloc, of)
    }
}

/// A term, whose casts may be to allowed sorts or not.
pub struct AnyTerm;

impl TreeForm for AnyTerm {
    type Of = Term;

    ghost use Rattle.kid_term.specs.PlainTerm.{PlainTerm};
    ghost use Rattle.kid_term.specs.TermView.{plain_term};
    ghost use Rattle.kid_form.specs.Leaves.{term_form};

    ghost Seen = { PlainTerm };

    ghost view = { plain_term };

    ghost form = { term_form };

    fn read(alloc: Global, tree: &Tree) -> Result<Term, CodecFault> {
        spelled_term(alloc, tree)
    }

    fn tree(alloc: Global, of: &Term) -> Result<Tree, Memory> {
        tree_of_term(alloc, of)
    }
}

/// A term whose casts are to allowed sorts.
pub struct AllowedTerm;

impl TreeForm for AllowedTerm {
    type Of = Term;

    ghost use Rattle.kid_term.specs.PlainTerm.{PlainTerm};
    ghost use Rattle.kid_term.specs.TermView.{plain_term};
    ghost use Rattle.kid_form.specs.Leaves.{allowed_term_form};

    ghost Seen = { PlainTerm };

    ghost view = { plain_term };

    ghost form = { allowed_term_form };

    fn read(alloc: Global, tree: &Tree) -> Result<Term, CodecFault> {
        match term_of(alloc, tree) {
            Ok(term) => Ok(term),
            Err(CodecFault::Memory) => Err(CodecFault::Memory),
            Err(_) => Err(CodecFault::Form),
        }
    }

    fn tree(alloc: Global, of: &Term) -> Result<Tree, Memory> {
        tree_of_term(alloc, of)
    }
}

/// A term of a theory, in which no operator on words or rows stands.
pub struct TheoryTerm;

impl TreeForm for TheoryTerm {
    type Of = Term;

    ghost use Rattle.kid_term.specs.PlainTerm.{PlainTerm};
    ghost use Rattle.kid_term.specs.TermView.{plain_term};
    ghost use Rattle.kid_form.specs.Leaves.{theory_term_form};

    ghost Seen = { PlainTerm };

    ghost view = { plain_term };

    ghost form = { theory_term_form };

    fn read(alloc: Global, tree: &Tree) -> Result<Term, CodecFault> {
        let term = spelled_term(alloc, tree)?;
        if term.holds_word_operator() {
            return Err(CodecFault::Form);
        }
        Ok(term)
    }

    fn tree(alloc: Global, of: &Term) -> Result<Tree, Memory> {
        tree_of_term(alloc, of)
    }
}
