//! The numbers of children and facts.
ghost use Rattle.std.specs.Prelude.{◌≡◌, IfOk};
ghost use Rattle.kid_sexp.specs.Plain.{list};
ghost use Rattle.kid_sexp.specs.Tree.{plain, plains};
ghost use Rattle.kid_codec.specs.Reading.{Finds};
ghost use Rattle.kid_lines.specs.LineReading.{spelled_indexes, spelled_path};
ghost use Rattle.kid_lines.specs.LineSpelling.{index_spelling, index_spellings};
ghost use Rattle.kid_lines.specs.RuleReading.{up_to, spelled_index};

use kid_codec::{CodecFault, number_of, number_tree};
use kid_sexp::{Forest, Tree};
use kid_term::Path;
use kid_value::Memory;
use std::alloc::Global;

fn index_from(n: i64) -> Option<u32>
    ensures { result ≡ up_to 4294967295 n }
{
    if 0 <= n && n <= 4294967295 {
        Some(n as u32)
    } else {
        None
    }
}

/// The number of a child or of a fact, from 0 to 4294967295.
pub fn index_of(tree: &Tree) -> Result<u32, CodecFault>
    ensures { Finds (λ n. n) result (spelled_index (plain tree.now)) }
{
    let Tree::Atom(word) = tree else {
        return Err(CodecFault::Form);
    };
    let Some(n) = number_of(word.as_slice()) else {
        return Err(CodecFault::Form);
    };
    match index_from(n) {
        Some(index) => Ok(index),
        None => Err(CodecFault::Form),
    }
}

fn indexes_of(alloc: Global, trees: &[Tree]) -> Result<Path, CodecFault>
    ensures { Finds (λ p. p) result (spelled_indexes (plains trees.now)) }
{
    let mut path = Path::new(alloc);
    for tree in trees {
        path.push(index_of(tree)?)?;
    }
    Ok(path)
}

/// The child numbers from the root of a term down.
pub fn path_of(alloc: Global, tree: &Tree) -> Result<Path, CodecFault>
    ensures { Finds (λ p. p) result (spelled_path (plain tree.now)) }
{
    match tree {
        Tree::Atom(_) => Err(CodecFault::Form),
        Tree::List(trees) => indexes_of(alloc, trees.as_slice()),
    }
}

/// The tree of a number of a child or a fact.
pub fn index_tree(alloc: Global, n: u32) -> Result<Tree, Memory>
    ensures { IfOk result (λ t. plain t ≡ index_spelling n) }
{
    number_tree(alloc, i64::from(n))
}

/// The list of the child numbers of a path.
pub fn path_tree(alloc: Global, path: &[u32]) -> Result<Tree, Memory>
    ensures { IfOk result (λ t. plain t ≡ list (index_spellings path.now)) }
{
    let mut trees = Forest::new(alloc);
    for step in path {
        trees.push(index_tree(alloc, *step)?)?;
    }
    Ok(Tree::List(trees))
}
