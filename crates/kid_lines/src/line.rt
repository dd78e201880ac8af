//! Lines.
ghost use Rattle.std.specs.Prelude.{◌≡◌, true, IfOk, Some, map};
ghost use Rattle.kid_sexp.specs.Plain.{join};
ghost use Rattle.kid_sexp.specs.Tree.{plain, plains};
ghost use Rattle.kid_moves.specs.RuleView.{plain_line};
ghost use Rattle.kid_codec.specs.Reading.{Finds};
ghost use Rattle.kid_lines.specs.LineAnswers.{IsSpelling, IsReading};
ghost use Rattle.kid_lines.specs.LineReading.{placed, line_by, spelled_line, spelled_lines};
ghost use Rattle.kid_lines.specs.LineSpelling.{side_word, line_spelling, line_spellings, is_spelled_line, SpellsLine};

use crate::index::{path_of, path_tree};
use crate::ruled::{headed_parts, rule_tree, ruled_of};
use kid_codec::shape::couple;
use kid_codec::{CodecFault, begun};
use kid_moves::{Line, Lines};
use kid_sexp::{Forest, Tree};
use kid_term::Why;
use kid_value::{Memory, Text};
use std::alloc::Global;

/// A path and a rule.
fn placed(alloc: Global, back: bool, trees: &[Tree]) -> Result<Line, CodecFault>
    ensures { Finds plain_line result (placed back (plains trees.now)) }
{
    let Some((first, second)) = couple(trees) else {
        return Err(CodecFault::Form);
    };
    let path = path_of(alloc, first)?;
    let (rule, args) = ruled_of(alloc, second)?;
    Ok(Line {
        path,
        back,
        rule,
        args,
    })
}

fn line_by(alloc: Global, word: &Text, trees: &[Tree]) -> Result<Line, CodecFault>
    ensures { Finds plain_line result (line_by word.now (plains trees.now)) }
{
    if word.is(b"at") {
        return placed(alloc, false, trees);
    }
    if word.is(b"back") {
        return placed(alloc, true, trees);
    }
    Err(CodecFault::Form)
}

/// The line that a tree spells, `(at PATH RULE)` or `(back PATH RULE)`. [`line_of`] tells a fault in
/// the words of refusals.
///
/// # Errors
///
/// `Form`: the tree spells no line. `Memory`: memory is wanting.
pub fn read_line(alloc: Global, tree: &Tree) -> Result<Line, CodecFault>
    ensures { Finds plain_line result (spelled_line (plain tree.now)) }
{
    match headed_parts(tree) {
        Some((word, parts)) => line_by(alloc, word, parts),
        None => Err(CodecFault::Form),
    }
}

/// The lines that trees spell.
///
/// # Errors
///
/// `Form`: a tree spells no line. `Memory`: memory is wanting.
pub fn lines_of(alloc: Global, trees: &[Tree]) -> Result<Lines, CodecFault>
    ensures { Finds (λ ls. ls) result (spelled_lines (plains trees.now)) }
{
    let mut lines = Lines::new(alloc);
    for tree in trees {
        lines.push(read_line(alloc, tree)?)?;
    }
    Ok(lines)
}

/// The line that a tree spells: `(at PATH RULE)` or `(back PATH RULE)`, where a path is a list of
/// child numbers. A rule is a word, as `e45`, `unfold` or the name of a law, or a list of it and one
/// or more terms, `(fold f t ..)` or `(use K)`.
///
/// # Errors
///
/// `Form`: the tree spells no line, as where a term in it casts to a sort that is not allowed or
/// holds an operator on words or rows. `Memory`: memory is wanting.
pub fn line_of(alloc: Global, tree: &Tree) -> Result<Line, Why>
    ensures reading { IsReading plain_line (spelled_line (plain tree.now)) result }
    ensures spelling { IsSpelling plain_line (SpellsLine (plain tree.now)) result }
{
    match read_line(alloc, tree) {
        Ok(line) => Ok(line),
        Err(CodecFault::Memory) => Err(Why::Memory),
        Err(_) => Err(Why::Form),
    }
}

fn side_word(back: bool) -> &'static [u8]
    ensures { result.now ≡ side_word back }
{
    if back { b"back" } else { b"at" }
}

/// The tree of any line, whether or not it reads back. [`line_tree`] takes those that do.
///
/// # Errors
///
/// Fails where memory is wanting.
pub fn tree_of_line(alloc: Global, line: &Line) -> Result<Tree, Memory>
    ensures { IfOk result (λ t. plain t ≡ line_spelling (plain_line line.now)) }
{
    let mut trees = begun(alloc, side_word(line.back))?;
    trees.push(path_tree(alloc, line.path.as_slice())?)?;
    trees.push(rule_tree(alloc, &line.rule, line.args.items())?)?;
    Ok(Tree::List(trees))
}

/// Puts the trees of the lines after others.
///
/// # Errors
///
/// Fails where memory is wanting. The first few trees may then have been put.
pub fn put_lines(alloc: Global, trees: &mut Forest, lines: &[Line]) -> Result<(), Memory>
    ensures { IfOk result (λ _. trees.new ≡ join trees.old (line_spellings (map plain_line lines.now))) }
{
    for line in lines {
        trees.push(tree_of_line(alloc, line)?)?;
    }
    Ok(())
}

/// The tree of a line, which reads back to it. The names in the line are names, its terms have a
/// spelling and hold no operator on words or rows, and a rule that uses a fact has no arguments.
///
/// # Errors
///
/// Fails where memory is wanting.
pub fn line_tree(alloc: Global, line: &Line) -> Result<Tree, Memory>
    requires { is_spelled_line (plain_line line.now) ≡ true }
    ensures spelling { IfOk result (λ t. SpellsLine (plain t) (plain_line line.now)) }
    ensures back { IfOk result (λ t. spelled_line (plain t) ≡ Some (plain_line line.now)) }
{
    tree_of_line(alloc, line)
}
