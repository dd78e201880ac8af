//! The trees of the parts of a program.
ghost use Rattle.std.specs.Prelude.{◌≡◌, true, pos, IfOk, map, codes};
ghost use Rattle.std.specs.List.{list_all};
ghost use Rattle.kid_sexp.specs.Plain.{atom, list, none, join, one};
ghost use Rattle.kid_sexp.specs.Tree.{plain as plain_tree};
ghost use Rattle.kid_value.specs.NameView.{plain_name};
ghost use Rattle.kid_term.specs.DefView.{plain_def};
ghost use Rattle.kid_term.specs.PlainTerm.{term_row};
ghost use Rattle.kid_term.specs.TermView.{plain_term};
ghost use Rattle.kid_codec.specs.SortSpelling.{headed, number_tree};
ghost use Rattle.kid_codec.specs.TermSpelling.{term_spellings, are_spelled_terms};
ghost use Rattle.kid_prog.specs.PlainStmt.{stmt_row};
ghost use Rattle.kid_prog.specs.StmtView.{plain_stmt};
ghost use Rattle.kid_prog.specs.Spelling.{stmt_spelling, stmt_spellings, named_spelling, names_spelling, definition_spelling, definitions_before, inputs_before, is_spelled_stmt, are_spelled_stmts, is_spelled_name, is_spelled_definition};

use crate::statement::Stmt;
use kid_codec::{sort_tree, term_tree};
use kid_sexp::{Forest, Tree};
use kid_term::{Def, Literal, Term};
use kid_value::{Memory, Sort, Text};
use std::alloc::Global;

fn word_tree(alloc: Global, word: &[u8]) -> Result<Tree, Memory>
    ensures { IfOk result (λ t. plain_tree t ≡ atom word.now) }
{
    Ok(Tree::Atom(Text::from_slice(alloc, word)?))
}

/// A list that begins with a word.
pub fn begun(alloc: Global, word: &[u8]) -> Result<Forest, Memory>
    ensures { IfOk result (λ f. f ≡ one (atom word.now)) }
{
    let mut trees = Forest::new(alloc);
    trees.push(word_tree(alloc, word)?)?;
    Ok(trees)
}

/// The list of a word and a number.
pub fn number_form(alloc: Global, word: &[u8], number: u32) -> Result<Tree, Memory>
    ensures { IfOk result (λ t. plain_tree t ≡ headed word.now (one (number_tree (pos number)))) }
{
    let mut trees = begun(alloc, word)?;
    let literal = Term::Lit(Literal::Int(i64::from(number)));
    trees.push(term_tree(alloc, &literal)?)?;
    Ok(Tree::List(trees))
}

/// These trees, and those of terms.
fn with_terms(alloc: Global, mut trees: Forest, terms: &[Term]) -> Result<Forest, Memory>
    requires { are_spelled_terms (term_row (map plain_term terms.now)) ≡ true }
    ensures { IfOk result (λ f. f ≡ join trees (term_spellings (term_row (map plain_term terms.now)))) }
{
    for term in terms {
        trees.push(term_tree(alloc, term)?)?;
    }
    Ok(trees)
}

/// The tree of a statement.
#[cycle(statement_tree)]
fn statement_tree(alloc: Global, statement: &Stmt) -> Result<Tree, Memory>
    requires { is_spelled_stmt (plain_stmt statement.now) ≡ true }
    ensures { IfOk result (λ t. plain_tree t ≡ stmt_spelling (plain_stmt statement.now)) }
{
    match statement {
        Stmt::Let(name, term) => {
            let mut trees = begun(alloc, b"let")?;
            trees.push(word_tree(alloc, name.as_slice())?)?;
            trees.push(term_tree(alloc, term)?)?;
            Ok(Tree::List(trees))
        }
        Stmt::If(condition, body) => {
            let mut trees = begun(alloc, b"if")?;
            trees.push(term_tree(alloc, condition)?)?;
            Ok(Tree::List(with_statements(alloc, trees, body.items())?))
        }
        Stmt::For(name, set, body) => {
            let mut trees = begun(alloc, b"for")?;
            trees.push(word_tree(alloc, name.as_slice())?)?;
            trees.push(term_tree(alloc, set)?)?;
            Ok(Tree::List(with_statements(alloc, trees, body.items())?))
        }
        Stmt::Emit(value) => {
            let mut trees = begun(alloc, b"emit")?;
            trees.push(term_tree(alloc, value)?)?;
            Ok(Tree::List(trees))
        }
        Stmt::Call(arguments) => {
            let trees = begun(alloc, b"call")?;
            Ok(Tree::List(with_terms(alloc, trees, arguments.items())?))
        }
    }
}

/// These trees, and those of statements.
#[cycle(statement_tree)]
pub fn with_statements(
    alloc: Global,
    mut trees: Forest,
    statements: &[Stmt],
) -> Result<Forest, Memory>
    requires { are_spelled_stmts (stmt_row (map plain_stmt statements.now)) ≡ true }
    ensures { IfOk result (λ f. f ≡ join trees (stmt_spellings (stmt_row (map plain_stmt statements.now)))) }
{
    for statement in statements {
        trees.push(statement_tree(alloc, statement)?)?;
    }
    Ok(trees)
}

/// These trees, a name and its sort.
pub fn with_name(
    alloc: Global,
    mut trees: Forest,
    name: &Text,
    sort: &Sort,
) -> Result<Forest, Memory>
    requires { is_spelled_name (plain_name (name.now, sort.now)) ≡ true }
    ensures { IfOk result (λ f. f ≡ join trees (named_spelling (plain_name (name.now, sort.now)))) }
{
    trees.push(word_tree(alloc, name.as_slice())?)?;
    trees.push(sort_tree(alloc, sort)?)?;
    Ok(trees)
}

/// The list of a name and its sort.
fn name_tree(alloc: Global, name: &(Text, Sort)) -> Result<Tree, Memory>
    requires { is_spelled_name (plain_name name.now) ≡ true }
    ensures { IfOk result (λ t. plain_tree t ≡ list (named_spelling (plain_name name.now))) }
{
    Ok(Tree::List(with_name(alloc, Forest::new(alloc), &name.0, &name.1)?))
}

/// The list of names with their sorts.
pub fn names_tree(alloc: Global, names: &[(Text, Sort)]) -> Result<Tree, Memory>
    requires { list_all is_spelled_name (map plain_name names.now) ≡ true }
    ensures { IfOk result (λ t. plain_tree t ≡ list (names_spelling (map plain_name names.now))) }
{
    let mut trees = Forest::new(alloc);
    for name in names {
        trees.push(name_tree(alloc, name)?)?;
    }
    Ok(Tree::List(trees))
}

/// The form of a definition.
fn definition_tree(alloc: Global, definition: &Def) -> Result<Tree, Memory>
    requires { is_spelled_definition (plain_def definition.now) ≡ true }
    ensures { IfOk result (λ t. plain_tree t ≡ definition_spelling (plain_def definition.now)) }
{
    let mut trees = begun(alloc, b"def")?;
    trees.push(word_tree(alloc, definition.name.as_slice())?)?;
    trees.push(names_tree(alloc, definition.parameters.items())?)?;
    trees.push(sort_tree(alloc, &definition.sort)?)?;
    trees.push(term_tree(alloc, &definition.body)?)?;
    Ok(Tree::List(trees))
}

/// These trees, and the forms of definitions.
pub fn with_definitions(
    alloc: Global,
    mut trees: Forest,
    definitions: &[Def],
) -> Result<Forest, Memory>
    requires { list_all is_spelled_definition (map plain_def definitions.now) ≡ true }
    ensures { IfOk result (λ f. f ≡ join trees (definitions_before (map plain_def definitions.now) none)) }
{
    for definition in definitions {
        trees.push(definition_tree(alloc, definition)?)?;
    }
    Ok(trees)
}

/// The form of an input.
fn input_tree(alloc: Global, input: &(Text, Sort)) -> Result<Tree, Memory>
    requires { is_spelled_name (plain_name input.now) ≡ true }
    ensures { IfOk result (λ t. plain_tree t ≡ list (join (one (atom (codes "input"))) (named_spelling (plain_name input.now)))) }
{
    let trees = begun(alloc, b"input")?;
    Ok(Tree::List(with_name(alloc, trees, &input.0, &input.1)?))
}

/// These trees, and the forms of inputs.
pub fn with_inputs(
    alloc: Global,
    mut trees: Forest,
    inputs: &[(Text, Sort)],
) -> Result<Forest, Memory>
    requires { list_all is_spelled_name (map plain_name inputs.now) ≡ true }
    ensures { IfOk result (λ f. f ≡ join trees (inputs_before (map plain_name inputs.now) none)) }
{
    for input in inputs {
        trees.push(input_tree(alloc, input)?)?;
    }
    Ok(trees)
}
