//! The forms of a program file, one function for each. Each answers `Form` where the form has another shape, breaks a rule of form,
//! or holds an enum sort or a tag that the file's format does not take, `Sort` where it has a wrong sort, and `Memory` where memory is wanting.
ghost use Rattle.std.specs.Prelude.{◌≡◌, IfOk, map, option_map, codes};
ghost use Rattle.kid_sexp.specs.Tree.{plain, plains};
ghost use Rattle.kid_value.specs.NameView.{plain_name};
ghost use Rattle.kid_value.specs.SortView.{plain_sort};
ghost use Rattle.kid_term.specs.DefView.{plain_def};
ghost use Rattle.kid_term.specs.TermView.{plain_term};
ghost use Rattle.kid_codec.specs.Reading.{Finds};
ghost use Rattle.kid_codec.specs.Shape.{begins, single as single_tree};
ghost use Rattle.kid_codec.specs.SortSpelling.{spelled_number};
ghost use Rattle.kid_codec.specs.TermSpelling.{spelled_term as term_of_tree};
ghost use Rattle.kid_prog.specs.PlainStmt.{stmt_row};
ghost use Rattle.kid_prog.specs.StmtShape.{spelled_stmts as stmts_of_trees};
ghost use Rattle.kid_prog.specs.FormAnswers.{Judges};
ghost use Rattle.kid_prog.specs.FormParts.{behind, alone};
ghost use Rattle.kid_prog.specs.Forms.{version_of, version_form, is_def, def_parts, def_form, is_input, is_undeclared, named_form, input_form, require_form, output_form, is_first, counted, first_form, are_undefined, are_undeclared, first_names, if_proper, known_parameters, main_sorted, main_form, search_parts, search_sorted, search_form};

use crate::fault::LoadCode;
use crate::format::Format;
use crate::known::Known;
use crate::rules::{Setting, obeys};
use crate::shape::{def_parts, named_pair, names_list, spelled_stmts};
use crate::statement::Stmts;
use crate::tags::{definition_has_tags, names_have_tags, search_has_tags, statements_have_tags};
use kid_codec::shape::{form, single};
use kid_codec::{CodecFault, number_of, sort_has_tags, spelled_term, term_has_tags};
use kid_sexp::Tree;
use kid_sorting::Signature;
use kid_sorting::judge::{is_sorted_definition, is_truth, is_undefined};
use kid_sorting::names::{are_allowed, are_new, copied, is_new, joined, with_name};
use kid_term::{Def, Term};
use kid_value::{Memory, Names, Sort, Text, sort_ok};
use std::alloc::Global;

/// A program has no more inputs.
const MAX_INPUTS: usize = 16;

/// A program asks for no more values.
const MAX_COUNT: i64 = 1_000_000;

/// The tree that stands alone behind the word.
fn single_form<'a>(word: &[u8], tree: &'a Tree) -> Option<&'a Tree>
    ensures { option_map (λ t. plain t.now) result ≡ behind word.now single_tree (plain tree.now) }
{
    let parts = form(word, tree)?;
    single(parts)
}

fn spelled_number(tree: &Tree) -> Option<i64>
    ensures { result ≡ spelled_number (plain tree.now) }
{
    match tree {
        Tree::Atom(word) => number_of(word.as_slice()),
        Tree::List(_) => None,
    }
}

fn version_of(number: Option<i64>) -> Result<Format, LoadCode>
    ensures { Judges (λ f. f) result (version_of number) }
{
    match number {
        Some(1) => Ok(Format::One),
        Some(2) => Ok(Format::Two),
        Some(_) => Err(LoadCode::Version),
        None => Err(LoadCode::Form),
    }
}

/// `(program 1)` or `(program 2)`, or `Version` where another number stands there.
pub fn version_form(tree: &Tree) -> Result<Format, LoadCode>
    ensures { Judges (λ f. f) result (version_form (plain tree.now)) }
{
    match single_form(b"program", tree) {
        Some(number) => version_of(spelled_number(number)),
        None => Err(LoadCode::Form),
    }
}

/// Whether the tree begins as a definition does.
pub fn is_def(tree: &Tree) -> bool
    ensures { result ≡ is_def (plain tree.now) }
{
    form(b"def", tree).is_some()
}

fn definition_parts(alloc: Global, tree: &Tree) -> Result<Def, CodecFault>
    ensures { Finds plain_def result (behind (codes "def") def_parts (plain tree.now)) }
{
    match form(b"def", tree) {
        Some(parts) => def_parts(alloc, parts),
        None => Err(CodecFault::Form),
    }
}

/// `(def NAME ((NAME SORT) ..) SORT TERM)` after other definitions: a new name, parameters that differ from one another, calls that
/// do not go deeper than 16, allowed sorts, and a body within the sort over the parameters alone and the definitions before.
pub fn def_form(alloc: Global, format: Format, known: &Known, tree: &Tree) -> Result<Def, LoadCode>
    ensures { Judges plain_def result (def_form format known.now (plain tree.now)) }
{
    let definition = definition_parts(alloc, tree)?;
    if !format.takes(definition_has_tags(&definition)) || !known.takes(alloc, &definition) {
        return Err(LoadCode::Form);
    }
    if !is_sorted_definition(alloc, known.definitions(), &definition)? {
        return Err(LoadCode::Sort);
    }
    Ok(definition)
}

fn named_form(alloc: Global, word: &[u8], tree: &Tree) -> Result<(Text, Sort), CodecFault>
    ensures { Finds plain_name result (named_form word.now (plain tree.now)) }
{
    match form(word, tree) {
        Some(parts) => named_pair(alloc, parts),
        None => Err(CodecFault::Form),
    }
}

/// Whether no definition and no input has the name.
fn is_undeclared(signature: &Signature, name: &Text) -> bool
    ensures { result ≡ is_undeclared signature.now name.now }
{
    is_undefined(name, signature.definitions()) && is_new(signature.names(), name)
}

/// Whether the tree begins as an input does.
pub fn is_input(tree: &Tree) -> bool
    ensures { result ≡ is_input (plain tree.now) }
{
    form(b"input", tree).is_some()
}

/// `(input NAME SORT)` after definitions and other inputs: a new name and an allowed sort. There are at most 16 inputs.
pub fn input_form(
    alloc: Global,
    format: Format,
    signature: &Signature,
    tree: &Tree,
) -> Result<(Text, Sort), LoadCode>
    ensures { Judges plain_name result (input_form format signature.now (plain tree.now)) }
{
    let (name, sort) = named_form(alloc, b"input", tree)?;
    if !format.takes(sort_has_tags(&sort)) {
        return Err(LoadCode::Form);
    }
    if !is_undeclared(signature, &name) || signature.inputs().len() >= MAX_INPUTS {
        return Err(LoadCode::Form);
    }
    if !sort_ok(&sort) {
        return Err(LoadCode::Sort);
    }
    Ok((name, sort))
}

fn term_form(alloc: Global, word: &[u8], tree: &Tree) -> Result<Term, CodecFault>
    ensures { Finds plain_term result (alone word.now term_of_tree (plain tree.now)) }
{
    match single_form(word, tree) {
        Some(term) => spelled_term(alloc, term),
        None => Err(CodecFault::Form),
    }
}

/// `(require TERM)`, which is a truth value over the inputs.
pub fn require_form(
    alloc: Global,
    format: Format,
    signature: &Signature,
    tree: &Tree,
) -> Result<Term, LoadCode>
    ensures { Judges plain_term result (require_form format signature.now (plain tree.now)) }
{
    let term = term_form(alloc, b"require", tree)?;
    if !format.takes(term_has_tags(&term)) {
        return Err(LoadCode::Form);
    }
    if !is_truth(alloc, signature.definitions(), signature.inputs(), &term)? {
        return Err(LoadCode::Sort);
    }
    Ok(term)
}

/// `(output NAME SORT)`: a name that no definition and no input has, and an allowed sort.
pub fn output_form(
    alloc: Global,
    format: Format,
    signature: &Signature,
    tree: &Tree,
) -> Result<(Text, Sort), LoadCode>
    ensures { Judges plain_name result (output_form format signature.now (plain tree.now)) }
{
    let (name, sort) = named_form(alloc, b"output", tree)?;
    if !format.takes(sort_has_tags(&sort)) || !is_undeclared(signature, &name) {
        return Err(LoadCode::Form);
    }
    if !sort_ok(&sort) {
        return Err(LoadCode::Sort);
    }
    Ok((name, sort))
}

/// Whether the tree begins as the form does that says how many values are wanted.
pub fn is_first(tree: &Tree) -> bool
    ensures { result ≡ is_first (plain tree.now) }
{
    form(b"first", tree).is_some()
}

fn counted(number: Option<i64>) -> Result<u32, LoadCode>
    ensures { Judges (λ n. n) result (counted number) }
{
    let Some(count) = number else {
        return Err(LoadCode::Form);
    };
    if 1 <= count && count <= MAX_COUNT {
        Ok(count as u32)
    } else {
        Err(LoadCode::Form)
    }
}

/// `(first NUMBER)`, with a number from 1 to 1,000,000.
pub fn first_form(tree: &Tree) -> Result<u32, LoadCode>
    ensures { Judges (λ n. n) result (first_form (plain tree.now)) }
{
    match single_form(b"first", tree) {
        Some(number) => counted(spelled_number(number)),
        None => Err(LoadCode::Form),
    }
}

/// Whether no definition has one of the names.
fn are_undefined(names: &Names, definitions: &[Def]) -> bool
    ensures { result ≡ are_undefined names.now (map plain_def definitions.now) }
{
    for name in names.items() {
        if !is_undefined(&name.0, definitions) {
            return false;
        }
    }
    true
}

/// Whether the names differ from one another, from the definitions and the inputs, and from the output.
fn are_undeclared(
    alloc: Global,
    signature: &Signature,
    output: &Text,
    sort: &Sort,
    names: &Names,
) -> Result<bool, Memory>
    ensures { IfOk result (λ b. b ≡ are_undeclared signature.now (output.now, plain_sort sort.now) names.now) }
{
    let taken = with_name(alloc, signature.names(), output, sort)?;
    Ok(are_undefined(names, signature.definitions()) && are_new(&taken, names))
}

fn first_names(alloc: Global, trees: &[Tree]) -> Result<Names, CodecFault>
    ensures { Finds (λ ns. ns) result (first_names (plains trees.now)) }
{
    match trees.first() {
        Some(first) => names_list(alloc, first),
        None => Err(CodecFault::Form),
    }
}

fn search_names(alloc: Global, tree: &Tree) -> Result<Names, CodecFault>
    ensures { Finds (λ ns. ns) result (behind (codes "search") first_names (plain tree.now)) }
{
    match form(b"search", tree) {
        Some(parts) => first_names(alloc, parts),
        None => Err(CodecFault::Form),
    }
}

fn if_proper(
    alloc: Global,
    format: Format,
    signature: &Signature,
    output: &Text,
    sort: &Sort,
    names: Names,
) -> Result<Option<Names>, Memory>
    ensures { IfOk result (λ o. o ≡ if_proper format signature.now (output.now, plain_sort sort.now) names) }
{
    if format.takes(names_have_tags(names.items()))
        && are_undeclared(alloc, signature, output, sort, &names)?
        && are_allowed(&names)
    {
        Ok(Some(names))
    } else {
        Ok(None)
    }
}

/// The parameters of the search procedure that is the first of these trees, or None where they are not there or are refused.
///
/// # Errors
///
/// Fails where memory is wanting.
pub fn known_parameters(
    alloc: Global,
    format: Format,
    signature: &Signature,
    output: &Text,
    sort: &Sort,
    trees: &[Tree],
) -> Result<Option<Names>, Memory>
    ensures { IfOk result (λ o. o ≡ known_parameters format signature.now (output.now, plain_sort sort.now) (plains trees.now)) }
{
    let Some(search) = trees.first() else {
        return Ok(None);
    };
    match search_names(alloc, search) {
        Ok(names) => if_proper(alloc, format, signature, output, sort, names),
        Err(CodecFault::Memory) => Err(Memory),
        Err(_) => Ok(None),
    }
}

fn stmts_form(alloc: Global, word: &[u8], tree: &Tree) -> Result<Stmts, CodecFault>
    ensures { Finds (λ ss. stmt_row ss) result (behind word.now stmts_of_trees (plain tree.now)) }
{
    match form(word, tree) {
        Some(parts) => spelled_stmts(alloc, parts),
        None => Err(CodecFault::Form),
    }
}

/// Whether statements meet the rules over the inputs.
fn main_sorted(
    alloc: Global,
    signature: &Signature,
    sort: &Sort,
    parameters: Option<&Names>,
    statements: &Stmts,
) -> Result<bool, Memory>
    ensures { IfOk result (λ b. b ≡ main_sorted signature.now (plain_sort sort.now) (option_map (λ ps. ps.now) parameters.entry) (stmt_row statements.now)) }
{
    let setting = Setting {
        definitions: signature.definitions(),
        sort,
        parameters,
    };
    let names = copied(alloc, signature.names())?;
    obeys(alloc, &setting, names, statements.items())
}

/// `(main STATEMENT ..)`, whose statements meet the rules over the inputs. The sort is that of the output. A call fits the
/// parameters where they are known.
pub fn main_form(
    alloc: Global,
    format: Format,
    signature: &Signature,
    sort: &Sort,
    parameters: Option<&Names>,
    tree: &Tree,
) -> Result<Stmts, LoadCode>
    ensures { Judges (λ ss. stmt_row ss) result (main_form format signature.now (plain_sort sort.now) (option_map (λ ps. ps.now) parameters.entry) (plain tree.now)) }
{
    let statements = stmts_form(alloc, b"main", tree)?;
    if !format.takes(statements_have_tags(statements.items())) {
        return Err(LoadCode::Form);
    }
    if !main_sorted(alloc, signature, sort, parameters, &statements)? {
        return Err(LoadCode::Sort);
    }
    Ok(statements)
}

fn search_parts(alloc: Global, trees: &[Tree]) -> Result<(Names, Stmts), CodecFault>
    ensures { Finds (λ p. (p.0, stmt_row p.1)) result (search_parts (plains trees.now)) }
{
    let Some((names, body)) = trees.split_first() else {
        return Err(CodecFault::Form);
    };
    let parameters = names_list(alloc, names)?;
    let statements = spelled_stmts(alloc, body)?;
    Ok((parameters, statements))
}

fn parts_form(alloc: Global, tree: &Tree) -> Result<(Names, Stmts), CodecFault>
    ensures { Finds (λ p. (p.0, stmt_row p.1)) result (behind (codes "search") search_parts (plain tree.now)) }
{
    match form(b"search", tree) {
        Some(parts) => search_parts(alloc, parts),
        None => Err(CodecFault::Form),
    }
}

/// Whether parameters have allowed sorts, and statements meet the rules over them and the inputs.
fn search_sorted(
    alloc: Global,
    signature: &Signature,
    sort: &Sort,
    parameters: &Names,
    statements: &Stmts,
) -> Result<bool, Memory>
    ensures { IfOk result (λ b. b ≡ search_sorted signature.now (plain_sort sort.now) (parameters.now, stmt_row statements.now)) }
{
    if !are_allowed(parameters) {
        return Ok(false);
    }
    let setting = Setting {
        definitions: signature.definitions(),
        sort,
        parameters: Some(parameters),
    };
    let names = joined(alloc, parameters, signature.names())?;
    obeys(alloc, &setting, names, statements.items())
}

/// `(search ((NAME SORT) ..) STATEMENT ..)`: parameters that differ from one another, the definitions, the inputs and the output and
/// have allowed sorts, and statements that meet the rules over them and the inputs. A call fits these parameters.
pub fn search_form(
    alloc: Global,
    format: Format,
    signature: &Signature,
    output: &Text,
    sort: &Sort,
    tree: &Tree,
) -> Result<(Names, Stmts), LoadCode>
    ensures { Judges (λ p. (p.0, stmt_row p.1)) result (search_form format signature.now (output.now, plain_sort sort.now) (plain tree.now)) }
{
    let (parameters, statements) = parts_form(alloc, tree)?;
    if !format.takes(search_has_tags(parameters.items(), statements.items())) {
        return Err(LoadCode::Form);
    }
    if !are_undeclared(alloc, signature, output, sort, &parameters)? {
        return Err(LoadCode::Form);
    }
    if !search_sorted(alloc, signature, sort, &parameters, &statements)? {
        return Err(LoadCode::Sort);
    }
    Ok((parameters, statements))
}
