//! The program that a file spells.
ghost use Rattle.std.specs.Prelude.{◌≡◌, ◌≤◌, ◌<◌, ◌+◌, ◌^◌, [], IfOk, length, option_map};
ghost use Rattle.kid_sexp.specs.Plain.{forest_len};
ghost use Rattle.kid_sexp.specs.Tree.{plain, plains};
ghost use Rattle.kid_term.specs.TermView.{plain_term};
ghost use Rattle.kid_prog.specs.PlainStmt.{stmt_row};
ghost use Rattle.kid_prog.specs.ProgramView.{plain_program};
ghost use Rattle.kid_prog.specs.Forms.{known_parameters as parameters_known, main_form as main_of_tree};
ghost use Rattle.kid_prog.specs.FormAnswers.{Judges};
ghost use Rattle.kid_prog.specs.StageAnswers.{fault_at, numbered};
ghost use Rattle.kid_prog.specs.HeadingView.{plain_heading};
ghost use Rattle.kid_prog.specs.Laws.{IsLoaded};
ghost use Rattle.kid_prog.specs.Loading.{Loads, program_with, at_end, after_main, after_first, with_first, after_output, after_condition, after_inputs, next_definition, after_definitions, program_from, loading};

use crate::fault::{LoadCode, LoadFault};
use crate::format::Format;
use crate::forms::{
    def_form, first_form, input_form, is_def, is_first, is_input, known_parameters, main_form,
    output_form, require_form, search_form, version_form,
};
use crate::known::Known;
use crate::program::Program;
use crate::statement::Stmts;
use kid_sexp::{Forest, ReadFault, Tree, read};
use kid_sorting::Signature;
use kid_term::Term;
use kid_value::{Memory, Names, Sort, Text};
use std::alloc::Global;

/// A file has no more bytes.
const MAX_BYTES: usize = 4_194_304;

/// What the forms before main hold.
#[derive(Drop)]
struct Heading {
    format: Format,
    signature: Signature,
    condition: Term,
    output: Text,
    sort: Sort,
    first: Option<u32>,
}

fn fault_at(number: u32, code: LoadCode) -> LoadFault
    ensures { result ≡ fault_at number code }
{
    match code {
        LoadCode::Memory => LoadFault { form: 0, code },
        _ => LoadFault { form: number, code },
    }
}

/// What the form of this number holds.
fn at<T: Drop>(number: u32, found: Result<T, LoadCode>) -> Result<T, LoadFault>
    ensures { result ≡ numbered number found }
{
    match found {
        Ok(held) => Ok(held),
        Err(code) => Err(fault_at(number, code)),
    }
}

fn program_with(heading: Heading, main: Stmts, parameters: Names, search: Stmts) -> Program
    ensures { plain_program result ≡ program_with (plain_heading heading) (stmt_row main) (parameters, stmt_row search) }
{
    let Heading {
        signature,
        condition,
        output,
        sort,
        first,
        ..
    } = heading;
    Program {
        signature,
        condition,
        output,
        sort,
        first,
        main,
        parameters,
        search,
    }
}

/// The program, where no form stands after the last. Of this and each function below, `before` counts the forms before the trees.
fn at_end(before: u32, program: Program, trees: &[Tree]) -> Result<Program, LoadFault>
    requires { before + length trees.now + 1 < 2 ^ 32 }
    ensures { Loads plain_program result (at_end before (plain_program program) (plains trees.now)) }
{
    if trees.is_empty() {
        Ok(program)
    } else {
        Err(fault_at(before + 1, LoadCode::Form))
    }
}

fn after_main(
    alloc: Global,
    before: u32,
    heading: Heading,
    main: Stmts,
    trees: &[Tree],
) -> Result<Program, LoadFault>
    requires { before + length trees.now + 1 < 2 ^ 32 }
    ensures { Loads plain_program result (after_main before (plain_heading heading) (stmt_row main) (plains trees.now)) }
{
    let number = before + 1;
    let Some((tree, rest)) = trees.split_first() else {
        return Err(fault_at(number, LoadCode::Form));
    };
    let found = search_form(
        alloc,
        heading.format,
        &heading.signature,
        &heading.output,
        &heading.sort,
        tree,
    );
    let (parameters, search) = at(number, found)?;
    let program = program_with(heading, main, parameters, search);
    at_end(number, program, rest)
}

/// What the form main holds before these trees, of which the first shows the parameters of the search procedure.
fn main_before(
    alloc: Global,
    heading: &Heading,
    tree: &Tree,
    rest: &[Tree],
) -> Result<Stmts, LoadCode>
    ensures { Judges (λ ss. stmt_row ss) result (let h = plain_heading heading.now in main_of_tree h.format h.signature h.output.1 (parameters_known h.format h.signature h.output (plains rest.now)) (plain tree.now)) }
{
    let format = heading.format;
    let signature = &heading.signature;
    let parameters = known_parameters(
        alloc,
        format,
        signature,
        &heading.output,
        &heading.sort,
        rest,
    )?;
    main_form(
        alloc,
        format,
        signature,
        &heading.sort,
        parameters.as_ref(),
        tree,
    )
}

fn after_first(
    alloc: Global,
    before: u32,
    heading: Heading,
    trees: &[Tree],
) -> Result<Program, LoadFault>
    requires { before + length trees.now + 1 < 2 ^ 32 }
    ensures { Loads plain_program result (after_first before (plain_heading heading) (plains trees.now)) }
{
    let number = before + 1;
    let Some((tree, rest)) = trees.split_first() else {
        return Err(fault_at(number, LoadCode::Form));
    };
    let main = at(number, main_before(alloc, &heading, tree, rest))?;
    after_main(alloc, number, heading, main, rest)
}

/// The heading with so many values wanted.
fn with_first(heading: Heading, count: u32) -> Heading
    ensures { plain_heading result ≡ with_first (plain_heading heading) count }
{
    let Heading {
        format,
        signature,
        condition,
        output,
        sort,
        ..
    } = heading;
    Heading {
        format,
        signature,
        condition,
        output,
        sort,
        first: Some(count),
    }
}

fn after_output(
    alloc: Global,
    before: u32,
    heading: Heading,
    trees: &[Tree],
) -> Result<Program, LoadFault>
    requires { before + length trees.now + 1 < 2 ^ 32 }
    ensures { Loads plain_program result (after_output before (plain_heading heading) (plains trees.now)) }
{
    let number = before + 1;
    let Some((tree, rest)) = trees.split_first() else {
        return Err(fault_at(number, LoadCode::Form));
    };
    if is_first(tree) {
        let count = at(number, first_form(tree))?;
        after_first(alloc, number, with_first(heading, count), rest)
    } else {
        after_first(alloc, before, heading, trees)
    }
}

fn after_condition(
    alloc: Global,
    before: u32,
    format: Format,
    signature: Signature,
    condition: Term,
    trees: &[Tree],
) -> Result<Program, LoadFault>
    requires { before + length trees.now + 1 < 2 ^ 32 }
    ensures { Loads plain_program result (after_condition before format signature (plain_term condition) (plains trees.now)) }
{
    let number = before + 1;
    let Some((tree, rest)) = trees.split_first() else {
        return Err(fault_at(number, LoadCode::Form));
    };
    let (output, sort) = at(number, output_form(alloc, format, &signature, tree))?;
    let heading = Heading {
        format,
        signature,
        condition,
        output,
        sort,
        first: None,
    };
    after_output(alloc, number, heading, rest)
}

fn after_inputs(
    alloc: Global,
    before: u32,
    format: Format,
    signature: Signature,
    trees: &[Tree],
) -> Result<Program, LoadFault>
    requires { before + length trees.now + 1 < 2 ^ 32 }
    ensures { Loads plain_program result (after_inputs before format signature (plains trees.now)) }
{
    let number = before + 1;
    let Some((tree, rest)) = trees.split_first() else {
        return Err(fault_at(number, LoadCode::Form));
    };
    if is_input(tree) {
        let (name, sort) = at(number, input_form(alloc, format, &signature, tree))?;
        let mut signature = signature;
        signature.add_input(name, sort)?;
        after_inputs(alloc, number, format, signature, rest)
    } else {
        let condition = at(number, require_form(alloc, format, &signature, tree))?;
        after_condition(alloc, number, format, signature, condition, rest)
    }
}

/// The first tree and those after it, where it begins as a definition does.
fn next_definition(trees: &[Tree]) -> Option<(&Tree, &[Tree])>
    ensures { option_map (λ p. (plain p.0.now, plains p.1.now)) result ≡ next_definition (plains trees.now) }
{
    let (tree, rest) = trees.split_first()?;
    if is_def(tree) {
        Some((tree, rest))
    } else {
        None
    }
}

fn after_definitions(
    alloc: Global,
    before: u32,
    format: Format,
    trees: &[Tree],
) -> Result<Program, LoadFault>
    requires { before + length trees.now + 1 < 2 ^ 32 }
    ensures { Loads plain_program result (after_definitions before format [] (plains trees.now)) }
{
    let mut known = Known::new(alloc);
    let mut number = before;
    let mut rest = trees;
    while let Some((tree, others)) = next_definition(rest) {
        number += 1;
        let definition = at(number, def_form(alloc, format, &known, tree))?;
        known = known.with(alloc, definition)?;
        rest = others;
    }
    after_inputs(alloc, number, format, known.signature(), rest)
}

fn program_from(alloc: Global, trees: &[Tree]) -> Result<Program, LoadFault>
    requires { length trees.now + 1 < 2 ^ 32 }
    ensures { Loads plain_program result (program_from (plains trees.now)) }
{
    let Some((tree, rest)) = trees.split_first() else {
        return Err(fault_at(1, LoadCode::Form));
    };
    let format = at(1, version_form(tree))?;
    after_definitions(alloc, 1, format, rest)
}

/// The program that a file spells, or why it is refused.
fn read_program(alloc: Global, bytes: &[u8]) -> Result<Program, LoadFault>
    ensures { Loads plain_program result (loading bytes.now) }
{
    if bytes.len() > MAX_BYTES {
        return Err(LoadFault {
            form: 0,
            code: LoadCode::Large,
        });
    }
    match read(alloc, bytes) {
        Ok(forest) => program_from(alloc, forest.as_slice()),
        Err(ReadFault::Memory) => Err(LoadFault::from(Memory)),
        Err(_) => Err(LoadFault {
            form: 0,
            code: LoadCode::Read,
        }),
    }
}

/// The program that a file spells. Its forms stand in this order:
///
/// - `(program 1)`, or `(program 2)`, which a file with an enum sort or a tag has
/// - `(def NAME ((NAME SORT) ..) SORT TERM)`, any number: the term names the parameters alone, calls definitions before it alone,
///   and its sort lies within the declared one
/// - `(input NAME SORT)`, up to 16 times
/// - `(require TERM)`, a truth value over the inputs
/// - `(output NAME SORT)`
/// - `(first NUMBER)`, from 1 to 1,000,000, or none of it where all values are wanted
/// - `(main STATEMENT ..)`, over the inputs
/// - `(search ((NAME SORT) ..) STATEMENT ..)`, over its parameters and the inputs
///
/// A statement is `(let NAME TERM)`, `(if TERM STATEMENT ..)`, `(for NAME TERM STATEMENT ..)`, `(emit TERM)` or `(call TERM ..)`.
/// No name is bound where it is in scope, each value that is emitted lies within the output's sort, and a call has as many
/// arguments as `search` has parameters, each within its parameter's sort.
///
/// # Errors
///
/// The first form that is refused, by its number from 1, or 0 where it is none:
///
/// - `Large`, with form 0: the file has more than 4,194,304 bytes.
/// - `Read`, with form 0: a byte is outside the alphabet, or brackets do not fit or nest more than 250 deep.
/// - `Version`: the first form names another number than 1 and 2.
/// - `Form`: the form is not the one that may stand there, or has not its shape, or there is none where one is due; a further
///   form stands after the last; an enum sort, allowed or not, or a tag stands in it in a file that begins with `(program 1)`; a definition has the name of one before it, two parameters of one name, or calls that go deeper
///   than 16; an input has the name of a definition or of an input before it, or is the 17th; the output has the name of a
///   definition or an input; a parameter of `search` has the name of a definition, of an input, of the output or of a parameter
///   before it.
/// - `Sort`: a sort that the form declares is not allowed, a term in it has no sort or not the one that it is to have, or a
///   statement in it breaks a rule above. Where the form `search` is not there or its parameters are refused, the arguments of a
///   call in `main` only need sorts, and the fault is that of `search`.
/// - `Memory`, with form 0: memory is wanting. It may come in place of any other answer.
#[tactic(auto, using(crate::proofs::Laws::loaded_result))]
pub fn load(alloc: Global, bytes: &[u8]) -> Result<Program, LoadFault>
    ensures loading { Loads plain_program result (loading bytes.now) }
    // So it can be run, has a spelling, and is the one that the file's forms spell.
    ensures loaded { IfOk result (λ p. IsLoaded bytes.now (plain_program p)) }
{
    read_program(alloc, bytes)
}
