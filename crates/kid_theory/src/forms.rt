//! The forms of a theory file, one function for each. Each answers the first code that applies, in the order `Limit`, `Form`, `Name`,
//! `Cycle`, `Sort`, and `Memory` where memory is wanting.
ghost use Rattle.std.specs.Prelude.{◌≡◌, IfOk, map, codes};
ghost use Rattle.kid_sexp.specs.Tree.{plain, plains};
ghost use Rattle.kid_value.specs.NameView.{plain_name};
ghost use Rattle.kid_term.specs.CallDepth.{depths_of};
ghost use Rattle.kid_term.specs.DefView.{plain_def};
ghost use Rattle.kid_term.specs.TermView.{plain_term};
ghost use Rattle.kid_theory.specs.Answers.{Judges};
ghost use Rattle.kid_theory.specs.Forms.{begins, title_form, judged_definition, definition_form, judged_name, input_form, output_form, condition_form, first_form};

use crate::ahead::{Place, calls_ahead};
use crate::fault::TheoryCode;
use crate::names::{are_free, is_free};
use crate::shape::{declared_form, definition_shape, lone_number, lone_term, lone_word};
use kid_codec::is_name;
use kid_codec::shape::form;
use kid_sexp::Tree;
use kid_sorting::judge::{is_sorted_definition, is_truth};
use kid_term::{CallDepths, Def, MAX_CALL_DEPTH, Term};
use kid_value::{Names, Sort, Text, Texts, sort_ok};
use std::alloc::Global;

/// A theory has no more inputs.
const MAX_INPUTS: usize = 16;

/// A theory asks for no more answers.
const MAX_COUNT: i64 = 1_000_000;

/// Whether the form begins with the word.
pub fn begins(word: &[u8], tree: &Tree) -> bool
    ensures { result ≡ begins word.now (plain tree.now) }
{
    form(word, tree).is_some()
}

/// The name of `(theory NAME)`.
pub fn title_form(alloc: Global, tree: &Tree) -> Result<Text, TheoryCode>
    ensures { Judges (λ w. w) result (title_form (plain tree.now)) }
{
    let name = lone_word(alloc, b"theory", tree)?;
    if !is_name(name.as_slice()) {
        return Err(TheoryCode::Name);
    }
    Ok(name)
}

/// The definitions before a form, the depth of each, and their names.
#[derive(Clone, Copy)]
pub struct Known<'a> {
    pub definitions: &'a [Def],
    pub depths: &'a CallDepths,
    pub taken: &'a Texts,
}

fn judged_definition(
    alloc: Global,
    known: &Known,
    later: &[Tree],
    definition: Def,
) -> Result<Def, TheoryCode>
    requires { known.now.depths.now ≡ depths_of (map plain_def known.now.definitions.now) }
    ensures { Judges plain_def result (judged_definition (map plain_def known.now.definitions.now) known.now.taken.now (plains later.now) (plain_def definition)) }
{
    if known.depths.of_body(&definition.body) > MAX_CALL_DEPTH {
        return Err(TheoryCode::Limit);
    }
    let none = Texts::new(alloc);
    if !is_free(known.taken, &definition.name) || !are_free(alloc, &none, &definition.parameters)? {
        return Err(TheoryCode::Name);
    }
    let place = Place {
        name: &definition.name,
        later,
    };
    if calls_ahead(&place, &definition.body) {
        return Err(TheoryCode::Cycle);
    }
    if !is_sorted_definition(alloc, known.definitions, &definition)? {
        return Err(TheoryCode::Sort);
    }
    Ok(definition)
}

/// `(def NAME ((NAME SORT) ..) SORT TERM)` after these definitions and before the `later` forms: a call depth of at most 16, new names,
/// no call of the definition itself or of a later one, allowed sorts and a body within the sort.
pub fn definition_form(
    alloc: Global,
    known: &Known,
    later: &[Tree],
    tree: &Tree,
) -> Result<Def, TheoryCode>
    requires { known.now.depths.now ≡ depths_of (map plain_def known.now.definitions.now) }
    ensures { Judges plain_def result (definition_form (map plain_def known.now.definitions.now) known.now.taken.now (plains later.now) (plain tree.now)) }
{
    let definition = definition_shape(alloc, tree)?;
    judged_definition(alloc, known, later, definition)
}

fn judged_name(taken: &Texts, name: Text, sort: Sort) -> Result<(Text, Sort), TheoryCode>
    ensures { Judges plain_name result (judged_name taken.now (plain_name (name, sort))) }
{
    if !is_free(taken, &name) {
        return Err(TheoryCode::Name);
    }
    if !sort_ok(&sort) {
        return Err(TheoryCode::Sort);
    }
    Ok((name, sort))
}

/// `(input NAME SORT)` after these inputs, of which there are at most 16: a new name and an allowed sort.
pub fn input_form(
    alloc: Global,
    inputs: &Names,
    taken: &Texts,
    tree: &Tree,
) -> Result<(Text, Sort), TheoryCode>
    ensures { Judges plain_name result (input_form inputs.now taken.now (plain tree.now)) }
{
    if inputs.items().len() >= MAX_INPUTS {
        return Err(TheoryCode::Limit);
    }
    let (name, sort) = declared_form(alloc, b"input", tree)?;
    judged_name(taken, name, sort)
}

/// `(output NAME SORT)`: a new name and an allowed sort.
pub fn output_form(alloc: Global, taken: &Texts, tree: &Tree) -> Result<(Text, Sort), TheoryCode>
    ensures { Judges plain_name result (output_form taken.now (plain tree.now)) }
{
    let (name, sort) = declared_form(alloc, b"output", tree)?;
    judged_name(taken, name, sort)
}

/// The word and a term that is a truth value over the names.
pub fn condition_form(
    alloc: Global,
    word: &[u8],
    definitions: &[Def],
    names: &Names,
    tree: &Tree,
) -> Result<Term, TheoryCode>
    ensures { Judges plain_term result (condition_form word.now (map plain_def definitions.now) names.now (plain tree.now)) }
{
    let term = lone_term(alloc, word, tree)?;
    if !is_truth(alloc, definitions, names.items(), &term)? {
        return Err(TheoryCode::Sort);
    }
    Ok(term)
}

/// `(first NUMBER)`, with a number from 1 to 1,000,000.
pub fn first_form(tree: &Tree) -> Result<u32, TheoryCode>
    ensures { Judges (λ n. n) result (first_form (plain tree.now)) }
{
    let Some(number) = lone_number(b"first", tree) else {
        return Err(TheoryCode::Form);
    };
    if 1 <= number && number <= MAX_COUNT {
        Ok(number as u32)
    } else {
        Err(TheoryCode::Form)
    }
}
