//! Reads a theory file form by form.
ghost use Rattle.std.specs.Prelude.{◌≡◌, ◌≤◌, ◌<◌, ◌+◌, ◌^◌, ◌∷◌, ◌++◌, [], IfOk, length, codes};
ghost use Rattle.kid_sexp.specs.Tree.{plain, plains};
ghost use Rattle.kid_value.specs.NameView.{plain_name};
ghost use Rattle.kid_value.specs.SortView.{plain_sort};
ghost use Rattle.kid_term.specs.CallDepth.{depths_of};
ghost use Rattle.kid_term.specs.DefView.{plain_def};
ghost use Rattle.kid_term.specs.TermView.{plain_term};
ghost use Rattle.kid_kernel.specs.TheoryView.{plain_theory};
ghost use Rattle.kid_theory.specs.Answers.{Judges, Reads, fault_at, placed, located};
ghost use Rattle.kid_theory.specs.Forms.{condition_form as condition_form_of, output_form as output_form_of, claim_form as claim_form_of, definition_form as definition_form_of};
ghost use Rattle.kid_theory.specs.Before.{theory_before, with_claim as with_law};
ghost use Rattle.kid_theory.specs.ClaimView.{plain_claim};
ghost use Rattle.kid_theory.specs.FileView.{plain_file};
ghost use Rattle.kid_theory.specs.Formed.{IsSpelledBy};
ghost use Rattle.kid_theory.specs.FrontView.{plain_front};
ghost use Rattle.kid_theory.specs.IsRead.{IsRead};
ghost use Rattle.kid_theory.specs.Known.{AreDeclared, IsKnown};
ghost use Rattle.kid_theory.specs.Reading.{file_with, with_claim, front_of, at_end, after_relation, after_output, after_condition, after_inputs, after_definitions, file_from, file_reading, theory_reading};

use crate::claims::{Claim, Claims};
use crate::copies::with_copy;
use crate::fault::{TheoryCode, TheoryFault};
use crate::file::{TheoryFile, theory_of};
use crate::forms::{
    Known, begins, condition_form, definition_form, first_form, input_form, output_form, title_form,
};
use crate::law_form::{claim_form, is_claim};
use crate::names::{add_words, declare, joined as joined_texts};
use kid_kernel::{Axioms, Laws, Spec, Theory};
use kid_sexp::{ReadFault, Tree, read};
use kid_sorting::Signature;
use kid_sorting::names::{copied as copied_names, with_name};
use kid_term::{CallDepths, Def, Defs, Literal, Term};
use kid_value::{Memory, Names, Sort, Text, Texts};
use std::alloc::Global;

/// A file has no more bytes.
const MAX_BYTES: usize = 4_194_304;

/// A theory has no more forms.
const MAX_FORMS: u32 = 1024;

/// The title, the definitions so far, the depth of each, and their names.
#[derive(Drop)]
struct Definitions {
    title: Text,
    all: Defs,
    depths: CallDepths,
    taken: Texts,
}

fn fault_at(number: u32, code: TheoryCode) -> TheoryFault
    ensures { result ≡ fault_at number code }
{
    match code {
        TheoryCode::Memory => TheoryFault { form: 0, code },
        _ => TheoryFault { form: number, code },
    }
}

fn placed<T: Drop>(number: u32, found: Result<T, TheoryCode>) -> Result<T, TheoryFault>
    ensures { result ≡ placed number found }
{
    match found {
        Ok(held) => Ok(held),
        Err(code) => Err(fault_at(number, code)),
    }
}

/// What the form of this number holds, of which there are at most 1024.
fn at<T: Drop>(number: u32, found: Result<T, TheoryCode>) -> Result<T, TheoryFault>
    ensures { result ≡ located number found }
{
    if number <= MAX_FORMS {
        placed(number, found)
    } else {
        Err(fault_at(number, TheoryCode::Limit))
    }
}

/// What the forms before hold, once the condition is among them. The theory has copies of the laws and axioms, since proofs see it.
#[derive(Drop)]
struct Front {
    title: Text,
    theory: Theory,
    claims: Claims,
    taken: Texts,
    variables: Texts,
}

fn file_with(front: Front, output: Text, sort: Sort, relation: Term) -> TheoryFile
    ensures { plain_file result ≡ file_with (plain_front front) (output, plain_sort sort) (plain_term relation) }
{
    let Front {
        title,
        theory,
        claims,
        ..
    } = front;
    let Theory {
        signature,
        spec,
        ..
    } = theory;
    let Spec { condition, .. } = spec;
    TheoryFile {
        title,
        signature,
        condition,
        claims,
        output,
        sort,
        relation,
        first: None,
    }
}

/// The file, where no form stands after the last. Of this and each function below, `before` counts the forms before the trees.
fn at_end(before: u32, file: TheoryFile, trees: &[Tree]) -> Result<TheoryFile, TheoryFault>
    requires { before + length trees.now + 1 < 2 ^ 32 }
    ensures { Reads plain_file result (at_end before (plain_file file) (plains trees.now)) }
{
    if trees.is_empty() {
        Ok(file)
    } else {
        at(before + 1, Err(TheoryCode::Form))
    }
}

fn after_relation(
    before: u32,
    mut file: TheoryFile,
    trees: &[Tree],
) -> Result<TheoryFile, TheoryFault>
    requires { before + length trees.now + 1 < 2 ^ 32 }
    ensures { Reads plain_file result (after_relation before (plain_file file) (plains trees.now)) }
{
    let number = before + 1;
    let Some((tree, rest)) = trees.split_first() else {
        return Ok(file);
    };
    let count = at(number, first_form(tree))?;
    file.first = Some(count);
    at_end(number, file, rest)
}

/// The names that the relation sees, and then the relation.
fn relation_form(
    alloc: Global,
    front: &Front,
    output: &Text,
    sort: &Sort,
    tree: &Tree,
) -> Result<Term, TheoryCode>
    ensures { Judges plain_term result (let f = plain_front front.now in condition_form_of (codes "ensure") f.theory.signature.definitions (f.theory.signature.inputs ++ (output.now, plain_sort sort.now) ∷ []) (plain tree.now)) }
{
    let signature = &front.theory.signature;
    let names = with_name(alloc, signature.names(), output, sort)?;
    condition_form(alloc, b"ensure", signature.definitions(), &names, tree)
}

fn after_output(
    alloc: Global,
    before: u32,
    front: Front,
    output: Text,
    sort: Sort,
    trees: &[Tree],
) -> Result<TheoryFile, TheoryFault>
    requires { before + length trees.now + 1 < 2 ^ 32 }
    ensures { Reads plain_file result (after_output before (plain_front front) (output, plain_sort sort) (plains trees.now)) }
{
    let number = before + 1;
    let Some((tree, rest)) = trees.split_first() else {
        return Err(fault_at(number, TheoryCode::Form));
    };
    let relation = at(number, relation_form(alloc, &front, &output, &sort, tree))?;
    let file = file_with(front, output, sort, relation);
    after_relation(number, file, rest)
}

/// The output's name and sort, which no name before has and no variable of a law.
fn output_after(alloc: Global, front: &Front, tree: &Tree) -> Result<(Text, Sort), TheoryCode>
    ensures { Judges plain_name result (let f = plain_front front.now in output_form_of (f.taken ++ f.variables) (plain tree.now)) }
{
    let taken = joined_texts(alloc, &front.taken, &front.variables)?;
    output_form(alloc, &taken, tree)
}

/// What the law or axiom of a form is.
fn claim_after(alloc: Global, front: &Front, tree: &Tree) -> Result<Claim, TheoryCode>
    requires { IsKnown (plain_theory front.now.theory) front.now.taken front.now.variables }
    ensures { Judges plain_claim result (let f = plain_front front.now in claim_form_of f.theory f.taken f.variables (plain tree.now)) }
{
    claim_form(alloc, &front.theory, &front.taken, &front.variables, tree)
}

/// The theory with a copy of the law or axiom.
fn with_law(alloc: Global, theory: Theory, claim: &Claim) -> Result<Theory, Memory>
    ensures { IfOk result (λ t. plain_theory t ≡ with_law (plain_theory theory) (plain_claim claim.now)) }
{
    let Theory {
        signature,
        laws,
        axioms,
        spec,
    } = theory;
    let (laws, axioms) = with_copy(alloc, laws, axioms, claim)?;
    Ok(Theory {
        signature,
        laws,
        axioms,
        spec,
    })
}

/// The forms before, with one more law or axiom.
fn with_claim(alloc: Global, front: Front, claim: Claim) -> Result<Front, Memory>
    ensures { IfOk result (λ f. plain_front f ≡ with_claim (plain_front front) (plain_claim claim)) }
{
    let Front {
        title,
        theory,
        mut claims,
        mut taken,
        mut variables,
    } = front;
    declare(alloc, &mut taken, claim.name())?;
    add_words(alloc, &mut variables, claim.variables())?;
    let theory = with_law(alloc, theory, &claim)?;
    claims.push(claim)?;
    Ok(Front {
        title,
        theory,
        claims,
        taken,
        variables,
    })
}

fn after_condition(
    alloc: Global,
    before: u32,
    front: Front,
    trees: &[Tree],
) -> Result<TheoryFile, TheoryFault>
    requires count { before + length trees.now + 1 < 2 ^ 32 }
    requires known { IsKnown (plain_theory front.theory) front.taken front.variables }
    ensures { Reads plain_file result (after_condition before (plain_front front) (plains trees.now)) }
{
    let number = before + 1;
    let Some((tree, rest)) = trees.split_first() else {
        return Err(fault_at(number, TheoryCode::Form));
    };
    if is_claim(tree) {
        let claim = at(number, claim_after(alloc, &front, tree))?;
        let front = with_claim(alloc, front, claim)?;
        after_condition(alloc, number, front, rest)
    } else {
        let (output, sort) = at(number, output_after(alloc, &front, tree))?;
        after_output(alloc, number, front, output, sort, rest)
    }
}

/// The theory before any law. Its output, which has no name, and its relation are stand-ins that no proof of a law sees.
fn theory_before(
    alloc: Global,
    definitions: Defs,
    inputs: Names,
    condition: Term,
) -> Result<Theory, Memory>
    ensures { IfOk result (λ t. plain_theory t ≡ theory_before definitions inputs (plain_term condition)) }
{
    let spec = Spec {
        inputs: copied_names(alloc, &inputs)?,
        condition,
        output: Text::new(alloc),
        sort: Sort::Bool,
        relation: Term::Lit(Literal::Bool(true)),
        first: None,
    };
    Ok(Theory {
        signature: Signature::from_parts(definitions, inputs),
        laws: Laws::new(alloc),
        axioms: Axioms::new(alloc),
        spec,
    })
}

fn front_of(alloc: Global, title: Text, theory: Theory, taken: Texts) -> Front
    ensures { plain_front result ≡ record { title = title; theory = plain_theory theory; claims = []; taken = taken; variables = [] } }
{
    Front {
        title,
        theory,
        claims: Claims::new(alloc),
        taken,
        variables: Texts::new(alloc),
    }
}

/// What the form `require` holds.
fn requirement(
    alloc: Global,
    definitions: &Defs,
    inputs: &Names,
    tree: &Tree,
) -> Result<Term, TheoryCode>
    ensures { Judges plain_term result (condition_form_of (codes "require") definitions.now inputs.now (plain tree.now)) }
{
    condition_form(alloc, b"require", definitions.items(), inputs, tree)
}

fn after_inputs(
    alloc: Global,
    before: u32,
    title: Text,
    definitions: Defs,
    inputs: Names,
    taken: Texts,
    trees: &[Tree],
) -> Result<TheoryFile, TheoryFault>
    requires count { before + length trees.now + 1 < 2 ^ 32 }
    requires declared { AreDeclared definitions inputs taken }
    ensures { Reads plain_file result (after_inputs before title definitions inputs taken (plains trees.now)) }
{
    let number = before + 1;
    let Some((tree, rest)) = trees.split_first() else {
        return Err(fault_at(number, TheoryCode::Form));
    };
    if begins(b"input", tree) {
        let (name, sort) = at(number, input_form(alloc, &inputs, &taken, tree))?;
        let mut inputs = inputs;
        let mut taken = taken;
        declare(alloc, &mut taken, &name)?;
        inputs.push(name, sort)?;
        after_inputs(alloc, number, title, definitions, inputs, taken, rest)
    } else {
        let condition = at(number, requirement(alloc, &definitions, &inputs, tree))?;
        let theory = theory_before(alloc, definitions, inputs, condition)?;
        let front = front_of(alloc, title, theory, taken);
        after_condition(alloc, number, front, rest)
    }
}

/// The definitions, and then this one.
#[tactic(auto, using(crate::proofs::DepthLemmas::depths_more))]
fn with_definition(
    alloc: Global,
    known: Definitions,
    definition: Def,
) -> Result<Definitions, Memory>
    requires { known.depths ≡ depths_of known.all }
    ensures { IfOk result (λ k. (k.title ≡ known.title) × (k.all ≡ known.all ++ plain_def definition ∷ []) × (k.depths ≡ depths_of k.all) × (k.taken ≡ known.taken ++ definition.name ∷ [])) }
{
    let Definitions {
        title,
        mut all,
        mut depths,
        mut taken,
    } = known;
    let depth = depths.of_body(&definition.body);
    depths.push(definition.name.copy(alloc)?, depth)?;
    declare(alloc, &mut taken, &definition.name)?;
    all.push(definition)?;
    Ok(Definitions {
        title,
        all,
        depths,
        taken,
    })
}

/// The definition of a form, after those that are known.
fn definition_after(
    alloc: Global,
    known: &Definitions,
    later: &[Tree],
    tree: &Tree,
) -> Result<Def, TheoryCode>
    requires { known.now.depths ≡ depths_of known.now.all }
    ensures { Judges plain_def result (definition_form_of known.now.all known.now.taken (plains later.now) (plain tree.now)) }
{
    let before = Known {
        definitions: known.all.items(),
        depths: &known.depths,
        taken: &known.taken,
    };
    definition_form(alloc, &before, later, tree)
}

fn after_definitions(
    alloc: Global,
    before: u32,
    known: Definitions,
    trees: &[Tree],
) -> Result<TheoryFile, TheoryFault>
    requires count { before + length trees.now + 1 < 2 ^ 32 }
    requires depths { known.depths ≡ depths_of known.all }
    requires declared { AreDeclared known.all [] known.taken }
    ensures { Reads plain_file result (after_definitions before known.title known.all known.taken (plains trees.now)) }
{
    let number = before + 1;
    let Some((tree, rest)) = trees.split_first() else {
        return Err(fault_at(number, TheoryCode::Form));
    };
    if begins(b"def", tree) {
        let definition = at(number, definition_after(alloc, &known, rest, tree))?;
        let known = with_definition(alloc, known, definition)?;
        after_definitions(alloc, number, known, rest)
    } else {
        let Definitions {
            title,
            all,
            taken,
            ..
        } = known;
        after_inputs(alloc, before, title, all, Names::new(alloc), taken, trees)
    }
}

fn file_from(alloc: Global, trees: &[Tree]) -> Result<TheoryFile, TheoryFault>
    requires { length trees.now + 1 < 2 ^ 32 }
    ensures { Reads plain_file result (file_from (plains trees.now)) }
{
    let Some((tree, rest)) = trees.split_first() else {
        return Err(fault_at(1, TheoryCode::Form));
    };
    let title = at(1, title_form(alloc, tree))?;
    let none = Definitions {
        title,
        all: Defs::new(alloc),
        depths: CallDepths::new(alloc),
        taken: Texts::new(alloc),
    };
    after_definitions(alloc, 1, none, rest)
}

fn read_file(alloc: Global, bytes: &[u8]) -> Result<TheoryFile, TheoryFault>
    ensures { Reads plain_file result (file_reading bytes.now) }
{
    if bytes.len() > MAX_BYTES {
        return Err(TheoryFault {
            form: 0,
            code: TheoryCode::Large,
        });
    }
    match read(alloc, bytes) {
        Ok(forest) => file_from(alloc, forest.as_slice()),
        Err(ReadFault::Memory) => Err(TheoryFault::from(Memory)),
        Err(_) => Err(TheoryFault {
            form: 0,
            code: TheoryCode::Read,
        }),
    }
}

fn theory_from(alloc: Global, bytes: &[u8]) -> Result<Theory, TheoryFault>
    ensures { Reads plain_theory result (theory_reading bytes.now) }
{
    let file = read_file(alloc, bytes)?;
    Ok(theory_of(alloc, file)?)
}

/// The theory that a file spells. Its forms stand in this order:
///
/// - `(theory NAME)`
/// - `(def NAME ((NAME SORT) ..) SORT TERM)`, any number of them: the term lies within the sort, names the parameters alone, and calls
///   definitions that stand before it alone
/// - `(input NAME SORT)`, up to 16 times
/// - `(require TERM)`, a truth value over the inputs
/// - `(axiom NAME ((NAME SORT) ..) (given TERM ..) CONCLUSION)` and `(law NAME ((NAME SORT) ..) (given TERM ..) CONCLUSION (by MOVE ..))`,
///   any number of them, over the inputs and their variables: the conclusion is `(equal TERM TERM)` of terms with a common sort or
///   `(holds TERM)` of a truth value, the conditions are truth values, and no binder stands in any of these terms. The moves prove
///   the law: its facts begin with the input condition and the law's conditions, each move applies, and after them it holds that
///   both sides are equal, or that the term is true. They may use the laws and axioms that stand before the law
/// - `(output NAME SORT)`
/// - `(ensure TERM)`, a truth value over the inputs and the output
/// - `(first NUMBER)`, from 1 to 1,000,000, or none of it where all answers are wanted
///
/// Definitions, inputs, laws, axioms and the output have names that differ from one another and from the variables of the laws and
/// axioms before them. The variables of a law or axiom differ from one another, from its name and from all names before it. The
/// parameters of a definition differ from one another.
///
/// # Errors
///
/// The first form that is refused, by its number from 1, or 0 where it is none, and the first of these codes that applies:
///
/// - `Large`, with form 0: the file has more than 4,194,304 bytes.
/// - `Read`, with form 0: a byte is outside the alphabet, or brackets do not fit or nest more than 250 deep.
/// - `Limit`: it is form 1,025, or begins as an input after 16 inputs, or is a definition whose calls go more than 16 deep.
/// - `Form`: the form is not one that may stand there, or has not its shape, or there is none where one is due.
/// - `Name`: a word that is to be declared is no name, or stands where it must differ.
/// - `Cycle`: a definition calls itself or one of a later form.
/// - `Sort`: a sort that is declared is not allowed, or a term breaks a rule above or has no sort.
/// - `Proof`: a fact that a law's proof begins with is refused, a move does not apply, or the conclusion does not hold after them.
/// - `Memory`, with form 0: memory is wanting. It may come in place of any other answer.
#[tactic(auto, using(crate::proofs::Laws::read_result))]
pub fn read_theory(alloc: Global, bytes: &[u8]) -> Result<Theory, TheoryFault>
    ensures reading { Reads plain_theory result (theory_reading bytes.now) }
    ensures theory { IfOk result (λ t. IsRead (plain_theory t)) }
    ensures spelled { IfOk result (λ t. IsSpelledBy bytes.now (plain_theory t)) }
{
    theory_from(alloc, bytes)
}
