ghost use Rattle.std.specs.Prelude.{◌≡◌, ◌∷◌, ◌++◌, ◌+◌, ◌<◌, ◌^◌, [], suc, IfOk, OnOk, OnErr, length, map, option_map};
ghost use Rattle.kid_sexp.specs.Tree.{plain as plain_tree, plains};
ghost use Rattle.kid_value.specs.NameView.{plain_name};
ghost use Rattle.kid_value.specs.SortView.{plain_sort};
ghost use Rattle.kid_value.specs.ValueView.{plain};
ghost use Rattle.kid_prog.specs.ProgramView.{plain_program};
ghost use Rattle.kid_run.specs.InputReading.{value_from, values_from, input_from, inputs_from, inputs_reading, AllFit, ValueFits, ValuesFit, LaterFit};
ghost use Rattle.kid_run.specs.InputSpelling.{InputsAreSpelled};
ghost use Rattle.kid_run.specs.Gives.{InputsGiven};
ghost use Rattle.kid_run.specs.declared.inputs.InputFault.TheVariants.{Memory as OutOfMemory};

use kid_codec::{CodecFault, value_of};
use kid_prog::Program;
use kid_sexp::{ReadFault, Tree, read};
use kid_value::{Memory, Sort, Text, Value, Values};
use std::alloc::Global;
use std::marker::Model;
use thiserror::Error;

/// A file has no more bytes.
const MAX_FILE: usize = 4194304;

/// The values of a program's inputs, in order, for each run.
#[derive(Drop)]
pub struct Inputs {
    items: Vec<Values>,
}

impl Model for Inputs {
    ghost use Rattle.std.specs.Prelude.{List};
    ghost use Rattle.std.specs.Coded.{coded_list};
    ghost use Rattle.kid_value.specs.PlainValue.{PlainValue};
    ghost use Rattle.kid_value.specs.ValueCode.{coded_values};

    ghost Value = { List (List PlainValue) };

    ghost coded = { coded_list coded_values };

    ghost view = { λ i. i.items.items };
}

impl Inputs {
    /// No inputs. Takes no memory.
    pub fn new(alloc: Global) -> Inputs
        ensures { result ≡ [] }
    {
        Inputs {
            items: Vec::new(alloc),
        }
    }

    /// Adds an input's values at the end.
    ///
    /// # Errors
    ///
    /// Fails where memory is wanting, and then changes nothing.
    pub fn push(&mut self, values: Values) -> Result<(), Memory>
        ensures ok { OnOk result (self.new ≡ self.old ++ values ∷ []) }
        ensures err { OnErr result (self.new ≡ self.old) }
    {
        self.items.push(values)?;
        Ok(())
    }

    /// The inputs in their order.
    pub fn items(&self) -> &[Values]
        ensures { result.now ≡ self.now }
    {
        self.items.as_slice()
    }
}

/// Why inputs are refused: the number of the first form that is none, counted from 1, and 0 where the file as a whole is refused.
#[derive(Debug, Clone, Copy, PartialEq, Eq, Error)]
pub enum InputFault {
    #[error("form {0} is no input")]
    Form(u32),
    #[error("out of memory")]
    Memory,
}

impl From<Memory> for InputFault {
    ghost from_gives = { λ _ fault. fault ≡ OutOfMemory };

    fn from(_error: Memory) -> InputFault {
        InputFault::Memory
    }
}

/// The value of a sort that a tree spells, and None where it spells none.
fn value_from(alloc: Global, sort: &Sort, tree: &Tree) -> Result<Option<Value>, Memory>
    ensures value { IfOk result (λ v. option_map plain v ≡ value_from (plain_sort sort.now) (plain_tree tree.now)) }
    ensures fits { IfOk result (λ v. ValueFits (plain_sort sort.now) (option_map plain v)) }
{
    match value_of(alloc, tree, sort) {
        Ok(value) => {
            value.canonical();
            Ok(Some(value))
        }
        Err(CodecFault::Form) | Err(CodecFault::Sort) => Ok(None),
        Err(CodecFault::Memory) => Err(Memory),
    }
}

/// These values and those that the trees spell for the names.
#[tactic(auto, using(crate::proofs::InputLemmas::input_rules))]
fn values_after(
    alloc: Global,
    mut values: Values,
    names: &[(Text, Sort)],
    trees: &[Tree],
) -> Result<Option<Values>, Memory>
    ensures values { IfOk result (λ v. v ≡ option_map (λ rest. values ++ rest) (values_from (map plain_name names.now) (plains trees.now))) }
    ensures fit { IfOk result (λ v. LaterFit (map plain_name names.now) values v) }
{
    match (names.split_first(), trees.split_first()) {
        (None, None) => Ok(Some(values)),
        (Some((name, names)), Some((tree, trees))) => {
            let Some(value) = value_from(alloc, &name.1, tree)? else {
                return Ok(None);
            };
            values.push(value)?;
            values_after(alloc, values, names, trees)
        }
        _ => Ok(None),
    }
}

/// The values of a list of the inputs' values, and None where the tree is no such list.
#[tactic(auto, using(crate::proofs::InputLemmas::input_rules))]
fn input_from(alloc: Global, names: &[(Text, Sort)], tree: &Tree) -> Result<Option<Values>, Memory>
    ensures values { IfOk result (λ v. v ≡ input_from (map plain_name names.now) (plain_tree tree.now)) }
    ensures fit { IfOk result (λ v. ValuesFit (map plain_name names.now) v) }
{
    match tree {
        Tree::Atom(_) => Ok(None),
        Tree::List(trees) => values_after(alloc, Values::new(alloc), names, trees.as_slice()),
    }
}

/// The number of the form that so many stand before.
fn number(before: usize) -> u32
    requires { before + 1 < 2 ^ 32 }
    ensures { result ≡ suc before }
{
    before as u32 + 1
}

#[tactic(auto, using(crate::proofs::InputLemmas::input_rules))]
fn inputs_from(alloc: Global, names: &[(Text, Sort)], trees: &[Tree]) -> Result<Inputs, InputFault>
    requires { length trees.now + 1 < 2 ^ 32 }
    ensures reading { InputsGiven result (inputs_from (map plain_name names.now) 0 (plains trees.now)) }
    ensures fit { IfOk result (λ inputs. AllFit (map plain_name names.now) inputs) }
{
    let mut inputs = Inputs::new(alloc);
    for (before, tree) in trees.iter().enumerate() {
        let Some(values) = input_from(alloc, names, tree)? else {
            return Err(InputFault::Form(number(before)));
        };
        inputs.push(values)?;
    }
    Ok(inputs)
}

fn read_all(alloc: Global, names: &[(Text, Sort)], bytes: &[u8]) -> Result<Inputs, InputFault>
    ensures reading { InputsGiven result (inputs_reading (map plain_name names.now) bytes.now) }
    ensures fit { IfOk result (λ inputs. AllFit (map plain_name names.now) inputs) }
{
    if bytes.len() > MAX_FILE {
        return Err(InputFault::Form(0));
    }
    match read(alloc, bytes) {
        Ok(forest) => inputs_from(alloc, names, forest.as_slice()),
        Err(ReadFault::Memory) => Err(InputFault::Memory),
        Err(_) => Err(InputFault::Form(0)),
    }
}

/// The inputs that a file spells: a list for each, with a value of each of the program's inputs in order.
///
/// # Errors
///
/// `Form`: the number of the first form that is no such list, counted from 1, and 0 where the text does not read or has more
/// than 4194304 bytes. `Memory`: memory is wanting.
#[tactic(auto, using(crate::proofs::InputsTold::spelled_result))]
pub fn read_inputs(alloc: Global, program: &Program, bytes: &[u8]) -> Result<Inputs, InputFault>
    ensures reading { InputsGiven result (inputs_reading (plain_program program.now).inputs bytes.now) }
    ensures fit { IfOk result (λ inputs. AllFit (plain_program program.now).inputs inputs) }
    ensures spelled { IfOk result (λ inputs. InputsAreSpelled (plain_program program.now).inputs bytes.now inputs) }
{
    read_all(alloc, program.signature.inputs(), bytes)
}
