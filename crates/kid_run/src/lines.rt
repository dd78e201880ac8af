//! The lines of a run.
ghost use Rattle.std.specs.Prelude.{◌≡◌, true, IfOk};
ghost use Rattle.std.specs.String.{string_bytes};
ghost use Rattle.kid_value.specs.ValueView.{plain};
ghost use Rattle.kid_codec.specs.ValueSpelling.{is_spelled_value};
ghost use Rattle.kid_run.specs.Lines.{value_line, closing_line, fuel_line, outside_line};

use kid_codec::value_tree;
use kid_sexp::{Forest, PrintFault, print};
use kid_value::{Memory, Text, Value};
use std::alloc::{AllocError, Global};

/// The line of a value.
pub fn value_line(alloc: Global, value: &Value) -> Result<Text, Memory>
    requires { is_spelled_value (plain value.now) ≡ true }
    ensures { IfOk result (λ line. line ≡ value_line (plain value.now)) }
{
    let mut trees = Forest::new(alloc);
    trees.push(value_tree(alloc, value)?)?;
    match print(alloc, &trees) {
        Ok(line) => Ok(Text::from_slice(alloc, line.as_slice())?),
        Err(PrintFault::Memory) => Err(Memory),
    }
}

fn closing_text(alloc: Global, answers: u64, splits: u64) -> Result<String, AllocError>
    ensures { IfOk result (λ line. string_bytes line ≡ closing_line answers splits) }
{
    let mut line = String::from_str(alloc, "(answers ")?;
    let answers = answers.to_string(alloc)?;
    line.push_str(answers.as_str())?;
    line.push_str(" splits ")?;
    let splits = splits.to_string(alloc)?;
    line.push_str(splits.as_str())?;
    line.push_str(")\n")?;
    Ok(line)
}

/// The line that closes a run which came to its end.
pub fn closing_line(alloc: Global, answers: u64, splits: u64) -> Result<Text, Memory>
    ensures { IfOk result (λ line. line ≡ closing_line answers splits) }
{
    let text = closing_text(alloc, answers, splits)?;
    Ok(Text::from_slice(alloc, text.as_bytes())?)
}

fn fuel_text(alloc: Global, fuel: u64) -> Result<String, AllocError>
    ensures { IfOk result (λ line. string_bytes line ≡ fuel_line fuel) }
{
    let mut line = String::from_str(alloc, "(fuel ")?;
    let fuel = fuel.to_string(alloc)?;
    line.push_str(fuel.as_str())?;
    line.push_str(")\n")?;
    Ok(line)
}

/// The line that closes a run whose fuel ran out.
pub fn fuel_line(alloc: Global, fuel: u64) -> Result<Text, Memory>
    ensures { IfOk result (λ line. line ≡ fuel_line fuel) }
{
    let text = fuel_text(alloc, fuel)?;
    Ok(Text::from_slice(alloc, text.as_bytes())?)
}

/// The line of an input that does not meet the input condition.
pub fn outside_line(alloc: Global) -> Result<Text, Memory>
    ensures { IfOk result (λ line. line ≡ outside_line) }
{
    Ok(Text::from_slice(alloc, b"(outside)\n")?)
}
