//! The environments of a run.
ghost use Rattle.std.specs.Prelude.{◌≡◌, ◌++◌, OnOk, map, length};
ghost use Rattle.kid_value.specs.NameView.{plain_name};
ghost use Rattle.kid_value.specs.ValueView.{plain};
ghost use Rattle.kid_term.specs.Eval.{bound};
ghost use Rattle.kid_prog.specs.ProgramView.{plain_program};

use kid_eval::Env;
use kid_prog::Program;
use kid_value::{Memory, Sort, Text, Value};
use std::alloc::Global;

/// Puts names with their values inside the others, of which the first is innermost. There are as many values as names.
pub fn push_all<'a>(
    env: &mut Env<'a>,
    names: &'a [(Text, Sort)],
    mut values: Vec<Value>,
) -> Result<(), Memory>
    requires { length values.items ≡ length names.now }
    ensures { OnOk result (env.new ≡ bound (map plain_name names.now) (map plain values.items) ++ env.old) }
{
    let mut rest = names;
    while let Some(value) = values.pop() {
        let Some((name, earlier)) = rest.split_last() else {
            return Ok(());
        };
        env.push(&name.0, value)?;
        rest = earlier;
    }
    Ok(())
}

/// The names of a program's inputs, lent with these values. Takes no memory.
pub fn input_env<'a>(alloc: Global, program: &'a Program, inputs: &'a [Value]) -> Env<'a>
    ensures { result ≡ bound (plain_program program.now).inputs (map plain inputs.now) }
{
    Env::over(alloc, program.signature.inputs(), inputs)
}
