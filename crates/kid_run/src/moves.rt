//! One step of a run.
ghost use Rattle.std.specs.Prelude.{◌≡◌, true, IfOk, map};
ghost use Rattle.kid_value.specs.ValueView.{plain};
ghost use Rattle.kid_term.specs.PlainTerm.{term_row};
ghost use Rattle.kid_term.specs.TermView.{plain_term};
ghost use Rattle.kid_term.specs.Eval.{eval as value, evals, calls_of};
ghost use Rattle.kid_term.specs.Small.{StaysSmall, all_stay_small, checks_of};
ghost use Rattle.kid_prog.specs.PlainStmt.{assign, when, each, call, no_stmt};
ghost use Rattle.kid_prog.specs.ProgramView.{plain_program};
ghost use Rattle.kid_prog.specs.Rules.{IsRunnable};
ghost use Rattle.kid_prog.specs.StmtView.{plain_stmt};
ghost use Rattle.kid_run.specs.Frames.{next_of, below, first, step as step_of};
ghost use Rattle.kid_run.specs.FrameView.{plain_machine, plain_stmts, members_left, plain_frames};
ghost use Rattle.kid_run.specs.MoveView.{plain_move, CanDo};
ghost use Rattle.kid_run.specs.Scope.{MachineCanRun};

use crate::frame::{Frame, Machine, Walk, cut, keep, keep_members};
use crate::read::{is_true, members};
use kid_eval::{Env, eval};
use kid_prog::{Program, Stmt};
use kid_term::Term;
use kid_value::{Memory, Text, Value};
use std::alloc::Global;

/// What a step comes to.
#[derive(Drop)]
pub enum Move {
    /// The run goes on.
    Goes,
    /// A value is found, and the run goes on.
    Finds(Value),
    /// A call with these arguments is to be begun.
    Calls(Vec<Value>),
    /// Nothing is left.
    Ends,
}

/// The value of a term of the program.
pub fn value_of(alloc: Global, program: &Program, env: &Env, term: &Term) -> Result<Value, Memory>
    requires { StaysSmall (plain_program program.now).definitions env.now (plain_term term.now) }
    ensures { IfOk result (λ v. plain v ≡ value (calls_of (plain_program program.now).definitions) env.now (plain_term term.now)) }
{
    eval(alloc, program.signature.defs(), env, term)
}

/// The values of terms of the program.
fn values_of(
    alloc: Global,
    program: &Program,
    env: &Env,
    terms: &[Term],
) -> Result<Vec<Value>, Memory>
    requires { all_stay_small (calls_of (plain_program program.now).definitions) (checks_of (plain_program program.now).definitions) env.now (term_row (map plain_term terms.now)) ≡ true }
    ensures { IfOk result (λ vs. map plain vs.items ≡ evals (calls_of (plain_program program.now).definitions) env.now (term_row (map plain_term terms.now))) }
{
    let mut values = Vec::new(alloc);
    for term in terms {
        let value = value_of(alloc, program, env, term)?;
        values.push(value)?;
    }
    Ok(values)
}

fn assign<'a>(
    alloc: Global,
    program: &Program,
    machine: &mut Machine<'a>,
    name: &'a Text,
    term: &Term,
) -> Result<Move, Memory>
    requires runs { IsRunnable (plain_program program.now) }
    requires can { CanDo (plain_program program.now) (assign name.now (plain_term term.now)) (plain_machine machine.old) }
    ensures { IfOk result (λ m. plain_move m (plain_machine machine.new) ≡ first (calls_of (plain_program program.now).definitions) (assign name.now (plain_term term.now)) (plain_machine machine.old)) }
{
    let value = value_of(alloc, program, &machine.env, term)?;
    machine.env.push(name, value)?;
    Ok(Move::Goes)
}

fn begin_if<'a>(
    alloc: Global,
    program: &Program,
    machine: &mut Machine<'a>,
    term: &Term,
    body: &'a [Stmt],
) -> Result<Move, Memory>
    requires runs { IsRunnable (plain_program program.now) }
    requires can { CanDo (plain_program program.now) (when (plain_term term.now) (plain_stmts body.now)) (plain_machine machine.old) }
    ensures { IfOk result (λ m. plain_move m (plain_machine machine.new) ≡ first (calls_of (plain_program program.now).definitions) (when (plain_term term.now) (plain_stmts body.now)) (plain_machine machine.old)) }
{
    let truth = value_of(alloc, program, &machine.env, term)?;
    if is_true(&truth) {
        keep(&mut machine.frames, machine.stmts, machine.env.len())?;
        machine.stmts = body;
    }
    Ok(Move::Goes)
}

fn begin_for<'a>(
    alloc: Global,
    program: &Program,
    machine: &mut Machine<'a>,
    name: &'a Text,
    term: &Term,
    body: &'a [Stmt],
) -> Result<Move, Memory>
    requires runs { IsRunnable (plain_program program.now) }
    requires can { CanDo (plain_program program.now) (each name.now (plain_term term.now) (plain_stmts body.now)) (plain_machine machine.old) }
    ensures { IfOk result (λ m. plain_move m (plain_machine machine.new) ≡ first (calls_of (plain_program program.now).definitions) (each name.now (plain_term term.now) (plain_stmts body.now)) (plain_machine machine.old)) }
{
    let set = value_of(alloc, program, &machine.env, term)?;
    let names = machine.env.len();
    keep(&mut machine.frames, machine.stmts, names)?;
    machine.stmts = &[];
    let walk = Walk {
        name,
        set,
        next: 0,
        body,
        names,
    };
    keep_members(&mut machine.frames, walk)?;
    Ok(Move::Goes)
}

/// Does a statement, which stands before those of the machine.
fn execute<'a>(
    alloc: Global,
    program: &Program,
    machine: &mut Machine<'a>,
    stmt: &'a Stmt,
) -> Result<Move, Memory>
    requires runs { IsRunnable (plain_program program.now) }
    requires can { CanDo (plain_program program.now) (plain_stmt stmt.now) (plain_machine machine.old) }
    ensures { IfOk result (λ m. plain_move m (plain_machine machine.new) ≡ first (calls_of (plain_program program.now).definitions) (plain_stmt stmt.now) (plain_machine machine.old)) }
{
    match stmt {
        Stmt::Let(name, term) => assign(alloc, program, machine, name, term),
        Stmt::If(term, body) => begin_if(alloc, program, machine, term, body.items()),
        Stmt::For(name, term, body) => begin_for(alloc, program, machine, name, term, body.items()),
        Stmt::Emit(term) => Ok(Move::Finds(value_of(alloc, program, &machine.env, term)?)),
        Stmt::Call(terms) => Ok(Move::Calls(values_of(
            alloc,
            program,
            &machine.env,
            terms.items(),
        )?)),
    }
}

/// Begins the body at the next member, in the environment without the names that the body put last.
fn next_member<'a>(
    alloc: Global,
    machine: &mut Machine<'a>,
    mut walk: Walk<'a>,
) -> Result<Move, Memory>
    ensures { IfOk result (λ m. plain_move m (plain_machine machine.new) ≡ next_of walk.entry.names walk.entry.name.now (members_left walk.entry) (plain_stmts walk.entry.body.now) (plain_machine machine.old)) }
{
    let Some(member) = members(&walk.set).get(walk.next) else {
        return Ok(Move::Goes);
    };
    machine.env.push(walk.name, member.copy(alloc)?)?;
    machine.stmts = walk.body;
    walk.next += 1;
    keep_members(&mut machine.frames, walk)?;
    Ok(Move::Goes)
}

/// Goes on with what waits, where no statements are left.
fn resume<'a>(alloc: Global, machine: &mut Machine<'a>) -> Result<Move, Memory>
    requires { plain_stmts machine.old.stmts.now ≡ no_stmt }
    ensures { IfOk result (λ m. plain_move m (plain_machine machine.new) ≡ below machine.old.env (plain_frames machine.old.frames.items)) }
{
    match machine.frames.pop() {
        None => Ok(Move::Ends),
        Some(Frame::Rest(stmts, names)) => {
            cut(&mut machine.env, names);
            machine.stmts = stmts;
            Ok(Move::Goes)
        }
        Some(Frame::Each(walk)) => {
            cut(&mut machine.env, walk.names);
            next_member(alloc, machine, walk)
        }
        Some(Frame::Caller(env)) => {
            machine.env = env;
            Ok(Move::Goes)
        }
    }
}

/// One step: the first statement, or what waits where none is left.
pub fn step<'a>(alloc: Global, program: &Program, machine: &mut Machine<'a>) -> Result<Move, Memory>
    requires runs { IsRunnable (plain_program program.now) }
    requires can { MachineCanRun (plain_program program.now) (plain_machine machine.old) }
    ensures { IfOk result (λ m. plain_move m (plain_machine machine.new) ≡ step_of (calls_of (plain_program program.now).definitions) (plain_machine machine.old)) }
{
    match machine.stmts.split_first() {
        None => resume(alloc, machine),
        Some((stmt, rest)) => {
            machine.stmts = rest;
            execute(alloc, program, machine, stmt)
        }
    }
}
