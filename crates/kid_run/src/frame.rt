//! What is left to do in a run.
ghost use Rattle.std.specs.Prelude.{◌≡◌, OnOk};
ghost use Rattle.kid_run.specs.Frames.{kept, keeping, overs, waits, waiting};
ghost use Rattle.kid_run.specs.FrameView.{plain_stmts, members_left, plain_frames};

use crate::read::members;
use kid_eval::Env;
use kid_prog::Stmt;
use kid_value::{Memory, Text, Value};
use std::alloc::Global;

/// The members of a set that are left, from a place on, for each of which the name has it in the body.
#[derive(Drop)]
pub struct Walk<'a> {
    pub name: &'a Text,
    pub set: Value,
    pub next: usize,
    pub body: &'a [Stmt],
    /// How many names of the environment the body sees beside this one.
    pub names: usize,
}

/// What waits until the statements above it are done.
#[derive(Drop)]
pub enum Frame<'a> {
    /// Statements, which see so many names of the environment.
    Rest(&'a [Stmt], usize),
    Each(Walk<'a>),
    /// The environment of the caller, for the frames below.
    Caller(Env<'a>),
}

/// A run that has begun: the statements that are done next, in their environment, and what waits, of which the last is done
/// first.
#[derive(Drop)]
pub struct Machine<'a> {
    pub env: Env<'a>,
    pub stmts: &'a [Stmt],
    pub frames: Vec<Frame<'a>>,
}

/// Lets statements wait, unless there are none.
pub fn keep<'a>(frames: &mut Vec<Frame<'a>>, stmts: &'a [Stmt], names: usize) -> Result<(), Memory>
    ensures { OnOk result (plain_frames frames.new.items ≡ keeping names (plain_stmts stmts.now) (plain_frames frames.old.items)) }
{
    if !stmts.is_empty() {
        frames.push(Frame::Rest(stmts, names))?;
    }
    Ok(())
}

/// Lets the members wait, unless none are left.
pub fn keep_members<'a>(frames: &mut Vec<Frame<'a>>, walk: Walk<'a>) -> Result<(), Memory>
    ensures { OnOk result (plain_frames frames.new.items ≡ overs walk.entry.names walk.entry.name.now (members_left walk.entry) (plain_stmts walk.entry.body.now) (plain_frames frames.old.items)) }
{
    if walk.next < members(&walk.set).len() {
        frames.push(Frame::Each(walk))?;
    }
    Ok(())
}

/// Whether something of the same call waits first.
fn is_waited_for(frames: &[Frame]) -> bool
    ensures { result ≡ waits (plain_frames frames.now) }
{
    match frames.last() {
        None | Some(Frame::Caller(_)) => false,
        Some(_) => true,
    }
}

/// Lets the caller's environment wait, unless nothing of the caller does.
pub fn keep_caller<'a>(frames: &mut Vec<Frame<'a>>, env: Env<'a>) -> Result<(), Memory>
    ensures { OnOk result (plain_frames frames.new.items ≡ waiting env.entry (plain_frames frames.old.items)) }
{
    if is_waited_for(frames) {
        frames.push(Frame::Caller(env))?;
    }
    Ok(())
}

/// Takes names away until there are only so many.
pub fn cut(env: &mut Env, names: usize)
    ensures { env.new ≡ kept names env.old }
{
    while env.len() > names {
        env.pop();
    }
}
