//! How a row of the table is written: a term as its heads from left to right.
use kid_term::Op;

/// A head, which is followed by as many terms as it takes.
#[derive(Clone, Copy)]
pub enum Step {
    Var(u8),
    Int(i64),
    Bool(bool),
    Zero(Op),
    One(Op),
    Two(Op),
    Three(Op),
}

/// A law: its variables, its conditions and its sides.
#[derive(Clone, Copy)]
pub struct Row {
    pub variables: &'static [u8],
    pub conditions: &'static [&'static [Step]],
    pub left: &'static [Step],
    pub right: &'static [Step],
}
