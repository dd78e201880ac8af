//! The words that stand at the head of a term.

/// An operator on truth values.
#[derive(Clone, Copy, Debug, PartialEq, Eq)]
pub enum LogicOp {
    Not,
    And,
    Or,
    Implies,
    If,
    Eq,
}

/// An operator on integers.
#[derive(Clone, Copy, Debug, PartialEq, Eq)]
pub enum NumberOp {
    Le,
    Lt,
    Add,
    Sub,
    Neg,
    Mul,
    Div,
    Mod,
    Min,
    Max,
}

/// An operator on pairs.
#[derive(Clone, Copy, Debug, PartialEq, Eq)]
pub enum PairOp {
    Pair,
    Fst,
    Snd,
}

/// An operator on sets.
#[derive(Clone, Copy, Debug, PartialEq, Eq)]
pub enum SetOp {
    Set,
    Range,
    In,
    Subset,
    Union,
    With,
    Inter,
    Diff,
    Without,
    Card,
    Sum,
    Least,
}

/// An operator on sequences.
#[derive(Clone, Copy, Debug, PartialEq, Eq)]
pub enum SeqOp {
    Seq,
    Len,
    At,
    Snoc,
    Rest,
    Items,
    Total,
    Prefix,
}

/// An operator on maps.
#[derive(Clone, Copy, Debug, PartialEq, Eq)]
pub enum MapOp {
    Map,
    Dom,
    Ran,
    Get,
    Put,
    Drop,
    Fill,
    Submap,
    Fits,
    Narrow,
}

/// An operator on words and rows.
#[derive(Clone, Copy, Debug, PartialEq, Eq)]
pub enum WordOp {
    Wenc,
    Wdec,
    Wor,
    Wand,
    Wnot,
    Wcard,
    Win,
    Wleast,
    Renc,
    Rdec,
    Rget,
    Rput,
    Rdrop,
}

/// An operator, by its group.
#[derive(Clone, Copy, Debug, PartialEq, Eq)]
pub enum Op {
    Logic(LogicOp),
    Number(NumberOp),
    Pair(PairOp),
    Set(SetOp),
    Seq(SeqOp),
    Map(MapOp),
    Word(WordOp),
}

/// What a binder makes of its body's values over a set.
#[derive(Clone, Copy, Debug, PartialEq, Eq)]
pub enum Binder {
    All,
    Some,
    SetOf,
    Image,
    SumOf,
}
