//! The words of the operators and of the binders.
ghost use Rattle.std.specs.Prelude.{◌≡◌, Some, IfSome};
ghost use Rattle.kid_codec.specs.Word.{logic_word, number_word, pair_word, set_word, seq_word, map_word, word_operator_word, operator_word, binder_word, first_with, op_of, binder_of};
ghost use Rattle.kid_codec.specs.Takes.{logic_takes, number_takes, pair_takes, set_takes, seq_takes, map_takes, word_operator_takes, takes, word_operator_numbers, numbers_first};

use kid_term::{Binder, LogicOp, MapOp, NumberOp, Op, PairOp, SeqOp, SetOp, WordOp};
use kid_value::Text;

/// Each operator.
pub const OPERATORS: [Op; 62] = [
    Op::Logic(LogicOp::Not),
    Op::Logic(LogicOp::And),
    Op::Logic(LogicOp::Or),
    Op::Logic(LogicOp::Implies),
    Op::Logic(LogicOp::If),
    Op::Logic(LogicOp::Eq),
    Op::Number(NumberOp::Le),
    Op::Number(NumberOp::Lt),
    Op::Number(NumberOp::Add),
    Op::Number(NumberOp::Sub),
    Op::Number(NumberOp::Neg),
    Op::Number(NumberOp::Mul),
    Op::Number(NumberOp::Div),
    Op::Number(NumberOp::Mod),
    Op::Number(NumberOp::Min),
    Op::Number(NumberOp::Max),
    Op::Pair(PairOp::Pair),
    Op::Pair(PairOp::Fst),
    Op::Pair(PairOp::Snd),
    Op::Set(SetOp::Set),
    Op::Set(SetOp::Range),
    Op::Set(SetOp::In),
    Op::Set(SetOp::Subset),
    Op::Set(SetOp::Union),
    Op::Set(SetOp::With),
    Op::Set(SetOp::Inter),
    Op::Set(SetOp::Diff),
    Op::Set(SetOp::Without),
    Op::Set(SetOp::Card),
    Op::Set(SetOp::Sum),
    Op::Set(SetOp::Least),
    Op::Seq(SeqOp::Seq),
    Op::Seq(SeqOp::Len),
    Op::Seq(SeqOp::At),
    Op::Seq(SeqOp::Snoc),
    Op::Seq(SeqOp::Rest),
    Op::Seq(SeqOp::Items),
    Op::Seq(SeqOp::Total),
    Op::Seq(SeqOp::Prefix),
    Op::Map(MapOp::Map),
    Op::Map(MapOp::Dom),
    Op::Map(MapOp::Ran),
    Op::Map(MapOp::Get),
    Op::Map(MapOp::Put),
    Op::Map(MapOp::Drop),
    Op::Map(MapOp::Fill),
    Op::Map(MapOp::Submap),
    Op::Map(MapOp::Fits),
    Op::Map(MapOp::Narrow),
    Op::Word(WordOp::Wenc),
    Op::Word(WordOp::Wdec),
    Op::Word(WordOp::Wor),
    Op::Word(WordOp::Wand),
    Op::Word(WordOp::Wnot),
    Op::Word(WordOp::Wcard),
    Op::Word(WordOp::Win),
    Op::Word(WordOp::Wleast),
    Op::Word(WordOp::Renc),
    Op::Word(WordOp::Rdec),
    Op::Word(WordOp::Rget),
    Op::Word(WordOp::Rput),
    Op::Word(WordOp::Rdrop),
];

/// Each binder.
pub const BINDERS: [Binder; 5] = [
    Binder::All,
    Binder::Some,
    Binder::SetOf,
    Binder::Image,
    Binder::SumOf,
];

fn logic_word(op: LogicOp) -> &'static [u8]
    ensures { result.now ≡ logic_word op }
{
    match op {
        LogicOp::Not => b"not",
        LogicOp::And => b"and",
        LogicOp::Or => b"or",
        LogicOp::Implies => b"implies",
        LogicOp::If => b"if",
        LogicOp::Eq => b"eq",
    }
}

fn number_word(op: NumberOp) -> &'static [u8]
    ensures { result.now ≡ number_word op }
{
    match op {
        NumberOp::Le => b"le",
        NumberOp::Lt => b"lt",
        NumberOp::Add => b"add",
        NumberOp::Sub => b"sub",
        NumberOp::Neg => b"neg",
        NumberOp::Mul => b"mul",
        NumberOp::Div => b"div",
        NumberOp::Mod => b"mod",
        NumberOp::Min => b"min",
        NumberOp::Max => b"max",
    }
}

fn pair_word(op: PairOp) -> &'static [u8]
    ensures { result.now ≡ pair_word op }
{
    match op {
        PairOp::Pair => b"pair",
        PairOp::Fst => b"fst",
        PairOp::Snd => b"snd",
    }
}

fn set_word(op: SetOp) -> &'static [u8]
    ensures { result.now ≡ set_word op }
{
    match op {
        SetOp::Set => b"set",
        SetOp::Range => b"range",
        SetOp::In => b"in",
        SetOp::Subset => b"subset",
        SetOp::Union => b"union",
        SetOp::With => b"with",
        SetOp::Inter => b"inter",
        SetOp::Diff => b"diff",
        SetOp::Without => b"without",
        SetOp::Card => b"card",
        SetOp::Sum => b"sum",
        SetOp::Least => b"least",
    }
}

fn seq_word(op: SeqOp) -> &'static [u8]
    ensures { result.now ≡ seq_word op }
{
    match op {
        SeqOp::Seq => b"seq",
        SeqOp::Len => b"len",
        SeqOp::At => b"at",
        SeqOp::Snoc => b"snoc",
        SeqOp::Rest => b"rest",
        SeqOp::Items => b"items",
        SeqOp::Total => b"total",
        SeqOp::Prefix => b"prefix",
    }
}

fn map_word(op: MapOp) -> &'static [u8]
    ensures { result.now ≡ map_word op }
{
    match op {
        MapOp::Map => b"map",
        MapOp::Dom => b"dom",
        MapOp::Ran => b"ran",
        MapOp::Get => b"get",
        MapOp::Put => b"put",
        MapOp::Drop => b"drop",
        MapOp::Fill => b"fill",
        MapOp::Submap => b"submap",
        MapOp::Fits => b"fits",
        MapOp::Narrow => b"narrow",
    }
}

fn word_operator_word(op: WordOp) -> &'static [u8]
    ensures { result.now ≡ word_operator_word op }
{
    match op {
        WordOp::Wenc => b"wenc",
        WordOp::Wdec => b"wdec",
        WordOp::Wor => b"wor",
        WordOp::Wand => b"wand",
        WordOp::Wnot => b"wnot",
        WordOp::Wcard => b"wcard",
        WordOp::Win => b"win",
        WordOp::Wleast => b"wleast",
        WordOp::Renc => b"renc",
        WordOp::Rdec => b"rdec",
        WordOp::Rget => b"rget",
        WordOp::Rput => b"rput",
        WordOp::Rdrop => b"rdrop",
    }
}

/// The word of an operator. Reading it gives the operator back.
pub fn operator_word(op: Op) -> &'static [u8]
    ensures word { result.now ≡ operator_word op }
    ensures back { op_of result.now ≡ Some op }
{
    match op {
        Op::Logic(op) => logic_word(op),
        Op::Number(op) => number_word(op),
        Op::Pair(op) => pair_word(op),
        Op::Set(op) => set_word(op),
        Op::Seq(op) => seq_word(op),
        Op::Map(op) => map_word(op),
        Op::Word(op) => word_operator_word(op),
    }
}

fn word_of_binder(binder: Binder) -> &'static [u8]
    ensures { result.now ≡ binder_word binder }
{
    match binder {
        Binder::All => b"all",
        Binder::Some => b"some",
        Binder::SetOf => b"setof",
        Binder::Image => b"image",
        Binder::SumOf => b"sumof",
    }
}

/// The word of a binder. Reading it gives the binder back.
pub fn binder_word(binder: Binder) -> &'static [u8]
    ensures word { result.now ≡ binder_word binder }
    ensures back { binder_of result.now ≡ Some binder }
{
    word_of_binder(binder)
}

fn op_among(ops: &[Op], word: &Text) -> Option<Op>
    ensures { result ≡ first_with operator_word ops.now word.now }
{
    for op in ops {
        if word.is(operator_word(*op)) {
            return Some(*op);
        }
    }
    None
}

fn binder_among(binders: &[Binder], word: &Text) -> Option<Binder>
    ensures { result ≡ first_with binder_word binders.now word.now }
{
    for binder in binders {
        if word.is(binder_word(*binder)) {
            return Some(*binder);
        }
    }
    None
}

/// The operator of a word, or `None` where the word is no operator's.
#[tactic(auto, unfolding(crate::specs::Word::op_of))]
pub fn op_of(word: &Text) -> Option<Op>
    ensures found { result ≡ op_of word.now }
    ensures word { IfSome result (λ op. word.now ≡ operator_word op) }
{
    op_among(&OPERATORS, word)
}

/// The binder of a word, or `None` where the word is no binder's.
#[tactic(auto, unfolding(crate::specs::Word::binder_of))]
pub fn binder_of(word: &Text) -> Option<Binder>
    ensures found { result ≡ binder_of word.now }
    ensures word { IfSome result (λ binder. word.now ≡ binder_word binder) }
{
    binder_among(&BINDERS, word)
}

fn logic_takes(op: LogicOp, count: usize) -> bool
    ensures { result ≡ logic_takes op count }
{
    match op {
        LogicOp::Not => count == 1,
        LogicOp::If => count == 3,
        _ => count == 2,
    }
}

fn number_takes(op: NumberOp, count: usize) -> bool
    ensures { result ≡ number_takes op count }
{
    match op {
        NumberOp::Neg => count == 1,
        _ => count == 2,
    }
}

fn pair_takes(op: PairOp, count: usize) -> bool
    ensures { result ≡ pair_takes op count }
{
    match op {
        PairOp::Pair => count == 2,
        PairOp::Fst | PairOp::Snd => count == 1,
    }
}

fn set_takes(op: SetOp, count: usize) -> bool
    ensures { result ≡ set_takes op count }
{
    match op {
        SetOp::Set => true,
        SetOp::Card | SetOp::Sum => count == 1,
        _ => count == 2,
    }
}

fn seq_takes(op: SeqOp, count: usize) -> bool
    ensures { result ≡ seq_takes op count }
{
    match op {
        SeqOp::Seq => true,
        SeqOp::Len | SeqOp::Items | SeqOp::Total => count == 1,
        SeqOp::At => count == 3,
        _ => count == 2,
    }
}

fn map_takes(op: MapOp, count: usize) -> bool
    ensures { result ≡ map_takes op count }
{
    match op {
        MapOp::Map => count == 0,
        MapOp::Dom | MapOp::Ran => count == 1,
        MapOp::Get | MapOp::Put => count == 3,
        _ => count == 2,
    }
}

fn word_operator_takes(op: WordOp, count: usize) -> bool
    ensures { result ≡ word_operator_takes op count }
{
    match op {
        WordOp::Wcard => count == 1,
        WordOp::Wor | WordOp::Wand | WordOp::Wnot | WordOp::Rdec => count == 2,
        WordOp::Rget | WordOp::Rput => count == 4,
        _ => count == 3,
    }
}

/// Whether an operator takes so many arguments. `set` and `seq` take any number, and each other operator one number only.
pub fn takes(op: Op, count: usize) -> bool
    ensures { result ≡ takes op count }
{
    match op {
        Op::Logic(op) => logic_takes(op, count),
        Op::Number(op) => number_takes(op, count),
        Op::Pair(op) => pair_takes(op, count),
        Op::Set(op) => set_takes(op, count),
        Op::Seq(op) => seq_takes(op, count),
        Op::Map(op) => map_takes(op, count),
        Op::Word(op) => word_operator_takes(op, count),
    }
}

fn word_operator_numbers(op: WordOp) -> usize
    ensures { result ≡ word_operator_numbers op }
{
    match op {
        WordOp::Wenc | WordOp::Wdec | WordOp::Renc => 2,
        WordOp::Wor | WordOp::Wand | WordOp::Wnot | WordOp::Wcard => 0,
        _ => 1,
    }
}

/// How many arguments of an operator, which stand first, are written as numbers.
pub fn numbers_first(op: Op) -> usize
    ensures { result ≡ numbers_first op }
{
    match op {
        Op::Word(op) => word_operator_numbers(op),
        _ => 0,
    }
}
