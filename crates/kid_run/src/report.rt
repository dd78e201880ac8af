/// How the run of an input ended.
#[derive(Debug, Clone, Copy, PartialEq, Eq)]
pub enum Outcome {
    /// The run came to its end.
    Done,
    /// More calls would have been begun than the fuel allows.
    Fuel,
    /// The input does not meet the input condition.
    Outside,
}

/// What is reported of an input: how many values were found, 18446744073709551615 where there are more, how many calls of the
/// search procedure were begun, and how the run ended.
#[derive(Debug, Clone, Copy, PartialEq, Eq, Drop)]
pub struct RunEntry {
    pub answers: u64,
    pub splits: u64,
    pub outcome: Outcome,
}

/// An entry for each input, in their order.
#[derive(Drop)]
pub struct Report {
    pub entries: Vec<RunEntry>,
}
