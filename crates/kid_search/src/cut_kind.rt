/// How a cut changes a descriptor.
#[derive(Clone, Copy, Debug, PartialEq, Eq)]
pub enum CutKind {
    /// Members that no answer has leave those that are left to choose.
    Drop,
    /// Members that every answer has are taken at once.
    Take,
    /// What is left to choose from becomes less: the items of a sequence, or the values of each key.
    Pool,
    /// The least number rises.
    Low,
    /// The greatest number falls.
    High,
}
