/// The form in which a parameter is kept.
#[derive(Clone, Copy, Debug, PartialEq, Eq)]
pub enum RefineForm {
    /// A set as the bits of a word.
    Bits,
    /// A map as a row.
    Row,
}
