use thiserror::Error;

/// Why a step is refused.
#[derive(Debug, Clone, Copy, PartialEq, Eq, Error)]
pub enum Why {
    #[error("memory")]
    Memory,
    #[error("large")]
    Large,
    #[error("read")]
    Read,
    #[error("form")]
    Form,
    #[error("order")]
    Order,
    #[error("outside")]
    Outside,
    #[error("name-taken")]
    NameTaken,
    #[error("not-free")]
    NotFree,
    #[error("cut-form")]
    CutForm,
    #[error("forms")]
    Forms,
    #[error("not-refinable")]
    NotRefinable,
    #[error("no-path")]
    NoPath,
    #[error("unknown-law")]
    UnknownLaw,
    #[error("no-match")]
    NoMatch,
    #[error("capture")]
    Capture,
    #[error("condition {0}")]
    Condition(u32),
    #[error("ill-sorted")]
    IllSorted,
    #[error("limit")]
    Limit,
    #[error("goal")]
    Goal,
    #[error("budget")]
    Budget,
    #[error("many")]
    Many,
}
