ghost use Rattle.std.specs.Prelude.{◌≡◌};
ghost use Rattle.kid_prog.specs.Formats.{format_number, may_stand, format_for};

/// The format of a program file. Enum sorts and tags stand in files of the second alone.
#[derive(Clone, Copy)]
pub enum Format {
    One,
    Two,
}

impl Format {
    /// The first format in which a program may stand that has tags or has none.
    pub fn with(has_tags: bool) -> Format
        ensures { result ≡ format_for has_tags }
    {
        if has_tags { Format::Two } else { Format::One }
    }

    /// The number that a file of the format names.
    pub fn number(self) -> u32
        ensures { result ≡ format_number self }
    {
        match self {
            Format::One => 1,
            Format::Two => 2,
        }
    }

    /// Whether what has tags, or has none, may stand in a file of the format.
    pub fn takes(self, has_tags: bool) -> bool
        ensures { result ≡ may_stand self has_tags }
    {
        match self {
            Format::One => !has_tags,
            Format::Two => true,
        }
    }
}
