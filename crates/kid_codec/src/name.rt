ghost use Rattle.std.specs.Prelude.{◌≡◌, map};
ghost use Rattle.std.specs.List.{list_all};
ghost use Rattle.kid_value.specs.NameSet.{is_among};
ghost use Rattle.kid_codec.specs.Name.{is_letter, is_name_byte, is_digit, starts_rule, is_rule_number, is_reserved, starts_with_letter, is_name};

/// A name has no more bytes.
pub const MAX_NAME: usize = 32;

/// Words that are no names.
pub const RESERVED: [&[u8]; 113] = [
    b"not",
    b"and",
    b"or",
    b"implies",
    b"if",
    b"eq",
    b"le",
    b"lt",
    b"add",
    b"sub",
    b"neg",
    b"mul",
    b"div",
    b"mod",
    b"min",
    b"max",
    b"pair",
    b"fst",
    b"snd",
    b"set",
    b"range",
    b"in",
    b"subset",
    b"union",
    b"with",
    b"inter",
    b"diff",
    b"without",
    b"card",
    b"sum",
    b"least",
    b"seq",
    b"len",
    b"at",
    b"snoc",
    b"rest",
    b"items",
    b"total",
    b"prefix",
    b"map",
    b"dom",
    b"ran",
    b"get",
    b"put",
    b"drop",
    b"fill",
    b"submap",
    b"fits",
    b"narrow",
    b"cast",
    b"all",
    b"some",
    b"setof",
    b"image",
    b"sumof",
    b"wenc",
    b"wdec",
    b"wor",
    b"wand",
    b"wnot",
    b"wcard",
    b"win",
    b"wleast",
    b"renc",
    b"rdec",
    b"rget",
    b"rput",
    b"rdrop",
    b"true",
    b"false",
    b"bool",
    b"int",
    b"theory",
    b"def",
    b"input",
    b"require",
    b"law",
    b"axiom",
    b"given",
    b"equal",
    b"holds",
    b"by",
    b"output",
    b"ensure",
    b"program",
    b"main",
    b"search",
    b"let",
    b"for",
    b"emit",
    b"call",
    b"match",
    b"filter",
    b"cut",
    b"simplify",
    b"maintain",
    b"refine",
    b"left",
    b"right",
    b"join",
    b"again",
    b"have",
    b"copy",
    b"back",
    b"normal",
    b"closure",
    b"want",
    b"unfold",
    b"fold",
    b"compute",
    b"use",
    b"fails",
    b"uncast",
];

fn is_letter(byte: u8) -> bool
    ensures { result ≡ is_letter byte }
{
    b'a' <= byte && byte <= b'z'
}

fn is_digit(byte: u8) -> bool
    ensures { result ≡ is_digit byte }
{
    b'0' <= byte && byte <= b'9'
}

fn is_name_byte(byte: u8) -> bool
    ensures { result ≡ is_name_byte byte }
{
    is_letter(byte) || is_digit(byte) || byte == b'-'
}

fn are_digits(bytes: &[u8]) -> bool
    ensures { result ≡ list_all is_digit bytes.now }
{
    bytes.iter().all(|byte| is_digit(*byte))
}

fn are_name_bytes(bytes: &[u8]) -> bool
    ensures { result ≡ list_all is_name_byte bytes.now }
{
    bytes.iter().all(|byte| is_name_byte(*byte))
}

fn is_among(word: &[u8], words: &[&[u8]]) -> bool
    ensures { result ≡ is_among word.now (map (λ w. w.now) words.now) }
{
    for other in words {
        if word == *other {
            return true;
        }
    }
    false
}

fn starts_rule(byte: u8) -> bool
    ensures { result ≡ starts_rule byte }
{
    byte == b'e' || byte == b'm' || byte == b'b'
}

/// One of the letters e, m and b before digits.
fn is_rule_number(word: &[u8]) -> bool
    ensures { result ≡ is_rule_number word.now }
{
    match word.split_first() {
        None => false,
        Some((first, digits)) => { starts_rule(*first) && !digits.is_empty() && are_digits(digits) }
    }
}

#[tactic(auto, unfolding(crate::specs::Name::is_reserved))]
fn is_reserved(word: &[u8]) -> bool
    ensures { result ≡ is_reserved word.now }
{
    is_among(word, &RESERVED) || is_rule_number(word)
}

fn starts_with_letter(word: &[u8]) -> bool
    ensures { result ≡ starts_with_letter word.now }
{
    match word.first() {
        None => false,
        Some(first) => is_letter(*first),
    }
}

/// Whether the word is a name.
pub fn is_name(word: &[u8]) -> bool
    ensures { result ≡ is_name word.now }
{
    starts_with_letter(word) && word.len() <= MAX_NAME && are_name_bytes(word) && !is_reserved(word)
}
