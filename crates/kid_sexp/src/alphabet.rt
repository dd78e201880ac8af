ghost use Rattle.std.specs.Prelude.{◌≡◌};
ghost use Rattle.std.specs.List.{list_all};
ghost use Rattle.kid_sexp.specs.Alphabet.{is_blank, is_visible, in_alphabet, in_word, bad_byte};
ghost use Rattle.kid_sexp.specs.Printing.{is_word};

fn is_blank(byte: u8) -> bool
    ensures { result ≡ is_blank byte }
{
    byte == b'\t' || byte == b'\n' || byte == b'\r' || byte == b' '
}

fn is_visible(byte: u8) -> bool
    ensures { result ≡ is_visible byte }
{
    33 <= byte && byte <= 126
}

fn in_alphabet(byte: u8) -> bool
    ensures { result ≡ in_alphabet byte }
{
    is_blank(byte) || is_visible(byte)
}

pub fn in_word(byte: u8) -> bool
    ensures { result ≡ in_word byte }
{
    is_visible(byte) && byte != b'(' && byte != b')' && byte != b';'
}

/// The first byte outside the alphabet.
pub fn bad_byte(bytes: &[u8]) -> Option<usize>
    ensures { result ≡ bad_byte bytes.now }
{
    bytes.iter().position(|byte| !in_alphabet(*byte))
}

fn are_letters(bytes: &[u8]) -> bool
    ensures { result ≡ list_all in_word bytes.now }
{
    bytes.iter().all(|byte| in_word(*byte))
}

/// Whether the bytes are one or more, and each is part of a word.
#[tactic(auto, using(crate::proofs::Alphabets::is_word_by_length))]
pub fn is_word(bytes: &[u8]) -> bool
    ensures { result ≡ is_word bytes.now }
{
    !bytes.is_empty() && are_letters(bytes)
}
