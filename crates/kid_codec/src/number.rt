ghost use Rattle.std.specs.Prelude.{◌≡◌};
ghost use Rattle.std.specs.Fmt.{signed_decimal};
ghost use Rattle.std.specs.Str.{bytes_eq};
ghost use Rattle.kid_codec.specs.Number.{number_of};

use itoa::Buffer;
use kid_value::in_limits;
use std::str;

/// Whether the text is just the decimal text of a number.
fn is_decimal(n: i64, text: &str) -> bool
    ensures { result ≡ bytes_eq text.now (signed_decimal n) }
{
    let mut buffer = Buffer::new();
    text.as_bytes() == buffer.format(n).as_bytes()
}

fn number_in(text: &str) -> Option<i64>
    ensures { result ≡ number_of text.now }
{
    match text.parse::<i64>() {
        Ok(n) => if is_decimal(n, text) && in_limits(n) {
            Some(n)
        } else {
            None
        },
        Err(_) => None,
    }
}

/// The number that a word spells: `0`, or digits without a leading zero after an optional `-`.
///
/// Answers `None` where the word spells no number within plus or minus 4611686018427387904.
pub fn number_of(word: &[u8]) -> Option<i64>
    ensures { result ≡ number_of word.now }
{
    match str::from_utf8(word) {
        Ok(text) => number_in(text),
        Err(_) => None,
    }
}
