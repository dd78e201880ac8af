//! Rules that are one word.
ghost use Rattle.std.specs.Prelude.{◌≡◌, IfOk, option_map};
ghost use Rattle.kid_moves.specs.RuleView.{plain_rule};
ghost use Rattle.kid_codec.specs.Reading.{Finds};
ghost use Rattle.kid_lines.specs.RuleReading.{up_to, rule_of_letter, numbered_rule, fixed_rule, word_rule};
ghost use Rattle.kid_lines.specs.RuleSpelling.{lettered};

use itoa::Buffer;
use kid_codec::{CodecFault, is_name, number_of};
use kid_moves::Rule;
use kid_value::{Memory, Text};
use std::alloc::Global;

fn small(n: i64) -> Option<u8>
    ensures { result ≡ up_to 255 n }
{
    if 0 <= n && n <= 255 {
        Some(n as u8)
    } else {
        None
    }
}

fn rule_of_letter(letter: u8, n: u8) -> Option<Rule>
    ensures { option_map plain_rule result ≡ rule_of_letter letter n }
{
    if letter == b'e' {
        return Some(Rule::Equation(n));
    }
    if letter == b'm' {
        return Some(Rule::Implication(n));
    }
    if letter == b'b' {
        return Some(Rule::Binder(n));
    }
    None
}

/// The rule of a letter before a number from 0 to 255.
fn numbered_rule(word: &[u8]) -> Option<Rule>
    ensures { option_map plain_rule result ≡ numbered_rule word.now }
{
    let (letter, digits) = word.split_first()?;
    let n = small(number_of(digits)?)?;
    rule_of_letter(*letter, n)
}

/// The rule that has a word of its own.
fn fixed_rule(word: &Text) -> Option<Rule>
    ensures { option_map plain_rule result ≡ fixed_rule word.now }
{
    if word.is(b"unfold") {
        return Some(Rule::Unfold);
    }
    if word.is(b"compute") {
        return Some(Rule::Compute);
    }
    if word.is(b"holds") {
        return Some(Rule::Holds);
    }
    if word.is(b"fails") {
        return Some(Rule::Fails);
    }
    if word.is(b"uncast") {
        return Some(Rule::Uncast);
    }
    None
}

/// The rule that a word is: a law by its name, one that has a word of its own, or one by its number.
pub fn word_rule(alloc: Global, word: &Text) -> Result<Rule, CodecFault>
    ensures { Finds plain_rule result (word_rule word.now) }
{
    if is_name(word.as_slice()) {
        return Ok(Rule::Law(word.copy(alloc)?));
    }
    if let Some(rule) = fixed_rule(word) {
        return Ok(rule);
    }
    match numbered_rule(word.as_slice()) {
        Some(rule) => Ok(rule),
        None => Err(CodecFault::Form),
    }
}

/// A letter before a number.
pub fn lettered(alloc: Global, letter: u8, n: u8) -> Result<Text, Memory>
    ensures { IfOk result (λ w. w ≡ lettered letter n) }
{
    let mut buffer = Buffer::new();
    let mut word = Vec::new(alloc);
    word.push(letter)?;
    word.extend_from_slice(buffer.format(i64::from(n)).as_bytes())?;
    Ok(Text::from_vec(word))
}
