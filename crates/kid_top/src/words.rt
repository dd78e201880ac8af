ghost use Rattle.std.specs.Prelude.{◌≡◌, option_map, map, length, IfSome};
ghost use Rattle.std.specs.String.{string_bytes};
ghost use Rattle.kid_top.specs.Words.{plain_command, IsUsable};
ghost use Rattle.kid_top.specs.Command.{derive_words, command_of, fuel_of};

use kid_codec::number_of;

/// A command of the program. Each name is a word, and each call of the search procedure takes one of the fuel.
#[derive(Clone, Copy)]
pub enum Command<'a> {
    Derive {
        theory: &'a str,
        script: &'a str,
        derivation: &'a str,
        program: &'a str,
    },
    Run {
        program: &'a str,
        inputs: &'a str,
        fuel: u64,
    },
    Solve {
        theory: &'a str,
        script: &'a str,
        inputs: &'a str,
        fuel: u64,
    },
}

/// The fuel where none is given.
const GIVEN_FUEL: u64 = 1000000;

/// No more fuel may be given.
const MAX_FUEL: i64 = 1000000000000;

/// The fuel that two words give.
fn fuel_of(flag: &str, number: &str) -> Option<u64>
    ensures { result ≡ fuel_of flag.now number.now }
{
    if flag != "--fuel" {
        return None;
    }
    let fuel = number_of(number.as_bytes())?;
    if 1 <= fuel && fuel <= MAX_FUEL {
        Some(fuel as u64)
    } else {
        None
    }
}

/// The command that three words fit.
fn of_three(words: &[String]) -> Option<Command<'_>>
    ensures command { length words.now ≡ 3 → option_map plain_command result ≡ command_of (map string_bytes words.now) }
    ensures usable { IfSome result (λ c. IsUsable (plain_command c)) }
{
    let [command, program, inputs] = words else {
        return None;
    };
    if command.as_str() != "run" {
        return None;
    }
    Some(Command::Run {
        program: program.as_str(),
        inputs: inputs.as_str(),
        fuel: GIVEN_FUEL,
    })
}

/// The command that four words fit.
fn of_four(words: &[String]) -> Option<Command<'_>>
    ensures command { length words.now ≡ 4 → option_map plain_command result ≡ command_of (map string_bytes words.now) }
    ensures usable { IfSome result (λ c. IsUsable (plain_command c)) }
{
    let [command, theory, script, inputs] = words else {
        return None;
    };
    if command.as_str() != "solve" {
        return None;
    }
    Some(Command::Solve {
        theory: theory.as_str(),
        script: script.as_str(),
        inputs: inputs.as_str(),
        fuel: GIVEN_FUEL,
    })
}

/// The command `derive`, where its last two names differ.
fn derive_words<'a>(
    theory: &'a str,
    script: &'a str,
    derivation: &'a str,
    program: &'a str,
) -> Option<Command<'a>>
    ensures command { option_map plain_command result ≡ derive_words theory.now script.now derivation.now program.now }
    ensures usable { IfSome result (λ c. IsUsable (plain_command c)) }
{
    if derivation == program {
        return None;
    }
    Some(Command::Derive {
        theory,
        script,
        derivation,
        program,
    })
}

/// The command that five words fit.
fn of_five(words: &[String]) -> Option<Command<'_>>
    ensures command { length words.now ≡ 5 → option_map plain_command result ≡ command_of (map string_bytes words.now) }
    ensures usable { IfSome result (λ c. IsUsable (plain_command c)) }
{
    let [command, first, second, third, fourth] = words else {
        return None;
    };
    if command.as_str() == "derive" {
        return derive_words(
            first.as_str(),
            second.as_str(),
            third.as_str(),
            fourth.as_str(),
        );
    }
    if command.as_str() != "run" {
        return None;
    }
    let fuel = fuel_of(third.as_str(), fourth.as_str())?;
    Some(Command::Run {
        program: first.as_str(),
        inputs: second.as_str(),
        fuel,
    })
}

/// The command that six words fit.
fn of_six(words: &[String]) -> Option<Command<'_>>
    ensures command { length words.now ≡ 6 → option_map plain_command result ≡ command_of (map string_bytes words.now) }
    ensures usable { IfSome result (λ c. IsUsable (plain_command c)) }
{
    let [command, theory, script, inputs, flag, number] = words else {
        return None;
    };
    if command.as_str() != "solve" {
        return None;
    }
    let fuel = fuel_of(flag.as_str(), number.as_str())?;
    Some(Command::Solve {
        theory: theory.as_str(),
        script: script.as_str(),
        inputs: inputs.as_str(),
        fuel,
    })
}

/// The command that the words fit, and None where they fit none. No memory is taken.
#[tactic(auto, using(crate::proofs::CommandLemmas::commands))]
pub fn command_of(words: &[String]) -> Option<Command<'_>>
    ensures command { option_map plain_command result ≡ command_of (map string_bytes words.now) }
    ensures usable { IfSome result (λ c. IsUsable (plain_command c)) }
{
    match words.len() {
        3 => of_three(words),
        4 => of_four(words),
        5 => of_five(words),
        6 => of_six(words),
        _ => None,
    }
}
