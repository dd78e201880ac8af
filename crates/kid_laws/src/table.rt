//! The laws by their numbers.
ghost use Rattle.std.specs.Prelude.{◌≡◌, map, option_map};
ghost use Rattle.kid_laws.specs.Steps.{plain_row};
ghost use Rattle.kid_laws.specs.Table as spec;
ghost use Rattle.kid_laws.specs.Table.{law_at, laws_of};

use crate::kind::LawKind;
use crate::logic::{E1, E2, E3, E4, E5, E6, E7, E8, E9, E10, E11, E12, E13, M1};
use crate::maps::{E20, E47, E48, M4, M19, M20};
use crate::numbers::{E14, E15, E16, E17, E18, E19, E21, E22, E23, E24, E25, E26, E27, M2, M3, M5};
use crate::sequences::{E42, E43, E44, E45, E46, M15, M16, M17, M18};
use crate::sets::{
    E28, E29, E30, E31, E32, E33, E34, E35, E36, E37, E38, E39, E40, E41, M6, M7, M8, M9, M10, M11,
    M12, M13, M14,
};
use crate::step::Row;

const FIRST_EQUATIONS: [Row; 12] = [E1, E2, E3, E4, E5, E6, E7, E8, E9, E10, E11, E12];

const SECOND_EQUATIONS: [Row; 12] = [E13, E14, E15, E16, E17, E18, E19, E20, E21, E22, E23, E24];

const THIRD_EQUATIONS: [Row; 12] = [E25, E26, E27, E28, E29, E30, E31, E32, E33, E34, E35, E36];

const FOURTH_EQUATIONS: [Row; 12] = [E37, E38, E39, E40, E41, E42, E43, E44, E45, E46, E47, E48];

const FIRST_IMPLICATIONS: [Row; 10] = [M1, M2, M3, M4, M5, M6, M7, M8, M9, M10];

const SECOND_IMPLICATIONS: [Row; 10] = [M11, M12, M13, M14, M15, M16, M17, M18, M19, M20];

/// The row of a number, counted from 1.
fn nth_row(rows: &'static [Row], number: u8) -> Option<&'static Row>
    ensures { option_map plain_row (option_map (λ r. r.now) result) ≡ law_at (map plain_row rows.now) number }
{
    if number == 0 {
        return None;
    }
    rows.get(usize::from(number) - 1)
}

fn first_equations(number: u8) -> Option<&'static Row>
    ensures { option_map plain_row (option_map (λ r. r.now) result) ≡ law_at spec.first_equations number }
{
    nth_row(&FIRST_EQUATIONS, number)
}

fn second_equations(number: u8) -> Option<&'static Row>
    ensures { option_map plain_row (option_map (λ r. r.now) result) ≡ law_at spec.second_equations number }
{
    nth_row(&SECOND_EQUATIONS, number)
}

fn third_equations(number: u8) -> Option<&'static Row>
    ensures { option_map plain_row (option_map (λ r. r.now) result) ≡ law_at spec.third_equations number }
{
    nth_row(&THIRD_EQUATIONS, number)
}

fn fourth_equations(number: u8) -> Option<&'static Row>
    ensures { option_map plain_row (option_map (λ r. r.now) result) ≡ law_at spec.fourth_equations number }
{
    nth_row(&FOURTH_EQUATIONS, number)
}

fn first_implications(number: u8) -> Option<&'static Row>
    ensures { option_map plain_row (option_map (λ r. r.now) result) ≡ law_at spec.first_implications number }
{
    nth_row(&FIRST_IMPLICATIONS, number)
}

fn second_implications(number: u8) -> Option<&'static Row>
    ensures { option_map plain_row (option_map (λ r. r.now) result) ≡ law_at spec.second_implications number }
{
    nth_row(&SECOND_IMPLICATIONS, number)
}

fn equation(number: u8) -> Option<&'static Row>
    ensures { option_map plain_row (option_map (λ r. r.now) result) ≡ law_at spec.equations number }
{
    if number <= 12 {
        first_equations(number)
    } else if number <= 24 {
        second_equations(number - 12)
    } else if number <= 36 {
        third_equations(number - 24)
    } else {
        fourth_equations(number - 36)
    }
}

fn implication(number: u8) -> Option<&'static Row>
    ensures { option_map plain_row (option_map (λ r. r.now) result) ≡ law_at spec.implications number }
{
    if number <= 10 {
        first_implications(number)
    } else {
        second_implications(number - 10)
    }
}

/// The law of a kind and a number, counted from 1.
pub(crate) fn row(kind: LawKind, number: u8) -> Option<&'static Row>
    ensures { option_map plain_row (option_map (λ r. r.now) result) ≡ law_at (laws_of kind) number }
{
    match kind {
        LawKind::Equation => equation(number),
        LawKind::Implication => implication(number),
    }
}
