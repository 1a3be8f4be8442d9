//! Tests of the numbers of refusals.
use super::compare::assert_number;
use atl_service::Refusal;

static NUMBERS: [(Refusal, u8); 14] = [
    (Refusal::BadName, 1),
    (Refusal::BadPassText, 2),
    (Refusal::NameTaken, 3),
    (Refusal::Full, 4),
    (Refusal::NoFaction, 5),
    (Refusal::WrongPass, 6),
    (Refusal::Gone, 7),
    (Refusal::TooLong, 8),
    (Refusal::NoHeader, 9),
    (Refusal::BadHeader, 10),
    (Refusal::WrongFaction, 11),
    (Refusal::WrongMonth, 12),
    (Refusal::MonthLimit, 13),
    (Refusal::WrongDice, 14),
];

/// The numbers are those of docs/FORMATS.md, "Refusals".
#[test]
fn refusals_have_their_numbers(rt: HostRuntime) {
    for (refusal, number) in NUMBERS.iter() {
        assert_number(&rt, i64::from(refusal.number()), i64::from(*number));
    }
}
