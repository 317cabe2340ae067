ghost use Rattle.std.specs.Prelude.{◌≡◌, ◌&&◌, ◌==◌, if◌then◌else◌, nat_le, Some, None, IfSome};
ghost use Rattle.std.specs.Option.{option_map};
ghost use Rattle.tape.specs.Hex.{is_digit};
ghost use Rattle.tape.specs.Lines.{is_level, number_of, are_bytes, is_transaction, transaction_in, request_in};
ghost use Rattle.tape.specs.Views.{asked, asked_of, FitsOf, FitsIfAny};

use crate::hex::are_hex;
use crate::record::{LONGEST_AREA, MOST_SENT, Record, Transaction};

// The record that the line is, or none.
pub fn parse(line: &[u8]) -> Option<Record<'_>>
    ensures asked { option_map asked result ≡ request_in line.now }
    ensures fits { FitsIfAny result }
{
    if line == b"ST".as_slice() {
        return Some(Record::Step);
    }
    if line == b"PW".as_slice() {
        return Some(Record::Power);
    }
    transaction_in(line).map(Record::Transaction)
}

// The transaction that the line is, or none.
fn transaction_in(line: &[u8]) -> Option<Transaction<'_>>
    ensures asked { option_map asked_of result ≡ (if is_transaction line.now then Some (transaction_in line.now) else None) }
    ensures fits { IfSome result (λ t. FitsOf t) }
{
    let [
        b'T',
        b'X',
        b' ',
        level,
        b' ',
        tens,
        units,
        b' ',
        digits @ ..,
    ] = line
    else {
        return None;
    };
    let low = is_low(*level)?;
    let area_length = area_length(*tens, *units)?;
    if !are_bytes(digits) {
        return None;
    }
    Some(Transaction {
        low,
        area_length,
        digits,
    })
}

// Is this level of /WP low? None where it is no level.
fn is_low(level: u8) -> Option<bool>
    ensures { result ≡ (if is_level level then Some (level == 48) else None) }
{
    match level {
        b'0' => Some(true),
        b'1' => Some(false),
        _ => None,
    }
}

// The length of the area in two digits, or none where it is not of digits or too long. The library's `parse` would take a sign.
fn area_length(tens: u8, units: u8) -> Option<usize>
    ensures { result ≡ (if is_digit tens && (is_digit units && nat_le (number_of tens units) 64) then Some (number_of tens units) else None) }
{
    if !tens.is_ascii_digit() || !units.is_ascii_digit() {
        return None;
    }
    let number = 10 * usize::from(tens - b'0') + usize::from(units - b'0');
    (number <= LONGEST_AREA).then_some(number)
}

// Are these at most 64 bytes, two digits for each?
fn are_bytes(digits: &[u8]) -> bool
    ensures { result ≡ are_bytes digits.now }
{
    digits.len() <= 2 * MOST_SENT && digits.len() % 2 == 0 && are_hex(digits)
}
