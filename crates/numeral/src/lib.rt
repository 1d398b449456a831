// Decimal numbers as a rule book writes them: no plus, no leading zero.
#![tactic(auto)]

ghost use Rattle.std.specs.Prelude.{◌≡◌, ◌≤◌};
ghost use Rattle.numeral.specs.Reads.{as_number, as_signed, Reads, ReadsSigned};
ghost use Rattle.numeral.specs.Steps.{leads as led, appended as appends, negated};

// A number can begin so: there is a digit, and a 0 in front stands alone.
fn leads(field: &[u8]) -> bool
    ensures { result ≡ led field.now }
{
    !matches!(field, [] | [b'0', _, ..])
}

// `value` with one more digit behind it, if that is no more than `max`.
fn appended(value: u32, digit: u8, max: u32) -> Option<u32>
    ensures { result ≡ appends max value digit }
{
    let digit = char::from(digit).to_digit(10)?;
    value
        .checked_mul(10)?
        .checked_add(digit)
        .filter(|n| *n <= max)
}

// The number that `field` writes, if it is no more than `max`.
pub fn number(field: &[u8], max: u32) -> Option<u32>
    ensures value { result ≡ as_number max field.now }
    ensures reads { Reads max field.now result }
{
    if !leads(field) {
        return None;
    }
    let mut value = 0;
    for digit in field {
        value = appended(value, *digit, max)?;
    }
    Some(value)
}

// The number below 0 of this size: there is no `-0`.
fn negative(size: u32) -> Option<i32>
    requires { size ≤ 65535 }
    ensures { result ≡ negated size }
{
    if size == 0 {
        None
    } else {
        Some(-(size as i32))
    }
}

// The same with a minus allowed: the size is no more than `max`.
pub fn signed_number(field: &[u8], max: u16) -> Option<i32>
    ensures value { result ≡ as_signed max field.now }
    ensures reads { ReadsSigned max field.now result }
{
    match field {
        [b'-', size @ ..] => number(size, u32::from(max)).and_then(negative),
        _ => number(field, u32::from(max)).map(|size| size as i32),
    }
}
