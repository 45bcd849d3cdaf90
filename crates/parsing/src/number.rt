// The numbers of a line.
ghost use Rattle.std.specs.Prelude.{◌≡◌, ◌+◌, ◌-◌, ◌*◌, ◌<◌, ◌≤◌, Some, None, if◌then◌else◌, nat_lt};
ghost use Rattle.std.specs.Option.{option_map};
ghost use Rattle.parsing.specs.Numbers.{Settles, numeral, Field, Numbers};

use crate::name::Name;
use crate::reason::Reason;
use crate::split::{Parts, split};
use crate::within::all_within;
use listing::text::Printable;

// Digits as they are printed: there is one at least, and a 0 in front stands alone.
fn is_numeral(field: &[u8]) -> bool
    ensures { result ≡ numeral field.now }
{
    match field {
        [] | [b'0', _, ..] => false,
        _ => all_within(field, b'0', b'9'),
    }
}

// The number with one digit more, where two bytes hold it.
fn with_digit(number: u16, digit: u8) -> Option<u16>
    requires { 48 ≤ digit }
    ensures { let n = number * 10 + (digit - 48) in result ≡ (if nat_lt n 65536 then Some n else None) }
{
    number.checked_mul(10)?.checked_add(u16::from(digit - b'0'))
}

// The number that is printed as the field.
fn number<'a>(field: &'a [u8]) -> Result<u16, Reason<'a>>
    ensures { Settles result (Field field.now) }
{
    if !is_numeral(field) {
        return Err(Reason::NoNumber(Printable(field)));
    }
    field
        .iter()
        .try_fold(
            0,
            |number, digit|
                requires { 48 ≤ digit.now }
            { with_digit(number, *digit) },
        )
        .ok_or(Reason::TooLarge(Printable(field)))
}

// The numbers behind a name that takes so many.
pub(crate) fn numbers<'a, const N: usize>(
    name: Name,
    rest: Option<&'a [u8]>,
) -> Result<[u16; N], Reason<'a>>
    requires { 0 < N }
    ensures { Settles result (Numbers N (option_map (λ x. x.now) rest.entry)) }
{
    let mut numbers = [0; N];
    let mut left = rest;
    for (i, place) in numbers.iter_mut().enumerate() {
        let Some(fields) = left else {
            return Err(Reason::Takes(name));
        };
        let Parts { front, back } = split(fields, b' ');
        if i + 1 == N && back.is_some() {
            return Err(Reason::Takes(name));
        }
        *place = number(front)?;
        left = back;
    }
    Ok(numbers)
}
