//! Numbers in digits.
ghost use Rattle.std.specs.Prelude.{◌≡◌};
ghost use Rattle.cli_args.specs.Numbers.{with_digit, with_digits, written_number};

/// The number that the text writes in digits, without a sign or a leading zero.
pub fn number_in(text: &str) -> Option<u64>
    ensures { result ≡ written_number text.now }
{
    match text.as_bytes() {
        [] => None,
        [b'0', _, ..] => None,
        digits => with_digits(digits),
    }
}

fn with_digits(digits: &[u8]) -> Option<u64>
    ensures { result ≡ with_digits 0 digits.now }
{
    let mut number = 0;
    for digit in digits {
        number = with_digit(number, *digit)?;
    }
    Some(number)
}

fn with_digit(number: u64, digit: u8) -> Option<u64>
    ensures { result ≡ with_digit number digit }
{
    if !digit.is_ascii_digit() {
        return None;
    }
    number.checked_mul(10)?.checked_add((digit - b'0') as u64)
}
