ghost use Rattle.std.specs.Prelude.{◌≡◌, ◌-◌, ◌^◌, min, option_map};
ghost use Rattle.std.specs.Prelude.{pos, neg_ℤ};
ghost use Rattle.codon_base.specs.Operators.{number_in, digits_value, digit_of, in_range};

/// The number that a text writes: a sign or none, then digits.
pub(crate) fn number_in(text: &[u8]) -> Option<i64>
    ensures { result ≡ number_in text.now }
{
    match text {
        [] => None,
        [b'-', digits @ ..] => negative(digits),
        [b'+', digits @ ..] => positive(digits),
        _ => positive(text),
    }
}

fn positive(digits: &[u8]) -> Option<i64>
    ensures { result ≡ in_range pos 9223372036854775807 (digits_value digits.now) }
{
    match digits_value(digits) {
        Some(number) => {
            if number <= 9_223_372_036_854_775_807 {
                Some(number as i64)
            } else {
                None
            }
        }
        None => None,
    }
}

fn negative(digits: &[u8]) -> Option<i64>
    ensures { result ≡ in_range (λ n. neg_ℤ (pos n)) 9223372036854775808 (digits_value digits.now) }
{
    match digits_value(digits) {
        Some(number) => {
            if number <= 9_223_372_036_854_775_807 {
                Some(-(number as i64))
            } else if number == 9_223_372_036_854_775_808 {
                Some(i64::MIN)
            } else {
                None
            }
        }
        None => None,
    }
}

/// The number that one digit or more write, or 2^64 - 1 where it is more.
fn digits_value(digits: &[u8]) -> Option<u64>
    ensures { result ≡ option_map (min (2 ^ 64 - 1)) (digits_value digits.now) }
{
    if digits.is_empty() {
        return None;
    }
    let mut number: u64 = 0;
    'digits: for byte in digits {
        match digit_of(*byte) {
            Some(digit) => number = number.saturating_mul(10).saturating_add(digit),
            None => return None,
        }
    }
    Some(number)
}

fn digit_of(byte: u8) -> Option<u64>
    ensures { result ≡ digit_of byte }
{
    if 48 <= byte && byte <= 57 {
        Some(u64::from(byte - 48))
    } else {
        None
    }
}
