ghost use Rattle.std.specs.Prelude.{◌≡◌, ◌≤◌, ◌<◌, ◌^◌, MatchOption, IfSome, length};
ghost use Rattle.std.specs.List.{list_all};
ghost use Rattle.std.specs.Char.{digit_value};
ghost use Rattle.indent_lexer.specs.Number.{is_digit_in, begins_with_digit, is_separated, with_digit, value_in, number_in, base_of, is_zero, is_plain, decimal, numeral};

/// The number that a spelling stands for, where it is one.
pub fn numeral(spelling: &[u8]) -> Option<i64>
    ensures { result ≡ numeral spelling.now }
{
    match spelling {
        [b'0', letter, digits @ ..] => match base_of(*letter) {
            Some(base) => number_in(base, digits),
            None => decimal(spelling),
        },
        _ => decimal(spelling),
    }
}

/// The base that a letter after a zero stands for.
fn base_of(letter: u8) -> Option<u64>
    ensures value { result ≡ base_of letter }
    ensures small { IfSome result (λ base. (1 ≤ base) × (base ≤ 16)) }
{
    match letter {
        b'x' | b'X' => Some(16),
        b'o' | b'O' => Some(8),
        b'b' | b'B' => Some(2),
        _ => None,
    }
}

fn decimal(digits: &[u8]) -> Option<i64>
    ensures { result ≡ decimal digits.now }
{
    if is_plain(digits) {
        number_in(10, digits)
    } else {
        None
    }
}

/// Whether no zero stands before other digits.
fn is_plain(digits: &[u8]) -> bool
    ensures { result ≡ is_plain digits.now }
{
    match digits {
        [b'0', after @ ..] => are_zeros(after),
        _ => true,
    }
}

fn are_zeros(digits: &[u8]) -> bool
    ensures { result ≡ list_all is_zero digits.now }
{
    digits.iter().all(|c| *c == b'0' || *c == b'_')
}

/// The number that digits of a base stand for, if it is one of 63 bits.
fn number_in(base: u64, digits: &[u8]) -> Option<i64>
    requires low { 1 ≤ base }
    requires high { base ≤ 16 }
    ensures { result ≡ number_in base digits.now }
{
    if digits.is_empty() || !are_digits(base, digits) || !is_separated(digits) {
        return None;
    }
    match value_in(base, digits) {
        Some(value) if value < 1 << 63 => Some(value as i64),
        _ => None,
    }
}

fn are_digits(base: u64, digits: &[u8]) -> bool
    ensures { result ≡ list_all (is_digit_in base) digits.now }
{
    digits.iter().all(|c| *c == b'_' || digit_value(*c) < base)
}

/// Whether each underscore stands alone before a digit.
fn is_separated(digits: &[u8]) -> bool
    ensures { result ≡ is_separated digits.now }
{
    let mut rest = digits;
    'digits: while let [digit, after @ ..] = rest {
        if *digit == b'_' && !begins_with_digit(after) {
            return false;
        }
        rest = after;
    }
    true
}

fn begins_with_digit(digits: &[u8]) -> bool
    ensures { result ≡ begins_with_digit digits.now }
{
    match digits {
        [digit, ..] => *digit != b'_',
        [] => false,
    }
}

/// What digits of a base stand for, unless it is more than 64 bits hold.
fn value_in(base: u64, digits: &[u8]) -> Option<u64>
    requires low { 1 ≤ base }
    requires high { base ≤ 16 }
    ensures { MatchOption result (2 ^ 63 ≤ value_in base digits.now) (λ value. value ≡ value_in base digits.now) }
{
    let mut value: u64 = 0;
    let mut rest = digits;
    'digits: while let [digit, after @ ..] = rest {
        let Some(more) = with_digit(base, value, *digit) else {
            return None;
        };
        value = more;
        rest = after;
    }
    Some(value)
}

/// What a digit and those before it stand for, unless it is more than 64 bits hold.
fn with_digit(base: u64, value: u64, digit: u8) -> Option<u64>
    requires low { 1 ≤ base }
    requires high { base ≤ 16 }
    ensures { MatchOption result (2 ^ 63 ≤ with_digit base value digit) (λ more. more ≡ with_digit base value digit) }
{
    if digit == b'_' {
        return Some(value);
    }
    let Some(tens) = value.checked_mul(base) else {
        return None;
    };
    tens.checked_add(digit_value(digit))
}

/// What a digit stands for, 36 where the byte is no digit or letter.
pub fn digit_value(byte: u8) -> u64
    ensures value { result ≡ digit_value byte }
    ensures small { result ≤ 36 }
{
    match byte {
        b'0'..=b'9' => u64::from(byte - 48),
        b'A'..=b'Z' => u64::from(byte - 55),
        b'a'..=b'z' => u64::from(byte - 87),
        _ => 36,
    }
}
