//! Numbers: digits of a radix, a suffix, and the values that a number may have.
ghost use Rattle.std.specs.Prelude.{◌≡◌, ℕ, ◌^◌, ◌<◌, ◌≤◌, Bool, true, false, IfSome, None};
ghost use Rattle.std.specs.Option.{option_map};
ghost use Rattle.c_tree.specs.declared.words.Suffix.{Suffix};
ghost use Rattle.c_tree.specs.Bytes.{first_is};
ghost use Rattle.c_tree.specs.Numbers.{is_hexadecimal, is_digit_of, digit_value, suffix_of, is_u, is_l, is_zero, is_nonzero, decimal_end, HasDigits, IsNumber};
ghost use Rattle.c_token.specs.Scans.{rest_of, scanned_value, after_prefix};

use crate::bytes::is_digit;
use c_tree::Suffix;

/// The first value that no number has.
const END: u64 = 1 << 32;

/// Digits and what stands behind them.
#[derive(Clone, Copy)]
struct Scanned<'a> {
    value: u64,
    rest: &'a [u8],
}

/// `0` to `9`, `a` to `f` and `A` to `F`.
fn is_hexadecimal(byte: u8) -> bool
    ensures { result ≡ is_hexadecimal byte }
{
    is_digit(byte) || (b'a' <= byte && byte <= b'f') || (b'A' <= byte && byte <= b'F')
}

/// The value of a hexadecimal digit.
fn digit_value(digit: u8) -> u64
    requires { is_hexadecimal digit ≡ true }
    ensures value { result ≡ digit_value digit }
    ensures small { result < 16 }
{
    let value = if digit <= b'9' {
        digit - b'0'
    } else if digit <= b'F' {
        digit - b'A' + 10
    } else {
        digit - b'a' + 10
    };
    u64::from(value)
}

/// The value of a byte as a digit of this radix, if it is one.
fn digit_of(radix: u64, byte: u8) -> Option<u64>
    ensures digit { IfSome result (λ n. (n ≡ digit_value byte) × (n < 16) × (is_digit_of radix byte ≡ true)) }
    ensures none { result ≡ None → is_digit_of radix byte ≡ false }
{
    if !is_hexadecimal(byte) {
        return None;
    }
    let value = digit_value(byte);
    if value < radix { Some(value) } else { None }
}

/// The digits of a radix that a text begins with. A value of `END` or more only says that it is too great.
fn digits(radix: u64, text: &[u8]) -> Scanned
    requires { radix ≤ 16 }
    ensures value { result.value ≡ scanned_value radix 0 text.now }
    ensures rest { result.rest.now ≡ rest_of (is_digit_of radix) text.now }
{
    let mut value = 0;
    let mut rest = text;
    while let [first, after @ ..] = rest {
        let Some(digit) = digit_of(radix, *first) else {
            return Scanned { value, rest };
        };
        if value < END {
            value = value * radix + digit;
        }
        rest = after;
    }
    Scanned { value, rest }
}

/// The suffix that a text is, if it is one.
fn suffix(text: &[u8]) -> Option<Suffix>
    ensures { result ≡ suffix_of text.now }
{
    match text {
        [] => Some(Suffix::Plain),
        [b'u' | b'U'] => Some(Suffix::Unsigned),
        [b'l' | b'L'] => Some(Suffix::Long),
        [b'u' | b'U', b'l' | b'L'] | [b'l' | b'L', b'u' | b'U'] => Some(Suffix::UnsignedLong),
        _ => None,
    }
}

/// The value of a text that is digits of a radix, below `END`, and a suffix.
fn valued(radix: u64, text: &[u8]) -> Option<(u32, Suffix)>
    requires low { 1 ≤ radix }
    requires high { radix ≤ 16 }
    ensures found { IfSome result (λ a. HasDigits radix text.now a.0 a.1) }
    ensures small { IfSome result (λ a. a.0 < 2 ^ 32) }
    ensures none { result ≡ None → (n : ℕ) (x : Suffix) → HasDigits radix text.now n x → n < 2 ^ 32 → ⊥ }
{
    let scanned = digits(radix, text);
    if scanned.rest.len() == text.len() {
        return None;
    }
    if scanned.value >= END {
        return None;
    }
    let Some(suffix) = suffix(scanned.rest) else {
        return None;
    };
    Some((scanned.value as u32, suffix))
}

/// The least value that a decimal number with this suffix may not have: one without `u` is an `int`.
fn decimal_end(suffix: Suffix) -> u64
    ensures { result ≡ decimal_end suffix }
{
    match suffix {
        Suffix::Plain | Suffix::Long => 1 << 31,
        Suffix::Unsigned | Suffix::UnsignedLong => 1 << 32,
    }
}

/// Behind the `0x` or `0X` that a text begins with, if it does.
fn after_prefix(text: &[u8]) -> Option<&[u8]>
    ensures { option_map (λ r. r.now) result ≡ after_prefix text.now }
{
    match text {
        [b'0', b'x' | b'X', rest @ ..] => Some(rest),
        _ => None,
    }
}

/// Whether a text begins with `0`.
fn begins_with_zero(text: &[u8]) -> bool
    ensures { result ≡ first_is is_zero text.now }
{
    match text {
        [first, ..] => *first == b'0',
        [] => false,
    }
}

/// Whether a text begins with `1` to `9`.
fn begins_with_nonzero(text: &[u8]) -> bool
    ensures { result ≡ first_is is_nonzero text.now }
{
    match text {
        [first, ..] => b'1' <= *first && *first <= b'9',
        [] => false,
    }
}

/// The decimal number that a text is, if it is one.
fn decimal(text: &[u8]) -> Option<(u32, Suffix)>
    ensures found { IfSome result (λ a. HasDigits 10 text.now a.0 a.1) }
    ensures small { IfSome result (λ a. a.0 < decimal_end a.1) }
    ensures none { result ≡ None → (n : ℕ) (x : Suffix) → HasDigits 10 text.now n x → n < decimal_end x → ⊥ }
{
    let Some((value, suffix)) = valued(10, text) else {
        return None;
    };
    if u64::from(value) < decimal_end(suffix) {
        Some((value, suffix))
    } else {
        None
    }
}

/// The number that a text is, if it is one.
pub fn number(text: &[u8]) -> Option<(u32, Suffix)>
    ensures found { IfSome result (λ a. IsNumber text.now a.0 a.1) }
    ensures none { result ≡ None → (n : ℕ) (x : Suffix) → IsNumber text.now n x → ⊥ }
{
    if let Some(rest) = after_prefix(text) {
        let hexadecimal = valued(16, rest);
        return hexadecimal;
    }
    if begins_with_zero(text) {
        let octal = valued(8, text);
        return octal;
    }
    if begins_with_nonzero(text) {
        let decimal = decimal(text);
        return decimal;
    }
    None
}
