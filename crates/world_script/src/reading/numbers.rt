//! Numbers as they are typed: decimal digits without a leading zero.
ghost use Rattle.std.specs.Prelude.{◌≡◌, ◌↔◌, ℕ, ℤ, ◌<◌, ◌++◌, IsTrue, IfSome, Some};
ghost use Rattle.std.specs.Fmt.{decimal, signed_decimal};
ghost use Rattle.world_script.specs.Script.{IsLiteral};
ghost use Rattle.world_script.specs.inner.Reading.{IsPlain};

use crate::reading::pieces::after_word;

/// The number below `bound` that the bytes spell.
pub fn read_number(bytes: &[u8], bound: u64) -> Option<u64>
    ensures found { IfSome result (λ n. (bytes.now ≡ decimal n) × (n < bound)) }
    ensures only { (n : ℕ) → n < bound → bytes.now ≡ decimal n → result ≡ Some n }
{
    let Ok(text) = str::from_utf8(bytes) else {
        return None;
    };
    let Ok(number) = text.parse::<u64>() else {
        return None;
    };
    if number < bound && is_plain(bytes) {
        Some(number)
    } else {
        None
    }
}

/// Neither a plus nor a zero stands before a digit.
fn is_plain(bytes: &[u8]) -> bool
    ensures { IsTrue result ↔ IsPlain bytes.now }
{
    match bytes {
        [b'0'] => true,
        [b'+' | b'0', ..] => false,
        _ => true,
    }
}

/// The number below `bound` that the line has behind this word.
pub fn number_after(line: &[u8], word: &[u8], bound: u8) -> Option<u8>
    ensures found { IfSome result (λ n. (line.now ≡ word.now ++ decimal n) × (n < bound)) }
    ensures only { (n : ℕ) → n < bound → line.now ≡ word.now ++ decimal n → result ≡ Some n }
{
    let digits = after_word(line, word)?;
    let number = read_number(digits, u64::from(bound))?;
    Some(number as u8)
}

/// The literal that the bytes spell: any number of 64 bits with a sign but the least.
pub fn read_literal(bytes: &[u8]) -> Option<i64>
    ensures found { IfSome result (λ z. (bytes.now ≡ signed_decimal z) × IsLiteral z) }
    ensures only { (z : ℤ) → IsLiteral z → bytes.now ≡ signed_decimal z → result ≡ Some z }
{
    if let Some(digits) = after_word(bytes, b"-") {
        let number = read_number(digits, LITERALS)?;
        if number == 0 {
            None
        } else {
            Some(-(number as i64))
        }
    } else {
        let number = read_number(bytes, LITERALS)?;
        Some(number as i64)
    }
}

/// A literal is below this, without its sign.
const LITERALS: u64 = 9_223_372_036_854_775_808;
