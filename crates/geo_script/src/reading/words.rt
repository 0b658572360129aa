//! Words between single spaces, and the numbers that words spell.
ghost use Rattle.std.specs.Prelude.{◌≡◌, ◌≤◌, ◌==◌, not, Some, None, length, IfSome, MatchOption};
ghost use Rattle.std.specs.Char.{is_ascii_digit};
ghost use Rattle.std.specs.List.{list_all};
ghost use Rattle.geo_script.specs.Words.{is_word};
ghost use Rattle.geo_script.specs.inner.Words as spec;

/// What stands before the first space, and what stands behind it.
pub(crate) fn cut_at_space(text: &str) -> Option<(&str, &str)>
    ensures parts { MatchOption result (spec.cut 32 text.now ≡ None) (λ p. spec.cut 32 text.now ≡ Some (p.0.now, p.1.now)) }
    ensures within { IfSome result (λ p. (length p.0.now ≤ length text.now) × (length p.1.now ≤ length text.now)) }
{
    text.split_once(' ')
}

/// What stands before the first dot, and what stands behind it.
pub(crate) fn cut_at_dot(text: &str) -> Option<(&str, &str)>
    ensures { MatchOption result (spec.cut 46 text.now ≡ None) (λ p. spec.cut 46 text.now ≡ Some (p.0.now, p.1.now)) }
{
    text.split_once('.')
}

fn lacks_space(bytes: &[u8]) -> bool
    ensures { result ≡ list_all (λ b. not (b == 32)) bytes.now }
{
    bytes.iter().all(|b| *b != b' ')
}

/// At least one byte, and no space among them.
#[tactic(auto, unfolding(crate::specs::Words::is_word))]
pub(crate) fn is_word(text: &str) -> bool
    ensures { result ≡ is_word text.now }
{
    !text.is_empty() && lacks_space(text.as_bytes())
}

/// Two words, with one space between them.
#[tactic(auto, unfolding(crate::specs::inner::Words::two_words))]
pub(crate) fn two_words(text: &str) -> Option<(&str, &str)>
    ensures { MatchOption result (spec.two_words text.now ≡ None) (λ p. spec.two_words text.now ≡ Some (p.0.now, p.1.now)) }
{
    let (first, second) = cut_at_space(text)?;
    if is_word(first) && is_word(second) {
        Some((first, second))
    } else {
        None
    }
}

/// Three words, with one space between each two.
#[tactic(auto, unfolding(crate::specs::inner::Words::three_words))]
pub(crate) fn three_words(text: &str) -> Option<(&str, &str, &str)>
    ensures { MatchOption result (spec.three_words text.now ≡ None) (λ p. spec.three_words text.now ≡ Some (p.0.now, p.1.now, p.2.now)) }
{
    let (first, rest) = cut_at_space(text)?;
    if !is_word(first) {
        return None;
    }
    let (second, third) = two_words(rest)?;
    Some((first, second, third))
}

fn are_digits(bytes: &[u8]) -> bool
    ensures { result ≡ list_all is_ascii_digit bytes.now }
{
    bytes.iter().all(|b| b.is_ascii_digit())
}

/// Digits without a leading zero.
#[tactic(auto, unfolding(crate::specs::inner::Words::is_numeral))]
fn is_numeral(text: &str) -> bool
    ensures { result ≡ spec.is_numeral text.now }
{
    let bytes = text.as_bytes();
    are_digits(bytes) && (bytes.len() == 1 || (bytes.len() > 1 && bytes[0] != b'0'))
}

/// The number that the word spells, if it is from `least` to `most`.
pub(crate) fn number_within(least: u32, most: u32, word: &str) -> Option<u32>
    ensures number { result ≡ spec.number_within least most word.now }
    ensures within { IfSome result (λ n. (least ≤ n) × (n ≤ most)) }
{
    if !is_numeral(word) {
        return None;
    }
    match word.parse::<u32>() {
        Ok(value) if least <= value && value <= most => Some(value),
        _ => None,
    }
}
