//! A text cut at a byte, and at the end of its first line.
ghost use Rattle.std.specs.Prelude.{◌≡◌, ◌≢◌, ℕ, List, ◌∷◌, ◌++◌, IfSome, IfNone, MatchOption, Contains};
ghost use Rattle.world_script.specs.inner.Reading.{IsCut, LacksWanted};

/// What stands before the first such byte, and what stands behind it.
pub fn cut_at(bytes: &[u8], byte: u8) -> Option<(&[u8], &[u8])>
    ensures found { IfSome result (λ parts. IsCut bytes.now byte parts.0.now parts.1.now) }
    ensures none { IfNone result (¬ (Contains bytes.now byte)) }
{
    for (place, b) in bytes.iter().enumerate() {
        if *b == byte {
            return Some((&bytes[..place], &bytes[place + 1..]));
        }
    }
    None
}

/// What stands behind this word, with which the text begins.
pub fn after_word<'a>(text: &'a [u8], word: &[u8]) -> Option<&'a [u8]>
    ensures { MatchOption result ((rest : List ℕ) → text.now ≢ word.now ++ rest) (λ rest. text.now ≡ word.now ++ rest.now) }
{
    text.strip_prefix(word)
}

/// What stands before this word, with which the text ends.
pub fn before_word<'a>(text: &'a [u8], word: &[u8]) -> Option<&'a [u8]>
    ensures { MatchOption result ((front : List ℕ) → text.now ≢ front ++ word.now) (λ front. text.now ≡ front.now ++ word.now) }
{
    text.strip_suffix(word)
}

/// What stands behind the first line, if that is this line.
pub fn after_line<'a>(text: &'a [u8], line: &[u8]) -> Option<&'a [u8]>
    ensures found { IfSome result (λ rest. text.now ≡ line.now ++ (10 ∷ rest.now)) }
    ensures none { IfNone result (LacksWanted (λ other. other ≡ line.now) text.now) }
{
    let (first, rest) = cut_at(text, b'\n')?;
    if first == line { Some(rest) } else { None }
}
