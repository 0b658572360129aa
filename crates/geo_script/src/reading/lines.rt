//! The lines of a text, one after another.
ghost use Rattle.std.specs.Prelude.{◌≡◌, ◌+◌, ◌<◌, ◌≤◌, ◌^◌, [], ◌∷◌, length, IfSome, IfOk, MatchOption, MatchResult, true, false};
ghost use Rattle.std.specs.Str.{is_utf8};
ghost use Rattle.geo_script.specs.declared.fault.ScriptKind.TheVariants.{NotUtf8};
ghost use Rattle.geo_script.specs.Lines as spec;
ghost use Rattle.geo_script.specs.inner.Answers.{spoken, number_after};

use crate::fault::ScriptKind;
use memchr::memchr;

/// The rest of a script, from the line with this number on.
#[derive(Clone, Copy)]
pub(crate) struct Rest<'a> {
    pub bytes: &'a [u8],
    pub number: u32,
}

/// A line that says something, its number, and the rest behind it.
#[derive(Clone, Copy)]
pub(crate) struct Spoken<'a> {
    pub line: &'a [u8],
    pub number: u32,
    pub rest: Rest<'a>,
}

/// The piece without the carriage return at its end, if it has one there.
fn without_return(piece: &[u8]) -> &[u8]
    ensures line { result.now ≡ spec.without_return piece.now }
    ensures within { length result.now ≤ length piece.now }
{
    if !piece.is_empty() && piece[piece.len() - 1] == b'\r' {
        &piece[..piece.len() - 1]
    } else {
        piece
    }
}

/// The last line, behind which no line feed stands, and nothing behind it.
fn last_line(bytes: &[u8]) -> Option<(&[u8], &[u8])>
    ensures line { MatchOption result (spec.without_return bytes.now ≡ []) (λ p. (p.0.now ≡ spec.without_return bytes.now) × (p.1.now ≡ [])) }
    ensures some { IfSome result (λ p. 0 < length p.0.now) }
    ensures within { IfSome result (λ p. length p.0.now ≤ length bytes.now) }
{
    let line = without_return(bytes);
    if line.is_empty() {
        None
    } else {
        Some((line, &bytes[bytes.len()..]))
    }
}

/// The first line, and what stands behind it.
pub(crate) fn next_line(bytes: &[u8]) -> Option<(&[u8], &[u8])>
    ensures line { MatchOption result
        (spec.lines_of bytes.now ≡ [])
        (λ p. spec.lines_of bytes.now ≡ p.0.now ∷ spec.lines_of p.1.now) }
    ensures shorter { IfSome result (λ p. length p.1.now < length bytes.now) }
    ensures within { IfSome result (λ p. length p.0.now ≤ length bytes.now) }
{
    match memchr(b'\n', bytes) {
        Some(at) => Some((without_return(&bytes[..at]), &bytes[at + 1..])),
        None => last_line(bytes),
    }
}

/// The bytes are UTF-8.
fn is_text(bytes: &[u8]) -> bool
    ensures { result ≡ is_utf8 bytes.now }
{
    text_of(bytes).is_ok()
}

/// The line as a text.
pub(crate) fn text_of(line: &[u8]) -> Result<&str, ScriptKind>
    ensures { MatchResult result
        (λ text. (text.now ≡ line.now) × (is_utf8 line.now ≡ true))
        (λ kind. (kind ≡ NotUtf8) × (is_utf8 line.now ≡ false)) }
{
    match str::from_utf8(line) {
        Ok(text) => Ok(text),
        Err(_) => Err(ScriptKind::NotUtf8),
    }
}

/// The line is empty or a comment.
#[tactic(auto, unfolding(crate::specs::Lines::is_silent))]
fn is_silent(line: &[u8]) -> bool
    ensures { result ≡ spec.is_silent line.now }
{
    line.is_empty() || (line[0] == b'#' && is_text(line))
}

/// The next line that says something; or, where there is none, the number of the line after the last.
pub(crate) fn next_spoken(rest: Rest<'_>) -> Result<Spoken<'_>, u32>
    requires { rest.number + length rest.bytes.now < 2 ^ 32 }
    ensures lines { MatchResult result
        (λ s. spoken rest.entry ≡ (s.number, s.line.now) ∷ spoken s.rest)
        (λ _. spoken rest.entry ≡ []) }
    ensures number { MatchResult result
        (λ s. number_after s.rest ≡ number_after rest.entry)
        (λ after. after ≡ number_after rest.entry) }
    ensures within { IfOk result (λ s. length s.line.now ≤ length rest.entry.bytes.now) }
    ensures shorter { IfOk result (λ s. length s.rest.bytes.now < length rest.entry.bytes.now) }
    ensures room { IfOk result (λ s. s.rest.number + length s.rest.bytes.now < 2 ^ 32) }
{
    let mut bytes = rest.bytes;
    let mut number = rest.number;
    while let Some((line, more)) = next_line(bytes) {
        if !is_silent(line) {
            let rest = Rest {
                bytes: more,
                number: number + 1,
            };
            return Ok(Spoken { line, number, rest });
        }
        bytes = more;
        number += 1;
    }
    Err(number)
}
