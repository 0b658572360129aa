//! The first words of event lines.
ghost use Rattle.std.specs.Prelude.{◌≡◌, map};
ghost use Rattle.std.specs.Str.{bytes_eq};
ghost use Rattle.geo_script.specs.inner.Verbs as spec;

/// The first word of an event line.
#[derive(Clone, Copy)]
pub(crate) enum Verb {
    Sql,
    Outcome,
    Seal,
    Deliver,
    Fetch,
    Work,
    Publish,
    Show,
    Crash,
    Restart,
}

/// Each verb as it is written.
pub(crate) const VERBS: [(&[u8], Verb); 10] = [
    (b"sql", Verb::Sql),
    (b"outcome", Verb::Outcome),
    (b"seal", Verb::Seal),
    (b"deliver", Verb::Deliver),
    (b"fetch", Verb::Fetch),
    (b"work", Verb::Work),
    (b"publish", Verb::Publish),
    (b"show", Verb::Show),
    (b"crash", Verb::Crash),
    (b"restart", Verb::Restart),
];

fn is_same(written: &[u8], word: &[u8]) -> bool
    ensures { result ≡ bytes_eq written.now word.now }
{
    written == word
}

/// The verb of the table that the word is.
fn lookup(mut table: &[(&[u8], Verb)], word: &[u8]) -> Option<Verb>
    ensures { result ≡ spec.verb_in (map (λ entry. (entry.0.now, entry.1)) table.entry.now) word.now }
{
    while let [entry, rest @ ..] = table {
        if is_same(entry.0, word) {
            return Some(entry.1);
        }
        table = rest;
    }
    None
}

/// The verb that the word is.
#[tactic(auto, unfolding(crate::specs::inner::Verbs::verb_of, crate::specs::inner::Verbs::verbs))]
pub(crate) fn verb_of(word: &[u8]) -> Option<Verb>
    ensures { result ≡ spec.verb_of word.now }
{
    lookup(&VERBS, word)
}
