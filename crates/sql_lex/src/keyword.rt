//! The keywords, and which of them a word is.

ghost use Rattle.std.specs.Prelude.{◌≡◌, map};
ghost use Rattle.std.specs.Str.{str_eq_ignore_ascii_case};
ghost use Rattle.sql_lex.specs.inner.Keywords as spec;

/// A word that is never a name, in any mix of case.
#[derive(Clone, Copy, Debug, PartialEq, Eq)]
pub enum Keyword {
    KSelect,
    KInsert,
    KInto,
    KValues,
    KUpdate,
    KSet,
    KDelete,
    KFrom,
    KWhere,
    KJoin,
    KOn,
    KGroup,
    KBy,
    KOrder,
    KAsc,
    KDesc,
    KLimit,
    KAs,
    KBegin,
    KOf,
    KEpoch,
    KCommit,
    KRollback,
    KExplain,
    KAnd,
    KOr,
    KNot,
    KIs,
    KNull,
    KTrue,
    KFalse,
    KCount,
    KSum,
    KMin,
    KMax,
    KInt,
    KText,
    KBool,
    KKey,
    KFor,
    KUnique,
}

// The word of each keyword, in capitals.
const KEYWORDS: [(&[u8], Keyword); 41] = [
    (b"SELECT", Keyword::KSelect),
    (b"INSERT", Keyword::KInsert),
    (b"INTO", Keyword::KInto),
    (b"VALUES", Keyword::KValues),
    (b"UPDATE", Keyword::KUpdate),
    (b"SET", Keyword::KSet),
    (b"DELETE", Keyword::KDelete),
    (b"FROM", Keyword::KFrom),
    (b"WHERE", Keyword::KWhere),
    (b"JOIN", Keyword::KJoin),
    (b"ON", Keyword::KOn),
    (b"GROUP", Keyword::KGroup),
    (b"BY", Keyword::KBy),
    (b"ORDER", Keyword::KOrder),
    (b"ASC", Keyword::KAsc),
    (b"DESC", Keyword::KDesc),
    (b"LIMIT", Keyword::KLimit),
    (b"AS", Keyword::KAs),
    (b"BEGIN", Keyword::KBegin),
    (b"OF", Keyword::KOf),
    (b"EPOCH", Keyword::KEpoch),
    (b"COMMIT", Keyword::KCommit),
    (b"ROLLBACK", Keyword::KRollback),
    (b"EXPLAIN", Keyword::KExplain),
    (b"AND", Keyword::KAnd),
    (b"OR", Keyword::KOr),
    (b"NOT", Keyword::KNot),
    (b"IS", Keyword::KIs),
    (b"NULL", Keyword::KNull),
    (b"TRUE", Keyword::KTrue),
    (b"FALSE", Keyword::KFalse),
    (b"COUNT", Keyword::KCount),
    (b"SUM", Keyword::KSum),
    (b"MIN", Keyword::KMin),
    (b"MAX", Keyword::KMax),
    (b"INT", Keyword::KInt),
    (b"TEXT", Keyword::KText),
    (b"BOOL", Keyword::KBool),
    (b"KEY", Keyword::KKey),
    (b"FOR", Keyword::KFor),
    (b"UNIQUE", Keyword::KUnique),
];

fn same_word(capitals: &[u8], word: &[u8]) -> bool
    ensures { result ≡ str_eq_ignore_ascii_case capitals.now word.now }
{
    capitals.eq_ignore_ascii_case(word)
}

fn lookup(mut table: &[(&[u8], Keyword)], word: &[u8]) -> Option<Keyword>
    ensures { result ≡ spec.lookup (map (λ entry. (entry.0.now, entry.1)) table.entry.now) word.now }
{
    while let [entry, rest @ ..] = table {
        if same_word(entry.0, word) {
            return Some(entry.1);
        }
        table = rest;
    }
    None
}

/// The keyword that the word is, in any mix of case.
#[tactic(auto, unfolding(crate::specs::inner::Keywords::keyword_of, crate::specs::inner::Keywords::keywords))]
pub(crate) fn keyword_of(word: &[u8]) -> Option<Keyword>
    ensures { result ≡ spec.keyword_of word.now }
{
    lookup(&KEYWORDS, word)
}
