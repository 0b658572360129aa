//! Parts that may be missing, and lists.

ghost use Rattle.std.specs.Prelude.{◌≡◌, Ok, Err, MatchResult};
ghost use Rattle.sql_parse.specs.inner.Reading as spec;
ghost use Rattle.sql_parse.specs.inner.Reading.{Parses};

use crate::cursor::Cursor;
use crate::stop::Stop;
use geo_base::Many;
use sql_lex::{Keyword, Symbol};
use std::alloc::Global;

/// A part of a statement that can stand in a list, or be missing.
pub(crate) trait Part: Drop {
    ghost use Rattle.std.specs.Prelude.{List, Result};
    ghost use Rattle.sql_lex.specs.declared.token.TokenKind.{TokenKind};
    ghost use Rattle.sql_parse.specs.declared.stop.Stop.{Stop};
    ghost use Rattle.sql_parse.specs.inner.Reading.{Parses};

    ghost reader: { List TokenKind → Result (Self × List TokenKind) Stop };

    /// Reads the part that the tokens begin with.
    fn read(alloc: Global, cursor: &mut Cursor<'_>) -> Result<Self, Stop>
    where
        Self: Sized,
        ensures { Parses (reader cursor.old) result cursor.new };
}

/// The part that the keyword introduces, if that comes next.
pub(crate) fn read_after<T: Part>(
    alloc: Global,
    cursor: &mut Cursor<'_>,
    keyword: Keyword,
) -> Result<Option<T>, Stop>
    ensures { Parses (spec.after keyword T.reader cursor.old) result cursor.new }
{
    if !cursor.eat_keyword(keyword) {
        return Ok(None);
    }
    Ok(Some(T::read(alloc, cursor)?))
}

/// The value, where the parenthesis closes behind it.
pub(crate) fn read_closed<T: Drop>(cursor: &mut Cursor<'_>, value: T) -> Result<T, Stop>
    ensures { Parses (spec.and_then (spec.symbol Symbol.Close cursor.old) (λ _. spec.pure value)) result cursor.new }
{
    cursor.expect_symbol(Symbol::Close)?;
    Ok(value)
}

/// The two, where the second was read. Where it wasn't, the first is dropped by a call, which is quick to prove.
pub(crate) fn beside<A: Drop, B: Drop>(first: A, second: Result<B, Stop>) -> Result<(A, B), Stop>
    ensures { MatchResult result (λ both. (both.0 ≡ first) × (second ≡ Ok both.1)) (λ stop. second ≡ Err stop) }
{
    Ok((first, second?))
}

/// One part or more, with commas between them.
pub(crate) fn read_separated<T: Part>(
    alloc: Global,
    cursor: &mut Cursor<'_>,
) -> Result<Many<T>, Stop>
    ensures { Parses (spec.separated T.reader cursor.old) result cursor.new }
{
    let mut parts = Vec::new(alloc);
    parts.push(T::read(alloc, cursor)?)?;
    for _turn in 0..cursor.left() {
        if !cursor.eat_symbol(Symbol::Comma) {
            break;
        }
        parts.push(T::read(alloc, cursor)?)?;
    }
    Ok(Many::new(parts))
}

/// The list that the keyword and BY introduce, if the keyword comes next.
pub(crate) fn read_clause<T: Part>(
    alloc: Global,
    cursor: &mut Cursor<'_>,
    keyword: Keyword,
) -> Result<Many<T>, Stop>
    ensures { Parses (spec.clause keyword T.reader cursor.old) result cursor.new }
{
    if !cursor.eat_keyword(keyword) {
        return Ok(Many::new(Vec::new(alloc)));
    }
    cursor.expect_keyword(Keyword::KBy)?;
    read_separated(alloc, cursor)
}
