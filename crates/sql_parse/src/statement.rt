//! All statements.

ghost use Rattle.std.specs.Prelude.{◌≡◌, ◌∷◌, List, drop};
ghost use Rattle.geo_base.specs.Results.{Gives};
ghost use Rattle.sql_lex.specs.declared.token.TokenKind.{TokenKind};
ghost use Rattle.sql_parse.specs.Places.{kinds_of};
ghost use Rattle.sql_parse.specs.inner.Reading as spec;
ghost use Rattle.sql_parse.specs.inner.Reading.{Parses};

use crate::cursor::Cursor;
use crate::list::beside;
use crate::names::read_number;
use crate::query::read_select;
use crate::stop::Stop;
use crate::writes::{read_delete, read_insert, read_update};
use sql_ast::{SelectStmt, Statement};
use sql_lex::{Keyword, Token, TokenKind};
use std::alloc::Global;

// Whether FOR UPDATE comes next.
#[tactic(auto, unfolding(crate::specs::inner::Reading::for_update))]
fn read_for_update(cursor: &mut Cursor<'_>) -> Result<bool, Stop>
    ensures { Parses (spec.for_update cursor.old) result cursor.new }
{
    if !cursor.eat_keyword(Keyword::KFor) {
        return Ok(false);
    }
    cursor.expect_keyword(Keyword::KUpdate)?;
    Ok(true)
}

// The statement that the query is, with FOR UPDATE behind it or without.
fn query_statement(select: SelectStmt, for_update: bool) -> Statement
    ensures { result ≡ spec.query_statement select for_update }
{
    if for_update {
        Statement::SelectForUpdate(select)
    } else {
        Statement::Select(select)
    }
}

// What stands behind the word SELECT that begins a statement.
#[tactic(auto, unfolding(crate::specs::inner::Reading::query))]
fn read_query(alloc: Global, cursor: &mut Cursor<'_>) -> Result<Statement, Stop>
    ensures { Parses (spec.query cursor.old) result cursor.new }
{
    let select = read_select(alloc, cursor)?;
    let (select, for_update) = beside(select, read_for_update(cursor))?;
    Ok(query_statement(select, for_update))
}

// What stands behind the word BEGIN.
#[tactic(auto, unfolding(crate::specs::inner::Reading::begin))]
fn read_begin(cursor: &mut Cursor<'_>) -> Result<Statement, Stop>
    ensures { Parses (spec.begin cursor.old) result cursor.new }
{
    if !cursor.eat_keyword(Keyword::KAs) {
        return Ok(Statement::Begin);
    }
    cursor.expect_keyword(Keyword::KOf)?;
    cursor.expect_keyword(Keyword::KEpoch)?;
    Ok(Statement::BeginAsOf(read_number(cursor)?))
}

// A statement that is the one word that comes next.
fn read_word(cursor: &mut Cursor<'_>, statement: Statement) -> Statement
    ensures value { result ≡ statement }
    ensures rest { cursor.new ≡ drop 1 cursor.old }
{
    cursor.skip();
    statement
}

// The statement that this keyword begins, which comes next.
#[tactic(auto, unfolding(crate::specs::inner::Reading::begins, crate::specs::inner::Reading::keyword))]
fn read_by_keyword(
    alloc: Global,
    cursor: &mut Cursor<'_>,
    keyword: Keyword,
) -> Result<Statement, Stop>
    requires { (more : List TokenKind) × (cursor.old ≡ TokenKind.Keyword keyword ∷ more) }
    ensures { Parses (spec.statement_by (TokenKind.Keyword keyword) cursor.old) result cursor.new }
{
    match keyword {
        Keyword::KSelect => {
            cursor.skip();
            read_query(alloc, cursor)
        }
        Keyword::KInsert => {
            cursor.skip();
            Ok(Statement::Insert(read_insert(alloc, cursor)?))
        }
        Keyword::KUpdate => {
            cursor.skip();
            Ok(Statement::Update(read_update(alloc, cursor)?))
        }
        Keyword::KDelete => {
            cursor.skip();
            Ok(Statement::Delete(read_delete(alloc, cursor)?))
        }
        Keyword::KBegin => {
            cursor.skip();
            read_begin(cursor)
        }
        Keyword::KCommit => Ok(read_word(cursor, Statement::Commit)),
        Keyword::KRollback => Ok(read_word(cursor, Statement::Rollback)),
        Keyword::KExplain => {
            cursor.skip();
            cursor.expect_keyword(Keyword::KSelect)?;
            Ok(Statement::Explain(read_select(alloc, cursor)?))
        }
        _ => Err(cursor.refuse()),
    }
}

// Reads a statement.
#[tactic(auto, unfolding(crate::specs::inner::Reading::statement))]
fn read_statement(alloc: Global, cursor: &mut Cursor<'_>) -> Result<Statement, Stop>
    ensures { Parses (spec.statement cursor.old) result cursor.new }
{
    match cursor.peek() {
        Some(TokenKind::Keyword(keyword)) => read_by_keyword(alloc, cursor, *keyword),
        _ => Err(cursor.refuse()),
    }
}

/// Reads the statement that all the tokens are.
#[tactic(auto, unfolding(crate::specs::inner::Reading::whole))]
pub(crate) fn read_whole(alloc: Global, tokens: &[Token]) -> Result<Statement, Stop>
    ensures { Gives Stop.NoMemory (λ statement. statement) result (spec.whole (kinds_of tokens.now)) }
{
    let mut cursor = Cursor::new(tokens);
    let statement = read_statement(alloc, &mut cursor)?;
    if cursor.left() > 0 {
        drop(statement);
        return Err(cursor.refuse());
    }
    Ok(statement)
}
