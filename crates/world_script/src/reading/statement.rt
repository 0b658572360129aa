//! Statements as they are typed.
ghost use Rattle.std.specs.Prelude.{◌≡◌, ◌↔◌, codes, IsTrue, IfSome, Some};
ghost use Rattle.world_script.specs.declared.event.Statement.{Statement};
ghost use Rattle.world_script.specs.Script.{statement_text, IsTyped};

use crate::event::Statement;
use crate::reading::numbers::read_literal;
use crate::reading::pieces::{after_word, before_word, cut_at};

/// The statement that the text is.
pub fn read_statement(text: &[u8]) -> Option<Statement>
    ensures found { IfSome result (λ s. (text.now ≡ statement_text s) × IsTyped s) }
    ensures only { (s : Statement) → text.now ≡ statement_text s → IsTyped s → result ≡ Some s }
{
    if is_select(text) {
        return Some(Statement::Select);
    }
    let values = after_word(text, b"INSERT INTO kv VALUES (")?;
    let (key, rest) = cut_at(values, b',')?;
    let rest = after_word(rest, b" ")?;
    let value = before_word(rest, b")")?;
    let key = read_literal(key)?;
    let value = read_literal(value)?;
    Some(Statement::Insert { key, value })
}

/// The text is the query.
fn is_select(text: &[u8]) -> bool
    ensures { IsTrue result ↔ (text.now ≡ codes "SELECT * FROM kv") }
{
    text == b"SELECT * FROM kv".as_slice()
}
