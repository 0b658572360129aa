//! What texts are, in the terms of the grammar, and that the reader's steps come to the same.

ghost use Rattle.std.specs.Prelude.{◌≡◌, ◌↔◌, ℕ, List, Ok, Err};
ghost use Rattle.geo_base.specs.Results.{OneAnswer};
ghost use Rattle.sql_ast.specs.declared.statement.Statement.{Statement};
ghost use Rattle.sql_ast.specs.Printing.{printed};
ghost use Rattle.sql_lex.specs.declared.token.TokenKind.{TokenKind};
ghost use Rattle.sql_parse.specs.declared.fault.ParseFault.{ParseFault};
ghost use Rattle.sql_parse.specs.declared.stop.Stop.TheVariants.{Stuck, Deep};
ghost use Rattle.sql_parse.specs.Grammar.{IsSpelled, IsShallow, IsStuck, IsFirstDeep};
ghost use Rattle.sql_parse.specs.inner.Parsing.{parsed};
ghost use Rattle.sql_parse.specs.inner.Reading.{whole};
ghost use Rattle.sql_parse.specs.Refusals.{IsTextOf, IsRefused};

/// Every text spells a statement or has a fault: one of the two, and no other beside it.
pub fn texts_have_one_answer()
    ensures { (text : List ℕ) → OneAnswer (IsTextOf text) (IsRefused text) }
{}

/// The canonical text of a statement that a text spells spells that statement too.
pub fn printed_statements_are_read_back()
    ensures { (text : List ℕ) (statement : Statement) → IsTextOf text statement → IsTextOf (printed statement) statement }
{}

/// The reader's steps come to what the grammar says of tokens: they are read as a statement exactly where
/// they spell it and no expression is too deep; reading stops for the grammar's sake exactly at the first
/// token with which no statement begins, where no expression is too deep before it; and for an expression's
/// depth exactly at the first operator or opening parenthesis that is one too many.
pub fn tokens_are_read_by_the_grammar()
    ensures spelled { (tokens : List TokenKind) (statement : Statement) →
        (whole tokens ≡ Ok statement) ↔ (IsSpelled tokens statement × IsShallow tokens) }
    ensures stuck { (tokens : List TokenKind) (left : ℕ) →
        (whole tokens ≡ Err (Stuck left)) ↔ (IsStuck tokens left × IsShallow tokens) }
    ensures deep { (tokens : List TokenKind) (left : ℕ) →
        (whole tokens ≡ Err (Deep left)) ↔ IsFirstDeep tokens left }
{}

/// The reader's steps come to what the grammar says of texts: a text is read as a statement exactly where
/// it spells it, and with a fault exactly where it has that fault.
pub fn texts_are_read_by_the_grammar()
    ensures spelled { (text : List ℕ) (statement : Statement) → (parsed text ≡ Ok statement) ↔ IsTextOf text statement }
    ensures refused { (text : List ℕ) (fault : ParseFault) → (parsed text ≡ Err fault) ↔ IsRefused text fault }
{}
