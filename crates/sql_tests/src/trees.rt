//! What statements are as trees.
use geo_base::Cell;
use sql_ast::{Ast, AstOp, SelectStmt, Statement};
use sql_parse::{ParseFault, parse};
use std::alloc::Global;
use std::test::Fail;

// What a row looks at: the kind of a statement, the outermost form of the condition of a DELETE, how many columns
// an INSERT names, and of a query its limit, or else how its first column sorts.
#[derive(Clone, Copy, Debug, PartialEq, Eq)]
enum Seen {
    Begin,
    BeginAsOf(u64),
    Commit,
    Rollback,
    Between(AstOp),
    NullTest(bool),
    Not,
    Minus,
    Number(i64),
    Columns(usize),
    Limit(u64),
    ForUpdate,
    Descending(bool),
    Other,
}

fn form_of(filter: &Ast) -> Seen {
    match filter {
        Ast::Binary(op, _, _) => Seen::Between(*op),
        Ast::IsNull(_, is_not) => Seen::NullTest(*is_not),
        Ast::Not(_) => Seen::Not,
        Ast::Neg(_) => Seen::Minus,
        Ast::Lit(Cell::Int(number)) => Seen::Number(*number),
        _ => Seen::Other,
    }
}

fn seen_in_filter(filter: &Option<Ast>) -> Seen {
    match filter {
        Some(filter) => form_of(filter),
        None => Seen::Other,
    }
}

fn seen_in_query(query: &SelectStmt) -> Seen {
    match (query.limit, query.order.items().first()) {
        (Some(limit), _) => Seen::Limit(limit),
        (None, Some(order)) => Seen::Descending(order.descending),
        (None, None) => Seen::Other,
    }
}

fn view(statement: &Statement) -> Seen {
    match statement {
        Statement::Begin => Seen::Begin,
        Statement::BeginAsOf(epoch) => Seen::BeginAsOf(*epoch),
        Statement::Commit => Seen::Commit,
        Statement::Rollback => Seen::Rollback,
        Statement::Delete(delete) => seen_in_filter(&delete.filter),
        Statement::Insert(insert) => Seen::Columns(insert.columns.items().len()),
        Statement::Select(query) => seen_in_query(query),
        Statement::SelectForUpdate(_) => Seen::ForUpdate,
        _ => Seen::Other,
    }
}

fn look(statement: Statement) -> Seen {
    let seen = view(&statement);
    drop(statement);
    seen
}

// The texts of these tests have fewer bytes.
const MOST_BYTES: usize = 1_000;

fn seen_of(alloc: Global, text: &str) -> Result<Seen, ParseFault> {
    if text.len() > MOST_BYTES {
        return Err(ParseFault::NoMemory);
    }
    match parse(alloc, text) {
        Ok(statement) => Ok(look(statement)),
        Err(fault) => Err(fault),
    }
}

// What a text is as a tree, as Rust writes what is looked at.
const TREES: &str = "\
BEGIN => Begin
BEGIN AS OF EPOCH 0 => BeginAsOf(0)
BEGIN AS OF EPOCH 12 => BeginAsOf(12)
BEGIN AS OF EPOCH 9223372036854775807 => BeginAsOf(9223372036854775807)
COMMIT => Commit
ROLLBACK => Rollback
DELETE FROM t WHERE a + 1 => Between(Plus)
DELETE FROM t WHERE a - 1 => Between(Minus)
DELETE FROM t WHERE a * 1 => Between(Times)
DELETE FROM t WHERE a / 1 => Between(Divide)
DELETE FROM t WHERE a = 1 => Between(Equal)
DELETE FROM t WHERE a <> 1 => Between(Differ)
DELETE FROM t WHERE a < 1 => Between(Less)
DELETE FROM t WHERE a <= 1 => Between(LessEqual)
DELETE FROM t WHERE a > 1 => Between(More)
DELETE FROM t WHERE a >= 1 => Between(MoreEqual)
DELETE FROM t WHERE a AND b => Between(And)
DELETE FROM t WHERE a OR b => Between(Or)
DELETE FROM t WHERE a IS NULL => NullTest(false)
DELETE FROM t WHERE a IS NOT NULL => NullTest(true)
DELETE FROM t WHERE NOT a => Not
DELETE FROM t WHERE -a => Minus
DELETE FROM t WHERE -(5) => Minus
DELETE FROM t WHERE -5 => Number(-5)
DELETE FROM t WHERE (5) => Number(5)
INSERT INTO t VALUES (1) => Columns(0)
INSERT INTO t (a) VALUES (1) => Columns(1)
INSERT INTO t (a, b) VALUES (1, 2) => Columns(2)
SELECT * FROM t ORDER BY a => Descending(false)
SELECT * FROM t ORDER BY a ASC => Descending(false)
SELECT * FROM t ORDER BY a DESC => Descending(true)
SELECT * FROM t ORDER BY a, b DESC => Descending(false)
SELECT * FROM t LIMIT 0 => Limit(0)
SELECT * FROM t FOR UPDATE => ForUpdate
SELECT * FROM t ORDER BY a LIMIT 7 FOR UPDATE => ForUpdate
SELECT * FROM t ORDER BY a LIMIT 7 => Limit(7)";

fn is_tree(alloc: Global, line: &str) -> Result<bool, Fail> {
    let (text, wanted) = line.split_once(" => ").ok_or("a line without a tree")?;
    match seen_of(alloc, text) {
        Ok(seen) => Ok(format!(in alloc; "{seen:?}")?.as_str() == wanted),
        Err(_) => Ok(false),
    }
}

#[test]
fn statements_are_these_trees(rt: HostRuntime) -> Result<(), Fail> {
    for line in TREES.lines() {
        assert!(rt; is_tree(rt.alloc(), line)?, "{line}");
    }
    Ok(())
}
