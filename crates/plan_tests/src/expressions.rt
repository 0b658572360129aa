//! Expressions as words, each operator behind its operands: a column is its number behind a `#`.
use geo_base::{Cell, Txt};
use sql_expr::{Expr, Op, Test};
use sqlite_items::Boxed;
use std::alloc::Global;
use std::test::Fail;

/// The operators of one operand.
fn unary(word: &str, a: Boxed<Expr>) -> Expr {
    match word {
        "neg" => Expr::Neg(a),
        "not" => Expr::Not(a),
        "is_null" => Expr::IsNull(a, false),
        _ => Expr::IsNull(a, true),
    }
}

fn op_of(word: &str) -> Option<Op> {
    match word {
        "+" => Some(Op::Plus),
        "-" => Some(Op::Minus),
        "*" => Some(Op::Times),
        "/" => Some(Op::Divide),
        _ => None,
    }
}

fn test_of(word: &str) -> Option<Test> {
    match word {
        "=" => Some(Test::Equal),
        "<>" => Some(Test::Differ),
        "<" => Some(Test::Less),
        "<=" => Some(Test::LessEqual),
        ">" => Some(Test::More),
        ">=" => Some(Test::MoreEqual),
        _ => None,
    }
}

/// The operators of two operands.
fn binary(word: &str, a: Boxed<Expr>, b: Boxed<Expr>) -> Expr {
    if let Some(op) = op_of(word) {
        return Expr::Arith(op, a, b);
    }
    if let Some(test) = test_of(word) {
        return Expr::Cmp(test, a, b);
    }
    match word {
        "and" => Expr::And(a, b),
        _ => Expr::Or(a, b),
    }
}

/// A literal, or a column.
fn operand(alloc: Global, word: &str) -> Result<Expr, Fail> {
    if let Some(place) = word.strip_prefix('#') {
        return Ok(Expr::Col(place.parse()?));
    }
    if let Some(text) = word.strip_prefix('\'') {
        return Ok(Expr::Lit(Cell::Text(Txt::new(alloc, text)?)));
    }
    Ok(Expr::Lit(match word {
        "null" => Cell::Null,
        "true" => Cell::Truth(true),
        _ => Cell::Int(word.parse()?),
    }))
}

fn is_unary(word: &str) -> bool {
    matches!(word, "neg" | "not" | "is_null" | "is_not_null")
}

fn is_binary(word: &str) -> bool {
    op_of(word).is_some() || test_of(word).is_some() || matches!(word, "and" | "or")
}

/// The last of those that wait for an operator.
fn last(alloc: Global, waiting: &mut Vec<Expr>) -> Result<Boxed<Expr>, Fail> {
    let last = waiting.pop().ok_or("an operator without operands")?;
    Ok(Boxed::new(alloc, last)?)
}

/// Puts the word's expression onto those that wait for an operator.
fn push_word(alloc: Global, waiting: &mut Vec<Expr>, word: &str) -> Result<(), Fail> {
    if is_unary(word) {
        let a = last(alloc, waiting)?;
        return Ok(waiting.push(unary(word, a))?);
    }
    if is_binary(word) {
        let b = last(alloc, waiting)?;
        let a = last(alloc, waiting)?;
        return Ok(waiting.push(binary(word, a, b))?);
    }
    Ok(waiting.push(operand(alloc, word)?)?)
}

fn expression(alloc: Global, words: &str) -> Result<Expr, Fail> {
    let mut waiting = Vec::new(alloc);
    for word in words.split_whitespace() {
        push_word(alloc, &mut waiting, word)?;
    }
    if waiting.len() > 1 {
        return Err("operands without an operator".into());
    }
    Ok(waiting.pop().ok_or("no expression")?)
}

/// The expressions of a text, which has commas between them.
pub fn expressions(alloc: Global, text: &str) -> Result<Vec<Expr>, Fail> {
    let mut list = Vec::new(alloc);
    if !text.trim().is_empty() {
        for words in text.split(',') {
            list.push(expression(alloc, words)?)?;
        }
    }
    Ok(list)
}
