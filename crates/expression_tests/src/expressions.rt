//! Values of expressions, their faults, and the rows that are kept.
use geo_base::{Cell, Duplicate, Txt};
use sql_expr::{EvalFault, Expr, Op, Test, eval, keeps};
use sqlite_items::Boxed;
use std::alloc::Global;
use std::cmp::Ordering;
use std::test::Fail;

fn arith(alloc: Global, op: Op, x: i64, y: i64) -> Result<Expr, Fail> {
    let a = Boxed::new(alloc, Expr::Lit(Cell::Int(x)))?;
    let b = Boxed::new(alloc, Expr::Lit(Cell::Int(y)))?;
    Ok(Expr::Arith(op, a, b))
}

/// What an operator makes of two numbers, and 0 for what is none.
fn calculated(alloc: Global, op: Op, x: i64, y: i64) -> Result<Result<i64, EvalFault>, Fail> {
    let expr = arith(alloc, op, x, y)?;
    Ok(match eval(alloc, &expr, &[], &[]) {
        Ok(Cell::Int(number)) => Ok(number),
        Ok(_) => Ok(0),
        Err(fault) => Err(fault),
    })
}

#[test]
fn numbers_are_exact_or_at_fault(rt: HostRuntime) -> Result<(), Fail> {
    let alloc = rt.alloc();
    let overflow = Err(EvalFault::Overflow);
    let by_zero = Err(EvalFault::DivideByZero);
    for (op, x, y, want) in [
        (Op::Plus, i64::MAX, -1, Ok(9223372036854775806)),
        (Op::Plus, i64::MAX, 1, overflow),
        (Op::Plus, i64::MIN, -1, overflow),
        (Op::Minus, -1, i64::MIN, Ok(i64::MAX)),
        (Op::Minus, 0, i64::MIN, overflow),
        (Op::Minus, i64::MIN, 1, overflow),
        (Op::Times, 3037000499, 3037000499, Ok(9223372030926249001)),
        (Op::Times, 3037000500, 3037000500, overflow),
        (Op::Times, i64::MIN, -1, overflow),
        (Op::Times, -4611686018427387904, 2, Ok(i64::MIN)),
        (Op::Divide, 7, 2, Ok(3)),
        (Op::Divide, -7, 2, Ok(-3)),
        (Op::Divide, 7, -2, Ok(-3)),
        (Op::Divide, -7, -2, Ok(3)),
        (Op::Divide, i64::MIN, -1, overflow),
        (Op::Divide, i64::MIN, 1, Ok(i64::MIN)),
        (Op::Divide, i64::MIN, 0, by_zero),
    ] {
        let found = calculated(alloc, op, x, y)?;
        assert_eq!(rt; found, want, "of {x} {op:?} {y}");
    }
    Ok(())
}

/// Operands over the cells 7, NULL of a left table and 'b', TRUE of a right one; where no text is asked for, NULL stands
/// for 'b'.
#[derive(Clone, Copy, Debug)]
enum Side {
    Seven,
    Null,
    Letter,
    Yes,
    // the column behind the last
    Behind,
    No,
    Number(i64),
    // 'az', which is less than 'b'
    Letters,
    // 1 / 0
    Divided,
    // 9223372036854775807 + 1
    Overflow,
    // 1 / 0 = 7
    DividedTruth,
}

#[derive(Clone, Copy, Debug)]
enum Shape {
    // the left operand by itself
    Left,
    Arith(Op),
    Cmp(Test),
    And,
    Or,
    NotOfLeft,
    NegOfLeft,
    LeftIsNull,
    LeftIsNotNull,
}

fn operand(alloc: Global, side: Side) -> Result<Expr, Fail> {
    match side {
        Side::Seven => Ok(Expr::Col(0)),
        Side::Null => Ok(Expr::Col(1)),
        Side::Letter => Ok(Expr::Col(2)),
        Side::Yes => Ok(Expr::Col(3)),
        Side::Behind => Ok(Expr::Col(4)),
        Side::No => Ok(Expr::Lit(Cell::Truth(false))),
        Side::Number(number) => Ok(Expr::Lit(Cell::Int(number))),
        Side::Letters => Ok(Expr::Lit(Cell::Text(Txt::new(alloc, "az")?))),
        Side::Divided => arith(alloc, Op::Divide, 1, 0),
        Side::Overflow => arith(alloc, Op::Plus, i64::MAX, 1),
        Side::DividedTruth => {
            let quotient = Boxed::new(alloc, arith(alloc, Op::Divide, 1, 0)?)?;
            Ok(Expr::Cmp(Test::Equal, quotient, Boxed::new(alloc, Expr::Col(0))?))
        }
    }
}

fn shaped(alloc: Global, shape: Shape, left: Side, right: Side) -> Result<Expr, Fail> {
    let Shape::Left = shape else {
        let a = Boxed::new(alloc, operand(alloc, left)?)?;
        let b = Boxed::new(alloc, operand(alloc, right)?)?;
        return Ok(joined(shape, a, b));
    };
    operand(alloc, left)
}

fn joined(shape: Shape, a: Boxed<Expr>, b: Boxed<Expr>) -> Expr {
    match shape {
        Shape::Arith(op) => Expr::Arith(op, a, b),
        Shape::Cmp(test) => Expr::Cmp(test, a, b),
        Shape::And => Expr::And(a, b),
        Shape::Or => Expr::Or(a, b),
        Shape::NotOfLeft => Expr::Not(a),
        Shape::NegOfLeft => Expr::Neg(a),
        Shape::LeftIsNull => Expr::IsNull(a, false),
        _ => Expr::IsNull(a, true),
    }
}

/// What was answered, by a letter: 7, 'b' and 'az' by '7', 'b' and 'a'.
fn letter(answer: Result<Cell, EvalFault>) -> char {
    match answer {
        Ok(Cell::Null) => 'n',
        Ok(Cell::Int(7)) => '7',
        Ok(Cell::Text(text)) => match text.text() {
            "b" => 'b',
            "az" => 'a',
            _ => '?',
        },
        Ok(Cell::Truth(true)) => 't',
        Ok(Cell::Truth(false)) => 'f',
        Err(EvalFault::Overflow) => 'o',
        Err(EvalFault::DivideByZero) => 'd',
        _ => '?',
    }
}

/// What is answered of a copy of the expression.
fn answered(alloc: Global, shape: Shape, left: Side, right: Side) -> Result<char, Fail> {
    let expr = shaped(alloc, shape, left, right)?.copy(alloc)?;
    let left_cells = [Cell::Int(7), Cell::Null];
    let right_cells = [Cell::Text(Txt::new(alloc, "b")?), Cell::Truth(true)];
    Ok(letter(eval(alloc, &expr, &left_cells, &right_cells)))
}

#[test]
fn truths_and_faults_go_by_the_tables(rt: HostRuntime) -> Result<(), Fail> {
    let alloc = rt.alloc();
    for (shape, left, right, want) in [
        (Shape::Left, Side::Seven, Side::Null, '7'),
        (Shape::Left, Side::Null, Side::Null, 'n'),
        (Shape::Left, Side::Letter, Side::Null, 'b'),
        (Shape::Left, Side::Letters, Side::Null, 'a'),
        (Shape::Left, Side::Yes, Side::Null, 't'),
        (Shape::Left, Side::Behind, Side::Null, 'n'),
        (Shape::Left, Side::Divided, Side::Null, 'd'),
        (Shape::And, Side::Yes, Side::Yes, 't'),
        (Shape::And, Side::Yes, Side::No, 'f'),
        (Shape::And, Side::Yes, Side::Null, 'n'),
        (Shape::And, Side::No, Side::Null, 'f'),
        (Shape::And, Side::Null, Side::Yes, 'n'),
        (Shape::And, Side::Null, Side::No, 'f'),
        (Shape::And, Side::Null, Side::Null, 'n'),
        (Shape::And, Side::No, Side::DividedTruth, 'f'),
        (Shape::And, Side::Yes, Side::DividedTruth, 'd'),
        (Shape::And, Side::Null, Side::DividedTruth, 'd'),
        (Shape::And, Side::DividedTruth, Side::No, 'd'),
        (Shape::Or, Side::No, Side::No, 'f'),
        (Shape::Or, Side::No, Side::Yes, 't'),
        (Shape::Or, Side::No, Side::Null, 'n'),
        (Shape::Or, Side::Yes, Side::Null, 't'),
        (Shape::Or, Side::Null, Side::Yes, 't'),
        (Shape::Or, Side::Null, Side::No, 'n'),
        (Shape::Or, Side::Null, Side::Null, 'n'),
        (Shape::Or, Side::Yes, Side::DividedTruth, 't'),
        (Shape::Or, Side::No, Side::DividedTruth, 'd'),
        (Shape::Or, Side::Null, Side::DividedTruth, 'd'),
        (Shape::Or, Side::DividedTruth, Side::Yes, 'd'),
        (Shape::NotOfLeft, Side::Yes, Side::Null, 'f'),
        (Shape::NotOfLeft, Side::No, Side::Null, 't'),
        (Shape::NotOfLeft, Side::Null, Side::Null, 'n'),
        (Shape::NegOfLeft, Side::Number(-7), Side::Null, '7'),
        (Shape::NegOfLeft, Side::Number(i64::MIN), Side::Null, 'o'),
        (Shape::NegOfLeft, Side::Null, Side::Null, 'n'),
        (Shape::Arith(Op::Plus), Side::Null, Side::Divided, 'd'),
        (Shape::Arith(Op::Minus), Side::Null, Side::Number(1), 'n'),
        (Shape::Arith(Op::Divide), Side::Null, Side::Number(0), 'n'),
        (Shape::Cmp(Test::Equal), Side::Null, Side::Null, 'n'),
        (Shape::Cmp(Test::Equal), Side::Null, Side::Divided, 'd'),
        (Shape::Cmp(Test::Less), Side::Divided, Side::Overflow, 'd'),
        (Shape::Cmp(Test::Less), Side::Overflow, Side::Divided, 'o'),
        (Shape::LeftIsNull, Side::Null, Side::Null, 't'),
        (Shape::LeftIsNull, Side::Letter, Side::Null, 'f'),
        (Shape::LeftIsNull, Side::Divided, Side::Null, 'd'),
        (Shape::LeftIsNotNull, Side::Letter, Side::Null, 't'),
        (Shape::LeftIsNotNull, Side::Null, Side::Null, 'f'),
    ] {
        let found = answered(alloc, shape, left, right)?;
        assert_eq!(rt; found, want, "of {shape:?}, {left:?} and {right:?}");
    }
    Ok(())
}

#[test]
fn tests_go_by_the_order_of_cells(rt: HostRuntime) -> Result<(), Fail> {
    let alloc = rt.alloc();
    let pairs = [
        (Side::Number(i64::MIN), Side::Seven, Ordering::Less),
        (Side::Number(7), Side::Seven, Ordering::Equal),
        (Side::Number(8), Side::Seven, Ordering::Greater),
        (Side::Letters, Side::Letter, Ordering::Less),
        (Side::Letter, Side::Letter, Ordering::Equal),
        (Side::Letter, Side::Letters, Ordering::Greater),
        (Side::No, Side::Yes, Ordering::Less),
        (Side::No, Side::No, Ordering::Equal),
        (Side::Yes, Side::No, Ordering::Greater),
    ];
    for (test, less, equal, more) in [
        (Test::Equal, 'f', 't', 'f'),
        (Test::Differ, 't', 'f', 't'),
        (Test::Less, 't', 'f', 'f'),
        (Test::LessEqual, 't', 't', 'f'),
        (Test::More, 'f', 'f', 't'),
        (Test::MoreEqual, 'f', 't', 't'),
    ] {
        for (left, right, order) in pairs {
            let want = match order {
                Ordering::Less => less,
                Ordering::Equal => equal,
                Ordering::Greater => more,
            };
            let found = answered(alloc, Shape::Cmp(test), left, right)?;
            assert_eq!(rt; found, want, "of {left:?} {test:?} {right:?}");
        }
    }
    Ok(())
}

type Kept = Result<bool, EvalFault>;

/// Whether a row is kept by no test, and by these two.
fn kept(alloc: Global, first: Side, second: Side) -> Result<(Kept, Kept), Fail> {
    let left_cells = [Cell::Int(7), Cell::Null];
    let right_cells = [Cell::Null, Cell::Truth(true)];
    let tests = vec![in alloc; operand(alloc, first)?, operand(alloc, second)?]?;
    let of_none = keeps(&[], &left_cells, &right_cells);
    Ok((of_none, keeps(&tests, &left_cells, &right_cells)))
}

#[test]
fn rows_are_dropped_at_the_first_test_that_is_not_true(rt: HostRuntime) -> Result<(), Fail> {
    let alloc = rt.alloc();
    let by_zero = Err(EvalFault::DivideByZero);
    for (first, second, want) in [
        (Side::Yes, Side::Yes, Ok(true)),
        (Side::Yes, Side::No, Ok(false)),
        (Side::Yes, Side::Null, Ok(false)),
        (Side::Yes, Side::DividedTruth, by_zero),
        (Side::No, Side::DividedTruth, Ok(false)),
        (Side::Null, Side::DividedTruth, Ok(false)),
        (Side::DividedTruth, Side::No, by_zero),
    ] {
        let found = kept(alloc, first, second)?;
        assert_eq!(rt; found, (Ok(true), want), "of {first:?} and {second:?}");
    }
    Ok(())
}
