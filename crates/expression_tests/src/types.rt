//! Which types operators take together, and what they give: `i` is the type of numbers, `t` that of texts, `b`
//! that of truths, `a` that of NULL, and `-` none.
use geo_base::{Cell, Txt};
use sql_expr::{ValueType, compared_operands, literal_type, one_operand, takes, two_operands};
use std::alloc::Global;
use std::test::Fail;

const LETTERS: [char; 4] = ['i', 't', 'b', 'a'];

fn type_of(letter: char) -> ValueType {
    match letter {
        'i' => ValueType::Int,
        't' => ValueType::Text,
        'b' => ValueType::Truth,
        _ => ValueType::Any,
    }
}

fn letter(of: Option<ValueType>) -> char {
    match of {
        Some(ValueType::Int) => 'i',
        Some(ValueType::Text) => 't',
        Some(ValueType::Truth) => 'b',
        Some(ValueType::Any) => 'a',
        None => '-',
    }
}

/// Two types; then what arithmetic, what AND or OR, and what a comparison gives of them.
const PAIRS: &str = "\
ii i-b
it ---
ib ---
ia i-b
ti ---
tt --b
tb ---
ta --b
bi ---
bt ---
bb -bb
ba -bb
ai i-b
at --b
ab -bb
aa ibb
";

fn push_pair(out: &mut String, a: char, b: char) -> Result<(), Fail> {
    let numbers = letter(two_operands(ValueType::Int, type_of(a), type_of(b)));
    let truths = letter(two_operands(ValueType::Truth, type_of(a), type_of(b)));
    let compared = letter(compared_operands(type_of(a), type_of(b)));
    out.push(a)?;
    out.push(b)?;
    out.push(' ')?;
    out.push(numbers)?;
    out.push(truths)?;
    out.push(compared)?;
    Ok(out.push('\n')?)
}

fn pairs(alloc: Global) -> Result<String, Fail> {
    let mut out = String::new(alloc);
    for a in LETTERS {
        for b in LETTERS {
            push_pair(&mut out, a, b)?;
        }
    }
    Ok(out)
}

#[test]
fn two_operands_are_of_one_type(rt: HostRuntime) -> Result<(), Fail> {
    assert_eq!(rt; pairs(rt.alloc())?.as_str(), PAIRS);
    Ok(())
}

/// A type; what a minus and what NOT gives of it; and whether it may stand where numbers, texts and truths are
/// wanted.
const ONES: &str = "\
i i- yes no no
t -- no yes no
b -b no no yes
a ib yes yes yes
";

fn push_answer(out: &mut String, yes: bool) -> Result<(), Fail> {
    Ok(out.push_str(if yes { " yes" } else { " no" })?)
}

fn push_one(out: &mut String, a: char) -> Result<(), Fail> {
    out.push(a)?;
    out.push(' ')?;
    out.push(letter(one_operand(ValueType::Int, type_of(a))))?;
    out.push(letter(one_operand(ValueType::Truth, type_of(a))))?;
    push_answer(out, takes(ValueType::Int, type_of(a)))?;
    push_answer(out, takes(ValueType::Text, type_of(a)))?;
    push_answer(out, takes(ValueType::Truth, type_of(a)))?;
    Ok(out.push('\n')?)
}

fn ones(alloc: Global) -> Result<String, Fail> {
    let mut out = String::new(alloc);
    for a in LETTERS {
        push_one(&mut out, a)?;
    }
    Ok(out)
}

#[test]
fn one_operand_is_of_the_wanted_type(rt: HostRuntime) -> Result<(), Fail> {
    assert_eq!(rt; ones(rt.alloc())?.as_str(), ONES);
    Ok(())
}

fn push_literal(out: &mut String, literal: &Cell) -> Result<(), Fail> {
    Ok(out.push(letter(Some(literal_type(literal))))?)
}

fn literals(alloc: Global) -> Result<String, Fail> {
    let mut out = String::new(alloc);
    let text = Cell::Text(Txt::new(alloc, "")?);
    push_literal(&mut out, &Cell::Int(0))?;
    push_literal(&mut out, &text)?;
    push_literal(&mut out, &Cell::Truth(false))?;
    push_literal(&mut out, &Cell::Null)?;
    Ok(out)
}

#[test]
fn literals_are_of_their_types(rt: HostRuntime) -> Result<(), Fail> {
    assert_eq!(rt; literals(rt.alloc())?.as_str(), "itba");
    Ok(())
}
