//! The scalar functions of elements, at worked values.
use crate::notation::{number_of, rows_of, scalar_of};
use apl_array::Elem;
use apl_pool::Fault;
use apl_scalar::function_types::{
    And, Bang, Ceiling, Divide, Equal, Floor, Function, Greater, GreaterOrEqual, Less, LessOrEqual,
    Minus, Nand, Nor, NotEqual, Or, Plus, Star, Stile, Tilde, Times,
};
use apl_scalar::{Prim, apply1, apply2, identity};
use std::alloc::Global;
use std::test::Fail;

/// Functions of one number.
const MONADIC: &str = "\
    + ¯9223372036854775808 → ¯9223372036854775808
    - 7 → ¯7
    - ¯9223372036854775808 → LIMIT ERROR
    × ¯7 → ¯1
    × 0 → 0
    × 7 → 1
    ÷ 1 → 1
    ÷ ¯1 → ¯1
    ÷ 2 → DOMAIN ERROR
    ÷ 0 → DOMAIN ERROR
    | ¯7 → 7
    | ¯9223372036854775808 → LIMIT ERROR
    ! ¯1 → DOMAIN ERROR
    ! 0 → 1
    ! 20 → 2432902008176640000
    ! 21 → LIMIT ERROR
    ! 9223372036854775807 → LIMIT ERROR
    ⌊ 5 → 5
    ⌈ ¯5 → ¯5
    ~ 0 → 1
    ~ 1 → 0
    ~ 2 → DOMAIN ERROR
    ";

/// Functions of two numbers, at an ordinary value and at another one.
const DYADIC: &str = "\
    2 + 3 → 5
    9223372036854775807 + 1 → LIMIT ERROR
    2 - 3 → ¯1
    ¯9223372036854775808 - 1 → LIMIT ERROR
    ¯4 × 3 → ¯12
    ¯9223372036854775808 × ¯1 → LIMIT ERROR
    12 ÷ ¯3 → ¯4
    7 ÷ 2 → DOMAIN ERROR
    3 | ¯7 → 2
    0 | ¯5 → ¯5
    ¯2 * 3 → ¯8
    2 * 63 → LIMIT ERROR
    2 ! 5 → 10
    ¯1 ! 3 → DOMAIN ERROR
    2 ⌊ ¯3 → ¯3
    2 ⌈ ¯3 → 2
    1 ∧ 1 → 1
    0 ∧ 2 → DOMAIN ERROR
    0 ∨ 1 → 1
    1 ∨ 5 → DOMAIN ERROR
    1 ⍲ 1 → 0
    2 ⍲ 1 → DOMAIN ERROR
    0 ⍱ 0 → 1
    ¯1 ⍱ 0 → DOMAIN ERROR
    1 < 2 → 1
    2 < 2 → 0
    2 ≤ 2 → 1
    3 ≤ 2 → 0
    ¯9223372036854775808 = ¯9223372036854775808 → 1
    2 = 3 → 0
    2 ≥ 2 → 1
    2 ≥ 3 → 0
    3 > 2 → 1
    2 > 2 → 0
    3 ≠ 2 → 1
    2 ≠ 2 → 0
    1 ~ 0 → DOMAIN ERROR
    ";

/// Functions, and their identities.
const IDENTITIES: &str = "\
    + → 0
    - → 0
    × → 1
    ÷ → 1
    | → 0
    * → 1
    ! → 1
    ⌊ → 9223372036854775807
    ⌈ → ¯9223372036854775808
    ∧ → 1
    ∨ → 0
    ⍲ → none
    ⍱ → none
    < → 0
    ≤ → 1
    = → 1
    ≥ → 1
    > → 0
    ≠ → 0
    ";

/// The lines of a table, as many as it says.
fn lines_of(
    alloc: Global,
    (table, count): (&'static str, usize),
) -> Result<Vec<&'static str>, Fail> {
    let lines = rows_of(alloc, table)?;
    if lines.len() != count {
        return Err(Fail::new("a table has another number of rows"));
    }
    Ok(lines)
}

/// The number, or the fault of a report.
fn outcome_of(text: &str) -> Option<Result<i64, Fault>> {
    if text == "LIMIT ERROR" {
        return Some(Err(Fault::Limit));
    }
    if text == "DOMAIN ERROR" {
        return Some(Err(Fault::Domain));
    }
    Some(Ok(number_of(text)?))
}

/// The function of a symbol.
fn function_of(symbol: &str) -> Option<Prim> {
    scalar_of(symbol.chars().next()?)
}

/// The function and the number of a row `F Y → ANSWER`, and its answer.
fn monadic_of(row: &str) -> Option<(Prim, i64, Result<i64, Fault>)> {
    let (call, answer) = row.split_once(" → ")?;
    let (f, y) = call.split_once(' ')?;
    Some((function_of(f)?, number_of(y)?, outcome_of(answer)?))
}

/// The numbers and the function of a row `X F Y → ANSWER`, and its answer.
fn dyadic_of(row: &str) -> Option<(i64, Prim, i64, Result<i64, Fault>)> {
    let (x, rest) = row.split_once(' ')?;
    let (f, y, answer) = monadic_of(rest)?;
    Some((number_of(x)?, f, y, answer))
}

#[test]
fn monadic_functions(rt: HostRuntime) -> Result<(), Fail> {
    for row in lines_of(rt.alloc(), (MONADIC, 22))? {
        let Some((f, x, wanted)) = monadic_of(row) else {
            return Err(Fail::new(format_args!("not a row: {row}")));
        };
        assert!(rt; f.is_monadic());
        let answers = (apply1(f, Elem::Int(x)), apply1(f, Elem::Chr('A')));
        assert!(rt;
            answers == (wanted.map(Elem::Int), Err(Fault::Domain)),
            "{row}"
        );
    }
    Ok(())
}

/// What a function of two numbers answers by its type.
fn by_type(f: Prim, x: i64, y: i64) -> Result<i64, Fault> {
    match f {
        Prim::Plus => Plus::apply(x, y),
        Prim::Minus => Minus::apply(x, y),
        Prim::Times => Times::apply(x, y),
        Prim::Divide => Divide::apply(x, y),
        Prim::Stile => Stile::apply(x, y),
        Prim::Star => Star::apply(x, y),
        Prim::Bang => Bang::apply(x, y),
        Prim::Floor => Floor::apply(x, y),
        Prim::Ceiling => Ceiling::apply(x, y),
        Prim::And => And::apply(x, y),
        Prim::Or => Or::apply(x, y),
        Prim::Nand => Nand::apply(x, y),
        Prim::Nor => Nor::apply(x, y),
        Prim::Less => Less::apply(x, y),
        Prim::LessOrEqual => LessOrEqual::apply(x, y),
        Prim::Equal => Equal::apply(x, y),
        Prim::GreaterOrEqual => GreaterOrEqual::apply(x, y),
        Prim::Greater => Greater::apply(x, y),
        Prim::NotEqual => NotEqual::apply(x, y),
        Prim::Tilde => Tilde::apply(x, y),
    }
}

/// By its type, and by its name where it has one of two arguments.
#[test]
fn dyadic_functions(rt: HostRuntime) -> Result<(), Fail> {
    for row in lines_of(rt.alloc(), (DYADIC, 37))? {
        let Some((x, f, y, wanted)) = dyadic_of(row) else {
            return Err(Fail::new(format_args!("not a row: {row}")));
        };
        assert!(rt; by_type(f, x, y) == wanted, "{row}");
        if f.is_dyadic() {
            let answer = apply2(f, Elem::Int(x), Elem::Int(y));
            assert!(rt; answer == wanted.map(Elem::Int), "{row}");
        }
    }
    Ok(())
}

#[test]
fn functions_without_a_meaning(rt: HostRuntime) {
    assert!(rt; !Prim::Star.is_monadic() && !Prim::Tilde.is_dyadic());
}

#[test]
fn characters(rt: HostRuntime) {
    let (a, b, n) = (Elem::Chr('A'), Elem::Chr('B'), Elem::Int(65));
    for (x, f, y, wanted) in [
        (a, Prim::Equal, a, Ok(1)),
        (a, Prim::NotEqual, b, Ok(1)),
        (n, Prim::Equal, a, Ok(0)),
        (a, Prim::NotEqual, n, Ok(1)),
        (a, Prim::Less, b, Err(Fault::Domain)),
        (a, Prim::Plus, n, Err(Fault::Domain)),
    ] {
        assert!(rt; f.is_dyadic());
        assert!(rt;
            apply2(f, x, y) == wanted.map(Elem::Int),
            "{x:?} {f:?} {y:?}"
        );
    }
}

#[test]
fn identities(rt: HostRuntime) -> Result<(), Fail> {
    for row in lines_of(rt.alloc(), (IDENTITIES, 19))? {
        let Some((symbol, text)) = row.split_once(" → ") else {
            return Err(Fail::new(format_args!("not a row: {row}")));
        };
        let Some(f) = function_of(symbol) else {
            return Err(Fail::new(format_args!("not a function: {row}")));
        };
        let wanted = number_of(text);
        assert!(rt; f.is_dyadic() && (wanted.is_some() || text == "none"));
        assert!(rt; identity(f) == wanted, "{row}");
    }
    Ok(())
}
