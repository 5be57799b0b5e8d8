//! What lines read as. Carets, numerals and further commands are with the sessions.
use crate::tables::{Table, rows_of};
use apl_syntax::{Command, Line, ReadStop, one_reading, read, some_reading};
use std::alloc::{AllocError, Global};
use std::process::Abort;
use std::test::Fail;

/// What a line reads as, without the operations of a statement.
#[derive(Clone, Copy, Debug, PartialEq, Eq, Drop)]
pub(super) enum Answer {
    Blank,
    Command(Command),
    Statement,
    Stop(ReadStop),
}

pub(super) fn read_as(alloc: Global, line: &[u8]) -> Answer {
    match read(alloc, line) {
        Ok(Line::Blank) => Answer::Blank,
        Ok(Line::Command(command)) => Answer::Command(command),
        Ok(Line::Statement(_)) => Answer::Statement,
        Err(stop) => Answer::Stop(stop),
    }
}

pub(super) fn syntax(column: usize) -> Answer {
    Answer::Stop(ReadStop::Syntax { column })
}

/// Lines, and what they read as.
const READ: &str = r"
    : → Blank
    :   → Blank
    :⍝ → Blank
    :  ⍝ )OFF → Blank
    :'⍝' → Statement
    :'''''' → Statement
    :000000000000000000000000000007 ¯0 → Statement
    :¯9223372036854775808 → Statement
    :A[1;]←+/[1]B∘.×C,[2]⍉D ⍝ A) → Statement
    :)ORIGIN 0 → Command(Origin(Zero))
    :)ORIGIN 00 → Command(Origin(Zero))
    :)ORIGIN  01  → Command(Origin(One))
    :  )ORIGIN 0000000000000000000000001 → Command(Origin(One))
    :)WIDTH 30 → Command(Width(30))
    :)WIDTH 60 → Command(Width(60))
    :)WIDTH 0000000000000000000000000130 → Command(Width(130))
    :)CLEAR → Command(Clear)
    :  )CLEAR   → Command(Clear)
    :)OFF → Command(Off)
    ⍝ each of the 45 symbols is a token, so the fault is one of the grammar, at the last of them
    :+-×÷|*!⌊⌈∧∨⍲⍱<≤=≥>≠~⍴,⍳∊↑↓⌽⊖⍉⍋⍒/⌿\⍀⊥⊤.∘←()[]; → Stop(Syntax { column: 44 })
    ";

/// Lines with symbols that are not listed.
const UNLISTED: &str = "
    :2○3 → Stop(Character { bytes: 1, column: 1 })
    :1 ⍝ ○ → Stop(Character { bytes: 6, column: 4 })
    :'○' → Stop(Character { bytes: 1, column: 1 })
    :# ○ → Stop(Character { bytes: 2, column: 2 })
    :'⍴×'○ → Stop(Character { bytes: 7, column: 4 })
    :¯¯○ → Stop(Character { bytes: 4, column: 2 })
    :)○ → Stop(Character { bytes: 1, column: 1 })
    :\u{feff}1 → Stop(Character { bytes: 0, column: 0 })
    :1\t2 → Stop(Character { bytes: 1, column: 1 })
    :1\t → Stop(Character { bytes: 1, column: 1 })
    :1\r → Stop(Character { bytes: 1, column: 1 })
    :1+\r → Stop(Character { bytes: 2, column: 2 })
    :\x7F → Stop(Character { bytes: 0, column: 0 })
    ";

/// Checks what the lines of a table read as, in the words of `Debug`.
fn check(rt: &impl Abort, alloc: Global, table: Table) -> Result<(), Fail> {
    for (line, wanted) in rows_of(alloc, table)? {
        let answer = read_as(alloc, line.as_bytes());
        let got = format!(in alloc; "{answer:?}")?;
        assert!(rt; got.as_str() == wanted, "at {line}");
    }
    Ok(())
}

#[test]
fn lines_without_a_fault(rt: HostRuntime) -> Result<(), Fail> {
    check(&rt, rt.alloc(), (READ, 20))?;
    let operations = match read(rt.alloc(), "A+A←3".as_bytes()) {
        Ok(Line::Statement(program)) => program.operations().len(),
        _ => 0,
    };
    assert!(rt; operations == 4);
    one_reading();
    some_reading();
    Ok(())
}

#[test]
fn symbols_that_are_not_listed(rt: HostRuntime) -> Result<(), Fail> {
    let alloc = rt.alloc();
    check(&rt, alloc, (UNLISTED, 13))?;
    let no_text: [(&[u8], usize, usize); 4] = [
        (b"A\xff", 1, 1),
        (b"1+\xe2\x8d", 2, 2),
        (b"\xc0\x80", 0, 0),
        (b"\xed\xa0\x80", 0, 0),
    ];
    for (line, bytes, column) in no_text {
        let wanted = Answer::Stop(ReadStop::Character { bytes, column });
        assert!(rt; read_as(alloc, line) == wanted);
    }
    for unlisted in "¨°‘’→⇐∇∈∩∪⊂⊃⋄⌶⍎⍕⍟⍞⎕⍵⍺○".chars() {
        let mut line = String::new(alloc);
        line.push(unlisted)?;
        let wanted = Answer::Stop(ReadStop::Character {
            bytes: 0,
            column: 0,
        });
        assert!(rt; read_as(alloc, line.as_bytes()) == wanted, "at {unlisted}");
    }
    Ok(())
}

/// As many times the front, then the middle, then as many times the back.
fn nested(
    alloc: Global,
    depth: usize,
    front: &str,
    middle: &str,
    back: &str,
) -> Result<String, AllocError> {
    let mut line = String::new(alloc);
    for _ in 0..depth {
        line.push_str(front)?;
    }
    line.push_str(middle)?;
    for _ in 0..depth {
        line.push_str(back)?;
    }
    Ok(line)
}

#[test]
fn ten_thousand_brackets(rt: HostRuntime) -> Result<(), Fail> {
    let rows = [
        ("(", "1", ")", Answer::Statement),
        ("(", "1", "", syntax(9999)),
        ("", "1", ")", syntax(0)),
        ("A[", "1", "]", Answer::Statement),
        ("A[", "1", "", syntax(19999)),
        ("", "1", "]", syntax(0)),
        ("A,[", "1", "]+B", Answer::Statement),
        ("(A[", "1", "])", Answer::Statement),
        ("", "", ")", Answer::Command(Command::Incorrect)),
    ];
    for (front, middle, back, wanted) in rows {
        let line = nested(rt.alloc(), 10000, front, middle, back)?;
        assert!(rt;
            read_as(rt.alloc(), line.as_bytes()) == wanted,
            "of {front}{middle}{back}"
        );
    }
    Ok(())
}
