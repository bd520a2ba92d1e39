//! Worked logs and texts.

ghost use Rattle.std.specs.Prelude.{IfOk};
ghost use Rattle.mon_cnf.specs.Truth.{Within};

use super::*;
use mon_cnf::{Clause, Formula, Lit};
use mon_text::LineFault;
use std::alloc::Global;
use std::test::*;

/// The clause of a literal of each of two variables.
fn pair(alloc: Global, first: bool, second: bool) -> Result<Clause, OutOfMemory>
    ensures { IfOk result (Within 2) }
{
    let mut clause = Clause::new(alloc);
    clause.push(Lit {
        var: 0,
        positive: first,
    })?;
    clause.push(Lit {
        var: 1,
        positive: second,
    })?;
    Ok(clause)
}

/// Two variables, and all four clauses of both.
fn all_of_two(alloc: Global) -> Result<Formula, OutOfMemory> {
    let mut f = Formula::new(alloc, 2);
    f.push(pair(alloc, true, true)?)?;
    f.push(pair(alloc, true, false)?)?;
    f.push(pair(alloc, false, true)?)?;
    f.push(pair(alloc, false, false)?)?;
    Ok(f)
}

const LOGS: [(&str, bool); 13] = [
    ("log 2\nl 1 0 1 2 0\nl 0 5 3 4 0\n", true),
    // A literal twice.
    ("log 2\nl 1 1 0 1 2 0\nl 0 5 3 4 0\n", true),
    // Hints behind the one that contradicts.
    ("log 2\nl 1 0 1 2 9 0\nl 0 5 3 4 0\n", true),
    // A hint less.
    ("log 2\nl 1 0 1 0\nl 0 5 3 4 0\n", false),
    ("log 2\nl 1 0 1 2 0\nl 0 5 3 0\n", false),
    // A literal turned.
    ("log 2\nl -1 0 1 2 0\nl 0 5 3 4 0\n", false),
    // A line less, so that the last line names itself.
    ("log 1\nl 0 5 3 4 0\n", false),
    // No empty line, and no line.
    ("log 1\nl 1 0 1 2 0\n", false),
    ("log 0\n", false),
    // A later line.
    ("log 2\nl 1 0 6 0\nl 0 5 3 4 0\n", false),
    // A literal of no variable, and one beside its opposite.
    ("log 2\nl 1 3 0 1 2 0\nl 0 5 3 4 0\n", false),
    ("log 2\nl 1 -1 0 1 2 0\nl 0 5 3 4 0\n", false),
    // An empty line without hints.
    ("log 1\nl 0 0\n", false),
];

#[test]
fn accepts_logs(rt: HostRuntime) {
    let f = all_of_two(rt.alloc()).expect(&rt, "memory");
    let mut marks = [7u8, 1];
    for (text, accepted) in LOGS {
        let log = read_log(rt.alloc(), text).expect(&rt, "a log");
        assert!(rt; f.vars() as usize == marks.len());
        assert!(rt; accepts(&f, &log, &mut marks) == accepted, "{text}");
        assert_eq!(rt;
            write_log(rt.alloc(), &log).expect(&rt, "memory").as_str(),
            text
        );
    }
}

/// Texts of no log, and where the first bad line begins.
const BAD: [(&str, u64); 23] = [
    ("", 0),
    ("log", 0),
    ("log 0", 0),
    ("log 00\n", 0),
    ("log -0\n", 0),
    ("log 1\n", 6),
    ("log 0\n\n", 6),
    ("log 0\nl 0 0\n", 6),
    ("Log 0\n", 0),
    ("log  0\n", 0),
    ("log 18446744073709551616\n", 0),
    ("log 1\nl 0 3 0", 6),
    ("log 1\nl 0 3  0\n", 6),
    ("log 1\nl 0 3 0 \n", 6),
    ("log 1\nl  0 3 0\n", 6),
    ("log 1\nl 0 3\n", 6),
    ("log 1\nl -0 0 0\n", 6),
    ("log 1\nl 01 0 3 0\n", 6),
    ("log 1\nl +1 0 3 0\n", 6),
    ("log 1\nl 4294967297 0 3 0\n", 6),
    ("log 1\nl 0 -3 0\n", 6),
    ("log 1\nl 0 18446744073709551616 0\n", 6),
    ("log 3\nl 0 3 0\nl 0 3\nl 0\n", 14),
];

#[test]
fn reads_texts(rt: HostRuntime) {
    for (text, at) in BAD {
        assert!(rt;
            matches!(read_log(rt.alloc(), text), Err(LogFault::Bad { offset }) if offset == at),
            "{text}"
        );
    }
    let text = "log 2\nl 4294967296 -4294967296 0 18446744073709551615 1 0\nl 0 3 0\n";
    let log = read_log(rt.alloc(), text).expect(&rt, "a log");
    assert_eq!(rt; log.items().len(), 2);
    assert_eq!(rt;
        write_log(rt.alloc(), &log).expect(&rt, "memory").as_str(),
        text
    );
}

#[test]
fn reads_a_log_before_others(rt: HostRuntime) {
    let texts = b"log 1\nl 0 3 0\nlog 0\n";
    let (log, rest) = log_at(rt.alloc(), texts).expect(&rt, "a log");
    assert_eq!(rt; log.items().len(), 1);
    assert_eq!(rt; rest, b"log 0\n".as_slice());
    match log_at(rt.alloc(), b"log 2\nl 0 3 0\nlog 0\n") {
        Err(LineFault::Bad(rest)) => assert_eq!(rt; rest, b"log 0\n".as_slice()),
        _ => assert!(rt; false),
    }
}
