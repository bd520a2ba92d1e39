//! Writing the text of a log.

ghost use Rattle.std.specs.Prelude.{◌≡◌, ◌++◌, ◌+◌, OnOk, IfOk, string_bytes};
ghost use Rattle.mon_refute.specs.Text.{literal_text, hint_text, literals_text, hints_text, line_text, FitsLiteral, FitsLiterals, FitsHint, FitsHints, FitsLine, Spells};
ghost use Rattle.mon_refute.specs.Lines.{AreHints};

use crate::lines::{Log, LogLine};
use mon_cnf::Lit;
use mon_list::OutOfMemory;
use std::alloc::Global;

/// Appends a literal as a word.
fn put_literal(text: &mut String, literal: Lit) -> Result<(), OutOfMemory>
    ensures text { OnOk result (string_bytes text.new ≡ string_bytes text.old ++ literal_text literal) }
    ensures fits { FitsLiteral literal }
{
    let number = u64::from(literal.var) + 1;
    if literal.positive {
        write!(text, " {number}")?;
    } else {
        write!(text, " -{number}")?;
    }
    Ok(())
}

/// Appends literals, and the 0 that ends them.
fn put_literals(text: &mut String, literals: &[Lit]) -> Result<(), OutOfMemory>
    ensures text { OnOk result (string_bytes text.new ≡ string_bytes text.old ++ literals_text literals.now) }
    ensures fits { OnOk result (FitsLiterals literals.now) }
{
    for literal in literals {
        put_literal(text, *literal)?;
    }
    write!(text, " {}", 0u64)?;
    Ok(())
}

/// Appends hints, none of which is 0, and the 0 that ends them.
fn put_hints(text: &mut String, hints: &[u64]) -> Result<(), OutOfMemory>
    requires { AreHints hints.now }
    ensures text { OnOk result (string_bytes text.new ≡ string_bytes text.old ++ hints_text hints.now) }
    ensures fits { OnOk result (FitsHints hints.now) }
{
    for hint in hints {
        write!(text, " {hint}")?;
    }
    write!(text, " {}", 0u64)?;
    Ok(())
}

/// Appends a line, with its line feed.
fn put_line(text: &mut String, line: &LogLine) -> Result<(), OutOfMemory>
    ensures text { OnOk result (string_bytes text.new ≡ string_bytes text.old ++ line_text line.now) }
    ensures fits { OnOk result (FitsLine line.now) }
{
    text.push_str("l")?;
    put_literals(text, line.literals.items())?;
    put_hints(text, line.hints.items())?;
    text.push_str("\n")?;
    Ok(())
}

/// The text of a log, which `read_log` reads as this log.
pub fn write_log(alloc: Global, log: &Log) -> Result<String, OutOfMemory>
    ensures { IfOk result (λ text. Spells (string_bytes text) log.now) }
{
    let lines = log.items();
    let mut text = format!(in alloc; "log {}\n", lines.len())?;
    for line in lines {
        put_line(&mut text, line)?;
    }
    Ok(text)
}
