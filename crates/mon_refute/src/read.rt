//! Reading the text of a log.

ghost use Rattle.std.specs.Prelude.{◌≡◌, ◌≢◌, ℕ, List, Option, MatchOption, MatchResult, IfOk};
ghost use Rattle.mon_refute.specs.Text.{literals_text, hints_text, FitsLiteral, FitsLiterals, FitsHint, FitsHints, Spells, IsLogText};
ghost use Rattle.mon_text.specs.Numbers.{FoundAt, NoneAt};
ghost use Rattle.mon_text.specs.Reads.{OnBad};
ghost use Rattle.mon_text.specs.BadLines.{IsFirstBadLine};
ghost use Rattle.mon_text.specs.Faults.{OnBadFrom, FileReadsAs, FailsIn, LinesReadPart, StopsIn};
ghost use Rattle.mon_refute.specs.Reading.{literal_word, hint_word, word_item, FitsSome, LineAt, NoLineAt, LinesAt, StopsBehind, CountAt, NoCountAt, LogAt};
ghost use Rattle.mon_refute.specs.declared.lines.LogLine.{LogLine};
ghost use Rattle.mon_cnf.specs.declared.clause.Lit.{Lit};

use crate::lines::{Hints, Log, LogLine};
use crate::number::{Word, word_at};
use mon_cnf::{Clause, Lit};
use mon_text::{FileFault, LineFault, TextFault, behind, number_at};
use std::alloc::Global;

/// The literal that the word stands for, or no literal for the 0 that ends them. Nothing where it stands for neither.
fn literal_of(w: Word) -> Option<Option<Lit>>
    ensures { MatchOption result ((x : Option Lit) → FitsSome FitsLiteral x → literal_word x ≢ w) (λ x. FitsSome FitsLiteral x × (literal_word x ≡ w)) }
{
    if w.number == 0 {
        return if w.positive { Some(None) } else { None };
    }
    let var = w.number - 1;
    if var > u64::from(u32::MAX) {
        return None;
    }
    Some(Some(Lit {
        var: var as u32,
        positive: w.positive,
    }))
}

/// The hint that the word stands for, or no hint for the 0 that ends them. Nothing where it stands for neither.
fn hint_of(w: Word) -> Option<Option<u64>>
    ensures { MatchOption result ((x : Option ℕ) → FitsSome FitsHint x → hint_word x ≢ w) (λ x. FitsSome FitsHint x × (hint_word x ≡ w)) }
{
    if !w.positive {
        return None;
    }
    if w.number == 0 {
        return Some(None);
    }
    Some(Some(w.number))
}

/// The literal at the front, or the end of the literals.
fn literal_at(bytes: &[u8]) -> Option<(Option<Lit>, &[u8])>
    ensures { MatchOption result (NoneAt (word_item literal_word) (FitsSome FitsLiteral) bytes.now) (λ x. FoundAt (word_item literal_word) (FitsSome FitsLiteral) bytes.now x.0 x.1.now) }
{
    let Some((w, rest)) = word_at(bytes) else {
        return None;
    };
    match literal_of(w) {
        None => None,
        Some(literal) => Some((literal, rest)),
    }
}

/// The hint at the front, or the end of the hints.
fn hint_at(bytes: &[u8]) -> Option<(Option<u64>, &[u8])>
    ensures { MatchOption result (NoneAt (word_item hint_word) (FitsSome FitsHint) bytes.now) (λ x. FoundAt (word_item hint_word) (FitsSome FitsHint) bytes.now x.0 x.1.now) }
{
    let Some((w, rest)) = word_at(bytes) else {
        return None;
    };
    match hint_of(w) {
        None => None,
        Some(hint) => Some((hint, rest)),
    }
}

/// The literals at the front and the 0 that ends them.
fn literals_at(alloc: Global, bytes: &[u8]) -> Result<(Clause, &[u8]), TextFault>
    ensures { MatchResult result (λ x. FoundAt literals_text FitsLiterals bytes.now x.0 x.1.now) (λ e. OnBad e (NoneAt literals_text FitsLiterals bytes.now)) }
{
    let mut clause = Clause::new(alloc);
    let mut rest = bytes;
    loop {
        let Some((item, after)) = literal_at(rest) else {
            return Err(TextFault::Bad);
        };
        let Some(literal) = item else {
            return Ok((clause, after));
        };
        clause.push(literal)?;
        rest = after;
    }
}

/// The hints at the front and the 0 that ends them.
fn hints_at(alloc: Global, bytes: &[u8]) -> Result<(Hints, &[u8]), TextFault>
    ensures { MatchResult result (λ x. FoundAt hints_text FitsHints bytes.now x.0 x.1.now) (λ e. OnBad e (NoneAt hints_text FitsHints bytes.now)) }
{
    let mut hints = Hints::new(alloc);
    let mut rest = bytes;
    loop {
        let Some((item, after)) = hint_at(rest) else {
            return Err(TextFault::Bad);
        };
        let Some(hint) = item else {
            return Ok((hints, after));
        };
        hints.push(hint)?;
        rest = after;
    }
}

/// The line at the front, with its line feed.
fn line_at(alloc: Global, bytes: &[u8]) -> Result<(LogLine, &[u8]), TextFault>
    ensures { MatchResult result (λ x. LineAt bytes.now x.0 x.1.now) (λ e. OnBad e (NoLineAt bytes.now)) }
{
    let Some(rest) = behind(b"l", bytes) else {
        return Err(TextFault::Bad);
    };
    let (literals, rest) = literals_at(alloc, rest)?;
    let (hints, rest) = hints_at(alloc, rest)?;
    match behind(b"\n", rest) {
        None => Err(TextFault::Bad),
        Some(rest) => Ok((LogLine { literals, hints }, rest)),
    }
}

/// So many lines at the front.
fn lines_at(alloc: Global, count: u64, bytes: &[u8]) -> Result<(Log, &[u8]), LineFault<'_>>
    ensures { MatchResult result (λ x. LinesAt bytes.now count x.0 x.1.now) (λ e. OnBadFrom e (StopsBehind bytes.now count)) }
{
    let mut log = Log::new(alloc);
    let mut rest = bytes;
    for _ in 0..count {
        match line_at(alloc, rest) {
            Ok((line, after)) => {
                log.push(line)?;
                rest = after;
            }
            Err(TextFault::Bad) => return Err(LineFault::Bad(rest)),
            Err(TextFault::OutOfMemory) => return Err(LineFault::OutOfMemory),
        }
    }
    Ok((log, rest))
}

/// The count in the first line of a log, and the bytes behind that line.
fn count_at(bytes: &[u8]) -> Option<(u64, &[u8])>
    ensures { MatchOption result (NoCountAt bytes.now) (λ x. CountAt bytes.now x.0 x.1.now) }
{
    let Some(number) = behind(b"log ", bytes) else {
        return None;
    };
    let Some((count, rest)) = number_at(number) else {
        return None;
    };
    match behind(b"\n", rest) {
        None => None,
        Some(rest) => Some((count, rest)),
    }
}

/// The log whose text stands at the front, as `read_log` describes it, and what stands behind it. It is refused where the
/// text of no log stands there.
pub fn log_at(alloc: Global, bytes: &[u8]) -> Result<(Log, &[u8]), LineFault<'_>>
    // What is read is spelled so.
    ensures found { IfOk result (λ x. LogAt bytes.now x.0 x.1.now) }
    // The text of a log is read as that log, unless memory runs out, whatever stands behind it.
    ensures only { (log : List LogLine) (rest : List ℕ) → LogAt bytes.now log rest → LinesReadPart result log rest }
    // What is refused is bad from the first bad line on.
    ensures stops { StopsIn IsLogText bytes.now result }
{
    let Some((count, rest)) = count_at(bytes) else {
        return Err(LineFault::Bad(bytes));
    };
    lines_at(alloc, count, rest)
}

/// The log that the text is of. A text that is of no log is refused.
///
/// A log is spelled by a line `log L`, where L is how many lines it has, and then line by line by `l`, the literals, `0`,
/// the hints and `0`, with a single space between two words. A line feed ends each line, the last one too. The first
/// variable is written `1` and its negation `-1`, and so on to `4294967296`. No number has a leading zero, L and the
/// hints are below 2^64, and no hint is 0.
pub fn read_log(alloc: Global, text: &str) -> Result<Log, FileFault>
    // What is read is spelled so.
    ensures found { IfOk result (Spells text.now) }
    // The text of a log is read as that log, unless memory runs out. So a text is bad only where it is of no log.
    ensures only { (log : List LogLine) → Spells text.now log → FileReadsAs (λ read. read ≡ log) result }
    // What is refused is bad at the first bad line.
    ensures fails { FailsIn IsLogText text.now result }
{
    let bytes = text.as_bytes();
    match log_at(alloc, bytes) {
        Ok((log, rest)) => {
            if !rest.is_empty() {
                return Err(LineFault::Bad(rest).within(bytes));
            }
            Ok(log)
        }
        Err(fault) => Err(fault.within(bytes)),
    }
}

/// A text has at most one first bad line, so the offset that `read_log` gives is a function of the text. The function does
/// nothing: it is its law.
pub fn one_line_is_the_first_bad_one()
    ensures { (text : List ℕ) (a b : ℕ) → IsFirstBadLine IsLogText text a → IsFirstBadLine IsLogText text b → a ≡ b }
{}
