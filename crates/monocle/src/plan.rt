//! `plan`: which rules of a table a packet can show.

ghost use Rattle.std.specs.Prelude.{◌≡◌, ◌≢◌, ◌++◌, IfOk, OnOk, string_bytes};
ghost use Rattle.mon_world.specs.Causes.{Rose};
ghost use Rattle.mon_words.specs.declared.command.Command.{Command};
ghost use Rattle.monocle.specs.Planning.{IsPlan, count_line, summary_text};
ghost use Rattle.monocle.specs.Running.{Plans};
ghost use Rattle.monocle.specs.Calls.{Called};
ghost use Rattle.monocle.specs.Ending.{IsEndOf};

use crate::saying::{out_of_memory, put};
use crate::source::table_of;
use mon_plan::{Summary, plan_table, write_certificates};
use mon_shows::View;
use mon_table::Table;
use mon_words::Source;
use mon_world::{Desk, OutOfMemory};
use std::alloc::Global;
use std::thread::Threads;

/// Appends a word and a number, in a line of their own.
fn push_count(alloc: Global, text: &mut String, word: &str, n: u32) -> Result<(), OutOfMemory>
    ensures { OnOk result (string_bytes text.new ≡ string_bytes text.old ++ count_line word.now n) }
{
    let line = format!(in alloc; "{word} {n}\n")?;
    text.push_str(&line)?;
    Ok(())
}

/// A line for each number of a summary.
fn summary_text(alloc: Global, s: &Summary) -> Result<String, OutOfMemory>
    ensures { IfOk result (λ text. string_bytes text ≡ summary_text s.now) }
{
    let mut text = String::new(alloc);
    push_count(alloc, &mut text, "rules", s.rules)?;
    push_count(alloc, &mut text, "probes", s.probes)?;
    push_count(alloc, &mut text, "indistinguishable", s.indistinguishable)?;
    push_count(alloc, &mut text, "overlap", s.overlap)?;
    Ok(text)
}

/// The summary of a table, or certificates of all its rules.
fn plan_text<R: Threads + Sync>(
    rt: &R,
    alloc: Global,
    v: &View,
    t: &Table,
    workers: u32,
    certificates: bool,
) -> Result<Vec<u8>, OutOfMemory>
    ensures { IfOk result (λ bytes. IsPlan certificates v.now t.now bytes.items) }
{
    let planned = plan_table(rt, alloc, v, t, workers)?;
    if certificates {
        return write_certificates(alloc, &planned);
    }
    let text = summary_text(alloc, &Summary::of(&planned))?;
    Ok(text.into_bytes())
}

/// Plans the table of a source, and writes the certificates of its rules where they are asked for, else its summary. It
/// answers 0, 3 where the table's file can't be read, 5 where it is no table, 6 where writing fails, and 7 for want of
/// memory.
pub fn plan<R: Threads + Sync, D: Desk>(
    rt: &R,
    alloc: Global,
    source: &Source,
    workers: u32,
    certificates: bool,
    desk: &mut D,
) -> u8
    ensures run { Plans (D.files desk.old) source.now certificates result (D.written desk.old) (D.written desk.new) }
    ensures unwritten { result ≢ 0 → result ≢ 6 → D.written desk.new ≡ D.written desk.old }
    ensures ended { Called (IsEndOf (D.files desk.old) (Command.Plan source.now workers certificates) result) (D.said desk.old) (D.said desk.new) (D.calls desk.old) (D.calls desk.new) }
    ensures read { result ≡ 3 → Rose (D.read_faults desk.old) (D.read_faults desk.new) }
    ensures write { result ≡ 6 → Rose (D.write_faults desk.old) (D.write_faults desk.new) }
    ensures words { result ≢ 2 }
{
    let (view, table) = match table_of(alloc, source, desk) {
        Ok(found) => found,
        Err(status) => return status,
    };
    match plan_text(rt, alloc, &view, &table, workers, certificates) {
        Ok(bytes) => put(alloc, &bytes, 0, desk),
        Err(_) => out_of_memory(alloc, desk),
    }
}
