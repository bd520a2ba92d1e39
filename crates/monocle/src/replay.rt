//! `replay`: the run of a trace.

ghost use Rattle.std.specs.Prelude.{◌≡◌, ◌≢◌, ◌≤◌, ◌⊎◌, ℕ, [], ◌∷◌, List, Ok, Err, IfSome, IfOk, OnOk, IsErrOf, true, codes};
ghost use Rattle.std.specs.Result.{IfErr};
ghost use Rattle.mon_world.specs.Causes.{Rose};
ghost use Rattle.mon_world.specs.declared.calls.Call.TheVariants.{Read};
ghost use Rattle.mon_world.specs.declared.history.Entry.{Entry};
ghost use Rattle.mon_trace.specs.Grammar.{trace_of};
ghost use Rattle.mon_words.specs.declared.command.Command.{Command};
ghost use Rattle.monocle.specs.Calls.{Quiet, Called};
ghost use Rattle.monocle.specs.Ending.{IsBadSay, IsTraceEnd, IsEndOf};
ghost use Rattle.monocle.specs.Replay.{IsRunOf, IsTraceFile, IsUnfollowed, answer_of};
ghost use Rattle.monocle.specs.Running.{Replays};

use crate::saying::{bad_text, content_of, out_of_memory, put, refused};
use crate::tables::push_tables;
use mon_core::{Core, LoopEnd, legal_passes_frames, run_loop};
use mon_trace::{Trace, TraceFault, TraceHub, read_trace};
use mon_world::Desk;
use std::alloc::Global;

/// The text of the history of a trace and the tables at its end, or where it has a record that can't be followed.
fn answer(alloc: Global, trace: Trace) -> Result<Vec<u8>, TraceFault>
    ensures run { IfOk result (λ bytes. (h : List Entry) × IsRunOf trace h × (bytes.items ≡ answer_of trace h)) }
    ensures bad { (offset : ℕ) → result ≡ Err (TraceFault.Bad offset) → IsUnfollowed trace offset }
{
    if let Some(offset) = trace.first_other() {
        return Err(TraceFault::Bad { offset });
    }
    let turns = trace.records() + 1;
    let mut core = Core::new(alloc);
    let mut hub = match TraceHub::new(alloc, trace) {
        Ok(hub) => hub,
        Err(_) => return Err(TraceFault::OutOfMemory),
    };
    legal_passes_frames();
    let end = run_loop(alloc, &mut core, &mut hub, turns);
    let bad = hub.bad();
    let mut bytes = hub.text();
    match end {
        LoopEnd::Stopped => match push_tables(alloc, &core, &mut bytes) {
            Ok(()) => Ok(bytes),
            Err(_) => Err(TraceFault::OutOfMemory),
        },
        LoopEnd::HubFailed => match bad {
            Some(offset) => Err(TraceFault::Bad { offset }),
            None => unreachable!(),
        },
        LoopEnd::OutOfMemory => Err(TraceFault::OutOfMemory),
        LoopEnd::TurnsUsed => unreachable!(),
    }
}

/// Says from which byte on a trace is bad, and gives the status: 5, or 7 for want of memory.
fn bad_trace<D: Desk>(alloc: Global, offset: u64, desk: &mut D) -> u8
    ensures status { (result ≡ 5) ⊎ (result ≡ 7) }
    ensures called { Called (IsBadSay (codes "monocle: trace") offset result) (D.said desk.old) (D.said desk.new) (D.calls desk.old) (D.calls desk.new) }
    ensures files { D.files desk.new ≡ D.files desk.old }
    ensures written { D.written desk.new ≡ D.written desk.old }
    ensures reads { D.read_faults desk.new ≡ D.read_faults desk.old }
    ensures writes { D.write_faults desk.new ≡ D.write_faults desk.old }
{
    match bad_text(alloc, "monocle: trace", offset) {
        Ok(said) => refused(alloc, desk, 5, said.as_bytes()),
        Err(_) => out_of_memory(alloc, desk),
    }
}

/// The trace of a text.
fn trace_in(alloc: Global, text: &[u8]) -> Result<Trace, TraceFault>
    ensures found { IfOk result (λ trace. trace_of text.now ≡ Ok trace) }
    ensures bad { (offset : ℕ) → result ≡ Err (TraceFault.Bad offset) → trace_of text.now ≡ Err offset }
{
    read_trace(alloc, text)
}

/// Reads the settings and then the trace. Where there is no trace, says why, and gives the status: 3 where a file can't be
/// read, 5 where the trace isn't one and from which byte on, 7 for want of memory.
fn traced<D: Desk>(alloc: Global, settings: &str, trace: &str, desk: &mut D) -> Result<Trace, u8>
    ensures found { IfOk result (λ x. IfSome (D.files desk.old) (λ files. IsTraceFile files settings.now trace.now x)) }
    ensures quiet { OnOk result (Quiet (Read settings.now true ∷ Read trace.now true ∷ []) (D.said desk.old) (D.said desk.new) (D.calls desk.old) (D.calls desk.new)) }
    ensures ended { IfErr result (λ status. Called (IsTraceEnd (D.files desk.old) settings.now trace.now status) (D.said desk.old) (D.said desk.new) (D.calls desk.old) (D.calls desk.new)) }
    ensures read { IsErrOf result 3 → Rose (D.read_faults desk.old) (D.read_faults desk.new) }
    ensures files { D.files desk.new ≡ D.files desk.old }
    ensures written { D.written desk.new ≡ D.written desk.old }
    ensures reads { D.read_faults desk.old ≤ D.read_faults desk.new }
    ensures writes { D.write_faults desk.new ≡ D.write_faults desk.old }
{
    let _ = content_of(alloc, settings, desk)?;
    let text = match content_of(alloc, trace, desk) {
        Ok(text) => text,
        Err(status) => return Err(status),
    };
    match trace_in(alloc, &text) {
        Ok(traced) => Ok(traced),
        Err(TraceFault::Bad { offset }) => Err(bad_trace(alloc, offset, desk)),
        Err(TraceFault::OutOfMemory) => Err(out_of_memory(alloc, desk)),
    }
}

/// Reads the settings and then the trace, runs its sessions, and writes the text of the history and the tables at its
/// end. It answers 0, 3 where a file can't be read, 5 where the trace isn't one or has a record that can't be followed,
/// 6 where writing fails, and 7 for want of memory.
pub fn replay<D: Desk>(alloc: Global, settings: &str, trace: &str, desk: &mut D) -> u8
    // What is written at status 0 is the text of a legal history of the trace's events, and behind it the expected
    // entries of each session that has not ended.
    ensures run { Replays (D.files desk.old) settings.now trace.now result (D.written desk.old) (D.written desk.new) }
    // Nothing is written at another status, but for a prefix of that where writing failed.
    ensures unwritten { result ≢ 0 → result ≢ 6 → D.written desk.new ≡ D.written desk.old }
    // Settings are read before the trace, and there is one write.
    ensures ended { Called (IsEndOf (D.files desk.old) (Command.Replay settings.now trace.now) result) (D.said desk.old) (D.said desk.new) (D.calls desk.old) (D.calls desk.new) }
    ensures read { result ≡ 3 → Rose (D.read_faults desk.old) (D.read_faults desk.new) }
    ensures write { result ≡ 6 → Rose (D.write_faults desk.old) (D.write_faults desk.new) }
    ensures words { result ≢ 2 }
{
    let traced = match traced(alloc, settings, trace, desk) {
        Ok(traced) => traced,
        Err(status) => return status,
    };
    match answer(alloc, traced) {
        Ok(bytes) => put(alloc, &bytes, 0, desk),
        Err(TraceFault::Bad { offset }) => bad_trace(alloc, offset, desk),
        Err(TraceFault::OutOfMemory) => out_of_memory(alloc, desk),
    }
}
