//! A hub that gives the events of a trace, and prints what it is given.

ghost use Rattle.std.specs.Prelude.{◌≡◌, ◌≤◌, ◌<◌, ◌+◌, ◌∷◌, [], Some, None, true, IfOk, IfSome, IfNone, OnOk, OnErr, MatchBool, Ok, ◌≢◌, length, reverse};
ghost use Rattle.mon_world.specs.declared.event.Event.TheVariants.{Stop};
ghost use Rattle.mon_world.specs.declared.history.Entry.TheVariants.{Given, Noted};
ghost use Rattle.mon_world.specs.Causes.{counted, HubCause};
ghost use Rattle.mon_world.specs.Logs.{inputs, opened_in, entry_of, NamesOpened, IsOpenGate, AndCall, StopsNow, NoStop};
ghost use Rattle.mon_trace.specs.Run.{Running, text, event_at, events_of, losing_before, lost_in, unanswered, jobs_after, is_lost, IsRefused, IsNextBad, WasBad, LosesBy};

use crate::grammar::Trace;
use crate::outputs::Outputs;
use mon_list::OutOfMemory;
use mon_settings::Settings;
use mon_world::{Event, Gates, Hub, HubFault, Note, Out, PutFault, Side};
use std::alloc::Global;
use std::marker::Model;

/// Gives the events of a trace in order and then Stop for ever, and writes a line for each output and note. It loses the
/// frames that the trace tells it to lose.
///
/// Its log needs no copy of the events: the inputs so far are the first events of the trace. A call for an event fails
/// where the next record can't be given: a piece of a gated session's controller, or an answer without its job. No other
/// call fails but for want of memory, and then it is as it was.
#[derive(Drop)]
pub struct TraceHub {
    trace: Trace,
    // How many inputs were given.
    given: u64,
    // The number of the record that is handled, and how many `lose` records stand before it.
    number: u64,
    losing: u64,
    // How many outputs were lost.
    lost: u64,
    // How many jobs have no verdict.
    jobs: u64,
    outputs: Outputs,
    calls: Vec<Gates>,
    faults: u64,
    bad: Option<u64>,
}

impl Model for TraceHub {
    ghost use Rattle.std.specs.Prelude.{◌≡◌, ◌+◌, IfSome, None, reverse};
    ghost use Rattle.mon_trace.specs.Outputs.{lines_text};
    ghost use Rattle.mon_trace.specs.Run.{Running, WasBad};
    ghost use Rattle.mon_trace.specs.Woven.{InOrder, IsRun, woven};

    ghost Value = { Running };

    ghost view = { λ t. record {
      trace = t.trace;
      log = woven t.trace.events t.given t.outputs;
      calls = reverse t.calls.items;
      faults = t.faults;
      bad = t.bad;
    } };

    ghost invariant = { λ t. record {
      order : InOrder t.given t.outputs;
      run : IsRun t.trace t.given t.losing t.lost t.jobs (lines_text t.outputs) (woven t.trace.events t.given t.outputs);
      numbered : t.number ≡ t.given + t.losing;
      was_bad : IfSome t.bad (λ offset. WasBad t.trace offset (woven t.trace.events t.given t.outputs));
      failed : t.bad ≡ None → t.faults ≡ 0;
    } };
}

impl TraceHub {
    /// A hub before its first event.
    pub fn new(alloc: Global, trace: Trace) -> Result<TraceHub, OutOfMemory>
        ensures { IfOk result (λ hub. hub ≡ record { trace = trace; log = []; calls = []; faults = 0; bad = None }) }
    {
        trace.keeps();
        Ok(TraceHub {
            trace,
            given: 0,
            number: 0,
            losing: 0,
            lost: 0,
            jobs: 0,
            outputs: Outputs::new(alloc),
            calls: Vec::new(alloc),
            faults: 0,
            bad: None,
        })
    }

    /// Where the line of the last record begins that could not be given. None where each could.
    pub fn bad(&self) -> Option<u64>
        ensures value { result ≡ self.now.bad }
        ensures was { IfSome result (λ offset. WasBad self.now.trace offset self.now.log) }
        ensures none { IfNone result (self.now.faults ≡ 0) }
    {
        self.bad
    }

    /// The text of the history. It takes no memory.
    pub fn text(self) -> Vec<u8>
        ensures text { result.items ≡ text self.trace self.log }
        // Frames are lost as the trace says.
        ensures loses { LosesBy self.trace self.log }
        // Once Stop came, the inputs are the events of the trace in order and then Stop.
        ensures whole { StopsNow (inputs self.log) → inputs self.log ≡ Stop ∷ reverse (events_of self.trace) }
        ensures few { NoStop (inputs self.log) → length (inputs self.log) ≤ length self.trace.events }
    {
        self.trace.keeps();
        self.outputs.into_text()
    }

    /// The event of the next record, and Stop behind the last.
    fn peek(&self, alloc: Global) -> Result<Event, OutOfMemory>
        ensures next { IfOk result (λ event. event ≡ event_at self.now.trace.events (length (inputs self.now.log))) }
        ensures names { IfOk result (NamesOpened (opened_in self.now.log)) }
    {
        self.trace.events().event(alloc, self.given as usize)
    }

    /// Whether the next event can't be given.
    fn refuses(&self, event: &Event, gates: &Gates) -> bool
        ensures { MatchBool result (IsRefused gates.now (unanswered self.now.log) event.now) (IsRefused gates.now (unanswered self.now.log) event.now → ⊥) }
    {
        match event {
            Event::Piece {
                session,
                side: Side::Controller,
                ..
            } => gates.items().contains(session),
            Event::Answer { index } => self.jobs <= u64::from(*index),
            _ => false,
        }
    }

    /// Where the next record begins, which can't be given.
    fn offset(&self, event: &Event, gates: &Gates) -> u64
        requires next { event.now ≡ event_at self.now.trace.events (length (inputs self.now.log)) }
        requires refused { IsRefused gates.now (unanswered self.now.log) event.now }
        ensures { IsNextBad self.now.trace gates.now result self.now.log }
    {
        match self.trace.events().mark(self.given as usize) {
            Some((offset, _)) => offset as u64,
            None => unreachable!(),
        }
    }

    /// The count of inputs with the next one, and how many `lose` records stand before it. Inputs and records are
    /// numbered by 64 bits: where these are used up there is no room for one more.
    fn following(&self) -> Result<(u64, u64, u64), OutOfMemory>
        ensures given { IfOk result (λ n. n.0 ≡ length (inputs self.now.log) + 1) }
        ensures losing { IfOk result (λ n. n.1 ≡ losing_before self.now.trace n.0) }
        ensures number { IfOk result (λ n. n.2 ≡ n.0 + n.1) }
    {
        let Some(given) = self.given.checked_add(1) else {
            return Err(OutOfMemory);
        };
        let losing = match self.trace.events().mark(self.given as usize) {
            Some((_, losing)) => losing,
            None => self.trace.losing(),
        };
        let Some(number) = given.checked_add(losing) else {
            return Err(OutOfMemory);
        };
        Ok((given, losing, number))
    }

    /// Tells the gates of a call, or changes nothing for want of memory.
    fn tell(&mut self, alloc: Global, gates: &Gates) -> Result<(), OutOfMemory>
        ensures told { OnOk result (self.new ≡ record self.old { calls = gates.now ∷ self.old.calls }) }
        ensures same { OnErr result (self.new ≡ self.old) }
    {
        let gates = Gates::of(Vec::from_slice(alloc, gates.items())?);
        self.calls.push(gates)?;
        Ok(())
    }

    /// The next input was given: so many inputs were, and these are the number of its record and the `lose` records
    /// before that.
    fn advance(&mut self, given: u64, losing: u64, number: u64)
        requires given { given ≡ length (inputs self.old.log) + 1 }
        requires losing { losing ≡ losing_before self.old.trace given }
        requires number { number ≡ given + losing }
        ensures { self.new ≡ record self.old { log = Given (event_at self.old.trace.events (length (inputs self.old.log))) ∷ self.old.log } }
    {
        self.given = given;
        self.losing = losing;
        self.number = number;
    }

    /// The next record could not be given.
    fn fail(&mut self, offset: u64, gates: &Gates)
        requires { IsNextBad self.old.trace gates.now offset self.old.log }
        ensures failed { self.new ≡ record self.old { faults = counted self.old.faults; bad = Some offset } }
        ensures later { self.old.faults ≤ self.new.faults }
    {
        self.faults = self.faults.saturating_add(1);
        self.bad = Some(offset);
    }

    /// The next event, or where its record can't be given that.
    fn give(&mut self, alloc: Global, gates: &Gates) -> Result<Event, HubFault>
        ensures log { IfOk result (λ event. self.new.log ≡ Given event ∷ self.old.log) }
        ensures same { OnErr result (self.new.log ≡ self.old.log) }
        ensures calls { AndCall gates.now result (Some self.old.calls) (Some self.new.calls) }
        ensures trace { self.new.trace ≡ self.old.trace }
        ensures names { IfOk result (λ event. NamesOpened (opened_in self.old.log) event) }
        ensures gates { IfOk result (IsOpenGate gates.now) }
        ensures cause { HubCause self.old.faults self.new.faults result }
    {
        let Ok(event) = self.peek(alloc) else {
            return Err(HubFault::OutOfMemory);
        };
        if self.refuses(&event, gates) {
            let offset = self.offset(&event, gates);
            match self.tell(alloc, gates) {
                Ok(()) => {}
                Err(_) => return Err(HubFault::OutOfMemory),
            }
            self.fail(offset, gates);
            return Err(HubFault::Failed);
        }
        let Ok((given, losing, number)) = self.following() else {
            return Err(HubFault::OutOfMemory);
        };
        match self.tell(alloc, gates) {
            Ok(()) => {}
            Err(_) => return Err(HubFault::OutOfMemory),
        }
        self.advance(given, losing, number);
        Ok(event)
    }

    /// Writes the line of an output, and says whether it is lost; or changes nothing for want of memory.
    fn take(&mut self, out: &Out) -> Result<bool, OutOfMemory>
        ensures log { IfOk result (λ lost. self.new ≡ record self.old { log = entry_of lost out.now ∷ self.old.log }) }
        ensures frame { IfOk result (λ lost. lost ≡ is_lost out.now lost) }
        ensures same { OnErr result (self.new ≡ self.old) }
    {
        let lost = is_lost(out, self.lost < self.losing);
        self.outputs.push(self.given, self.number, lost, out)?;
        if lost {
            self.lost += 1;
        }
        Ok(lost)
    }

    /// Writes the line of a note, or changes nothing for want of memory. Jobs are counted in 64 bits: where these are
    /// used up there is no room for one more.
    fn note(&mut self, alloc: Global, note: &Note) -> Result<(), OutOfMemory>
        ensures log { OnOk result (self.new ≡ record self.old { log = Noted note.now ∷ self.old.log }) }
        ensures same { OnErr result (self.new ≡ self.old) }
    {
        let jobs = jobs_after(note, self.jobs)?;
        self.outputs
            .push_note(alloc, self.given, self.number, note)?;
        self.jobs = jobs;
        Ok(())
    }
}

/// A frame may be lost, and no end of a session.
fn is_lost(out: &Out, losing: bool) -> bool
    ensures { result ≡ is_lost out.now losing }
{
    match out {
        Out::Send { .. } => losing,
        Out::Close { .. } => false,
    }
}

/// How many jobs have no verdict after a note.
fn jobs_after(note: &Note, jobs: u64) -> Result<u64, OutOfMemory>
    ensures { IfOk result (λ n. n ≡ jobs_after note.now jobs) }
{
    match note {
        Note::Offer { .. } => match jobs.checked_add(1) {
            Some(more) => Ok(more),
            None => Err(OutOfMemory),
        },
        Note::Verdict { .. } => Ok(jobs.saturating_sub(1)),
        _ => Ok(jobs),
    }
}

impl Hub for TraceHub {
    type Script = Trace;

    ghost script = { λ t. t.trace };

    ghost log = { λ t. Some t.log };

    ghost calls = { λ t. Some t.calls };

    ghost opened = { λ t. opened_in t.log };

    ghost hub_faults = { λ t. t.faults };

    ghost put_faults = { λ t. lost_in t.log };

    fn start(&mut self, _alloc: Global, _settings: &Settings) -> Result<(), HubFault> {
        Ok(())
    }

    fn next(&mut self, alloc: Global, gates: &Gates) -> Result<Event, HubFault> {
        self.give(alloc, gates)
    }

    fn put(&mut self, _alloc: Global, out: &Out) -> Result<(), PutFault> {
        match self.take(out) {
            Ok(true) => Err(PutFault::Lost),
            Ok(false) => Ok(()),
            Err(_) => Err(PutFault::OutOfMemory),
        }
    }

    fn mark(&mut self, alloc: Global, note: &Note) -> Result<(), OutOfMemory> {
        self.note(alloc, note)
    }
}
