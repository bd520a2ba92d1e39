//! The lines of a run.

ghost use Rattle.std.specs.Prelude.{◌≡◌, ◌++◌, ◌∷◌, [], Some, OnOk};
ghost use Rattle.mon_text.specs.Hex.{hex, unhex};
ghost use Rattle.mon_trace.specs.Run.{side_name, put_word, put_head, end_line, kind_name, counted_by, offer_words, verdict_words, probe_words, note_words, note_line};

use itoa::Buffer;
use mon_list::OutOfMemory;
use mon_report::text as report_text;
use mon_text::push_digits;
use mon_world::{Kind, Note, Side};
use std::alloc::{AllocError, Global};

fn name_of(side: Side) -> &'static [u8]
    ensures { result.now ≡ side_name side }
{
    match side {
        Side::Controller => b"controller",
        Side::Switch => b"switch",
    }
}

fn word_of(lost: bool) -> &'static [u8]
    ensures { result.now ≡ put_word lost }
{
    if lost { b" lost " } else { b" put " }
}

fn kind_of(kind: Kind) -> &'static [u8]
    ensures { result.now ≡ kind_name kind }
{
    match kind {
        Kind::Probe => b"probe",
        Kind::Indistinguishable => b"indistinguishable",
        Kind::Skipped => b"skipped",
    }
}

/// Appends the line of a frame that was put or lost, up to its digits.
pub(crate) fn push_head(
    line: &mut Vec<u8>,
    number: u64,
    session: u64,
    to: Side,
    lost: bool,
) -> Result<(), AllocError>
    ensures { OnOk result (line.new.items ≡ line.old.items ++ put_head number session to lost) }
{
    let mut buffer = Buffer::new();
    line.extend_from_slice(buffer.format(number).as_bytes())?;
    line.extend_from_slice(word_of(lost))?;
    line.extend_from_slice(buffer.format(session).as_bytes())?;
    line.extend_from_slice(b" ")?;
    line.extend_from_slice(name_of(to))?;
    line.extend_from_slice(b" ")?;
    Ok(())
}

/// Appends the digits of a frame, and ends the line.
pub(crate) fn push_frame(line: &mut Vec<u8>, frame: &[u8]) -> Result<(), AllocError>
    ensures line { OnOk result (line.new.items ≡ line.old.items ++ (hex frame.now ++ 10 ∷ [])) }
    // The digits say the frame.
    ensures digits { OnOk result (unhex (hex frame.now) ≡ Some frame.now) }
{
    push_digits(frame, line)?;
    line.push(b'\n')?;
    Ok(())
}

/// Appends the line of a session that was ended.
pub(crate) fn push_end(line: &mut Vec<u8>, number: u64, session: u64) -> Result<(), AllocError>
    ensures { OnOk result (line.new.items ≡ line.old.items ++ end_line number session) }
{
    let mut buffer = Buffer::new();
    line.extend_from_slice(buffer.format(number).as_bytes())?;
    line.extend_from_slice(b" end ")?;
    line.extend_from_slice(buffer.format(session).as_bytes())?;
    line.push(b'\n')?;
    Ok(())
}

/// Appends a word and a number.
fn push_counted(line: &mut Vec<u8>, word: &[u8], n: u64) -> Result<(), AllocError>
    ensures { OnOk result (line.new.items ≡ line.old.items ++ counted_by word.now n) }
{
    let mut buffer = Buffer::new();
    line.extend_from_slice(word)?;
    line.extend_from_slice(buffer.format(n).as_bytes())?;
    Ok(())
}

/// Appends what a job was offered for.
fn push_offer(
    line: &mut Vec<u8>,
    job: u64,
    session: u64,
    edit: u64,
    version: u64,
) -> Result<(), AllocError>
    ensures { OnOk result (line.new.items ≡ line.old.items ++ offer_words job session edit version) }
{
    push_counted(line, b" offer ", job)?;
    push_counted(line, b" ", session)?;
    push_counted(line, b" ", edit)?;
    push_counted(line, b" ", version)
}

/// Appends what was said of a job.
fn push_verdict(line: &mut Vec<u8>, job: u64, kind: Kind) -> Result<(), AllocError>
    ensures { OnOk result (line.new.items ≡ line.old.items ++ verdict_words job kind) }
{
    push_counted(line, b" verdict ", job)?;
    line.extend_from_slice(b" ")?;
    line.extend_from_slice(kind_of(kind))?;
    Ok(())
}

/// Appends that a probe goes out.
fn push_probe(line: &mut Vec<u8>, serial: u64, job: u64) -> Result<(), AllocError>
    ensures { OnOk result (line.new.items ≡ line.old.items ++ probe_words serial job) }
{
    push_counted(line, b" probe ", serial)?;
    push_counted(line, b" ", job)
}

/// Appends what a note says.
fn push_words(alloc: Global, line: &mut Vec<u8>, note: &Note) -> Result<(), OutOfMemory>
    ensures { OnOk result (line.new.items ≡ line.old.items ++ note_words note.now) }
{
    match note {
        Note::Offer {
            job,
            session,
            edit,
            version,
        } => push_offer(line, *job, *session, *edit, *version)?,
        Note::Verdict { job, kind } => push_verdict(line, *job, *kind)?,
        Note::Probe { serial, job, .. } => push_probe(line, *serial, *job)?,
        Note::Report(report) => {
            let text = report_text(alloc, report)?;
            line.extend_from_slice(b" line ")?;
            line.extend_from_slice(text.as_bytes())?;
        }
    }
    Ok(())
}

/// Appends the line of a note.
pub(crate) fn push_note(
    alloc: Global,
    line: &mut Vec<u8>,
    number: u64,
    note: &Note,
) -> Result<(), OutOfMemory>
    ensures { OnOk result (line.new.items ≡ line.old.items ++ note_line number note.now) }
{
    let mut buffer = Buffer::new();
    line.extend_from_slice(buffer.format(number).as_bytes())?;
    push_words(alloc, line, note)?;
    line.push(b'\n')?;
    Ok(())
}
