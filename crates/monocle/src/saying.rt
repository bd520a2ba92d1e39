//! What the program reads, writes and says.

ghost use Rattle.std.specs.Prelude.{◌≡◌, ◌≤◌, ◌<◌, [], ◌∷◌, Some, IfSome, IfOk, OnOk, IsErrOf, true, string_bytes};
ghost use Rattle.std.specs.Result.{IfErr};
ghost use Rattle.mon_world.specs.Causes.{Rose};
ghost use Rattle.mon_world.specs.Files.{with_more};
ghost use Rattle.mon_world.specs.declared.calls.Call.TheVariants.{Read};
ghost use Rattle.monocle.specs.Running.{WritesPrefix};
ghost use Rattle.monocle.specs.Calls.{Quiet, Called};
ghost use Rattle.monocle.specs.Ending.{IsSay, IsReadEnd, IsWriteEnd, IsWant, bad_at, unread};

use mon_world::{Desk, DeskFault, OutOfMemory};
use std::alloc::Global;

/// Says a text, and gives back the status that it is said at.
pub(crate) fn refused<D: Desk>(alloc: Global, desk: &mut D, status: u8, text: &[u8]) -> u8
    ensures status { result ≡ status }
    ensures called { Called (IsSay text.now) (D.said desk.old) (D.said desk.new) (D.calls desk.old) (D.calls desk.new) }
    ensures files { D.files desk.new ≡ D.files desk.old }
    ensures written { D.written desk.new ≡ D.written desk.old }
    ensures reads { D.read_faults desk.new ≡ D.read_faults desk.old }
    ensures writes { D.write_faults desk.new ≡ D.write_faults desk.old }
{
    desk.say(alloc, text);
    status
}

/// Says that memory ended, and gives the status of it.
pub(crate) fn out_of_memory<D: Desk>(alloc: Global, desk: &mut D) -> u8
    ensures status { result ≡ 7 }
    ensures called { Called (IsWant 7) (D.said desk.old) (D.said desk.new) (D.calls desk.old) (D.calls desk.new) }
    ensures files { D.files desk.new ≡ D.files desk.old }
    ensures written { D.written desk.new ≡ D.written desk.old }
    ensures reads { D.read_faults desk.new ≡ D.read_faults desk.old }
    ensures writes { D.write_faults desk.new ≡ D.write_faults desk.old }
{
    refused(alloc, desk, 7, b"monocle: out of memory\n")
}

/// What is said of a file that can't be read.
fn unread(alloc: Global, name: &str) -> Result<String, OutOfMemory>
    ensures { IfOk result (λ text. string_bytes text ≡ unread name.now) }
{
    let text = format!(in alloc; "monocle: cannot read {name}\n")?;
    Ok(text)
}

/// What is said of a file that is bad from this byte on.
pub(crate) fn bad_text(alloc: Global, what: &str, offset: u64) -> Result<String, OutOfMemory>
    ensures { IfOk result (λ text. string_bytes text ≡ bad_at what.now offset) }
{
    let text = format!(in alloc; "{what}: offset {offset}\n")?;
    Ok(text)
}

/// The content of a file. Where it can't be read, says so, and gives the status: 3, or 7 for want of memory.
pub(crate) fn content_of<D: Desk>(alloc: Global, name: &str, desk: &mut D) -> Result<Vec<u8>, u8>
    ensures content { IfOk result (λ bytes. IfSome (D.files desk.old) (λ files. files name.now ≡ Some bytes.items)) }
    ensures quiet { OnOk result (Quiet (Read name.now true ∷ []) (D.said desk.old) (D.said desk.new) (D.calls desk.old) (D.calls desk.new)) }
    ensures ended { IfErr result (λ status. Called (IsReadEnd [] name.now status) (D.said desk.old) (D.said desk.new) (D.calls desk.old) (D.calls desk.new)) }
    ensures read { IsErrOf result 3 → Rose (D.read_faults desk.old) (D.read_faults desk.new) }
    ensures files { D.files desk.new ≡ D.files desk.old }
    ensures written { D.written desk.new ≡ D.written desk.old }
    ensures reads { D.read_faults desk.old ≤ D.read_faults desk.new }
    ensures writes { D.write_faults desk.new ≡ D.write_faults desk.old }
{
    match desk.read(alloc, name) {
        Ok(bytes) => Ok(bytes),
        Err(DeskFault::Failed) => match unread(alloc, name) {
            Ok(text) => Err(refused(alloc, desk, 3, text.as_bytes())),
            Err(_) => Err(out_of_memory(alloc, desk)),
        },
        Err(DeskFault::OutOfMemory) => Err(out_of_memory(alloc, desk)),
    }
}

/// Writes bytes and gives the status, or says why they can't be written and gives 6, or 7 for want of memory.
pub(crate) fn put<D: Desk>(alloc: Global, bytes: &[u8], status: u8, desk: &mut D) -> u8
    requires { status < 2 }
    ensures ended { Called (IsWriteEnd [] status result) (D.said desk.old) (D.said desk.new) (D.calls desk.old) (D.calls desk.new) }
    ensures done { result < 2 → result ≡ status }
    ensures written { result < 2 → D.written desk.new ≡ with_more bytes.now (D.written desk.old) }
    ensures prefix { result ≡ 6 → WritesPrefix bytes.now (D.written desk.old) (D.written desk.new) }
    ensures unwritten { result ≡ 7 → D.written desk.new ≡ D.written desk.old }
    ensures write { result ≡ 6 → Rose (D.write_faults desk.old) (D.write_faults desk.new) }
    ensures files { D.files desk.new ≡ D.files desk.old }
    ensures reads { D.read_faults desk.new ≡ D.read_faults desk.old }
{
    match desk.write(alloc, bytes) {
        Ok(()) => status,
        Err(DeskFault::Failed) => refused(alloc, desk, 6, b"monocle: cannot write\n"),
        Err(DeskFault::OutOfMemory) => out_of_memory(alloc, desk),
    }
}
