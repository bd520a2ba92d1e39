//! `check`: whether certificates of a table are accepted.

ghost use Rattle.std.specs.Prelude.{◌≡◌, ◌≢◌, ◌<◌, ◌≤◌, [], ◌∷◌, ℕ, List, Err, Some, true, IfOk, IfSome, OnOk, IsErrOf, string_bytes};
ghost use Rattle.std.specs.Result.{IfErr};
ghost use Rattle.mon_certificate.specs.declared.certificate.Certificate.{Certificate};
ghost use Rattle.mon_certificate_file.specs.CertificateFile.{Spells, IsCertificateFile};
ghost use Rattle.mon_text.specs.BadLines.{IsFirstBadLine};
ghost use Rattle.mon_plan.specs.Checking.{checked};
ghost use Rattle.mon_world.specs.Causes.{Rose};
ghost use Rattle.mon_words.specs.declared.command.Command.{Command};
ghost use Rattle.monocle.specs.Planning.{HasNoSpelling, IsSpelled, checked_text, status_of};
ghost use Rattle.monocle.specs.Running.{Checks};
ghost use Rattle.mon_world.specs.declared.calls.Call.TheVariants.{Read};
ghost use Rattle.monocle.specs.Calls.{Quiet, Called};
ghost use Rattle.monocle.specs.Ending.{IsFileEnd, IsEndOf};

use crate::saying::{bad_text, content_of, out_of_memory, put, refused};
use crate::source::table_of;
use mon_plan::{Certificates, Checked, FileFault, check_table, read_certificates};
use mon_shows::View;
use mon_table::Table;
use mon_words::Source;
use mon_world::{Desk, OutOfMemory};
use std::alloc::Global;

/// What is written of certificates that were checked.
fn checked_text(alloc: Global, checked: Checked) -> Result<String, OutOfMemory>
    ensures { IfOk result (λ text. string_bytes text ≡ checked_text checked) }
{
    let text = match checked {
        Checked::Accepted(n) => format!(in alloc; "accepted {n}\n")?,
        Checked::Refused(n) => format!(in alloc; "refused {n}\n")?,
    };
    Ok(text)
}

/// The status of certificates that were checked.
fn status_of(checked: Checked) -> u8
    ensures value { result ≡ status_of checked }
    ensures low { result < 2 }
{
    match checked {
        Checked::Accepted(_) => 0,
        Checked::Refused(_) => 1,
    }
}

/// What is written of certificates of a table, and the status at which it is written.
fn judged(alloc: Global, v: &View, t: &Table, c: &Certificates) -> Result<(String, u8), OutOfMemory>
    ensures text { IfOk result (λ x. string_bytes x.0 ≡ checked_text (checked v.now t.now c.now)) }
    ensures status { IfOk result (λ x. x.1 ≡ status_of (checked v.now t.now c.now)) }
    ensures low { IfOk result (λ x. x.1 < 2) }
{
    let checked = check_table(alloc, v, t, c)?;
    Ok((checked_text(alloc, checked)?, status_of(checked)))
}

/// The certificates of a certificate file.
fn certificates_in(alloc: Global, text: &[u8]) -> Result<Certificates, FileFault>
    ensures found { IfOk result (Spells text.now) }
    ensures bad { (offset : ℕ) → result ≡ Err (FileFault.Bad offset) → (cs : List Certificate) → Spells text.now cs → ⊥ }
    ensures at { (offset : ℕ) → result ≡ Err (FileFault.Bad offset) → IsFirstBadLine IsCertificateFile text.now offset }
{
    read_certificates(alloc, text)
}

/// The certificates of the file of this name. Where there are none, says why, and gives the status: 3 where the file can't
/// be read, 5 where it isn't in its form and from which byte on, 7 for want of memory.
fn certificates_of<D: Desk>(alloc: Global, name: &str, desk: &mut D) -> Result<Certificates, u8>
    ensures found { IfOk result (λ cs. IfSome (D.files desk.old) (λ files. IsSpelled files name.now cs)) }
    ensures quiet { OnOk result (Quiet (Read name.now true ∷ []) (D.said desk.old) (D.said desk.new) (D.calls desk.old) (D.calls desk.new)) }
    ensures ended { IfErr result (λ status. Called (IsFileEnd (D.files desk.old) name.now status) (D.said desk.old) (D.said desk.new) (D.calls desk.old) (D.calls desk.new)) }
    ensures read { IsErrOf result 3 → Rose (D.read_faults desk.old) (D.read_faults desk.new) }
    ensures files { D.files desk.new ≡ D.files desk.old }
    ensures written { D.written desk.new ≡ D.written desk.old }
    ensures reads { D.read_faults desk.old ≤ D.read_faults desk.new }
    ensures writes { D.write_faults desk.new ≡ D.write_faults desk.old }
{
    let text = content_of(alloc, name, desk)?;
    match certificates_in(alloc, &text) {
        Ok(read) => Ok(read),
        Err(FileFault::Bad { offset }) => match bad_text(alloc, "monocle: certificates", offset) {
            Ok(said) => Err(refused(alloc, desk, 5, said.as_bytes())),
            Err(OutOfMemory) => Err(out_of_memory(alloc, desk)),
        },
        Err(FileFault::OutOfMemory) => Err(out_of_memory(alloc, desk)),
    }
}

/// Checks the certificates of a file against the table of a source, without a search, and writes whether there is an
/// accepted one for each rule. It answers 0 where there is, 1 where there isn't, 3 where a file can't be read, 5 where
/// one isn't in its form, 6 where writing fails, and 7 for want of memory.
pub fn check<D: Desk>(alloc: Global, source: &Source, certificates: &str, desk: &mut D) -> u8
    ensures run { Checks (D.files desk.old) source.now certificates.now result (D.written desk.old) (D.written desk.new) }
    ensures unwritten { result ≢ 0 → result ≢ 1 → result ≢ 6 → D.written desk.new ≡ D.written desk.old }
    ensures ended { Called (IsEndOf (D.files desk.old) (Command.Check source.now certificates.now) result) (D.said desk.old) (D.said desk.new) (D.calls desk.old) (D.calls desk.new) }
    ensures read { result ≡ 3 → Rose (D.read_faults desk.old) (D.read_faults desk.new) }
    ensures write { result ≡ 6 → Rose (D.write_faults desk.old) (D.write_faults desk.new) }
    ensures words { result ≢ 2 }
{
    let (view, table) = match table_of(alloc, source, desk) {
        Ok(found) => found,
        Err(status) => return status,
    };
    let read = match certificates_of(alloc, certificates, desk) {
        Ok(read) => read,
        Err(status) => return status,
    };
    match judged(alloc, &view, &table, &read) {
        Ok((text, status)) => put(alloc, text.as_bytes(), status, desk),
        Err(_) => out_of_memory(alloc, desk),
    }
}
