//! Writing a certificate file.

ghost use Rattle.std.specs.Prelude.{◌≡◌, ◌++◌, decimal, OnOk, IfOk};
ghost use Rattle.std.specs.List.{AllByRecursion};
ghost use Rattle.mon_refute.specs.Text.{log_text, FitsLog};
ghost use Rattle.mon_certificate.specs.declared.certificate.Certificate.TheVariants.{Probe, Nothing, Overlap};
ghost use Rattle.mon_certificate_file.specs.CertificateFile.{header_text, emission_text, logs_text, certificate_text, certificates_text, IsEmissionInRange, IsCertificateInRange, FitsEmission, FitsLogs, FitsCertificate, Spells};

use crate::headers::push_header;
use itoa::Buffer;
use mon_certificate::{Certificate, Certificates};
use mon_header::Header;
use mon_list::OutOfMemory;
use mon_outcome::Emission;
use mon_refute::{Log, Logs, write_log};
use std::alloc::{AllocError, Global};

fn push_number(n: u64, out: &mut Vec<u8>) -> Result<(), AllocError>
    ensures { OnOk result (out.new.items ≡ out.old.items ++ decimal n) }
{
    let mut buffer = Buffer::new();
    out.extend_from_slice(buffer.format(n).as_bytes())
}

/// Appends a word and a header.
fn push_worded(word: &[u8], h: &Header, out: &mut Vec<u8>) -> Result<(), AllocError>
    ensures { OnOk result (out.new.items ≡ out.old.items ++ (word.now ++ header_text h.now)) }
{
    out.extend_from_slice(word)?;
    push_header(h, out)
}

fn push_emission(e: &Emission, out: &mut Vec<u8>) -> Result<(), AllocError>
    ensures text { OnOk result (out.new.items ≡ out.old.items ++ emission_text e.now) }
    ensures fits { IsEmissionInRange e.now → OnOk result (FitsEmission e.now) }
{
    match e {
        Emission::Port(port, h) => {
            out.extend_from_slice(b"port ")?;
            push_number(u64::from(*port), out)?;
            out.extend_from_slice(b" ")?;
            push_header(h, out)
        }
        Emission::Controller(h) => push_worded(b"controller ", h, out),
        Emission::Miss(h) => push_worded(b"miss ", h, out),
    }
}

/// Appends the line of a probe.
fn push_probe(rule: u64, h: &Header, e: &Emission, out: &mut Vec<u8>) -> Result<(), AllocError>
    ensures text { OnOk result (out.new.items ≡ out.old.items ++ certificate_text rule (Probe h.now e.now)) }
    ensures fits { IsEmissionInRange e.now → OnOk result (FitsEmission e.now) }
{
    out.extend_from_slice(b"probe ")?;
    push_number(rule, out)?;
    out.extend_from_slice(b" ")?;
    push_header(h, out)?;
    out.extend_from_slice(b" ")?;
    push_emission(e, out)?;
    out.extend_from_slice(b"\n")
}

/// Appends the lines of a refutation.
fn push_log(alloc: Global, log: &Log, out: &mut Vec<u8>) -> Result<(), OutOfMemory>
    ensures text { OnOk result (out.new.items ≡ out.old.items ++ log_text log.now) }
    ensures fits { OnOk result (FitsLog log.now) }
{
    let text = write_log(alloc, log)?;
    out.extend_from_slice(text.as_bytes())?;
    Ok(())
}

/// Appends how many refutations there are, and each of them.
fn push_logs(alloc: Global, logs: &Logs, out: &mut Vec<u8>) -> Result<(), OutOfMemory>
    ensures text { OnOk result (out.new.items ≡ out.old.items ++ logs_text logs.now) }
    ensures fits { OnOk result (FitsLogs logs.now) }
{
    let items = logs.items();
    push_number(items.len() as u64, out)?;
    out.extend_from_slice(b"\n")?;
    for log in items {
        push_log(alloc, log, out)?;
    }
    Ok(())
}

/// Appends the lines of a rule that no probe shows.
fn push_nothing(alloc: Global, rule: u64, logs: &Logs, out: &mut Vec<u8>) -> Result<(), OutOfMemory>
    ensures text { OnOk result (out.new.items ≡ out.old.items ++ certificate_text rule (Nothing logs.now)) }
    ensures fits { OnOk result (FitsLogs logs.now) }
{
    out.extend_from_slice(b"none ")?;
    push_number(rule, out)?;
    out.extend_from_slice(b" ")?;
    push_logs(alloc, logs, out)
}

/// Appends the line of a tied rule.
fn push_overlap(rule: u64, out: &mut Vec<u8>) -> Result<(), AllocError>
    ensures { OnOk result (out.new.items ≡ out.old.items ++ certificate_text rule Overlap) }
{
    out.extend_from_slice(b"overlap ")?;
    push_number(rule, out)?;
    out.extend_from_slice(b"\n")
}

/// Appends the lines of a rule.
fn push_certificate(
    alloc: Global,
    rule: u64,
    certificate: &Certificate,
    out: &mut Vec<u8>,
) -> Result<(), OutOfMemory>
    ensures text { OnOk result (out.new.items ≡ out.old.items ++ certificate_text rule certificate.now) }
    ensures fits { OnOk result (IsCertificateInRange certificate.now → FitsCertificate certificate.now) }
{
    match certificate {
        Certificate::Probe(h, e) => push_probe(rule, h, e, out)?,
        Certificate::Nothing(logs) => push_nothing(alloc, rule, logs, out)?,
        Certificate::Overlap => push_overlap(rule, out)?,
    }
    Ok(())
}

/// The text of certificates, which `read_certificates` reads as these where each header is within range. Of a number beyond
/// the range of its field the low bits are written.
pub fn write_certificates(alloc: Global, c: &Certificates) -> Result<Vec<u8>, OutOfMemory>
    ensures text { IfOk result (λ bytes. bytes.items ≡ certificates_text c.now) }
    // So what is written is read back.
    ensures spells { AllByRecursion IsCertificateInRange c.now → IfOk result (λ bytes. Spells bytes.items c.now) }
{
    let certificates = c.items();
    let mut out = Vec::new(alloc);
    out.extend_from_slice(b"monocle-certificates 1\nrules ")?;
    push_number(certificates.len() as u64, &mut out)?;
    out.extend_from_slice(b"\n")?;
    for (rule, certificate) in certificates.iter().enumerate() {
        push_certificate(alloc, rule as u64, certificate, &mut out)?;
    }
    Ok(out)
}
