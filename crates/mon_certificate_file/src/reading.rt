//! Reading a certificate file.

ghost use Rattle.std.specs.Prelude.{◌≡◌, ℕ, List, Some, None, codes, IfOk};
ghost use Rattle.mon_refute.specs.declared.lines.LogLine.{LogLine};
ghost use Rattle.mon_refute.specs.Text.{log_text, FitsLog};
ghost use Rattle.mon_certificate.specs.declared.certificate.Certificate.{Certificate};
ghost use Rattle.mon_certificate_file.specs.CertificateFile.{nothing_text, certificate_text, FitsLogs, FitsCertificate, Spells, IsCertificateFile};
ghost use Rattle.mon_text.specs.BadLines.{IsBadFrom};
ghost use Rattle.mon_text.specs.Faults.{FileReadsAs, FailsIn, LinesReadPart, StopsIn};
ghost use Rattle.mon_text.specs.Parts as parts;
ghost use Rattle.mon_certificate_file.specs.Reading.{head_in, PartAt, RowAt, IsOne, IsRow, FileAt};

use crate::lines::{head_at, nothing_at, overlap_at, probe_at};
use mon_certificate::{Certificate, Certificates};
use mon_refute::{Log, Logs, log_at};
use mon_text::{FileFault, LineFault, behind};
use std::alloc::Global;

/// The refutation at the front, and the text behind it.
fn one_log(alloc: Global, text: &[u8]) -> Result<(Log, &[u8]), LineFault<'_>>
    ensures found { IfOk result (λ p. PartAt log_text FitsLog text.now p.0 p.1.now) }
    ensures only { (log : List LogLine) (rest : List ℕ) → PartAt log_text FitsLog text.now log rest → LinesReadPart result log rest }
    ensures stops { StopsIn (IsOne log_text FitsLog) text.now result }
{
    log_at(alloc, text)
}

/// So many refutations at the front, and the text behind them.
fn logs_at(alloc: Global, count: u64, text: &[u8]) -> Result<(Logs, &[u8]), LineFault<'_>>
    ensures found { IfOk result (λ p. RowAt (λ _. log_text) FitsLog 0 count text.now p.0 p.1.now) }
    ensures only { (logs : List (List LogLine)) (rest : List ℕ) → RowAt (λ _. log_text) FitsLog 0 count text.now logs rest → LinesReadPart result logs rest }
    ensures stops { StopsIn (IsRow (λ _. log_text) FitsLog count) text.now result }
{
    let mut logs = Logs::new(alloc);
    let mut rest = text;
    for _ in 0..count {
        let (log, after) = one_log(alloc, rest)?;
        logs.push(log)?;
        rest = after;
    }
    Ok((logs, rest))
}

/// The refutations of a rule, whose first line is given with what stands behind its first word, and the text behind them.
fn refuted_at<'a>(
    alloc: Global,
    rule: u64,
    line: &'a [u8],
    text: &'a [u8],
) -> Result<(Logs, &'a [u8]), LineFault<'a>>
    requires { parts.behind (codes "none ") line.now ≡ Some text.now }
    ensures found { IfOk result (λ p. PartAt (nothing_text rule) FitsLogs text.now p.0 p.1.now) }
    ensures only { (logs : List (List LogLine)) (rest : List ℕ) → PartAt (nothing_text rule) FitsLogs text.now logs rest → LinesReadPart result logs rest }
    ensures stops { StopsIn (IsOne (certificate_text rule) FitsCertificate) line.now result }
{
    match nothing_at(rule, text) {
        Some((count, rest)) => logs_at(alloc, count, rest),
        None => Err(LineFault::Bad(line)),
    }
}

/// What is said of a rule at the front, and the text behind it.
fn certificate_at(
    alloc: Global,
    rule: u64,
    text: &[u8],
) -> Result<(Certificate, &[u8]), LineFault<'_>>
    ensures found { IfOk result (λ p. PartAt (certificate_text rule) FitsCertificate text.now p.0 p.1.now) }
    ensures only { (c : Certificate) (rest : List ℕ) → PartAt (certificate_text rule) FitsCertificate text.now c rest → LinesReadPart result c rest }
    ensures stops { StopsIn (IsOne (certificate_text rule) FitsCertificate) text.now result }
{
    if let Some(rest) = behind(b"probe ", text) {
        return match probe_at(rule, rest) {
            Some(((h, e), rest)) => Ok((Certificate::Probe(h, e), rest)),
            None => Err(LineFault::Bad(text)),
        };
    }
    if let Some(rest) = behind(b"none ", text) {
        let (logs, rest) = refuted_at(alloc, rule, text, rest)?;
        return Ok((Certificate::Nothing(logs), rest));
    }
    let Some(rest) = behind(b"overlap ", text) else {
        return Err(LineFault::Bad(text));
    };
    match overlap_at(rule, rest) {
        Some(rest) => Ok((Certificate::Overlap, rest)),
        None => Err(LineFault::Bad(text)),
    }
}

/// What is said of the rules from 0 to one below the count, and the text behind it.
fn certificates_at(
    alloc: Global,
    count: u64,
    text: &[u8],
) -> Result<(Certificates, &[u8]), LineFault<'_>>
    ensures found { IfOk result (λ p. RowAt certificate_text FitsCertificate 0 count text.now p.0 p.1.now) }
    ensures only { (cs : List Certificate) (rest : List ℕ) → RowAt certificate_text FitsCertificate 0 count text.now cs rest → LinesReadPart result cs rest }
    ensures stops { StopsIn (IsRow certificate_text FitsCertificate count) text.now result }
{
    let mut certificates = Certificates::new(alloc);
    let mut rest = text;
    for rule in 0..count {
        let (certificate, after) = certificate_at(alloc, rule, rest)?;
        certificates.push(certificate)?;
        rest = after;
    }
    Ok((certificates, rest))
}

/// The text from the first bad line on, which is one of the first two.
fn bad_head(text: &[u8]) -> &[u8]
    requires { head_in text.now ≡ None }
    ensures { IsBadFrom IsCertificateFile text.now result.now }
{
    match behind(b"monocle-certificates 1\n", text) {
        Some(rest) => rest,
        None => text,
    }
}

/// The certificates of all lines, and the text behind them.
fn file_at(alloc: Global, text: &[u8]) -> Result<(Certificates, &[u8]), LineFault<'_>>
    ensures found { IfOk result (λ p. FileAt text.now p.0 p.1.now) }
    ensures only { (cs : List Certificate) (rest : List ℕ) → FileAt text.now cs rest → LinesReadPart result cs rest }
    ensures stops { StopsIn IsCertificateFile text.now result }
{
    match head_at(text) {
        Some((count, rest)) => certificates_at(alloc, count, rest),
        None => Err(LineFault::Bad(bad_head(text))),
    }
}

/// The certificates of a file: the lines
///
/// - `monocle-certificates 1`,
/// - `rules N`, where N is how many certificates there are,
/// - and then for each rule R from 0 to N - 1, in order, one of
///   - `probe R HEADER EMISSION`, the emission being `port P HEADER`, `controller HEADER` or `miss HEADER`,
///   - `none R C` and C logs, each with the lines that `mon_refute::read_log` describes,
///   - `overlap R`.
///
/// A HEADER is the 264 bits of a header in 66 lower hexadecimal digits. Numbers are decimal without leading zeros; P is 0
/// to 65535, and the others are below 2^64. One space parts two words, and a line feed ends each line. A text in any other
/// form is `Bad`, from its first bad line on.
pub fn read_certificates(alloc: Global, text: &[u8]) -> Result<Certificates, FileFault>
    // What is read is spelled so.
    ensures found { IfOk result (Spells text.now) }
    // The text of certificates is read as these, unless memory runs out. So a text is bad only where it is of none.
    ensures only { (cs : List Certificate) → Spells text.now cs → FileReadsAs (λ read. read ≡ cs) result }
    // What is refused is bad at the first bad line.
    ensures fails { FailsIn IsCertificateFile text.now result }
{
    match file_at(alloc, text) {
        Ok((certificates, rest)) => {
            if !rest.is_empty() {
                return Err(LineFault::Bad(rest).within(text));
            }
            Ok(certificates)
        }
        Err(fault) => Err(fault.within(text)),
    }
}
