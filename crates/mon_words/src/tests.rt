//! Words that are accepted, and each form of words that is refused.

use crate::{Command, Source, Text, WordsFault, read_words};
use std::alloc::Global;
use std::test::Fail;

/// The words of a line, which one space parts.
fn words(alloc: Global, line: &str) -> Result<Vec<Text>, Fail> {
    let mut words = Vec::new(alloc);
    for word in line.split(' ') {
        words.push(Text::new(alloc, word)?)?;
    }
    Ok(words)
}

fn source(alloc: Global, source: &Source) -> Result<String, Fail> {
    let text = match source {
        Source::File(table) => format!(in alloc; "of {}", table.as_str())?,
        Source::Generate { n, seed } => format!(in alloc; "of {n} from {seed}")?,
    };
    Ok(text)
}

/// What the words of a line ask for.
fn asked(alloc: Global, line: &str) -> Result<String, Fail> {
    let words = words(alloc, line)?;
    let text = match read_words(alloc, &words) {
        Ok(Command::Replay { settings, trace }) => {
            format!(in alloc; "replay {} over {}", trace.as_str(), settings.as_str())?
        }
        Ok(
            Command::Plan {
                source: table,
                workers,
                certificates,
            },
        ) => {
            let table = source(alloc, &table)?;
            format!(in alloc; "plan {table} by {workers}, certificates {certificates}")?
        }
        Ok(
            Command::Check {
                source: table,
                certificates,
            },
        ) => {
            let table = source(alloc, &table)?;
            format!(in alloc; "check {} {table}", certificates.as_str())?
        }
        Err(WordsFault::Bad) => String::from_str(alloc, "bad")?,
        Err(WordsFault::OutOfMemory) => String::from_str(alloc, "out of memory")?,
    };
    Ok(text)
}

#[test]
fn reads_each_command(rt: HostRuntime) -> Result<(), Fail> {
    let table = [
        ("replay s t", "replay t over s"),
        ("replay - -", "replay - over -"),
        ("replay -- -s -t", "replay -t over -s"),
        ("plan t", "plan of t by 1, certificates false"),
        ("plan -", "plan of - by 1, certificates false"),
        ("plan -- -t", "plan of -t by 1, certificates false"),
        ("plan -- --", "plan of -- by 1, certificates false"),
        ("plan t --", "plan of t by 1, certificates false"),
        ("plan --workers 64 t", "plan of t by 64, certificates false"),
        ("plan t --workers=8", "plan of t by 8, certificates false"),
        (
            "plan --certificates --workers=1 -- t",
            "plan of t by 1, certificates true",
        ),
        (
            "plan --generate 4 --seed 7",
            "plan of 4 from 7 by 1, certificates false",
        ),
        (
            "plan --seed=0 --certificates --generate=4096",
            "plan of 4096 from 0 by 1, certificates true",
        ),
        ("check t c", "check c of t"),
        ("check -- -t -c", "check -c of -t"),
        (
            "check --generate 1 c --seed 65535",
            "check c of 1 from 65535",
        ),
    ];
    for (line, wanted) in table {
        assert_eq!(rt; asked(rt.alloc(), line)?.as_str(), wanted, "{line}");
    }
    Ok(())
}

#[test]
fn refuses_each_other_form(rt: HostRuntime) -> Result<(), Fail> {
    let table = [
        "",
        "plans t",
        "serve s",
        "replay s",
        "replay s t u",
        "replay s -t",
        "replay -- s",
        "replay s t --workers=1",
        "replay s --certificates t",
        "plan",
        "plan t u",
        "plan -t",
        "plan --threads=1 t",
        "plan --certificates=yes t",
        "plan t --certificates --certificates",
        "plan t --workers",
        "plan t --workers=",
        "plan t --workers 0",
        "plan t --workers 65",
        "plan t --workers 08",
        "plan t --workers +8",
        "plan t --workers -- 8",
        "plan t --workers 1 --workers=1",
        "plan --generate 4",
        "plan --seed 7",
        "plan --generate 0 --seed 7",
        "plan --generate 4097 --seed 7",
        "plan --generate 4 --seed 65536",
        "plan --generate 4 --seed 00",
        "plan --generate 4 --seed 4294967303",
        "plan --generate 4 --seed 7 t",
        "plan --generate 4 --seed 7 --generate=4",
        "plan --generate 4 --seed 7 --seed 7",
        "plan t -- --workers 1",
        "check t",
        "check t c d",
        "check --generate 1 --seed 1",
        "check --generate 1 c",
        "check t c --workers=1",
        "check t c --certificates",
    ];
    for line in table {
        assert_eq!(rt; asked(rt.alloc(), line)?.as_str(), "bad", "{line}");
    }
    assert_eq!(rt;
        read_words(rt.alloc(), &[]).err(),
        Some(WordsFault::Bad),
        "no words"
    );
    Ok(())
}
