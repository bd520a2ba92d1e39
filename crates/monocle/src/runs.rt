//! Runs of the program over a desk in memory, for tests.

use crate::words::monocle;
use mon_world::{FileBytes, MemoryDesk, NamedFile, NamedFiles, Places, Text};
use std::alloc::Global;
use std::test::Fail;
use std::thread::Threads;

/// Which read or which write is to fail, counted from 0.
#[derive(Clone, Copy)]
pub(crate) enum Failing {
    Nothing,
    Read(u64),
    Write(u64),
}

/// The words, parted by spaces.
fn words_of(alloc: Global, line: &str) -> Result<Vec<Text>, Fail> {
    let mut words = Vec::new(alloc);
    for word in line.split_ascii_whitespace() {
        words.push(Text::new(alloc, word)?)?;
    }
    Ok(words)
}

/// A file of this name and content.
fn file(alloc: Global, name: &str, content: &str) -> Result<NamedFile, Fail> {
    Ok(NamedFile {
        name: Text::new(alloc, name)?,
        content: FileBytes::of(Vec::from_slice(alloc, content.as_bytes())?),
    })
}

/// Two files, by name and content.
pub(crate) fn files_of(
    alloc: Global,
    name: &str,
    content: &str,
    other_name: &str,
    other_content: &str,
) -> Result<NamedFiles, Fail> {
    let mut files = NamedFiles::new(alloc);
    files.push(file(alloc, name, content)?)?;
    files.push(file(alloc, other_name, other_content)?)?;
    Ok(files)
}

/// A desk with these files, on which this fails.
fn desk_of(alloc: Global, files: NamedFiles, failing: Failing) -> Result<MemoryDesk, Fail> {
    let mut reads = Places::new(alloc);
    let mut writes = Places::new(alloc);
    match failing {
        Failing::Nothing => {}
        Failing::Read(place) => reads.push(place)?,
        Failing::Write(place) => writes.push(place)?,
    }
    Ok(MemoryDesk::new(alloc, files, reads, writes))
}

/// Whether a run over these files, where this fails, ends with this status, and writes and says this alone.
pub(crate) fn ends<R: Threads + Sync>(
    rt: &R,
    alloc: Global,
    words: &str,
    files: NamedFiles,
    failing: Failing,
    status: u8,
    written: &str,
    said: &str,
) -> Result<bool, Fail> {
    let words = words_of(alloc, words)?;
    let mut desk = desk_of(alloc, files, failing)?;
    let ended = monocle(rt, alloc, &words, &mut desk);
    Ok(ended == status && desk.written() == written.as_bytes() && desk.said() == said.as_bytes())
}

/// What a run over no files writes.
pub(crate) fn writes<R: Threads + Sync>(
    rt: &R,
    alloc: Global,
    words: &str,
) -> Result<String, Fail> {
    let words = words_of(alloc, words)?;
    let mut desk = desk_of(alloc, NamedFiles::new(alloc), Failing::Nothing)?;
    if monocle(rt, alloc, &words, &mut desk) != 0 {
        return Err(Fail::new("another status than 0"));
    }
    match String::from_utf8(Vec::from_slice(alloc, desk.written())?) {
        Ok(text) => Ok(text),
        Err(_) => Err(Fail::new("no text")),
    }
}
