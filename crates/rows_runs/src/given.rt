use crate::calls::words_of;
use elements::Text;
use outside_io::{MemoryShelf, MemorySink, MemoryWords, ProcessWords};
use std::alloc::{AllocError, Global};
use std::env::FillError;
use std::process::{Abort, ExitCode};
use std::rt::Env;
use std::test::Fail;
use top_call::run_given;

/// Arguments of a program, of which the first is its name.
#[derive(Drop)]
struct Arguments {
    words: Vec<Text>,
}

impl Env for Arguments {
    fn arg(&self, place: usize, buffer: &mut [u8]) -> Result<usize, FillError> {
        let Some(word) = self.words.get(place) else {
            return Err(FillError::NotPresent);
        };
        let bytes = word.bytes();
        match buffer.get_mut(..bytes.len()) {
            Some(front) => {
                front.copy_from_slice(bytes);
                Ok(bytes.len())
            }
            None => Err(FillError::TooLong),
        }
    }

    fn var(&self, _name: &str, _buffer: &mut [u8]) -> Result<usize, FillError> {
        Err(FillError::NotPresent)
    }

    fn var_at(&self, _place: usize, _buffer: &mut [u8]) -> Result<usize, FillError> {
        Err(FillError::NotPresent)
    }
}

/// What a program of these arguments writes, and what it ends with.
fn ended(alloc: Global, words: Vec<Text>, failing: u64) -> Result<(MemorySink, ExitCode), Fail> {
    let arguments = ProcessWords::make(Arguments { words });
    let mut shelf = MemoryShelf::make(alloc)?;
    let mut out = MemorySink::make(alloc, 1000)?;
    out.fail_at(failing)?;
    let code = run_given(alloc, &arguments, &mut shelf, &mut out);
    Ok((out, code))
}

/// A program of the arguments of a line, whose put of this number fails, writes this and ends with this status.
fn writes(
    line: &[u8],
    failing: u64,
    wanted: &[u8],
    status: u8,
    rt: &(impl Abort + AllocGlobal),
) -> Result<(), Fail> {
    let words = words_of(rt.alloc(), line)?;
    ends(words, failing, wanted, status, rt)
}

/// The same of these arguments.
fn ends(
    words: Vec<Text>,
    failing: u64,
    wanted: &[u8],
    status: u8,
    rt: &(impl Abort + AllocGlobal),
) -> Result<(), Fail> {
    let (out, code) = ended(rt.alloc(), words, failing)?;
    assert_eq!(rt; out.written(), wanted);
    assert_eq!(rt; code, ExitCode::from(status));
    Ok(())
}

#[test]
fn the_words_behind_the_name_are_read(rt: HostRuntime) -> Result<(), Fail> {
    writes(b"passplan", 0, b"error usage nocommand\n", 2, &rt)?;
    writes(b"day", 0, b"error usage nocommand\n", 2, &rt)?;
    writes(b"passplan day", 0, b"error usage missing lat\n", 2, &rt)?;
    writes(b"passplan  day", 0, b"error usage command\n", 2, &rt)?;
    writes(b"day day  --lat=1", 0, b"error usage word 2\n", 2, &rt)?;
    writes(b"day day --lat=\xff", 0, b"error usage word 2\n", 2, &rt)?;
    writes(
        b"passplan show --catalogue=a --start=2000-06-28T00:00:00Z",
        0,
        b"error read\n",
        6,
        &rt,
    )?;
    writes(
        b"passplan day --lat 90 --lon 0 --start 2000-06-21T00:00:00Z --end 2000-06-21T01:00:00Z --res 1",
        1,
        b"PASSD",
        8,
        &rt,
    )?;
    Ok(())
}

/// The arguments of a program that asks for an hour of daylight at the pole, but for the longitude.
const BEFORE: &[u8] =
    b"passplan day --lat=90 --start=2000-06-21T00:00:00Z --end=2000-06-21T01:00:00Z --res=1";

/// What it writes.
const DAY: &[u8] =
    b"PASSDAY 1\nWINDOW 2000-06-21T00:00:00.0000Z 2000-06-21T01:00:00.0000Z 1\nL 2000-06-21T00:00:00.0000Z 2000-06-21T01:00:00.0000Z\nEND\n";

/// These arguments and one more.
fn with(word: &[u8], alloc: Global) -> Result<Vec<Text>, AllocError> {
    let mut words = words_of(alloc, BEFORE)?;
    words.push(Text::copy(alloc, word)?)?;
    Ok(words)
}

/// A word of this length that writes the longitude 0 with many zeros is read, and a stray one behind the last of them.
fn reads(length: usize, rt: &(impl Abort + AllocGlobal)) -> Result<(), Fail> {
    let mut word = Vec::new(rt.alloc());
    word.extend_from_slice(b"--lon=")?;
    for _ in word.len()..length {
        word.push(b'0')?;
    }
    ends(with(word.as_slice(), rt.alloc())?, 0, DAY, 0, rt)?;
    word.push(b'x')?;
    let words = with(word.as_slice(), rt.alloc())?;
    ends(words, 0, b"error usage value lon\n", 2, rt)
}

#[test]
fn long_words_are_read_to_their_end(rt: HostRuntime) -> Result<(), Fail> {
    reads(7, &rt)?;
    reads(255, &rt)?;
    reads(256, &rt)?;
    reads(257, &rt)?;
    reads(511, &rt)?;
    reads(512, &rt)?;
    reads(513, &rt)?;
    reads(1025, &rt)?;
    reads(100_000, &rt)
}

/// The words of a line, told by their source, write this and end with this status.
fn told(
    line: &[u8],
    wanted: &[u8],
    status: u8,
    rt: &(impl Abort + AllocGlobal),
) -> Result<(), Fail> {
    let mut words = MemoryWords::make(rt.alloc());
    for word in line.split(|byte| *byte == b' ') {
        words.add(word)?;
    }
    let mut shelf = MemoryShelf::make(rt.alloc())?;
    let mut out = MemorySink::make(rt.alloc(), 1000)?;
    let code = run_given(rt.alloc(), &words, &mut shelf, &mut out);
    assert_eq!(rt; out.written(), wanted);
    assert_eq!(rt; code, ExitCode::from(status));
    Ok(())
}

#[test]
fn told_words_are_read(rt: HostRuntime) -> Result<(), Fail> {
    told(b"day", b"error usage missing lat\n", 2, &rt)?;
    told(b" day", b"error usage command\n", 2, &rt)?;
    told(b"day --lat=\xff", b"error usage word 2\n", 2, &rt)?;
    told(
        b"locate --catalogue=a --number=5 --at=x",
        b"error window shape\n",
        3,
        &rt,
    )?;
    told(
        b"show --catalogue=a --start=2000-06-28T00:00:00Z",
        b"error read\n",
        6,
        &rt,
    )
}
