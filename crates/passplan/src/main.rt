//! `passplan` plans satellite passes over stations, every printed span certified: `passplan plan --catalogue=.. --stations=..`.
#![tactic(auto)]

use outside_io::{FileShelf, ProcessWords, StdSink};
use std::io;
use std::process::ExitCode;
use top_call::run_given;

fn main(rt: HostRuntime) -> ExitCode {
    let mut shelf = FileShelf::make(&rt);
    let mut out = StdSink::make(io::writer(&rt));
    let words = ProcessWords::make(&rt);
    run_given(rt.alloc(), &words, &mut shelf, &mut out)
}
