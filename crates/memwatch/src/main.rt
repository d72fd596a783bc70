// The program: a trace on standard input, its verdict on standard output, and what it means on standard error.
#![tactic(auto)]

use anyhow::anyhow;
use explain::explain::explain;
use sentence::shown::Sentence;
use std::io::Read;
use std::{env, io};
use text::limits::MAX_TEXT;
use trace::judge::verdict_on;
use verdict::report::HEADING;

// The system's number for a descriptor that is not open.
const NOT_OPEN: i32 = 9;

// How to use the program.
const HELP: &str = "usage: memwatch < TRACE

Reads the recording of a board's memory operations from standard input and
writes two lines to standard output: the names of six columns, and the verdict.

  clean      the recording is closed and breaks no law
  convicted  a call broke a law: its code is the law, 21 to 29
  refused    a call makes no sense: its code is the refusal, 1 to 13
  garbled    the text is no trace: its code is the fault, 41 to 48

What the verdict means is written to standard error in a sentence. The status
is 0 for every verdict. docs/trace-format.md has the format of a trace, and
examples/ has traces to start from.
";

// Reads a text to its end. What follows once it is too long is not kept.
// By a loop of its own: each read is offered as much, so that a text that comes in packets of up to 4096 bytes is read whole, and a read that
// fails ends it, also one that a signal interrupts.
fn read_text<R: Read>(input: &mut R, text: &mut Vec<u8>) -> io::Result<()> {
    let mut buffer = [0u8; 4096];
    for _ in 0..u64::MAX {
        let count = input.read(&mut buffer)?;
        if count == 0 {
            break;
        }
        if text.len() <= MAX_TEXT {
            text.extend_from_slice(&buffer[..count])?;
        }
    }
    Ok(())
}

// Standard input, read to its end; nothing where it is closed.
fn read_input(rt: &HostRuntime) -> io::Result<Vec<u8>> {
    let mut text = Vec::new(rt.alloc());
    match read_text(&mut rt.stdin(), &mut text) {
        Err(error) if error.raw_os_error() != Some(NOT_OPEN) => Err(error),
        _ => Ok(text),
    }
}

// What the arguments ask for.
enum Request {
    Judge,
    Help,
}

fn requested(rt: &HostRuntime) -> anyhow::Result<Request> {
    let mut given = env::args(rt)?.skip(1);
    let Some(argument) = given.next() else {
        return Ok(Request::Judge);
    };
    match argument.as_str() {
        "--help" | "-h" => Ok(Request::Help),
        _ => Err(anyhow!("unknown argument: memwatch --help says how to use it")),
    }
}

// Reads a trace and writes its verdict. That the meaning can't be written is no failure.
fn judge(rt: &HostRuntime) -> anyhow::Result<()> {
    let text = read_input(rt)?;
    let verdict = verdict_on(&text);
    println!(rt; "{HEADING}")?;
    println!(rt; "{verdict}")?;
    let sentence = Sentence(explain(&text, verdict));
    let _ = eprintln!(rt; "{sentence}");
    Ok(())
}

fn main(rt: HostRuntime) -> anyhow::Result<()> {
    match requested(&rt)? {
        Request::Judge => judge(&rt)?,
        Request::Help => print!(rt; "{HELP}")?,
    }
    Ok(())
}
