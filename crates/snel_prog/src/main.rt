//! snel answers SQL over block files of log records with JSON lines and a status. [`main`] hands the words of the command
//! line and the process's files, input and outputs to [`snel`], which does what the words ask, and ends with its status.
#![tactic(auto)]

use query_run::QueryFault;
use snel_command::{Names, Refusal, report, snel};
use snel_device::{HostFiles, HostInput, HostOut, OpenGate};
use snel_values::Words;
use std::io::{BufWriter, ErrorKind, IsTerminal, Stderr, Stdin, Write};
use std::process::ExitCode;
use std::random::RandomSource;
use std::thread::Threads;
use std::{env, rt};

// How many bytes are gathered for one write to standard output, where that is no terminal.
const PIECE_BYTES: usize = 65_536;

fn main(rt: HostRuntime) -> ExitCode {
    let mut err = HostOut::new(rt.stderr());
    let words = match words_of(&rt) {
        Ok(words) => words,
        Err(refusal) => return ExitCode::from(refuse(refusal, &mut err)),
    };
    let stdin = HostInput::new(rt.stdin());
    let stdout = rt.stdout();
    let status = if stdout.is_terminal() {
        answer(&rt, &words, stdin, stdout, &mut err)
    } else {
        match BufWriter::with_capacity(rt.alloc(), PIECE_BYTES, stdout) {
            Ok(gathered) => answer(&rt, &words, stdin, gathered, &mut err),
            Err(_) => refuse(Refusal::Query(QueryFault::OutOfMemory), &mut err),
        }
    };
    ExitCode::from(status)
}

// Does what the words ask, writes what it puts to `stdout`, and answers the status. What the writer holds back is handed on
// before; where that fails, a call that was refused nothing ends as one whose put failed.
fn answer<R: Threads + Sync + RandomSource + rt::Files + AllocGlobal, W: Write + Drop>(
    rt: &R,
    words: &Words,
    mut stdin: HostInput<Stdin>,
    stdout: W,
    err: &mut HostOut<Stderr>,
) -> u8 {
    let mut files = HostFiles::new(rt, rt.alloc());
    let mut out = HostOut::new(stdout);
    let status = snel(
        rt,
        rt.alloc(),
        words,
        &mut files,
        &mut stdin,
        &mut out,
        err,
        &OpenGate,
    );
    match out.end() {
        Err(_) if status == 0 => refuse(Refusal::Query(QueryFault::WriteFault), err),
        _ => status,
    }
}

// Writes the line of a refusal that is about no file, and answers its status.
fn refuse(refusal: Refusal, err: &mut HostOut<Stderr>) -> u8 {
    report(Err(refusal), 0, &Names::None, err);
    refusal.status()
}

// The words after the program's name, or what stands against them.
fn words_of<R: rt::Env + AllocGlobal>(rt: &R) -> Result<Words, Refusal> {
    let args = match env::args(rt) {
        Ok(args) => args,
        Err(e) if e.kind() == ErrorKind::OutOfMemory => return Err(Refusal::Query(
            QueryFault::OutOfMemory,
        )),
        Err(_) => return Err(Refusal::Words),
    };
    let mut words = Words::new(rt.alloc());
    for arg in args.skip(1) {
        if words.push(arg.as_str()).is_err() {
            return Err(Refusal::Query(QueryFault::OutOfMemory));
        }
    }
    Ok(words)
}
