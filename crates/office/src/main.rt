//! The office of a container terminal: `office init` makes a store, `office deliver` and `office serve` take
//! interchanges, `office account` adds an account, `office report` looks things up, `office migrate` brings an older
//! store to this version, `office explain` says what is wrong with a file, and `office demo` takes interchanges from
//! standard input to tables in memory. Its texts and exit statuses are tested; what its commands are made of is proved.
#![tactic(auto)]

mod archive_paths;
mod causes;
mod closing;
mod command;
mod copying;
mod explain;
mod history;
mod init;
mod leaving;
mod links;
mod long_work;
mod new_archive;
mod request_log;
mod watch;

use causes::tell_with;
use command::run;
use office_commands::{COMMAND_LINE, FAILED};
use office_replies::Port;
use std::io::ErrorKind;
use std::process::ExitCode;
use std::{env, io};

fn main(rt: HostRuntime) -> ExitCode {
    let status = match run_words(&rt) {
        Ok(status) => status,
        Err(fault) => tell_words(&rt, fault.kind()),
    };
    ExitCode::from(status)
}

/// Runs the program on its words and the standard streams. An error is that the words could not be had.
fn run_words(rt: &HostRuntime) -> io::Result<u8> {
    let alloc = rt.alloc();
    let given: Vec<String> = env::args(rt)?.collect(alloc)?;
    let mut words = Vec::new(alloc);
    for word in &given {
        words.push(word.as_str())?;
    }
    let mut input = Port::new(rt.stdin());
    let mut output = Port::new(rt.stdout());
    let mut errors = Port::new(rt.stderr());
    Ok(run(rt, words.as_slice(), &mut input, &mut output, &mut errors))
}

/// Reports why the words could not be had: one is no text, or there was no memory for them.
fn tell_words(rt: &HostRuntime, kind: ErrorKind) -> u8 {
    let mut errors = Port::new(rt.stderr());
    match kind {
        ErrorKind::InvalidData => tell_with(&mut errors, "a word is not UTF-8\n", COMMAND_LINE),
        _ => tell_with(&mut errors, "store: Memory\n", FAILED),
    }
}
