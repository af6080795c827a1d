//! The program `anyk`: passes the command line, the files and the standard streams of the system to
//! `anyk_top`, and exits with the status that it returns.
#![tactic(auto)]

use anyk_top::run_uncounted;
use hash_keys::Keys;
use outer_io::{FileShelf, StdSink};
use std::alloc::AllocError;
use std::env;
use std::hash::RandomState;
use std::io::{ErrorKind, Stderr, Stdout};
use std::marker::Brand;
use std::process::ExitCode;
use std::sync::ledger::Blank;

/// The exit status if memory for the arguments is refused.
const NO_MEMORY: u8 = 12;

/// The exit status if an argument is not valid text.
const NO_TEXT: u8 = 16;

/// Runs the program on the arguments, files and streams of the system.
fn main(rt: HostRuntime) -> ExitCode {
    match words(&rt) {
        Ok(words) => {
            let mut shelf = FileShelf::new(rt);
            let mut out = StdSink::new(rt.stdout());
            let mut err = StdSink::new(rt.stderr());
            let status = run_uncounted::<FileShelf, StdSink<Stdout>, StdSink<Stderr>, Brand>(
                rt.alloc(),
                &words,
                &mut shelf,
                &mut out,
                &mut err,
                keys(&rt),
                Blank::new(1),
            );
            ExitCode::from(status)
        }
        Err(status) => ExitCode::from(status),
    }
}

/// Keys drawn at random, so that nobody who writes the files can choose texts that collide. If the
/// system gives no random words, the known keys are used.
fn keys(rt: &HostRuntime) -> Keys {
    match RandomState::new(rt) {
        Ok(state) => Keys::Drawn(state),
        Err(_) => Keys::Known,
    }
}

/// The arguments after the program's name, or the exit status if they cannot be had.
fn words(rt: &HostRuntime) -> Result<Vec<String>, u8> {
    let words = match env::args(rt) {
        Ok(args) => args.skip(1).collect(rt.alloc()),
        Err(error) if error.kind() == ErrorKind::OutOfMemory => Err(AllocError),
        Err(_) => return Err(NO_TEXT),
    };
    words.map_err(|_| NO_MEMORY)
}
