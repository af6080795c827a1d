//! A program over the library, without the commands of anyk: tables from text, a query, its plan, an
//! engine and two cursors over it. docs/LIBRARY.md goes through it.
#![tactic(auto)]

mod example;

use crate::example::first_answers;
use std::marker::Brand;
use std::process::ExitCode;
use std::sync::ledger::Blank;

/// Prints the rows of the first answers: two that a cursor gives, and the one after them, which a
/// fork of the cursor and then the cursor itself give.
fn main(rt: HostRuntime) -> ExitCode {
    let Some(found) = first_answers::<Brand>(rt.alloc(), Blank::new(1)) else {
        return ExitCode::FAILURE;
    };
    for rows in found {
        let [train, hotel] = rows;
        if println!(rt; "train {train} hotel {hotel}").is_err() {
            return ExitCode::FAILURE;
        }
    }
    ExitCode::SUCCESS
}
