//! Reads figures and a command from standard input, and prints the answer.
#![tactic(auto)]

pub mod engine;
pub mod exit;
mod report;

use engine::run;
use report::{Ending, report};
use std::io;
use std::process::ExitCode;

fn main(rt: HostRuntime) -> ExitCode {
    let exit = run(rt.alloc(), &mut rt.reader(), &mut io::writer(&rt));
    let Ending { message, status } = report(&exit);
    // There is nobody left to tell of a fault in telling.
    let _ = eprint!(rt; "{message}");
    ExitCode::from(status)
}
