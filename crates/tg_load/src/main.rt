//! `tg_load`, many sessions at once over one vault: whatever order the threads take, the logs of all of them agree with
//! one legal history.
#![tactic(auto)]

mod actor;
mod board;
mod crowd;
mod draws;
mod figures;
mod found;
mod load;
mod opening;
mod reading;
mod run;

use clap::Error;
use load::Load;
use reading::load;
use run::run_next;
use std::alloc::Global;
use std::process::ExitCode;
use std::rt::Clock;
use std::sync::Wait;
use std::thread::Threads;
use std::{env, io};

/// The program's words, its own name first.
fn words(rt: &HostRuntime) -> io::Result<Vec<String>> {
    Ok(env::args(rt)?.collect(rt.alloc())?)
}

/// Makes all runs, each with a line for its result. Returns whether all of them came out as they should, and were
/// printed.
fn run_all<R: Threads + Wait + Clock + Print + Eprint + Sync>(
    rt: &R,
    alloc: Global,
    load: Load,
) -> bool {
    let mut is_well = true;
    for number in 0..load.runs {
        let Ok(is_next_well) = run_next(rt, alloc, load, load.seed.wrapping_add(number)) else {
            return false;
        };
        is_well = is_next_well && is_well;
    }
    is_well
}

/// Prints why the words are refused, or the text that they ask for. Status 2 says that they were refused.
fn print_error<R: Print + Eprint>(rt: &R, error: Error) -> ExitCode {
    let _ = error.print(rt);
    if error.use_stderr() {
        ExitCode::from(2)
    } else {
        ExitCode::SUCCESS
    }
}

/// Does what the words ask for.
fn start<R: Threads + Wait + Clock + Print + Eprint + Sync>(
    rt: &R,
    alloc: Global,
    words: &[String],
) -> ExitCode {
    match load(alloc, words) {
        Ok(load) => {
            if run_all(rt, alloc, load) {
                ExitCode::SUCCESS
            } else {
                ExitCode::FAILURE
            }
        }
        Err(error) => print_error(rt, error),
    }
}

fn main(rt: HostRuntime) -> ExitCode {
    match words(&rt) {
        Ok(words) => start(&rt, rt.alloc(), &words),
        Err(_) => ExitCode::from(2),
    }
}
