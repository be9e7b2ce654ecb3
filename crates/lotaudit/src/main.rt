// The program `lotaudit`: prints what its words are answered with, or what is wrong with them.
#![tactic(auto)]

use commands::run;
use std::fmt::Display;
use std::process::ExitCode;
use std::{env, io};

// The words after the program's name.
fn words_given(rt: &HostRuntime) -> io::Result<Vec<String>> {
    Ok(env::args(rt)?.skip(1).collect(rt.alloc())?)
}

// Says in one line why nothing was done, and ends with status 1.
fn refuse(rt: &HostRuntime, why: impl Display + Drop) -> ExitCode {
    let _ = eprintln!(rt; "lotaudit: {why}");
    ExitCode::FAILURE
}

fn main(rt: HostRuntime) -> ExitCode {
    let words = match words_given(&rt) {
        Ok(words) => words,
        Err(error) => return refuse(
            &rt,
            format_args!(
                "the words can not be read, {error}; usage: lotaudit minute SCALE PRICE..."
            ),
        ),
    };
    match run(rt.alloc(), words.as_slice()) {
        Ok(text) => match rt.print(text) {
            Ok(()) => ExitCode::SUCCESS,
            Err(error) => refuse(&rt, format_args!("the answer can not be printed, {error}")),
        },
        Err(error) => refuse(&rt, error),
    }
}
