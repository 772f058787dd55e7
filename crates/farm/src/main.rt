//! The script program: it gives `run` of `farm_program` the words and the streams of the process.
#![tactic(auto)]

use farm_cli::refuse_arguments;
use farm_program::run;
use std::process::ExitCode;
use std::{env, io};

fn main(rt: HostRuntime) -> ExitCode {
    let alloc = rt.alloc();
    let mut input = rt.reader();
    let mut output = rt.stdout();
    let mut errors = rt.stderr();
    let words = match env::args(&rt) {
        Ok(words) => words,
        Err(error) => return ExitCode::from(refuse_arguments(&error, &mut errors).status),
    };
    let words: Vec<String> = match words.collect(alloc) {
        Ok(words) => words,
        Err(_) => {
            let error = io::Error::from(io::ErrorKind::OutOfMemory);
            return ExitCode::from(refuse_arguments(&error, &mut errors).status);
        }
    };
    let words = words.as_slice();
    ExitCode::from(run(&rt, alloc, words, &mut input, &mut output, &mut errors))
}
