//! `main`: the program `edsac`, with standard output as `out` and standard error as `note`.
//!
//! Contract: passes on arguments and streams. If an argument is not UTF-8, no words are passed on, which is a usage
//! error. Depends on `ed_top`.
#![tactic(auto)]

use ed_io::{StdSink, StdSource};
use ed_top::{edsac, report_no_memory};
use std::alloc::AllocError;
use std::io::ErrorKind;
use std::process::ExitCode;

fn main(rt: HostRuntime) -> ExitCode {
    let mut note = StdSink::new(rt.stderr());
    let Ok(words) = words(&rt) else {
        return ExitCode::from(report_no_memory(&mut note));
    };
    let mut source = StdSource::new(rt.stdin());
    let mut out = StdSink::new(rt.stdout());
    let status = edsac(rt.alloc(), &words, &mut source, &mut out, &mut note);
    ExitCode::from(status)
}

/// The words after the program's name; no words if one of them is not UTF-8.
fn words(rt: &HostRuntime) -> Result<Vec<String>, AllocError> {
    match std::env::args(rt) {
        Ok(mut args) => {
            args.next();
            args.collect(rt.alloc())
        }
        Err(error) if error.kind() == ErrorKind::OutOfMemory => Err(AllocError),
        Err(_) => Ok(Vec::new(rt.alloc())),
    }
}
