//! The program `mx`: reads a script of edits and evaluations, and answers each command. Files are those below the
//! working folder.
//!
//! Room: engine and scripts.
#![tactic(auto)]

mod sure;
mod top;

use mx_host::{HostFiles, HostSink, HostSource};
use std::alloc::AllocError;
use std::process::ExitCode;
use std::{env, io};
pub use sure::answer_script;
pub use top::mx_top;

/// The words after the program's name. Where they can't be told there are none.
fn words_of(rt: &HostRuntime) -> Result<Vec<String>, AllocError> {
    let mut words = Vec::new(rt.alloc());
    match env::args(rt) {
        Ok(args) => {
            for word in args.skip(1) {
                words.push(word)?;
            }
            Ok(words)
        }
        Err(e) if e.kind() == io::ErrorKind::OutOfMemory => Err(AllocError),
        Err(_) => Ok(words),
    }
}

fn main(rt: HostRuntime) -> ExitCode {
    let Ok(words) = words_of(&rt) else {
        return ExitCode::from(5);
    };
    let mut script = HostSource::new(rt.reader());
    let mut out = HostSink::new(io::writer(&rt));
    let mut files = HostFiles::new(&rt);
    ExitCode::from(mx_top(rt.alloc(), &words, &mut script, &mut files, &mut out))
}
