//! Views of a run, from standard input to standard output.
#![tactic(auto)]

use sd_outside::{ByteList, NoMemory};
use sd_streams::{StandardInput, StandardOutput};
use sd_view::{Status, run};
use std::io;
use std::process::ExitCode;

/// The words of the command line, without the program's name. One that isn't UTF-8 makes them unknown words: there are none.
fn words(rt: &HostRuntime) -> Result<Vec<ByteList>, NoMemory> {
    let mut words = Vec::new(rt.alloc());
    let all = match std::env::args(rt) {
        Ok(all) => all,
        Err(error) => {
            if error.kind() == io::ErrorKind::OutOfMemory {
                return Err(NoMemory);
            }
            return Ok(words);
        }
    };
    for word in all.skip(1) {
        words.push(ByteList::from_slice(rt.alloc(), word.as_str().as_bytes())?)?;
    }
    Ok(words)
}

fn main(rt: HostRuntime) -> ExitCode {
    let status = match words(&rt) {
        Ok(words) => {
            let mut source = StandardInput::new(rt.reader());
            let mut sink = StandardOutput::new(io::writer(&rt));
            run(rt.alloc(), words.as_slice(), &mut source, &mut sink)
        }
        Err(NoMemory) => Status(5),
    };
    ExitCode::from(status.0)
}
