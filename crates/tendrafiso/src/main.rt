//! The boot chain of a diskless client, as programs over standard input and output.
#![tactic(auto)]

use sd_boot::{Status, Text, run};
use sd_outside::NoMemory;
use sd_streams::{StandardInput, StandardOutput};
use std::io;
use std::process::ExitCode;

/// The words of the command line, without the program's name. One that isn't UTF-8 makes them unknown words: there are none.
fn words(rt: &HostRuntime) -> Result<Vec<Text>, NoMemory> {
    let mut words = Vec::new(rt.alloc());
    let all = match std::env::args(rt) {
        Ok(all) => all,
        Err(error) => {
            if error.kind() == io::ErrorKind::OutOfMemory {
                return Err(NoMemory);
            }
            return Ok(words);
        }
    };
    for word in all.skip(1) {
        words.push(Text::new(rt.alloc(), word.as_str())?)?;
    }
    Ok(words)
}

fn main(rt: HostRuntime) -> ExitCode {
    let status = match words(&rt) {
        Ok(words) => {
            let mut source = StandardInput::new(rt.reader());
            let mut sink = StandardOutput::new(io::writer(&rt));
            run(rt.alloc(), words.as_slice(), &mut source, &mut sink)
        }
        Err(NoMemory) => Status(5),
    };
    ExitCode::from(status.0)
}
