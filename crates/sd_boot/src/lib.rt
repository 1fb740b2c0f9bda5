//! The programs of the boot chain, as calls from words and input to output and status.
//!
//! `run` carries the headline for `replay`: what it writes is the transcript of a lawful run of the script that it read,
//! its answers are those of the boot machine, and each is earned or caused by its part of the run. For `show` and
//! `pack` it is what each line of the input is turned into, or what the lines before the first refused one are, and its
//! refusal. `image make` writes the image of a script's swap file, and `image show` the files that an image holds, or why it
//! is refused.
#![tactic(auto)]

mod held_files;
mod images;
mod input;
mod output;
mod packet_texts;
mod play;
mod programs;
mod replay;
mod status;
mod words;

pub use programs::run;
pub use status::Status;
pub use words::Text;
