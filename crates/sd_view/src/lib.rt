//! What is made of a run to look at, from the transcript that `replay` writes.
//!
//! `run` carries the contract of each word: where it answers 0, the input is a transcript by the grammar of `specs/Transcript.antt`,
//! and the output is what the word's definition makes of it; where it answers 1, the output names the first line outside the grammar.
#![tactic(auto)]

mod brief;
mod capture;
mod elements;
mod ends;
mod internet;
mod journeys;
mod ladder;
mod laws;
mod lines;
mod order;
mod output;
mod picture;
mod programs;
mod protocols;
mod status;
mod transcript;
mod views;
mod words;

pub use laws::{narrow_rows, one_drawing, one_reading};
// What the definitions of transcripts speak of.
pub use lines::{Arrival, Line};
pub use order::SoFar;
pub use programs::run;
pub use status::Status;
pub use words::Word;
