//! The network between the client and its boot server, in memory: a link that tells its whole world.
//!
//! A segment is given a configuration and the events of a script. It keeps every packet that was sent with its fate, and
//! everything that happened, sends what strangers send, and hands the server what comes to it. Each packet comes at the ticks
//! that its fate says, once for each delay, and never else, and a call of the client fails where a line names it: the history
//! that a segment tells is orderly, and lawful unless it came to tick 2^62, where a receive that needs one more fails
//! (`Segment::facts`).
#![tactic(auto)]

mod calm;
mod disk;
mod due;
mod ends;
mod faults;
mod flown;
mod places;
mod printing;
mod pushing;
mod queue;
mod segment;
mod stray_lines;
mod strays;

pub use disk::new_disk;
pub use segment::Segment;

#[cfg(test)]
mod tests;
