//! The network between a client and its boot server: the world with its steps, and a link into it.
//!
//! The definitions in `specs/` say what may happen between the two machines (`World`, `Steps`), whose turn it is (`Lawful`) and
//! how each step is written (`Printing`). The trait `Link` is the client's only way into that world; its contract says what
//! each call does to the history that a link tells. What the server answers is defined in `sd_services`.
#![tactic(auto)]

mod link;
mod mem_link;
#[cfg(test)]
mod mem_link_tests;

pub use link::{Link, LinkError};
pub use mem_link::{MemLink, PacketTimes};
pub use sd_config::{ClientConfig, Config, Events, Stage};
