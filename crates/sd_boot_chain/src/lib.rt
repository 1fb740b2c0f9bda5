//! The diskless client, and sessions of its commands, over any link.
//!
//! Over a link that tells its world, each answer of `Client::step` is earned or caused by what happened in that call, and
//! `session` writes the transcript of what happened. Nothing here names a segment, a disk or a server.
#![tactic(auto)]

mod address;
mod boot;
mod client;
mod fetch;
mod pause;
mod root;
mod transcript;

pub use client::Client;
pub use transcript::{SessionError, session};

#[cfg(test)]
mod tests;
