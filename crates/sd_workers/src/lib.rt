//! Several workers at one boot server: each has a seat, and they take turns. All that the server does is one legal history.
#![tactic(auto)]

mod account;
mod answering;
mod ends;
mod hall;
mod serving;
mod ticking;

pub use account::{Entry, Event};
pub use hall::{Hall, HallSeat};
