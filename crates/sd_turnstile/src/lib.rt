//! A turnstile: many seats take turns at one object, and one history tells all that was done to it.
//!
//! A seat that wants to change the object draws a ticket, waits until that ticket is served, takes the object out of its slot, changes it, puts it back and serves the next ticket. What was done in a turn is told as an entry. The contracts say what each seat has seen of the history, and which of its entries are its own.
#![tactic(auto)]

mod ends;
mod held;
mod laws;
mod order;
mod plays;
mod seat;
mod steps;
mod turns;
mod view;

pub use held::{Account, Held, Nothing};
pub use seat::{EntrySeat, Seat, Turnstile};
