//! A counter in a turnstile, with which threads count. This crate has tests alone, of the crate below it.
#![tactic(auto)]

mod counter;
mod counting;
#[cfg(test)]
mod tests;
