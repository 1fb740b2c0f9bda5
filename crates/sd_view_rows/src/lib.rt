//! The views of runs against rows worked out elsewhere, from input to output and status. This crate has tests alone.
#![tactic(auto)]

#[cfg(test)]
mod captures;
#[cfg(test)]
mod drawings;
#[cfg(test)]
mod running;
