//! The programs against rows worked by hand, from arguments and input to output and status. This crate has tests alone.
#![tactic(auto)]

#[cfg(test)]
mod programs;
