//! Mounting, walking and loading over a link in memory, against rows worked by hand. This crate has tests alone.
#![tactic(auto)]

#[cfg(test)]
mod loads;
#[cfg(test)]
mod mounts;
#[cfg(test)]
mod walks;
#[cfg(test)]
mod world;
