//! Stores on disks, acts on the swap file, and calls of a file server, against rows worked by hand. This crate has tests alone.
#![tactic(auto)]

#[cfg(test)]
mod calls;
#[cfg(test)]
mod disks;
#[cfg(test)]
mod stores;
#[cfg(test)]
mod untold;
