//! Scripts, their answers and byte runs, and texts of packets, against rows worked by hand. This crate has tests alone.
#![tactic(auto)]

#[cfg(test)]
mod events;
#[cfg(test)]
mod faults;
#[cfg(test)]
mod files;
#[cfg(test)]
mod params;
#[cfg(test)]
mod runs;
#[cfg(test)]
mod scripts;
#[cfg(test)]
mod shown;
#[cfg(test)]
mod written;
