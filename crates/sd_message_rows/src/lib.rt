//! Messages, packets and frames against rows worked by hand. This crate has tests alone: the crates whose messages these are stay
//! without any, so that they are proved once.
#![tactic(auto)]

#[cfg(test)]
mod bootparams;
#[cfg(test)]
mod items;
#[cfg(test)]
mod mount;
#[cfg(test)]
mod nfs;
#[cfg(test)]
mod portmap;
#[cfg(test)]
mod rarp;
#[cfg(test)]
mod rpc;
#[cfg(test)]
mod tftp;
#[cfg(test)]
mod xdr;
