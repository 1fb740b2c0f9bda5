//! A boot server: RARP, TFTP, and the RPC programs portmapper, bootparams, MOUNT and NFS over files that survive a crash.
//!
//! It is given packets and ticks, and gives packets back. It knows no network: whoever has one hands on what comes and goes.
#![tactic(auto)]

mod access;
mod bootparams;
mod coming;
mod desk;
mod errors;
mod mount;
mod nfs;
mod portmap;
mod replies;
mod reply;
mod server;
mod service;
mod sessions;
mod setup;
mod still;
mod tftp;
mod ticking;

pub use errors::ServerError;
pub use replies::{PacketList, Replies};
pub use server::Server;
pub use still::Still;
pub use ticking::{Due, DueList};
