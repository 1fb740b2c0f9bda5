//! A request that is sent again and again until its answer comes, over any link, and calls of procedures (RFC 1057).
//!
//! Over a link that tells its world, `ask` answers by the first packet that matches, or says that all tries were in vain or
//! that one got a flood; a fault comes only where the link counted one. `ask_counting` also tells how often the request was
//! sent, and when last.
//!
//! `Caller::call` asks a portmapper, bootparams, MOUNT or NFS. What it sends is the call that the grammars spell, each time with the
//! same bytes, and what it answers is what the first reply tells, in the type of its `Question`; `verdict_is_match` says which
//! datagrams are replies.
#![tactic(auto)]

mod asking;
mod calling;
mod laws;
mod nfs_question;
mod question;
mod reply;
mod request;
#[cfg(test)]
mod tests;

pub use asking::{Asked, FLOOD, Heard, Listener, Look, Tally, ask, ask_counting};
pub use calling::{Answer, Ask, CallError, Caller};
pub use laws::verdict_is_match;
pub use nfs_question::{Data, Found, Getattr, Lookup, Mnt, Piece, Read, Readlink, Target};
pub use question::{Getfile, Getport, Located, Named, Question, Whoami};
