//! What the server answers, as definitions: no code of a server stands here.
//!
//! `Part` is what a server holds beside its configuration. `Reply` says what it does with each packet: by `Sessions` for TFTP
//! (RFC 1350), and by `RpcCalls` for the RPC programs (RFC 1057, section 8): `RpcReply` has the portmapper (RFC 1057, appendix A)
//! and bootparams, `MountReply` MOUNT (RFC 1094, appendix A), `NfsCalls` NFS (RFC 1094, section 2). `Files`, `Names`, `Decisions`
//! and `NfsReply` say which files a configuration exports, and what NFS answers for them. `Failing` says what a server does where
//! its disk fails or where it stops. `Spelling` says which packets write what by the grammars of the messages, and the laws here
//! that it comes to the same.
#![tactic(auto)]

mod laws;
mod node;

pub use laws::{access_is_spelled, asked_is_spelled, change_is_written, is_exported, one_export};
pub use node::{Node, Standing};
