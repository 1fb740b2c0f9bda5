//! A file server's part without messages (RFC 1094): the files that a configuration exports, their handles, what is answered to
//! each call, and the acts on the store that a READ or WRITE of the swap file asks for.
//!
//! `plan_nfs` and the acts are together the reply and the change that sd_services defines over the stored files: where an act answers
//! status 0, the planned answer with the bytes that were read is the reply, and what was written is the change.
#![tactic(auto)]

mod acts;
mod attributes;
mod build;
mod handle;
mod names;
mod plan;
mod readdir;
mod root;
mod status;
mod swap;
mod tree;

pub use acts::{Acted, act_read, act_write, bring_up};
pub use handle::fhandle_of;
pub use plan::{NfsPlan, plan_nfs};
pub use tree::Tree;
