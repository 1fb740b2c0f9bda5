//! How a client mounts its root, walks to a file and loads it (RFC 1094).
//!
//! Over every link that tells what happens, each answer says which calls were made, in which order and with which arguments, and
//! which reply ended them. Where the link tells a world of a configuration and the caller's xids are fresh (`Trust.antt`), `mount`
//! gives the handle of what is exported at the path, `walk` the handle and the attributes of the file to which the path leads, and
//! `load` its bytes.
#![tactic(auto)]

mod asking;
mod calls;
mod errors;
mod laws;
mod loading;
mod mounting;
mod walking;
mod way;

pub use errors::LoadError;
pub use laws::{kernel_is_loaded, kernels_are_one, walks_are_one};
pub use loading::load;
pub use mounting::mount;
pub use walking::walk;
