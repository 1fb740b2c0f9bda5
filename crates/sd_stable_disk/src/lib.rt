//! Files on a disk that survive a crash at any moment: a write is put into a journal, a gate byte says that it is
//! whole, and only then it goes home.
#![tactic(auto)]

mod entry;
mod errors;
mod gate;
mod head;
mod image;
mod opening;
mod recovery;
mod store;

pub use errors::{OpenError, StoreError};
pub use image::image_of;
pub use store::Store;
