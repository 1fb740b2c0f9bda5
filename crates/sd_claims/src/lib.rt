//! What is claimed of a whole run of the boot chain: definitions, in `specs/`, and what holds of them.
//!
//! The boot machine (`Machine`), the steps of a boot (`Rarp`, `Fetching`, `Booting`), what each answer shows of its part of the
//! run (`Causes`), the transcript (`Transcript`), a session over a link (`Session`), and what `replay` writes (`Headline`). The
//! laws say that what is shown is what was configured, that it came through the network while its command was done, and what the
//! client counts.
#![tactic(auto)]

mod laws;

pub use laws::{
    counts_each_step, no_fault_is_caused, ports_differ, shows_what_came, shows_what_is_configured,
};
