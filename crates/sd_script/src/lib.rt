//! What people write and read: scripts, transcripts, packets and byte runs.
//!
//! A script is a heading of six lines; then lines of the configuration: the architecture, further machines, boot files, the
//! bootparams file, the root export with its files, links and kernel, and the swap file; then lines of events: what becomes of
//! packets, what strangers send, and what fails of the client's network; then commands. `read_script` answers the script
//! exactly where the grammar of `specs/Grammar.antt` relates one to the text, and else the number of the first line outside.
//! A text has one script or one such line, never both, and a script that is read keeps the rules of `specs/Rules.antt`.
//!
//! A byte run text is read however its bytes are split into items, and written in one way alone; what is written is read
//! again, packets too. Answer lines and record lines are written to the byte.
#![tactic(auto)]

mod answers;
mod draft;
mod error;
mod fates;
mod fields;
mod laws;
mod limits;
mod lines;
mod names;
mod paths;
mod read;
mod record;
mod runs;
mod script;

pub use answers::write_answer;
pub use error::{RunsError, ScriptError};
pub use laws::one_reading;
pub use read::read_script;
pub use record::{write_crashed, write_failed, write_faulted, write_got, write_sent, write_served};
pub use runs::read_runs;
pub use script::Script;
pub use sd_config::{Command, CommandList, Told};
pub use sd_text::{PacketLineError, push_number, read_packet_line, write_packet_line, write_runs};
