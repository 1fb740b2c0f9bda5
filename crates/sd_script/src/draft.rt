//! What the lines of a script say so far, and the words with which they begin.

use crate::fates::FateBook;
use sd_config::{CommandList, Config, FaultList, StrangerList};

/// Which lines may come next. The first six are the lines of the heading, in their order.
#[derive(Clone, Copy, Debug, PartialEq, Eq)]
pub enum Section {
    Life,
    Tries,
    Wait,
    Pages,
    Server,
    Client,
    Config,
    Events,
    Commands,
}

/// The words with which lines begin.
#[derive(Clone, Copy, Debug, PartialEq, Eq)]
pub enum Word {
    Life,
    Tries,
    Wait,
    Pages,
    Server,
    Client,
    Arch,
    Host,
    Params,
    Tftp,
    Root,
    File,
    Link,
    Kernel,
    Swap,
    Fate,
    Stranger,
    Fault,
    Addr,
    Boot,
}

/// What the lines so far say, and which may come next. A value whose line hasn't come is zero or empty.
#[derive(Debug, Drop)]
pub struct Draft {
    pub section: Section,
    pub config: Config,
    /// How many lines of the bootparams file came, what they say, and what its next word is.
    pub params_lines: u64,
    pub params: sd_bootparams::Draft,
    /// How many bytes boot files and files of the root export have so far.
    pub bytes: u64,
    pub fates: FateBook,
    pub strangers: StrangerList,
    pub faults: FaultList,
    pub commands: CommandList,
}
