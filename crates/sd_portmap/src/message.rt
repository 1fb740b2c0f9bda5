//! What a client asks of the portmapper, and what it answers (RFC 1057, appendix A).

use crate::mapping::{Mapping, MappingList};
use sd_outside::ByteList;

/// The arguments of a procedure, one variant for each, in order of their numbers from 0.
#[derive(Debug, Drop)]
pub enum PmapArgs {
    Null,
    /// The mapping that is to be added.
    Set(Mapping),
    /// Of the mapping that is to be removed the program and the version count.
    Unset(Mapping),
    /// Whose port is asked for; the port in it doesn't count.
    Getport(Mapping),
    Dump,
    /// A procedure of another program on the same machine, with its arguments as that program spells them.
    Callit {
        prog: u32,
        vers: u32,
        proc_no: u32,
        args: ByteList,
    },
}

/// What a procedure answers.
#[derive(Debug, Drop)]
pub enum PmapResult {
    /// Of procedure 0.
    Void,
    /// Whether procedure 1 added, or 2 removed, a mapping.
    Flag(bool),
    /// Of procedure 3: a port up to 65,535; 0 where the program isn't mapped.
    Port(u32),
    /// Of procedure 4.
    Mappings(MappingList),
    /// Of procedure 5: the port of the called program, and its results as it spells them.
    Callit { port: u32, results: ByteList },
}
