//! What a client asks, and what it is told (SunOS, `bootparam_prot.x`).

use sd_outside::ByteList;

/// The arguments of a procedure, one variant for each, in order of their numbers from 0.
#[derive(Debug, Drop)]
pub enum BpArgs {
    Null,
    /// The client's address.
    Whoami { ip: u32 },
    /// The client's name, of at most 255 bytes, and what it asks for, of at most 32.
    Getfile { client: ByteList, key: ByteList },
}

/// The result of a procedure, one variant for each, in order of their numbers from 0.
#[derive(Debug, Drop)]
pub enum BpResult {
    Void,
    /// The client's name and domain, of at most 255 bytes each, and the address of its router.
    Whoami {
        client: ByteList,
        domain: ByteList,
        router: u32,
    },
    /// The server's name, of at most 255 bytes, its address, and the path there, of at most 1,024 bytes.
    Getfile {
        server: ByteList,
        ip: u32,
        path: ByteList,
    },
}
