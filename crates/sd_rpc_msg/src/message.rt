//! Calls and replies, with the names of RFC 1057, section 8.

use sd_outside::ByteList;

/// An authentication: its flavor, and a body of at most 400 bytes (RFC 1057, section 7.2).
#[derive(Debug, Drop)]
pub struct OpaqueAuth {
    /// 0 for none, 1 for UNIX credentials (RFC 1057, sections 9.1 and 9.2).
    pub flavor: u32,
    pub body: ByteList,
}

/// A call of a procedure (RFC 1057, section 8).
#[derive(Debug, Drop)]
pub struct Call {
    /// The number that the reply has too.
    pub xid: u32,
    /// The program, its version and the procedure.
    pub prog: u32,
    pub vers: u32,
    pub proc_no: u32,
    /// Who calls, and what proves it.
    pub cred: OpaqueAuth,
    pub verf: OpaqueAuth,
    /// The arguments, as the program spells them.
    pub args: ByteList,
}

/// How a call went: accepted, with the server's verifier, or denied (RFC 1057, section 8).
#[derive(Debug, Drop)]
pub enum Outcome {
    /// The results, as the program spells them.
    Success {
        verf: OpaqueAuth,
        results: ByteList,
    },
    /// There is no such program.
    ProgUnavail {
        verf: OpaqueAuth,
    },
    /// The program has the versions from `low` to `high`.
    ProgMismatch {
        verf: OpaqueAuth,
        low: u32,
        high: u32,
    },
    /// The program has no such procedure.
    ProcUnavail {
        verf: OpaqueAuth,
    },
    /// The arguments don't read.
    GarbageArgs {
        verf: OpaqueAuth,
    },
    /// Denied: the server has the versions of the protocol from `low` to `high`.
    RpcMismatch {
        low: u32,
        high: u32,
    },
    /// Denied: an auth_stat, from 1 to 5.
    AuthError {
        stat: u32,
    },
}

/// The answer to the call with the same number.
#[derive(Debug, Drop)]
pub struct Reply {
    pub xid: u32,
    pub outcome: Outcome,
}

/// What a datagram between a client and a server of the protocol is.
#[derive(Debug, Drop)]
pub enum Message {
    Asked(Call),
    Answered(Reply),
}
