//! What a command was answered.

use crate::Stage;
use sd_outside::ByteList;

/// The answer to a command, one variant for each answer line.
#[derive(Debug, Drop)]
pub enum Told {
    /// The client's address, the first number of its text highest.
    AddrOk { ip: u32 },
    /// No reply came to any try.
    AddrTimeout,
    /// 4,096 packets without a match came in one try.
    AddrFlood { step: Stage },
    /// The link failed.
    AddrLinkFault,
    /// The boot went on to a step that isn't built. The program that was fetched is the configuration's.
    BootUnbuilt { step: Stage, program: ByteList },
    /// No reply came to any try of this step.
    BootTimeout { step: Stage },
    /// 4,096 packets without a match came in one try of this step.
    BootFlood { step: Stage },
    /// The call of this step was refused: 1 to 4 are the accept states of RFC 1057, section 8, 10 is RPC_MISMATCH, and 11 to
    /// 15 are AUTH_ERROR with the auth states 1 to 5.
    BootDenied { step: Stage, code: u32 },
    /// The server refused this step, with its status or its error code.
    BootRefused { step: Stage, status: u32 },
    /// The server has no port for the program that the boot needs next.
    BootNoPort,
    /// The boot program has more bytes than the client takes.
    BootTooLarge { size: u64 },
    /// The link failed in the boot.
    BootLinkFault,
    /// So many ticks passed.
    WaitOk { ticks: u64 },
    /// 4,096 packets came in the waiting.
    WaitFlood { ticks: u64 },
    /// The link failed in the waiting.
    WaitLinkFault { ticks: u64 },
}
