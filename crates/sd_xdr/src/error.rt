//! Why bytes are refused.

ghost use Rattle.std.specs.Prelude.{◌≡◌};
ghost use Rattle.sd_xdr.specs.declared.error.MsgError.TheVariants as refusals;

use sd_outside::NoMemory;

/// What is wrong with the bytes. A place counts the bytes before it. An item is a word, or opaque data with its length and
/// its filling.
#[derive(Clone, Copy, Debug, PartialEq, Eq)]
pub enum XdrError {
    /// The item that begins here isn't whole.
    Short { at: usize },
    /// The length or the count here is above the limit.
    TooLong { at: usize, len: u32 },
    /// A byte that fills up to a multiple of four isn't zero.
    Filling { at: usize },
    /// The word here is neither 0 nor 1.
    NotBool { at: usize, word: u32 },
    /// No such word may stand here.
    Kind { at: usize, word: u32 },
    /// The message ends here, and more bytes follow.
    Tail { at: usize },
}

/// Why a message is not read.
#[derive(Clone, Copy, Debug, PartialEq, Eq)]
pub enum MsgError {
    /// The bytes are no such message.
    Xdr(XdrError),
    /// A call of another version of the RPC protocol than 2 (RFC 1057, section 8).
    RpcVersion { xid: u32, got: u32 },
    /// An authentication body above 400 bytes (RFC 1057, section 7.2).
    AuthLong { at: usize, len: u32 },
    /// Memory ran out.
    NoMemory,
}

impl From<XdrError> for MsgError {
    ghost from_gives = { λ x e. e ≡ refusals.Xdr x };

    fn from(e: XdrError) -> MsgError {
        MsgError::Xdr(e)
    }
}

impl From<NoMemory> for MsgError {
    ghost from_gives = { λ _ e. e ≡ refusals.NoMemory };

    fn from(_e: NoMemory) -> MsgError {
        MsgError::NoMemory
    }
}
