//! Why a text is not written or not read.

ghost use Rattle.std.specs.Prelude.{◌≡◌};
ghost use Rattle.sd_show.specs.declared.error.ShowError.TheVariants as errors;
ghost use Rattle.sd_show.specs.Refused.{word_text, message_error, file_error, frame_error};

use sd_outside::NoMemory;
use sd_rarp::RarpError;
use sd_tftp::TftpError;
use sd_xdr::{MsgError, XdrError};

/// What is wrong, in a word.
#[derive(Clone, Copy, Debug, PartialEq, Eq)]
pub enum Word {
    /// The line is no packet's, or no text of one.
    Line,
    /// An item of the message isn't whole, or a frame has fewer than 42 bytes.
    Short,
    /// A frame has more than 1,514 bytes.
    Long,
    /// The Ethernet type isn't RARP's.
    Rarp,
    /// A field isn't as RARP has it on Ethernet.
    Shape,
    /// A length or a count is above its limit, or a block of TFTP has more than 512 bytes.
    TooLong,
    /// A byte that fills up to a multiple of four isn't zero.
    Filling,
    /// A bool is neither 0 nor 1.
    Bool,
    /// No such word may stand there.
    Kind,
    /// The message or the packet ends, and more bytes follow.
    Tail,
    /// The version of the RPC protocol isn't 2.
    Version,
    /// The body of an authentication is above 400 bytes.
    Auth,
    /// No packet of TFTP has this opcode.
    Opcode,
    /// A text in a packet of TFTP has no zero behind it.
    NoEnd,
}

impl Word {
    /// The word as it is written.
    pub fn as_str(self) -> &'static str
        ensures { result.now ≡ word_text self }
    {
        match self {
            Word::Line => "line",
            Word::Short => "short",
            Word::Long => "long",
            Word::Rarp => "rarp",
            Word::Shape => "shape",
            Word::TooLong => "toolong",
            Word::Filling => "filling",
            Word::Bool => "bool",
            Word::Kind => "kind",
            Word::Tail => "tail",
            Word::Version => "version",
            Word::Auth => "auth",
            Word::Opcode => "opcode",
            Word::NoEnd => "noend",
        }
    }
}

/// A refusal with its place in the body of the datagram or in the frame, or out of memory.
#[derive(Clone, Copy, Debug, PartialEq, Eq)]
pub enum ShowError {
    Bad { word: Word, at: u64 },
    NoMemory,
}

impl From<NoMemory> for ShowError {
    ghost from_gives = { λ _ e. e ≡ errors.NoMemory };

    fn from(_e: NoMemory) -> ShowError {
        ShowError::NoMemory
    }
}

impl From<MsgError> for ShowError {
    ghost from_gives = { λ r e. e ≡ message_error r };

    fn from(e: MsgError) -> ShowError {
        let (word, at) = match e {
            MsgError::Xdr(XdrError::Short { at }) => (Word::Short, at),
            MsgError::Xdr(XdrError::TooLong { at, .. }) => (Word::TooLong, at),
            MsgError::Xdr(XdrError::Filling { at }) => (Word::Filling, at),
            MsgError::Xdr(XdrError::NotBool { at, .. }) => (Word::Bool, at),
            MsgError::Xdr(XdrError::Kind { at, .. }) => (Word::Kind, at),
            MsgError::Xdr(XdrError::Tail { at }) => (Word::Tail, at),
            MsgError::RpcVersion { .. } => (Word::Version, 8),
            MsgError::AuthLong { at, .. } => (Word::Auth, at),
            MsgError::NoMemory => return ShowError::NoMemory,
        };
        ShowError::Bad {
            word,
            at: at as u64,
        }
    }
}

impl From<RarpError> for ShowError {
    ghost from_gives = { λ r e. e ≡ frame_error r };

    fn from(e: RarpError) -> ShowError {
        let (word, at) = match e {
            RarpError::Short { len } => (Word::Short, len),
            RarpError::Long { len } => (Word::Long, len),
            RarpError::NotRarp { .. } => (Word::Rarp, 12),
            RarpError::Shape { at } => (Word::Shape, at),
        };
        ShowError::Bad {
            word,
            at: at as u64,
        }
    }
}

impl From<TftpError> for ShowError {
    ghost from_gives = { λ r e. e ≡ file_error r };

    fn from(e: TftpError) -> ShowError {
        let (word, at) = match e {
            TftpError::Short { at } => (Word::Short, at),
            TftpError::Opcode { .. } => (Word::Opcode, 0),
            TftpError::NoEnd { at } => (Word::NoEnd, at),
            TftpError::DataLong { .. } => (Word::TooLong, 4),
            TftpError::Tail { at } => (Word::Tail, at),
            TftpError::NoMemory => return ShowError::NoMemory,
        };
        ShowError::Bad {
            word,
            at: at as u64,
        }
    }
}
