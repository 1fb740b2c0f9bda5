//! The steps at which the client may be.

/// What the client was at when an answer came.
#[derive(Clone, Copy, Debug, PartialEq, Eq)]
pub enum Stage {
    /// Asking for its own address.
    Rarp,
    /// Fetching its boot program (RFC 1350).
    Tftp,
    /// Asking for its own name (bootparams).
    Whoami,
    /// Asking where its root is (bootparams).
    Getfile,
    /// Asking at which port a program is (RFC 1057, appendix A).
    Getport,
    /// Asking for a handle of its root (RFC 1094, appendix A).
    Mnt,
    /// Asking which file a directory calls by a name (RFC 1094, section 2.2.5).
    Lookup,
    /// Asking which path a link names (RFC 1094, section 2.2.6).
    Readlink,
    /// Asking for bytes of a file (RFC 1094, section 2.2.7).
    Read,
    /// Asking for the attributes of a file (RFC 1094, section 2.2.2).
    Getattr,
    /// Letting time pass.
    Wait,
}
