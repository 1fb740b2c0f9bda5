//! The RPC programs of the server, and where they are.
ghost use Rattle.std.specs.Prelude.{◌≡◌, ◌||◌, false};
ghost use Rattle.sd_server.specs.Services.{program_of};

/// The port of bootparams.
pub const BOOTPARAMS_PORT: u16 = 1016;

/// The port of MOUNT.
pub const MOUNT_PORT: u16 = 1017;

/// An RPC program of the server.
#[derive(Clone, Copy, Debug, PartialEq, Eq)]
pub enum Service {
    /// Program 100000, version 2.
    Portmapper,
    /// Program 100026, version 1.
    Bootparams,
    /// Program 100005, version 1.
    Mount,
    /// Program 100003, version 2.
    Nfs,
}

impl Service {
    pub fn number(self) -> u32
        ensures { result ≡ (program_of self).prog }
    {
        match self {
            Service::Portmapper => 100000,
            Service::Bootparams => 100026,
            Service::Mount => 100005,
            Service::Nfs => 100003,
        }
    }

    pub fn version(self) -> u32
        ensures { result ≡ (program_of self).vers }
    {
        match self {
            Service::Portmapper => 2,
            Service::Bootparams => 1,
            Service::Mount => 1,
            Service::Nfs => 2,
        }
    }

    /// Its last procedure.
    pub fn last(self) -> u32
        ensures { result ≡ (program_of self).last }
    {
        match self {
            Service::Portmapper => 5,
            Service::Bootparams => 2,
            Service::Mount => 5,
            Service::Nfs => 17,
        }
    }

    /// Whether it passes over a number of a procedure: ROOT and WRITECACHE of NFS are obsolete (RFC 1094, sections 2.2.4 and 2.2.8).
    pub fn skips(self, proc_no: u32) -> bool
        ensures { result ≡ (program_of self).skips proc_no }
    {
        match self {
            Service::Nfs => proc_no == 3 || proc_no == 7,
            Service::Portmapper => false,
            Service::Bootparams => false,
            Service::Mount => false,
        }
    }
}
