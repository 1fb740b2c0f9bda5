//! What a script's configuration lines say, and what of it the client is given.
ghost use Rattle.std.specs.Prelude.{IfOk};
ghost use Rattle.sd_config.specs.Config.{IsConfig, IsFor, IsClientConfig};

use sd_bootparams::Hosts;
use sd_outside::{ByteList, ListOf, Mac, NoMemory};

/// One of the two machines.
#[derive(Debug, Drop)]
pub struct Machine {
    /// Its hardware address.
    pub mac: Mac,
    /// Its internet address, the first number of its text highest.
    pub ip: u32,
    /// Its host name, 1 to 255 bytes.
    pub name: ByteList,
}

/// A file that the server gives by TFTP.
#[derive(Debug, Drop)]
pub struct BootFile {
    /// The name that a client asks for, 1 to 255 bytes.
    pub name: ByteList,
    /// At most 33,553,919 bytes.
    pub bytes: ByteList,
}

/// A list of boot files.
pub type BootFileList = ListOf<BootFile>;

/// A file or a symbolic link of the root export. Its path is counted from the export's root.
#[derive(Debug, Drop)]
pub enum RootItem {
    /// A file with its bytes, at most 33,554,432.
    File { path: ByteList, bytes: ByteList },
    /// A link with the path that it names, 1 to 1,024 bytes.
    Symlink { path: ByteList, text: ByteList },
}

/// A list of files and links.
pub type RootItemList = ListOf<RootItem>;

/// The client's swap file.
#[derive(Debug, Drop)]
pub struct SwapLine {
    /// The path under which it is exported.
    pub path: ByteList,
    /// Its size in bytes: 8,192 to 33,554,432.
    pub size: u64,
}

/// The configuration of a client and its boot server.
#[derive(Debug, Drop)]
pub struct Config {
    /// A packet is delivered fewer ticks than this after it was sent: 2 to 10,000.
    pub life: u64,
    /// How often the client sends a request before it gives up: 1 to 64.
    pub tries: u32,
    /// How many ticks it waits for the answer to each: 1 to 1,000.
    pub wait: u64,
    /// The number of pages: 1 to 4,095.
    pub pages: u32,
    /// The boot server.
    pub server: Machine,
    /// The diskless client.
    pub client: Machine,
    /// The client's domain name, 1 to 255 bytes.
    pub domain: ByteList,
    /// The internet address of the client's router.
    pub router: u32,
    /// The name of the client's architecture, which ends its boot program's name; empty where there is none.
    pub arch: ByteList,
    /// Further machines, at most 16.
    pub hosts: Hosts,
    /// The files that TFTP serves, at most 16.
    pub tftp: BootFileList,
    /// The bootparams file, at most 256 lines.
    pub params: ByteList,
    /// The path under which the root file system is exported, where it is.
    pub root: Option<ByteList>,
    /// The files and links of the root export, at most 256.
    pub items: RootItemList,
    /// The path of the kernel in the root export.
    pub kernel: ByteList,
    /// The swap file, where there is one.
    pub swap: Option<SwapLine>,
}

/// What a diskless client knows before it asks. The fields are those of `Config`.
#[derive(Debug, Drop)]
pub struct ClientConfig {
    /// The client's own hardware address.
    pub mac: Mac,
    /// A packet is delivered fewer ticks than this after it was sent.
    pub life: u64,
    /// How often a request is sent before the client gives up.
    pub tries: u32,
    /// How many ticks it waits for the answer to each.
    pub wait: u64,
    /// The number of pages.
    pub pages: u32,
    /// The name of the client's architecture, empty where there is none.
    pub arch: ByteList,
    /// The path of the kernel.
    pub kernel: ByteList,
}

impl Config {
    /// What the client of this configuration is given.
    pub fn client(&self) -> Result<ClientConfig, NoMemory>
        requires { IsConfig self.now }
        ensures same { IfOk result (λ client. IsFor self.now client) }
        ensures rules { IfOk result IsClientConfig }
    {
        Ok(ClientConfig {
            mac: self.client.mac,
            life: self.life,
            tries: self.tries,
            wait: self.wait,
            pages: self.pages,
            arch: self.arch.copy()?,
            kernel: self.kernel.copy()?,
        })
    }
}
