//! Which port serves a program.

ghost use Rattle.sd_portmap.specs.Layout.{mapping, mapping_value};

use sd_outside::{ListOf, NoMemory};
use sd_xdr::{Item, MsgError, XdrReader, XdrWriter};
use std::alloc::Global;

/// The port of every portmapper (RFC 1057, appendix A.1).
pub const PMAP_PORT: u16 = 111;

/// A program in one of its versions, which is served over a protocol at a port (RFC 1057, appendix A.1).
#[derive(Clone, Copy, Debug, PartialEq, Eq)]
pub struct Mapping {
    pub prog: u32,
    pub vers: u32,
    /// 6 for TCP, 17 for UDP.
    pub prot: u32,
    pub port: u32,
}

/// Mappings, in order.
pub type MappingList = ListOf<Mapping>;

impl Item for Mapping {
    ghost kind = { mapping };

    ghost value = { mapping_value };

    ghost fits = { λ _. Unit {0} };

    #[tactic(auto, unfolding(sd_xdr::specs::Reading::reading))]
    fn read(_alloc: Global, reader: &mut XdrReader) -> Result<Mapping, MsgError> {
        let prog = reader.u32()?;
        let vers = reader.u32()?;
        let prot = reader.u32()?;
        let port = reader.u32()?;
        Ok(Mapping {
            prog,
            vers,
            prot,
            port,
        })
    }

    fn write(&self, writer: &mut XdrWriter) -> Result<(), NoMemory> {
        writer.u32(self.prog)?;
        writer.u32(self.vers)?;
        writer.u32(self.prot)?;
        writer.u32(self.port)
    }
}
