//! The credentials of a user of a UNIX system (RFC 1057, section 9.2).

ghost use Rattle.std.specs.Prelude.{◌≡◌, ℕ, List, ◌≤◌, length, IfOk, OnOk, OnErr};
ghost use Rattle.sd_xdr.specs.Kind.{ended};
ghost use Rattle.sd_xdr.specs.Grammar.{writes, Answers};
ghost use Rattle.sd_xdr.specs.Reading.{Takes};
ghost use Rattle.sd_rpc_msg.specs.Unix.{unix, groups, groups_value, unix_value, UnixFits};

use sd_outside::{ByteList, ListOf, NoMemory};
use sd_xdr::{MsgError, XdrReader, XdrWriter, read_times, write_times};
use std::alloc::Global;

/// Numbers of groups, in order.
pub type GidList = ListOf<u32>;

/// The body of an authentication of flavor 1 (RFC 1057, section 9.2).
#[derive(Debug, Drop)]
pub struct UnixCred {
    /// A number that the caller's machine chose.
    pub stamp: u32,
    /// The name of the caller's machine, of at most 255 bytes.
    pub machine: ByteList,
    /// The caller's user number.
    pub uid: u32,
    /// The caller's group number.
    pub gid: u32,
    /// At most 16 further groups.
    pub gids: GidList,
}

#[tactic(auto, unfolding(sd_xdr::specs::Reading::reading))]
fn gids_of(alloc: Global, reader: &mut XdrReader) -> Result<GidList, MsgError>
    ensures takes { Takes groups groups_value reader.old reader.new result }
    ensures fits { IfOk result (λ gids. length gids ≤ 16) }
{
    let count = reader.count(16)?;
    read_times(alloc, reader, count)
}

#[tactic(auto, unfolding(sd_xdr::specs::Reading::reading))]
fn unix_of(alloc: Global, reader: &mut XdrReader) -> Result<UnixCred, MsgError>
    ensures takes { Takes (ended unix) unix_value reader.old reader.new result }
    ensures fits { IfOk result UnixFits }
{
    let stamp = reader.u32()?;
    let machine = ByteList::from_slice(alloc, reader.opaque_var(255)?)?;
    let uid = reader.u32()?;
    let gid = reader.u32()?;
    let gids = gids_of(alloc, reader)?;
    reader.end()?;
    Ok(UnixCred {
        stamp,
        machine,
        uid,
        gid,
        gids,
    })
}

/// The credentials that the body of an authentication is.
#[tactic(auto, using(sd_xdr::proofs::Whole::answers))]
pub fn read_unix(alloc: Global, body: &[u8]) -> Result<UnixCred, MsgError>
    ensures answers { Answers (ended unix) unix_value body.now result }
    // What was read can be written.
    ensures fits { IfOk result UnixFits }
{
    unix_of(alloc, &mut XdrReader::new(body))
}

/// The credentials as the body of an authentication.
pub fn write_unix(alloc: Global, cred: &UnixCred) -> Result<ByteList, NoMemory>
    requires { UnixFits cred.now }
    ensures { IfOk result (λ bs. bs ≡ writes unix (unix_value cred.now)) }
{
    let mut writer = XdrWriter::new(alloc);
    writer.u32(cred.stamp)?;
    writer.opaque_var(cred.machine.as_slice())?;
    writer.u32(cred.uid)?;
    writer.u32(cred.gid)?;
    let gids = cred.gids.as_slice();
    writer.u32(gids.len() as u32)?;
    write_times(&mut writer, gids)?;
    Ok(writer.finish())
}
