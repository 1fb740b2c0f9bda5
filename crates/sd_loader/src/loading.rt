//! The bytes of a file.
ghost use Rattle.std.specs.Prelude.{◌≡◌, ◌<◌, ◌≤◌, ◌+◌, ◌*◌, ◌-◌, ◌^◌, ℕ, min, List, [], take, length, IfOk, IfErr};
ghost use Rattle.sd_outside.specs.Causes.{Rose};
ghost use Rattle.sd_services.specs.Files.{exported};
ghost use Rattle.sd_services.specs.declared.node.Standing.TheVariants as standing;
ghost use Rattle.sd_link.specs.Link.{Moves, IsSettledBy};
ghost use Rattle.sd_rpc_retry.specs.Lasting.{Lasts, Fails, most_asking_ticks};
ghost use Rattle.sd_loader.specs.Walk.{what_at};
ghost use Rattle.sd_loader.specs.Found.{IsFile, AreBytesOf, AreFirstBytes};
ghost use Rattle.sd_loader.specs.Trust.{Trusted};
ghost use Rattle.sd_rpc_retry.specs.Chain.{after_call};
ghost use Rattle.sd_loader.specs.Causes.{IsFault};
ghost use Rattle.sd_loader.specs.Went.{Went, load_fails};
ghost use Rattle.sd_loader.specs.LoadCalls.{wanted, most_bytes, Loaded, ReadsOn, IsLoadError};

use crate::asking::ask_at;
use crate::errors::{LoadError, out_of_memory};
use sd_link::{Link, Stage};
use sd_nfs_msg::Fattr;
use sd_outside::{Addr, ByteList, FHandle, NoMemory};
use sd_rpc_retry::{Caller, Read};
use std::alloc::Global;

/// The longest file that is loaded.
const MOST_BYTES: u32 = 16_777_216;

/// How many bytes are read at once (MAXDATA of RFC 1094, section 2.3.1).
const BLOCK: u32 = 8192;

/// No bytes, with room for so many.
fn with_room(alloc: Global, size: u32) -> Result<ByteList, NoMemory>
    ensures { IfOk result (λ bytes. bytes ≡ []) }
{
    Ok(ByteList::from_vec(Vec::with_capacity(alloc, size as usize)?))
}

/// Reads the bytes behind those that were read.
fn read_on<L: Link>(
    alloc: Global,
    link: &mut L,
    caller: &mut Caller,
    nfs: Addr,
    file: FHandle,
    size: u32,
    bytes: &mut ByteList,
) -> Result<(), LoadError>
    requires xid { caller.old.next_xid < 2 ^ 32 - 1 }
    requires tries { caller.old.tries ≤ 64 }
    requires wait { caller.old.wait ≤ 1000 }
    requires machine { length caller.old.machine ≤ 255 }
    requires more { length bytes.old < size }
    ensures same { caller.new ≡ after_call caller.old }
    ensures longer { IfOk result (λ done. length bytes.new ≡ length bytes.old + wanted size (length bytes.old)) }
    ensures error { IfErr result (IsLoadError size) }
    ensures went { Moves (L.told link.old) (L.told link.new) (Went (ReadsOn nfs file size caller.old bytes.old bytes.new result) (load_fails result) caller.old.next_xid caller.new.next_xid) }
    ensures trusted { IfOk result (λ done. Moves (L.told link.old) (L.told link.new) (Trusted caller.old nfs caller.new.next_xid (λ c. AreFirstBytes c file size bytes.old → AreFirstBytes c file size bytes.new))) }
    ensures fault { IfErr result (λ why. IsFault why → Rose (L.faults link.old) (L.faults link.new)) }
    ensures faults { L.faults link.old ≤ L.faults link.new }
    ensures drained { L.drained link.new ≡ L.drained link.old }
{
    let at = bytes.as_slice().len() as u32;
    let want = (size - at).min(BLOCK);
    let question = Read {
        file,
        offset: at,
        count: want,
    };
    let piece = match ask_at(alloc, link, caller, Stage::Read, nfs, &question) {
        Ok(Ok(piece)) => piece,
        Ok(Err(status)) => {
            return Err(LoadError::Refused {
                step: Stage::Read,
                status,
            });
        }
        Err(why) => return Err(why),
    };
    let data = piece.bytes.as_slice();
    let got = data.len() as u32;
    if got != want {
        return Err(LoadError::Short {
            at: u64::from(at),
            want,
            got,
        });
    }
    match bytes.push_slice(data) {
        Ok(()) => Ok(()),
        Err(NoMemory) => Err(out_of_memory(Stage::Read)),
    }
}

/// Loads a file of these attributes by READs of 8,192 bytes, the last of the rest (RFC 1094, section 2.2.7). There is room for all
/// bytes before the first call.
pub fn load<L: Link>(
    alloc: Global,
    caller: &mut Caller,
    link: &mut L,
    nfs: Addr,
    file: &FHandle,
    attr: &Fattr,
) -> Result<ByteList, LoadError>
    requires xid { caller.old.next_xid ≤ 2 ^ 32 - 65536 }
    requires tries { caller.old.tries ≤ 64 }
    requires wait { caller.old.wait ≤ 1000 }
    requires machine { length caller.old.machine ≤ 255 }
    ensures same { caller.new ≡ record caller.old { next_xid = caller.new.next_xid } }
    ensures xid { caller.new.next_xid ≤ caller.old.next_xid + 2048 }
    // Over a link that tells, these READs were made, one after another, and they ended so.
    ensures told { Moves (L.told link.old) (L.told link.new) (λ h part. Loaded (IsSettledBy h) nfs file.now attr.now.size caller.old result part) }
    ensures lasts { Lasts (2048 * most_asking_ticks) (L.told link.old) (L.told link.new) }
    // Over a link that tells a world of a configuration, these are the bytes of that file.
    ensures loaded { IfOk result (λ bytes. Moves (L.told link.old) (L.told link.new) (Trusted caller.old nfs caller.new.next_xid (λ c. AreBytesOf c file.now attr.now bytes))) }
    // Over every link: all bytes are there; a file is too large exactly where its size passes the limit; a piece is short where its
    // length isn't the asked one, and a status isn't 0.
    ensures whole { IfOk result (λ bytes. length bytes ≡ attr.now.size) }
    ensures error { IfErr result (IsLoadError attr.now.size) }
    ensures small { IfOk result (λ bytes. attr.now.size ≤ most_bytes) }
    // The link failed exactly where the answer says so, and then its count of faults rose.
    ensures fails { Fails (load_fails result) (L.told link.old) (L.told link.new) }
    ensures fault { IfErr result (λ why. IsFault why → Rose (L.faults link.old) (L.faults link.new)) }
    ensures faults { L.faults link.old ≤ L.faults link.new }
    ensures drained { L.drained link.new ≡ L.drained link.old }
{
    let size = attr.size;
    if size > MOST_BYTES {
        return Err(LoadError::TooLarge {
            size: u64::from(size),
        });
    }
    let mut bytes = match with_room(alloc, size) {
        Ok(bytes) => bytes,
        Err(NoMemory) => return Err(out_of_memory(Stage::Read)),
    };
    'reading: while (bytes.as_slice().len() as u32) < size {
        match read_on(alloc, link, caller, nfs, *file, size, &mut bytes) {
            Ok(()) => {}
            Err(why) => return Err(why),
        }
    }
    Ok(bytes)
}
