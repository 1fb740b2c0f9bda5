//! READs and WRITEs of the swap file: what is prepared for them, and what they do to the store.
ghost use Rattle.std.specs.Prelude.{◌≡◌, ◌≤◌, [], ◌∷◌, length, map, IfOk, IfSome, IsSome, vec_capacity};
ghost use Rattle.sd_outside.specs.DiskPlan.{Both, Makes};
ghost use Rattle.sd_stable_disk.specs.Files.{files};
ghost use Rattle.sd_services.specs.NfsReply.{swap_file, file_in};
ghost use Rattle.sd_nfs_msg.specs.Layout.{ResultFits};
ghost use Rattle.sd_services.specs.Decisions.{refused, err_io};
ghost use Rattle.sd_nfs_server.specs.Acts.{IsFault, HasReason, damaged_in};
ghost use Rattle.sd_server.specs.Deciding.{given_body, body_with, HasPlace};
ghost use Rattle.sd_server.specs.Access.{change_by, ActFits, Acts, ActLeaves, IsRead, SameShape};

use crate::coming::auth_null;
use crate::replies::{Answer, PacketList};
use sd_nfs_msg::{NfsResult, write_result};
use sd_nfs_server::{Acted, act_read, act_write, bring_up};
use sd_outside::{Addr, ByteList, Disk, NoMemory, Packet};
use sd_rpc_msg::{Message, Outcome, Reply, write_message};
use sd_stable_disk::Store;
use std::alloc::Global;

/// NFSERR_IO (RFC 1094, section 2.3.1).
const IO: u32 = 5;

/// Where a READ's bytes stand in the body of its reply: behind six words of the reply, the status, 17 of attributes and a length.
const DATA_PLACE: usize = 100;

/// What is to be done to the store.
#[derive(Drop)]
pub enum Act {
    /// It is only brought up.
    Nothing,
    /// Its swap file is read from a place, and the bytes come here.
    Read { at: u64, buffer: Vec<u8> },
    /// Its swap file is written from a place. There are some bytes.
    Write { at: u64, bytes: ByteList },
}

/// Does it, after the store was brought up where it was down.
pub fn carry_out<D: Disk>(store: &mut Store<D>, act: &mut Act) -> Acted
    requires { ActFits store.old.sizes act.old }
    ensures acts { Acts D.seen D.may_leave (change_by act.old) store.old store.new result.status }
    ensures moments { ActLeaves D.moment D.seen D.may_leave D.left_since (change_by act.old) store.old store.new }
    ensures read { result.status ≡ 0 → IfSome (files D.seen store.old) (λ stored. IsRead act.old (file_in stored swap_file) act.new) }
    ensures shape { SameShape act.old act.new }
    ensures sizes { store.new.sizes ≡ store.old.sizes }
    ensures sized { IfSome (files D.seen store.old) (λ stored. map (λ file. length file) stored ≡ store.old.sizes) → IfSome (files D.seen store.new) (λ stored. map (λ file. length file) stored ≡ store.old.sizes) }
    ensures tells { D.tells_crash store.new.disk ≡ D.tells_crash store.old.disk }
    ensures plan { Both (Makes 13 4 (IsFault result)) (D.plan store.old.disk) (D.plan store.new.disk) }
    ensures reason { HasReason (IsSome (files D.seen store.old)) (D.faults store.old.disk) (D.faults store.new.disk) result }
    ensures damaged { result.damaged ≡ damaged_in store.old.up store.new.refusal }
{
    match act {
        Act::Nothing => bring_up(store),
        Act::Read { at, buffer } => act_read(store, *at, buffer.as_mut_slice()),
        Act::Write { at, bytes } => act_write(store, *at, bytes.as_slice()),
    }
}

/// An access of the swap file, with all the memory that it needs.
#[derive(Drop)]
pub struct Access {
    /// To whom it is answered.
    pub to: Addr,
    /// The body of the reply where the disk has no fault. A READ's bytes are not in it yet.
    pub done: ByteList,
    /// The body of the reply where the disk fails.
    pub failed: ByteList,
    pub act: Act,
    /// Room for the reply.
    pub room: Vec<Packet>,
}

/// What the server does for a packet.
#[derive(Drop)]
pub enum Decision {
    /// It answers this.
    Now(Answer),
    /// It reads or writes the swap file, and then answers.
    Later(Access),
}

/// The body of the reply with this result.
fn given_body(alloc: Global, xid: u32, done: &NfsResult) -> Result<ByteList, NoMemory>
    requires { ResultFits done.now }
    ensures { IfOk result (λ body. body ≡ given_body xid done.now) }
{
    let results = write_result(alloc, done)?;
    let verf = auth_null(alloc);
    let outcome = Outcome::Success { verf, results };
    write_message(alloc, &Message::Answered(Reply { xid, outcome }))
}

/// Takes the memory for an access.
pub fn prepared(
    alloc: Global,
    to: Addr,
    xid: u32,
    done: &NfsResult,
    act: Act,
) -> Result<Access, NoMemory>
    requires { ResultFits done.now }
    ensures bodies { IfOk result (λ a. (a.to ≡ to) × (a.done ≡ given_body xid done.now) × (a.failed ≡ given_body xid (refused err_io)) × (a.act ≡ act)) }
    ensures room { IfOk result (λ a. (a.room.items ≡ []) × (1 ≤ vec_capacity a.room)) }
{
    let done = given_body(alloc, xid, done)?;
    let failed = given_body(alloc, xid, &NfsResult::Refused { status: IO })?;
    let room = Vec::with_capacity(alloc, 1)?;
    Ok(Access {
        to,
        done,
        failed,
        act,
        room,
    })
}

/// The body with the bytes that were read.
pub fn with_bytes(mut done: ByteList, act: &Act) -> ByteList
    requires { HasPlace act.now done }
    ensures { result ≡ body_with act.now done }
{
    match act {
        Act::Read { buffer, .. } => done.put(DATA_PLACE, buffer.as_slice()),
        Act::Nothing => {}
        Act::Write { .. } => {}
    }
    done
}

/// The list of one packet, in the room that was taken for it.
pub fn in_room(mut room: Vec<Packet>, packet: Packet) -> PacketList
    requires empty { room.items ≡ [] }
    requires room { 1 ≤ vec_capacity room }
    ensures { result ≡ packet ∷ [] }
{
    // There is room for it, so it isn't refused.
    match room.push(packet) {
        Ok(()) => {}
        Err(_) => {}
    }
    PacketList::from_vec(room)
}
