//! The server.
ghost use Rattle.std.specs.Prelude.{◌≡◌, ◌⊎◌, ◌↔◌, ◌≤◌, ◌==◌, ◌||◌, if◌then◌else◌, ℕ, List, [], length, map, is_some, IfSome, IfOk, IfErr, OnOk, OnErr, IsOk, IsSome, Some, None, true, false, vec_capacity};
ghost use Rattle.std.specs.Option.{option_and_then, option_map};
ghost use Rattle.sd_outside.specs.Causes.{Rose};
ghost use Rattle.sd_outside.specs.Disk.{LeavesOnly};
ghost use Rattle.sd_outside.specs.DiskPlan.{Both, Makes, Begins, Stops};
ghost use Rattle.sd_stable_disk.specs.Image.{held, opens};
ghost use Rattle.sd_stable_disk.specs.Files.{files, held_since, HasFault, OpensAs};
ghost use Rattle.sd_config.specs.Config.{IsConfig};
ghost use Rattle.sd_server.specs.Access.{sizes_of, ActFits, ActLeaves, change_by};
ghost use Rattle.sd_server.specs.Deciding.{Decides, HasPlace, body_with, volatile_after};
ghost use Rattle.sd_server.specs.Sessions.{packets_in, MayChange};
ghost use Rattle.sd_server.specs.Standing.{IsServer, MayBe, Turns, Ticks, Goes, damaged_by, Accessed, IsRefusal, refused_by, first_other, sizes_in, is_fault};
ghost use Rattle.sd_services.specs.NfsCalls.{is_swap_access};
ghost use Rattle.sd_services.specs.Sessions.{is_due};
ghost use Rattle.sd_server.specs.declared.errors.ServerError.TheVariants.{Store as Refused};
ghost use Rattle.sd_stable_disk.specs.declared.errors.OpenError.TheVariants.{DiskFault};
ghost use Rattle.sd_server.specs.State.{State, nothing_volatile, part_with, opened};
ghost use Rattle.sd_server.specs.Turns.{CrashLeaves};
ghost use Rattle.sd_server.specs.Ticks.{after_tick, sent_at, dues, Ascending};
ghost use Rattle.std.specs.List.{flat_map, list_any};

use crate::access::{Access, Act, Decision, carry_out, in_room, with_bytes};
use crate::desk::Desk;
use crate::errors::ServerError;
use crate::replies::{Answer, PacketList, Replies, packets_of};
use crate::still::Still;
use crate::ticking::DueList;
use sd_config::Config;
use sd_nfs_msg::NFS_PORT;
use sd_nfs_server::Acted;
use sd_outside::{Addr, ByteList, Disk, NoMemory, Packet, StopDisk};
use sd_stable_disk::{OpenError, Store};
use std::alloc::Global;
use std::marker::Model;

/// A boot server over a disk. Seen as its configuration, what a crash takes away, and its store. For which states it may stand,
/// over a disk that tells what it reads, says `MayBe`.
#[derive(Drop)]
pub struct Server<D: Disk> {
    desk: Desk,
    store: Store<D>,
    alloc: Global,
}

impl<D: Disk> Model for Server<D> {
    ghost use Rattle.sd_server.specs.Standing.{ServerView, IsServer};

    ghost Value = { ServerView D };

    ghost view = { λ s. record { config = s.desk.config; volatile = s.desk.volatile; store = s.store } };

    ghost invariant = { λ s. IsServer D.Disk.seen s.desk.config s.store };
}

/// The size of the swap file that a configuration wants.
fn wanted(config: &Config) -> Option<u64>
    ensures { result ≡ option_map (λ line. line.size) config.now.swap }
{
    match &config.swap {
        None => None,
        Some(line) => Some(line.size),
    }
}

/// The first two sizes that differ.
fn first_other(stored: &[u64], want: Option<u64>) -> Option<(u64, u64)>
    ensures { result ≡ first_other stored.now (sizes_in want) }
{
    match want {
        None => match stored {
            [] => None,
            [first, ..] => Some((*first, 0)),
        },
        Some(size) => match stored {
            [] => Some((0, size)),
            [first, ..] if *first != size => Some((*first, size)),
            [_] => None,
            [_, second, ..] => Some((*second, 0)),
        },
    }
}

/// Why a server isn't opened over a disk that is refused.
fn refused_by(error: OpenError) -> ServerError
    ensures { result ≡ refused_by error }
{
    match error {
        OpenError::NoMemory => ServerError::NoMemory,
        error => ServerError::Store(error),
    }
}

impl<D: Disk> Server<D> {
    /// A server over a disk, with the files that the disk holds as it reads; or the configuration and the disk again, with the reason.
    /// A crash meanwhile leaves these files, or what a crash could leave before.
    pub fn open(
        alloc: Global,
        config: Config,
        disk: D,
    ) -> Result<Server<D>, (ServerError, Config, D)>
        requires { IsConfig config }
        ensures opened { IfOk result (λ server. (stored : List (List ℕ)) → option_and_then held (D.seen disk) ≡ Some stored → MayBe D.seen D.may_leave server (opened stored)) }
        ensures config { IfOk result (λ server. server.config ≡ config) }
        ensures volatile { IfOk result (λ server. server.volatile ≡ nothing_volatile) }
        ensures up { IfOk result (λ server. server.store.up ≡ true) }
        ensures sizes { IfOk result (λ server. server.store.sizes ≡ sizes_of config) }
        ensures readable { IfOk result (λ server. IfSome (D.seen disk) (λ image. IsOk (opens image))) }
        ensures moments { IfOk result (λ server. LeavesOnly D.moment D.left_since disk server.store.disk (λ image. D.may_leave disk image ⊎ OpensAs (D.seen disk) image)) }
        ensures tells { IfOk result (λ server. D.tells_crash server.store.disk ≡ D.tells_crash disk) }
        ensures plan { IfOk result (λ server. Both (Makes 5 4 ⊥) (D.plan disk) (D.plan server.store.disk)) }
        ensures faults { IfOk result (λ server. D.faults server.store.disk ≡ D.faults disk) }

        ensures refused { IfErr result (λ refusal. IsRefusal (D.seen disk) (sizes_of config) refusal.0) }
        ensures back { IfErr result (λ refusal. refusal.1 ≡ config) }
        ensures same { IfErr result (λ refusal. option_map opens (D.seen refusal.2) ≡ option_map opens (D.seen disk)) }
        ensures refused_crash { IfErr result (λ refusal. (image : _) → D.may_leave refusal.2 image → D.may_leave disk image ⊎ OpensAs (D.seen disk) image) }
        ensures refused_moments { IfErr result (λ refusal. LeavesOnly D.moment D.left_since disk refusal.2 (λ image. D.may_leave disk image ⊎ OpensAs (D.seen disk) image)) }
        ensures refused_tells { IfErr result (λ refusal. D.tells_crash refusal.2 ≡ D.tells_crash disk) }
        ensures refused_plan { IfErr result (λ refusal. Both (Makes 5 4 (refusal.0 ≡ Refused DiskFault)) (D.plan disk) (D.plan refusal.2)) }
        ensures cause { IfErr result (λ refusal. HasFault (D.faults disk) (D.faults refusal.2) (refusal.0 ≡ Refused DiskFault)) }
    {
        let desk = match Desk::new(alloc, config) {
            Ok(desk) => desk,
            Err((NoMemory, config)) => return Err((ServerError::NoMemory, config, disk)),
        };
        match Store::open(alloc, disk) {
            Err((error, disk)) => Err((refused_by(error), desk.into_config(), disk)),
            Ok(store) => match first_other(store.sizes(), wanted(desk.config())) {
                Some((stored, want)) => {
                    let error = ServerError::OtherSizes { stored, want };
                    Err((error, desk.into_config(), store.close()))
                }
                None => Ok(Server { desk, store, alloc }),
            },
        }
    }

    /// What the server does for a packet.
    fn decide(&self, now: u64, packet: &Packet) -> Result<Decision, NoMemory>
        ensures decides { IfOk result (Decides self.now.config self.now.volatile now packet.now) }
        ensures server { IsServer D.seen self.now.config self.now.store }
    {
        self.desk.decide(self.alloc, now, packet)
    }

    /// What needs no file is answered, and changes what is held in memory.
    fn answer(&mut self, answer: Answer) -> Result<Replies, NoMemory>
        requires { MayChange self.old.config (part_with self.old.volatile []) answer.change }
        ensures ok { OnOk result (self.new ≡ record self.old { volatile = volatile_after self.old.config self.old.volatile answer.change }) }
        ensures packets { IfOk result (λ r. r.packets ≡ packets_in answer.out) }
        ensures few { IfOk result (λ r. length r.packets ≤ 1) }
        ensures calm { IfOk result (λ r. (r.faulted ≡ false) × (r.damaged ≡ None)) }
        ensures err { OnErr result (self.new ≡ self.old) }
    {
        let packets = packets_of(self.alloc, answer.out)?;
        self.desk.change(answer.change)?;
        Ok(Replies {
            packets,
            faulted: false,
            damaged: None,
        })
    }

    /// The swap file is read or written, and then the call is answered. It takes no memory.
    fn access(&mut self, access: Access) -> Replies
        requires range { ActFits (sizes_of self.old.config) access.act }
        requires place { HasPlace access.act access.done }
        requires empty { access.room.items ≡ [] }
        requires room { 1 ≤ vec_capacity access.room }
        ensures accessed { Accessed D.seen D.may_leave self.old.config access self.old.store self.new.store result.packets result.faulted result.damaged }
        ensures few { length result.packets ≤ 1 }
        ensures moments { ActLeaves D.moment D.seen D.may_leave D.left_since (change_by access.act) self.old.store self.new.store }
        ensures sized { IfSome (files D.seen self.new.store) (λ stored. map (λ file. length file) stored ≡ sizes_of self.old.config) }
        ensures config { self.new.config ≡ self.old.config }
        ensures volatile { self.new.volatile ≡ self.old.volatile }
        ensures tells { D.tells_crash self.new.store.disk ≡ D.tells_crash self.old.store.disk }
        ensures plan { Both (Makes 13 4 (result.faulted ≡ true)) (D.plan self.old.store.disk) (D.plan self.new.store.disk) }
        ensures later { D.faults self.old.store.disk ≤ D.faults self.new.store.disk }
        ensures faulted { result.faulted ≡ true → Rose (D.faults self.old.store.disk) (D.faults self.new.store.disk) }
        ensures counted { result.faulted ≡ false → result.damaged ≡ None → D.faults self.new.store.disk ≡ D.faults self.old.store.disk }
    {
        let Access {
            to,
            done,
            failed,
            mut act,
            room,
        } = access;
        let acted = carry_out(&mut self.store, &mut act);
        let body = body_of(&acted, done, failed, &act);
        let src = Addr {
            ip: self.desk.config().server.ip,
            port: NFS_PORT,
        };
        let packet = Packet::Udp { src, dst: to, body };
        Replies {
            packets: in_room(room, packet),
            faulted: is_fault(&acted),
            damaged: acted.damaged,
        }
    }

    /// What the server does with a packet, from each state for which it may stand to one for which it then may stand: one Serve, or
    /// one Fault where `faulted`, with Settle before it exactly where a READ or WRITE of the swap file found the store down and
    /// recovery was done. A stop at any change of the disk meanwhile, and a crash, leave the files of Settle and Crash. Over a disk
    /// that doesn't tell what it reads the files are any, and NFS answers status 5 where `faulted` or `damaged` says why.
    pub fn serve(&mut self, now: u64, packet: &Packet) -> Result<Replies, NoMemory>
        ensures turns { IfOk result (λ r. (s : State) → MayBe D.seen D.may_leave self.old s → Turns D.seen D.may_leave now packet.now self.old r.packets r.faulted self.new s) }
        ensures goes { IfOk result (λ r. Goes self.old.config now packet.now self.old.volatile r.packets (r.faulted || is_some r.damaged) self.new.volatile) }
        ensures crash { (s : State) → MayBe D.seen D.may_leave self.old s → LeavesOnly (λ v. D.moment v.store.disk) (λ v. held_since D.left_since v.store) self.old self.new (CrashLeaves self.old.config packet.now s) }
        ensures memory { OnErr result (self.new ≡ self.old) }
        ensures config { self.new.config ≡ self.old.config }
        ensures tells { D.tells_crash self.new.store.disk ≡ D.tells_crash self.old.store.disk }
        ensures plan { IfOk result (λ r. Both (Makes 13 4 (r.faulted ≡ true)) (D.plan self.old.store.disk) (D.plan self.new.store.disk)) }
        ensures later { D.faults self.old.store.disk ≤ D.faults self.new.store.disk }
        ensures faulted { IfOk result (λ r. r.faulted ≡ true → Rose (D.faults self.old.store.disk) (D.faults self.new.store.disk)) }
        ensures few { IfOk result (λ r. length r.packets ≤ 1) }
        ensures counted { IfOk result (λ r. r.faulted ≡ false → r.damaged ≡ None → D.faults self.new.store.disk ≡ D.faults self.old.store.disk) }
        ensures damaged { IfOk result (λ r. r.damaged ≡ damaged_by (is_swap_access self.old.config packet.now) self.old.store.up self.new.store.refusal) }
        ensures told { IfOk result (λ r. IsSome (files D.seen self.old.store) → r.damaged ≡ None) }
        ensures idle { is_swap_access self.old.config packet.now ≡ false → self.new.store ≡ self.old.store }
    {
        match self.decide(now, packet)? {
            Decision::Now(answer) => Ok(self.answer(answer)?),
            Decision::Later(access) => Ok(self.access(access)),
        }
    }

    /// Its configuration.
    pub fn config(&self) -> &Config
        ensures { result.now ≡ self.now.config }
    {
        self.desk.config()
    }

    /// Whether the present block of a session is due at a tick.
    pub fn is_due(&self, now: u64) -> bool
        ensures { result ≡ list_any (is_due self.now.config now) self.now.volatile.sessions }
    {
        self.desk.is_due(now)
    }

    /// The sessions that are due at a tick, whose turns `tick` does.
    pub fn due(&self, now: u64) -> Result<DueList, NoMemory>
        ensures { IfOk result (λ list. list ≡ dues self.now.config now self.now.volatile.sessions) }
    {
        Ok(self.desk.due(self.alloc, now)?)
    }

    /// The Data or End step of each session that is due, in order of their numbers. Nothing is done to the disk.
    pub fn tick(&mut self, now: u64) -> Result<Replies, NoMemory>
        ensures ticks { IfOk result (λ r. (s : State) → MayBe D.seen D.may_leave self.old s → Ticks D.seen D.may_leave now self.old r.packets self.new s) }
        ensures sessions { OnOk result (self.new ≡ record self.old { volatile = record self.old.volatile { sessions = flat_map (after_tick self.old.config now) self.old.volatile.sessions } }) }
        ensures packets { IfOk result (λ r. r.packets ≡ flat_map (sent_at self.old.config now) self.old.volatile.sessions) }
        ensures ascending { Ascending self.old.volatile.sessions }
        ensures calm { IfOk result (λ r. (r.faulted ≡ false) × (r.damaged ≡ None)) }
        ensures memory { OnErr result (self.new ≡ self.old) }
    {
        let packets = self.sessions_tick(now)?;
        Ok(Replies {
            packets,
            faulted: false,
            damaged: None,
        })
    }

    fn sessions_tick(&mut self, now: u64) -> Result<PacketList, NoMemory>
        ensures ok { OnOk result (self.new ≡ record self.old { volatile = record self.old.volatile { sessions = flat_map (after_tick self.old.config now) self.old.volatile.sessions } }) }
        ensures packets { IfOk result (λ list. list ≡ flat_map (sent_at self.old.config now) self.old.volatile.sessions) }
        ensures ascending { Ascending self.old.volatile.sessions }
        ensures rules { IsConfig self.old.config }
        ensures err { OnErr result (self.new ≡ self.old) }
    {
        self.desk.tick(self.alloc, now)
    }

    /// What it answers to packets that need no state, apart from it.
    pub fn still(&self) -> Result<Still, NoMemory>
        ensures { IfOk result (λ still. still ≡ self.now.config) }
    {
        Still::new(self.alloc, self.desk.config().copy(self.alloc)?)
    }

    /// The configuration and the disk. Sessions and mounts are lost.
    pub fn stop(self) -> (Config, D)
        ensures config { result.0 ≡ self.config }
        ensures disk { result.1 ≡ self.store.disk }
    {
        let Server {
            desk,
            store,
            alloc: _,
        } = self;
        (desk.into_config(), store.close())
    }
}

impl<D: StopDisk> Server<D> {
    /// Names this moment as the one from which the disk keeps its changes. What the server may stand for stays.
    pub fn begin(&mut self)
        ensures named { D.Disk.moment self.new.store.disk ≡ 0 }
        ensures stays { (s : State) → MayBe D.Disk.seen D.Disk.may_leave self.old s → MayBe D.Disk.seen D.Disk.may_leave self.new s }
        ensures config { self.new.config ≡ self.old.config }
        ensures volatile { self.new.volatile ≡ self.old.volatile }
        ensures up { self.new.store.up ≡ self.old.store.up }
        ensures refusal { self.new.store.refusal ≡ self.old.store.refusal }
        ensures tells { D.Disk.tells_crash self.new.store.disk ≡ D.Disk.tells_crash self.old.store.disk }
        ensures plan { Both Begins (D.Disk.plan self.old.store.disk) (D.Disk.plan self.new.store.disk) }
        ensures faults { D.Disk.faults self.new.store.disk ≡ D.Disk.faults self.old.store.disk }
    {
        self.store.begin();
    }

    /// Lets so many changes of the disk pass and fails each later one. What the server may stand for stays.
    pub fn stop_after(&mut self, changes: u32)
        ensures moment { D.Disk.moment self.new.store.disk ≡ D.Disk.moment self.old.store.disk }
        ensures time { (since : ℕ) (left : _) → held_since D.Disk.left_since self.new.store since left ↔ held_since D.Disk.left_since self.old.store since left }
        ensures stays { (s : State) → MayBe D.Disk.seen D.Disk.may_leave self.old s → MayBe D.Disk.seen D.Disk.may_leave self.new s }
        ensures config { self.new.config ≡ self.old.config }
        ensures volatile { self.new.volatile ≡ self.old.volatile }
        ensures up { self.new.store.up ≡ self.old.store.up }
        ensures refusal { self.new.store.refusal ≡ self.old.store.refusal }
        ensures tells { D.Disk.tells_crash self.new.store.disk ≡ D.Disk.tells_crash self.old.store.disk }
        ensures plan { Both (Stops (D.Disk.tells_crash self.old.store.disk) changes) (D.Disk.plan self.old.store.disk) (D.Disk.plan self.new.store.disk) }
        ensures faults { D.Disk.faults self.new.store.disk ≡ D.Disk.faults self.old.store.disk }
    {
        self.store.stop_after(changes);
    }
}

/// Whether a call of the disk failed.
fn is_fault(acted: &Acted) -> bool
    ensures { result ≡ is_fault acted.now }
{
    acted.status != 0 && acted.damaged.is_none()
}

/// The body of the reply.
fn body_of(acted: &Acted, done: ByteList, failed: ByteList, act: &Act) -> ByteList
    requires { HasPlace act.now done }
    ensures { result ≡ (if acted.now.status == 0 then body_with act.now done else failed) }
{
    if acted.status == 0 {
        with_bytes(done, act)
    } else {
        failed
    }
}
