//! What the server holds in memory, and what it decides on a packet.
ghost use Rattle.std.specs.Prelude.{◌≡◌, ℕ, ◌==◌, ◌||◌, ◌≤◌, [], length, IfOk, OnOk, OnErr, IfErr, true};
ghost use Rattle.sd_outside.specs.declared.packet.Packet.TheVariants.{Udp};
ghost use Rattle.sd_config.specs.Config.{IsConfig};
ghost use Rattle.sd_services.specs.Reply.{is_heard};
ghost use Rattle.sd_nfs_msg.specs.Layout.{nfs_port};
ghost use Rattle.sd_services.specs.MountReply.{mount_port};
ghost use Rattle.sd_portmap.specs.Layout.{pmap_port};
ghost use Rattle.sd_services.specs.RpcReply.{bootparams_port};
ghost use Rattle.sd_tftp.specs.Grammar.{tftp_port};
ghost use Rattle.sd_services.specs.Sessions.{is_session_port, is_due};
ghost use Rattle.sd_server.specs.State.{nothing_volatile, part_with};
ghost use Rattle.sd_server.specs.Sessions.{MayChange};
ghost use Rattle.sd_server.specs.declared.replies.Change.TheVariants.{Begins, Moves, Ends, Mounts, Unmounts, Leaves};
ghost use Rattle.std.specs.List.{flat_map, list_any};
ghost use Rattle.sd_server.specs.Deciding.{Decides, volatile_after};
ghost use Rattle.sd_server.specs.Ticks.{after_tick, sent_at, dues, Ascending};

use crate::access::{Decision, prepared};
use crate::bootparams::bp_reply;
use crate::mount::mount_turn;
use crate::nfs::{NfsTurn, nfs_turn};
use crate::portmap::pmap_reply;
use crate::replies::{Answer, Change, PacketList, quiet};
use crate::reply::{is_heard, reply_packet, reply_to_frame};
use crate::service::{BOOTPARAMS_PORT, MOUNT_PORT};
use crate::sessions::{Sending, drop_session, push_session, put_session};
use crate::setup::Setup;
use crate::tftp::{is_tftp_port, tftp_reply};
use crate::ticking::{DueList, Ticked, all_due, all_turns, any_due};
use sd_config::Config;
use sd_mount::MountList;
use sd_nfs_msg::NFS_PORT;
use sd_outside::{Addr, ByteList, NoMemory, Packet};
use sd_portmap::PMAP_PORT;
use std::alloc::Global;
use std::marker::Model;

/// What the server holds in memory: what its programs answer by, its sessions, and who mounted what. Seen as the configuration and
/// what a crash takes away.
#[derive(Drop)]
pub struct Desk {
    setup: Setup,
    sessions: Vec<Sending>,
    /// How many sessions were made.
    made: u64,
    mounts: MountList,
}

impl Model for Desk {
    ghost use Rattle.sd_server.specs.Deciding.{DeskView, IsDesk, volatile_with};

    ghost Value = { DeskView };

    ghost view = { λ d. record { config = d.setup; volatile = volatile_with d.setup d.sessions.items d.made d.mounts } };

    ghost invariant = { λ d. IsDesk d.setup d.sessions.items d.made d.mounts };
}

impl Desk {
    /// Nothing was sent and nothing is mounted.
    pub fn new(alloc: Global, config: Config) -> Result<Desk, (NoMemory, Config)>
        requires { IsConfig config }
        ensures ok { IfOk result (λ desk. desk ≡ record { config = config; volatile = nothing_volatile }) }
        ensures err { IfErr result (λ refused. refused.1 ≡ config) }
    {
        let Ok(mounts) = MountList::new(alloc) else {
            return Err((NoMemory, config));
        };
        match Setup::new(alloc, config) {
            Ok(setup) => Ok(Desk {
                setup,
                sessions: Vec::new(alloc),
                made: 0,
                mounts,
            }),
            Err(refused) => Err(refused),
        }
    }

    /// The configuration.
    pub fn into_config(self) -> Config
        ensures { result ≡ self.config }
    {
        self.setup.into_config()
    }

    pub fn config(&self) -> &Config
        ensures same { result.now ≡ self.now.config }
        ensures rules { IsConfig self.now.config }
    {
        self.setup.config()
    }

    /// A datagram to the portmapper.
    fn portmapper(
        &self,
        alloc: Global,
        from: Addr,
        dst: Addr,
        body: &[u8],
    ) -> Result<Decision, NoMemory>
        requires heard { is_heard self.now.config dst ≡ true }
        requires port { dst.port ≡ pmap_port }
        ensures { IfOk result (λ d. (tick : ℕ) → Decides self.now.config self.now.volatile tick (Udp from dst body.now) d) }
    {
        let reply = pmap_reply(alloc, &self.setup, body)?;
        let out = reply_packet(alloc, self.setup.config(), dst.port, from, reply)?;
        let change = Change::Stays;
        Ok(Decision::Now(Answer { out, change }))
    }

    /// A datagram to bootparams.
    fn bootparams(
        &self,
        alloc: Global,
        from: Addr,
        dst: Addr,
        body: &[u8],
    ) -> Result<Decision, NoMemory>
        requires heard { is_heard self.now.config dst ≡ true }
        requires port { dst.port ≡ bootparams_port }
        ensures { IfOk result (λ d. (tick : ℕ) → Decides self.now.config self.now.volatile tick (Udp from dst body.now) d) }
    {
        let reply = bp_reply(alloc, &self.setup, body)?;
        let out = reply_packet(alloc, self.setup.config(), dst.port, from, reply)?;
        let change = Change::Stays;
        Ok(Decision::Now(Answer { out, change }))
    }

    /// A datagram to MOUNT.
    fn mount(&self, alloc: Global, from: Addr, dst: Addr, body: &[u8]) -> Result<Decision, NoMemory>
        requires heard { is_heard self.now.config dst ≡ true }
        requires port { dst.port ≡ mount_port }
        ensures { IfOk result (λ d. (tick : ℕ) → Decides self.now.config self.now.volatile tick (Udp from dst body.now) d) }
    {
        let turn = mount_turn(alloc, &self.setup, &self.mounts, from.ip, body)?;
        let out = reply_packet(alloc, self.setup.config(), dst.port, from, turn.reply)?;
        let change = turn.change;
        Ok(Decision::Now(Answer { out, change }))
    }

    /// A datagram to NFS.
    fn nfs(&self, alloc: Global, from: Addr, dst: Addr, body: &[u8]) -> Result<Decision, NoMemory>
        requires heard { is_heard self.now.config dst ≡ true }
        requires port { dst.port ≡ nfs_port }
        ensures { IfOk result (λ d. (tick : ℕ) → Decides self.now.config self.now.volatile tick (Udp from dst body.now) d) }
    {
        match nfs_turn(alloc, &self.setup, from.ip, body)? {
            NfsTurn::Ignores => Ok(Decision::Now(quiet(Change::Stays))),
            NfsTurn::Replies(reply) => {
                let out = reply_packet(alloc, self.setup.config(), dst.port, from, Some(reply))?;
                let change = Change::Stays;
                Ok(Decision::Now(Answer { out, change }))
            }
            NfsTurn::Does { xid, done, act } => {
                Ok(Decision::Later(prepared(alloc, from, xid, &done, act)?))
            }
        }
    }

    /// A datagram to TFTP.
    fn tftp(
        &self,
        alloc: Global,
        tick: u64,
        from: Addr,
        dst: Addr,
        body: &[u8],
    ) -> Result<Decision, NoMemory>
        requires heard { is_heard self.now.config dst ≡ true }
        requires port { ((dst.port == tftp_port) || is_session_port dst.port) ≡ true }
        ensures { IfOk result (Decides self.now.config self.now.volatile tick (Udp from dst body.now)) }
    {
        let answer = tftp_reply(
            alloc,
            self.setup.config(),
            self.sessions.as_slice(),
            self.made,
            tick,
            from,
            dst.port,
            body,
        )?;
        Ok(Decision::Now(answer))
    }

    /// A datagram that the server hears.
    fn heard(
        &self,
        alloc: Global,
        tick: u64,
        from: Addr,
        dst: Addr,
        body: &[u8],
    ) -> Result<Decision, NoMemory>
        requires { is_heard self.now.config dst ≡ true }
        ensures { IfOk result (Decides self.now.config self.now.volatile tick (Udp from dst body.now)) }
    {
        if dst.port == PMAP_PORT {
            return Ok(self.portmapper(alloc, from, dst, body)?);
        }
        if dst.port == BOOTPARAMS_PORT {
            return Ok(self.bootparams(alloc, from, dst, body)?);
        }
        if dst.port == MOUNT_PORT {
            return Ok(self.mount(alloc, from, dst, body)?);
        }
        if dst.port == NFS_PORT {
            return Ok(self.nfs(alloc, from, dst, body)?);
        }
        if is_tftp_port(dst.port) {
            return Ok(self.tftp(alloc, tick, from, dst, body)?);
        }
        Ok(Decision::Now(quiet(Change::Stays)))
    }

    /// What the server does for a packet.
    pub fn decide(&self, alloc: Global, tick: u64, packet: &Packet) -> Result<Decision, NoMemory>
        ensures { IfOk result (Decides self.now.config self.now.volatile tick packet.now) }
    {
        match packet {
            Packet::Frame(bytes) => {
                let out = reply_to_frame(alloc, self.setup.config(), bytes.as_slice())?;
                let change = Change::Stays;
                Ok(Decision::Now(Answer { out, change }))
            }
            Packet::Udp { src, dst, body } => {
                if is_heard(self.setup.config(), *dst) {
                    return Ok(self.heard(alloc, tick, *src, *dst, body.as_slice())?);
                }
                Ok(Decision::Now(quiet(Change::Stays)))
            }
        }
    }

    /// A session begins; the oldest of sixteen ends. No memory holds the packets of more sessions than there are numbers.
    fn begin(&mut self, session: Sending) -> Result<(), NoMemory>
        requires { MayChange self.old.config (part_with self.old.volatile []) (Begins session) }
        ensures ok { OnOk result (self.new ≡ record self.old { volatile = volatile_after self.old.config self.old.volatile (Begins session) }) }
        ensures err { OnErr result (self.new ≡ self.old) }
    {
        if self.made == u64::MAX {
            return Err(NoMemory);
        }
        push_session(&mut self.sessions, session)?;
        self.made += 1;
        Ok(())
    }

    /// The session with this number becomes this.
    fn put(&mut self, session: Sending)
        requires { MayChange self.old.config (part_with self.old.volatile []) (Moves session) }
        ensures { self.new ≡ record self.old { volatile = volatile_after self.old.config self.old.volatile (Moves session) } }
    {
        put_session(&mut self.sessions, &session);
    }

    /// The session with this number ends.
    fn end(&mut self, number: u64)
        ensures { self.new ≡ record self.old { volatile = volatile_after self.old.config self.old.volatile (Ends number) } }
    {
        drop_session(&mut self.sessions, number);
    }

    fn add_mount(&mut self, host: u32, path: ByteList)
        requires { length path ≤ 1024 }
        ensures { self.new ≡ record self.old { volatile = volatile_after self.old.config self.old.volatile (Mounts host path) } }
    {
        self.mounts.add(host, path);
    }

    fn remove_mount(&mut self, host: u32, path: &ByteList)
        ensures { self.new ≡ record self.old { volatile = volatile_after self.old.config self.old.volatile (Unmounts host path.now) } }
    {
        self.mounts.remove(host, path.as_slice());
    }

    fn remove_mounts(&mut self, host: u32)
        ensures { self.new ≡ record self.old { volatile = volatile_after self.old.config self.old.volatile (Leaves host) } }
    {
        self.mounts.remove_all(host);
    }

    /// A refused change leaves all as it was.
    pub fn change(&mut self, change: Change) -> Result<(), NoMemory>
        requires { MayChange self.old.config (part_with self.old.volatile []) change }
        ensures ok { OnOk result (self.new ≡ record self.old { volatile = volatile_after self.old.config self.old.volatile change }) }
        ensures err { OnErr result (self.new ≡ self.old) }
    {
        match change {
            Change::Stays => Ok(()),
            Change::Begins(session) => self.begin(session),
            Change::Moves(session) => {
                self.put(session);
                Ok(())
            }
            Change::Ends(number) => {
                self.end(number);
                Ok(())
            }
            Change::Mounts { host, path } => {
                self.add_mount(host, path);
                Ok(())
            }
            Change::Unmounts { host, path } => {
                self.remove_mount(host, &path);
                Ok(())
            }
            Change::Leaves { host } => {
                self.remove_mounts(host);
                Ok(())
            }
        }
    }

    /// Whether a session is due.
    pub fn is_due(&self, tick: u64) -> bool
        ensures { result ≡ list_any (is_due self.now.config tick) self.now.volatile.sessions }
    {
        any_due(self.setup.config(), tick, self.sessions.as_slice())
    }

    /// The sessions that are due.
    pub fn due(&self, alloc: Global, tick: u64) -> Result<DueList, NoMemory>
        ensures { IfOk result (λ list. list ≡ dues self.now.config tick self.now.volatile.sessions) }
    {
        Ok(all_due(alloc, self.setup.config(), tick, self.sessions.as_slice())?)
    }

    /// What the sessions do at a tick.
    pub fn tick(&mut self, alloc: Global, tick: u64) -> Result<PacketList, NoMemory>
        ensures ok { OnOk result (self.new ≡ record self.old { volatile = record self.old.volatile { sessions = flat_map (after_tick self.old.config tick) self.old.volatile.sessions } }) }
        ensures packets { IfOk result (λ list. list ≡ flat_map (sent_at self.old.config tick) self.old.volatile.sessions) }
        ensures ascending { Ascending self.old.volatile.sessions }
        ensures err { OnErr result (self.new ≡ self.old) }
    {
        let done = all_turns(alloc, self.setup.config(), tick, self.sessions.as_slice())?;
        let Ticked { packets, sessions } = done;
        self.sessions = sessions;
        Ok(packets)
    }
}
