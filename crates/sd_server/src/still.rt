//! Answers to packets that need neither the swap file nor what a crash takes away.
ghost use Rattle.std.specs.Prelude.{◌≡◌, ◌&&◌, ◌||◌, ◌≤◌, length, None, IfOk, IfSome, false};
ghost use Rattle.std.specs.Option.{option_map};
ghost use Rattle.sd_config.specs.Config.{IsConfig};
ghost use Rattle.sd_server.specs.Still.{uses_mounts, asks_mounts, is_to_tftp, is_of_mounts, GivesStill};

use crate::access::Decision;
use crate::coming::{Coming, arrive};
use crate::desk::Desk;
use crate::mount::mount_args_in;
use crate::replies::{Replies, packets_of};
use crate::service::{MOUNT_PORT, Service};
use crate::tftp::is_tftp_port;
use sd_config::Config;
use sd_mount::MountArgs;
use sd_outside::{NoMemory, Packet};
use std::alloc::Global;
use std::marker::Model;

/// What a server answers without its store, its sessions and its mounts. It has a copy of the configuration, and is seen as that.
#[derive(Drop)]
pub struct Still {
    /// A server's memory in which nothing is kept.
    desk: Desk,
    alloc: Global,
}

impl Model for Still {
    ghost use Rattle.std.specs.Prelude.{◌≡◌};
    ghost use Rattle.sd_config.specs.declared.config.Config.{Config};
    ghost use Rattle.sd_server.specs.State.{nothing_volatile};

    ghost Value = { Config };

    ghost view = { λ s. s.desk.config };

    ghost invariant = { λ s. s.desk.volatile ≡ nothing_volatile };
}

/// Whether a call reads or changes who mounted what.
fn uses_mounts(args: &MountArgs) -> bool
    ensures { result ≡ uses_mounts args.now }
{
    match args {
        MountArgs::Null => false,
        MountArgs::Mnt { .. } => true,
        MountArgs::Dump => true,
        MountArgs::Umnt { .. } => true,
        MountArgs::UmntAll => true,
        MountArgs::Export => false,
    }
}

/// Whether the body of a datagram to MOUNT is such a call.
fn asks_mounts(alloc: Global, body: &[u8]) -> Result<bool, NoMemory>
    ensures { IfOk result (λ asks. asks ≡ asks_mounts body.now) }
{
    match arrive(alloc, Service::Mount, body)? {
        Coming::Nowhere => Ok(false),
        Coming::Refused(_) => Ok(false),
        Coming::Asks { proc_no, args, .. } => {
            match mount_args_in(alloc, proc_no, args.as_slice())? {
                None => Ok(false),
                Some(args) => Ok(uses_mounts(&args)),
            }
        }
    }
}

/// Whether a packet needs the server's sessions or mounts.
fn needs_memory(alloc: Global, config: &Config, packet: &Packet) -> Result<bool, NoMemory>
    ensures { IfOk result (λ needs. needs ≡ (is_to_tftp config.now packet.now || is_of_mounts config.now packet.now)) }
{
    match packet {
        Packet::Frame(_) => Ok(false),
        Packet::Udp { dst, body, .. } => {
            if dst.ip != config.server.ip {
                return Ok(false);
            }
            if is_tftp_port(dst.port) {
                return Ok(true);
            }
            if dst.port != MOUNT_PORT {
                return Ok(false);
            }
            asks_mounts(alloc, body.as_slice())
        }
    }
}

impl Still {
    pub(crate) fn new(alloc: Global, config: Config) -> Result<Still, NoMemory>
        requires { IsConfig config }
        ensures { IfOk result (λ still. still ≡ config) }
    {
        match Desk::new(alloc, config) {
            Ok(desk) => Ok(Still { desk, alloc }),
            Err((NoMemory, _)) => Err(NoMemory),
        }
    }

    /// What every server with this configuration answers to a packet; nothing exactly where the packet needs state: TFTP, MOUNT but
    /// for NULL and EXPORT, and READ and WRITE of the swap file.
    pub fn serve(&self, packet: &Packet) -> Result<Option<Replies>, NoMemory>
        ensures gives { IfOk result (λ given. GivesStill self.now packet.now (option_map (λ r. r.packets) given)) }
        ensures few { IfOk result (λ given. IfSome given (λ r. length r.packets ≤ 1)) }
        ensures calm { IfOk result (λ given. IfSome given (λ r. (r.faulted ≡ false) × (r.damaged ≡ None))) }
    {
        if needs_memory(self.alloc, self.desk.config(), packet)? {
            return Ok(None);
        }
        match self.desk.decide(self.alloc, 0, packet)? {
            Decision::Later(_) => Ok(None),
            Decision::Now(answer) => Ok(Some(Replies {
                packets: packets_of(self.alloc, answer.out)?,
                faulted: false,
                damaged: None,
            })),
        }
    }
}
