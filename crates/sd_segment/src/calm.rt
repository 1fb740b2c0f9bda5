//! A boot server over a disk that never fails.
ghost use Rattle.std.specs.Prelude.{◌≡◌, ◌≤◌, length, Some, IfOk, IfErr, OnOk, OnErr};
ghost use Rattle.std.specs.List.{flat_map, list_any};
ghost use Rattle.std.specs.Option.{option_and_then};
ghost use Rattle.sd_config.specs.Config.{IsConfig};
ghost use Rattle.sd_services.specs.Part.{first_part, swap_files};
ghost use Rattle.sd_services.specs.Sessions.{is_due};
ghost use Rattle.sd_services.specs.Reply.{out_of, next_of};
ghost use Rattle.sd_stable_disk.specs.Image.{held};
ghost use Rattle.sd_server.specs.Ticks.{after_tick, sent_at, dues, Ascending};
ghost use Rattle.sd_server.specs.declared.errors.ServerError.TheVariants as refused;

use sd_config::Config;
use sd_outside::{CalmDisk, Disk, NoMemory, Packet};
use sd_server::{DueList, PacketList, Server, ServerError};
use std::alloc::Global;
use std::marker::Model;

/// A server over a disk that never fails. Seen as its configuration and its part of the world.
#[derive(Drop)]
pub struct CalmServer {
    server: Server<CalmDisk>,
}

impl Model for CalmServer {
    ghost use Rattle.sd_segment.specs.Calm.{CalmView, IsCalm, part_of};

    ghost Value = { CalmView };

    ghost view = { λ s. record { config = s.server.config; part = part_of s.server } };

    ghost invariant = { λ s. IsCalm s.server };
}

impl CalmServer {
    /// A server over a disk that holds the files of the start.
    pub fn open(alloc: Global, config: Config, disk: CalmDisk) -> Result<CalmServer, ServerError>
        requires config { IsConfig config }
        requires holds { option_and_then held (⟦<CalmDisk as Disk>⟧.seen disk) ≡ Some (swap_files config.swap) }
        ensures opened { IfOk result (λ server. server ≡ record { config = config; part = first_part config }) }
        ensures refused { IfErr result (λ error. error ≡ refused.NoMemory) }
    {
        match Server::open(alloc, config, disk) {
            Ok(server) => Ok(CalmServer { server }),
            Err((error, _, _)) => Err(error),
        }
    }

    pub fn config(&self) -> &Config
        ensures { result.now ≡ self.now.config }
    {
        self.server.config()
    }

    /// The packet is served.
    pub fn serve(&mut self, tick: u64, packet: &Packet) -> Result<PacketList, NoMemory>
        ensures out { IfOk result (λ list. list ≡ out_of self.old.config tick self.old.part packet.now) }
        ensures few { IfOk result (λ list. length list ≤ 1) }
        ensures next { OnOk result (self.new ≡ record self.old { part = next_of self.old.config tick self.old.part packet.now }) }
        ensures err { OnErr result (self.new ≡ self.old) }
    {
        let replies = self.server.serve(tick, packet)?;
        Ok(replies.packets)
    }

    /// Whether the present block of a session is due.
    pub fn is_due(&self, tick: u64) -> bool
        ensures { result ≡ list_any (is_due self.now.config tick) self.now.part.sessions }
    {
        self.server.is_due(tick)
    }

    /// The sessions that are due.
    pub fn due(&self, tick: u64) -> Result<DueList, NoMemory>
        ensures { IfOk result (λ list. list ≡ dues self.now.config tick self.now.part.sessions) }
    {
        Ok(self.server.due(tick)?)
    }

    /// Each of them has its turn.
    pub fn tick(&mut self, tick: u64) -> Result<PacketList, NoMemory>
        ensures sent { IfOk result (λ list. list ≡ flat_map (sent_at self.old.config tick) self.old.part.sessions) }
        ensures next { OnOk result (self.new ≡ record self.old { part = record self.old.part { sessions = flat_map (after_tick self.old.config tick) self.old.part.sessions } }) }
        ensures ascending { Ascending self.old.part.sessions }
        ensures err { OnErr result (self.new ≡ self.old) }
    {
        let replies = self.server.tick(tick)?;
        Ok(replies.packets)
    }
}
