//! Answers without a turn.
ghost use Rattle.std.specs.Prelude.{◌≡◌, ◌≤◌, length, None, IfOk, IfSome, false};
ghost use Rattle.std.specs.Option.{option_map};
ghost use Rattle.sd_server.specs.Still.{GivesStill};
ghost use Rattle.sd_workers.specs.Seats.{opened_with};

use crate::hall::Hall;
use sd_outside::{Disk, NoMemory, Packet};
use sd_server::Replies;

impl<D: Disk + Send> Hall<D> {
    /// What the server answers to a packet that needs no state, at once and whatever the seats do; nothing exactly where the packet
    /// needs some: TFTP, MOUNT but for NULL and EXPORT, and READ and WRITE of the swap file. Those take a turn, by `serve`.
    pub fn serve_still(&self, packet: &Packet) -> Result<Option<Replies>, NoMemory>
        ensures gives { IfOk result (λ given. GivesStill (opened_with self.now).config packet.now (option_map (λ r. r.packets) given)) }
        ensures few { IfOk result (λ given. IfSome given (λ r. length r.packets ≤ 1)) }
        ensures calm { IfOk result (λ given. IfSome given (λ r. (r.faulted ≡ false) × (r.damaged ≡ None))) }
    {
        self.still.serve(packet)
    }
}
