//! What a script says.

use sd_config::{CommandList, Config, Events};

/// A script: what its configuration, event and command lines say.
#[derive(Debug, Drop)]
pub struct Script {
    /// What the heading says.
    pub config: Config,
    /// What becomes of packets.
    pub events: Events,
    /// What the client is asked to do, in order.
    pub commands: CommandList,
}
