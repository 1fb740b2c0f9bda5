//! What a script says, as plain data: the configuration, the events of the network, the commands, and their answers.
//!
//! `specs/Config.antt` and `specs/Events.antt` have the rules of a configuration and of events, `specs/Program.antt` the boot
//! file that belongs to an address. A client is given its own part of a configuration (`Config::client`), and no more.
#![tactic(auto)]

mod command;
mod config;
mod copying;
mod events;
mod stage;
mod told;

pub use command::{Command, CommandList};
pub use config::{
    BootFile, BootFileList, ClientConfig, Config, Machine, RootItem, RootItemList, SwapLine,
};
pub use events::{
    Events, Fate, FateList, FaultList, PlannedFault, Stranger, StrangerList, TickList,
};
pub use stage::Stage;
pub use told::Told;
