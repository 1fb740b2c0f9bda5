//! The live files.

ghost use Rattle.std.specs.Prelude.{◌≡◌, ◌≢◌, ◌≤◌, ◌<◌, ◌^◌, IfOk, IfSome, IsTrue, ◌↔◌, None};
ghost use Rattle.std.specs.List.{Contains};
ghost use Rattle.sd_config.specs.Config.{IsConfig};
ghost use Rattle.sd_services.specs.Files.{Exported, Exports, Place, live, handle, named_by, Names, exported};
ghost use Rattle.sd_nfs_server.specs.Live.{IsLive, Finds};
ghost use Rattle.sd_nfs_server.specs.Fits.{FilesFit, NodesFit};

use crate::build::nodes_of;
use crate::handle::{fhandle_of, numbers};
use sd_config::Config;
use sd_outside::{FHandle, NoMemory};
use sd_services::Node;
use std::alloc::Global;
use std::marker::Model;

/// The files of both exports, and the owner's address.
#[derive(Debug, Drop)]
pub struct Tree {
    owner: u32,
    nodes: Vec<Node>,
    swap: Option<u32>,
}

impl Model for Tree {
    ghost use Rattle.sd_services.specs.Files.{Exported};
    ghost use Rattle.sd_nfs_server.specs.Fits.{FilesFit};

    ghost Value = { Exported };

    ghost view = { λ t. record { owner = t.owner; root = t.nodes.items; swap = t.swap } };

    ghost invariant = { λ t. FilesFit (record { owner = t.owner; root = t.nodes.items; swap = t.swap }) };
}

impl Tree {
    /// The live files of a configuration.
    #[tactic(auto, using(sd_services::proofs::Numbering::one_export))]
    pub fn build(alloc: Global, config: &Config) -> Result<Tree, NoMemory>
        requires { IsConfig config.now }
        ensures exports { IfOk result (λ tree. Exports config.now tree) }
        ensures computed { IfOk result (λ tree. tree ≡ exported config.now) }
    {
        let tree = Tree::from_lines(alloc, config)?;
        Ok(tree)
    }

    fn from_lines(alloc: Global, config: &Config) -> Result<Tree, NoMemory>
        requires { IsConfig config.now }
        ensures { IfOk result (λ tree. Exports config.now tree) }
    {
        let nodes = match &config.root {
            Some(_) => nodes_of(alloc, config.items.as_slice())?,
            None => Vec::new(alloc),
        };
        let swap = match &config.swap {
            Some(line) => Some(line.size as u32),
            None => None,
        };
        Ok(Tree {
            owner: config.client.ip,
            nodes,
            swap,
        })
    }

    pub(crate) fn owner(&self) -> u32
        ensures { result ≡ self.now.owner }
    {
        self.owner
    }

    pub(crate) fn nodes(&self) -> &[Node]
        ensures is { result.now ≡ self.now.root }
        ensures fit { NodesFit self.now.root }
    {
        self.nodes.as_slice()
    }

    pub(crate) fn swap(&self) -> Option<u32>
        ensures is { result ≡ self.now.swap }
        ensures fit { IfSome result (λ size. size ≤ 33554432) }
    {
        self.swap
    }

    #[tactic(auto, using(crate::proofs::Handles::live_fits))]
    fn is_live(&self, export: u32, file: u32) -> bool
        ensures is { IsTrue result ↔ IsLive self.now (export, file) }
        ensures fit { FilesFit self.now }
        ensures few { (place : Place) → IsLive self.now place → (place.0 < 2 ^ 32) × (place.1 < 2 ^ 32) }
    {
        match export {
            0 => 1 <= file && file as usize <= self.nodes.as_slice().len(),
            1 => file == 1 && self.swap.is_some(),
            _ => false,
        }
    }

    /// The export and number of the live file with this handle (RFC 1094, section 2.3.3), or `None` where no live file has it.
    #[tactic(auto, using(crate::proofs::Handles::names, crate::proofs::Handles::names_place, crate::proofs::Handles::names_nothing))]
    pub fn find(&self, f: &FHandle) -> Option<(u32, u32)>
        ensures found { result ≡ named_by self.now f.now.0 }
        ensures some { IfSome result (λ place. Names self.now f.now.0 place) }
        ensures none { result ≡ None → (place : Place) → Contains (live self.now) place → f.now.0 ≢ handle place.0 place.1 }
    {
        self.live_file(f)
    }

    /// The live file with this handle.
    pub(crate) fn live_file(&self, f: &FHandle) -> Option<(u32, u32)>
        ensures finds { Finds self.now f.now.0 result }
        ensures fit { FilesFit self.now }
    {
        let (export, file) = numbers(f);
        if !self.is_live(export, file) {
            return None;
        }
        if fhandle_of(export, file) == *f {
            Some((export, file))
        } else {
            None
        }
    }
}
