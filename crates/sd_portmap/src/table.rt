//! The table of a portmapper (RFC 1057, appendix A).

ghost use Rattle.std.specs.Prelude.{◌≡◌, [], IfOk, OnErr};
ghost use Rattle.std.specs.List.{find, list_any};
ghost use Rattle.std.specs.Option.{option_map};
ghost use Rattle.sd_portmap.specs.Table.{is_triple, is_version, port_of, has, Sets, without, Differ};

use crate::mapping::Mapping;
use sd_outside::NoMemory;
use std::alloc::Global;
use std::marker::Model;

/// Which port serves which program, version and protocol, in order of setting. No two mappings are of the same three.
#[derive(Debug, Drop)]
pub struct Table {
    mappings: Vec<Mapping>,
}

impl Model for Table {
    ghost use Rattle.std.specs.Prelude.{List};
    ghost use Rattle.sd_portmap.specs.declared.mapping.Mapping.{Mapping};
    ghost use Rattle.sd_portmap.specs.Table.{Differ};

    ghost Value = { List Mapping };

    ghost view = { λ t. t.mappings.items };

    ghost invariant = { λ t. Differ t.mappings.items };
}

fn is_triple(mapping: &Mapping, prog: u32, vers: u32, prot: u32) -> bool
    ensures { result ≡ is_triple prog vers prot mapping.now }
{
    is_version(mapping, prog, vers) && mapping.prot == prot
}

fn is_version(mapping: &Mapping, prog: u32, vers: u32) -> bool
    ensures { result ≡ is_version prog vers mapping.now }
{
    mapping.prog == prog && mapping.vers == vers
}

impl Table {
    /// No mappings.
    pub fn new(alloc: Global) -> Table
        ensures { result ≡ [] }
    {
        Table {
            mappings: Vec::new(alloc),
        }
    }

    fn has(&self, mapping: &Mapping) -> bool
        ensures { result ≡ has self.now mapping.now }
    {
        self.mappings.iter().any(|other| is_triple(other, mapping.prog, mapping.vers, mapping.prot))
    }

    fn mapping(&self, prog: u32, vers: u32, prot: u32) -> Option<&Mapping>
        ensures { option_map (λ m. m.now) result ≡ find (is_triple prog vers prot) self.now }
    {
        self.mappings
            .iter()
            .find(|mapping| is_triple(mapping, prog, vers, prot))
    }

    /// The port of this program, version and protocol; 0 where there is none.
    pub fn get(&self, prog: u32, vers: u32, prot: u32) -> u32
        ensures { result ≡ port_of self.now prog vers prot }
    {
        match self.mapping(prog, vers, prot) {
            Some(mapping) => mapping.port,
            None => 0,
        }
    }

    /// Adds a mapping where its program, version and protocol have none. Whether it did.
    #[tactic(auto, using(crate::proofs::Mapped::differ_added))]
    pub fn set(&mut self, mapping: Mapping) -> Result<bool, NoMemory>
        ensures sets { IfOk result (Sets self.old mapping self.new) }
        ensures err { OnErr result (self.new ≡ self.old) }
    {
        if self.has(&mapping) {
            return Ok(false);
        }
        self.mappings.push(mapping)?;
        Ok(true)
    }

    /// Removes all mappings of a program's version, whatever their protocol. Whether there was one.
    pub fn unset(&mut self, prog: u32, vers: u32) -> bool
        ensures some { result ≡ list_any (is_version prog vers) self.old }
        ensures others { self.new ≡ without prog vers self.old }
    {
        let had = self
            .mappings
            .iter()
            .any(|mapping| is_version(mapping, prog, vers));
        self.mappings
            .retain(|mapping| !is_version(mapping, prog, vers));
        had
    }

    /// All mappings, in order of setting.
    pub fn dump(&self) -> &[Mapping]
        ensures all { result.now ≡ self.now }
        ensures differ { Differ self.now }
    {
        self.mappings.as_slice()
    }
}
