//! Where a path leads.
ghost use Rattle.std.specs.Prelude.{◌≡◌, ◌<◌, ◌≤◌, ◌+◌, ◌*◌, ◌-◌, ◌^◌, ◌∷◌, ℕ, List, [], length, None, Err, IfOk, IfErr};
ghost use Rattle.sd_outside.specs.Causes.{Rose};
ghost use Rattle.sd_link.specs.Link.{Moves, IsSettledBy};
ghost use Rattle.sd_rpc_retry.specs.Lasting.{Lasts, Fails, most_asking_ticks};
ghost use Rattle.sd_loader.specs.declared.errors.LoadError.TheVariants as errors;
ghost use Rattle.sd_loader.specs.Walk.{root as the_root, components, is_absolute};
ghost use Rattle.sd_loader.specs.Found.{IsFile, AreOf, IsReached};
ghost use Rattle.sd_loader.specs.Walking.{IsAt, OnPath, OnLink};
ghost use Rattle.sd_loader.specs.Trust.{Trusted};
ghost use Rattle.sd_loader.specs.Causes.{IsFault};
ghost use Rattle.sd_loader.specs.Went.{Went, load_fails};
ghost use Rattle.sd_loader.specs.WalkCalls.{at, at_link, Walked, WalksOn, Knows, IsWalkError};

use crate::calls::{getattr, lookup, readlink};
use crate::errors::{LoadError, out_of_memory};
use crate::way::Way;
use sd_link::{Link, Stage};
use sd_nfs_msg::Fattr;
use sd_outside::{Addr, FHandle, NoMemory};
use sd_rpc_retry::Caller;
use std::alloc::Global;

/// The most links on a way.
const MOST_LINKS: u32 = 8;

/// The most bytes of a component.
const MOST_NAME: usize = 255;

/// NFSERR_NAMETOOLONG (RFC 1094, section 2.3.1).
const NAME_TOO_LONG: u32 = 63;

/// NFREG and NFLNK (RFC 1094, section 2.3.2).
const FILE: u32 = 1;

const LINK: u32 = 5;

/// Where a walk stands.
#[derive(Drop)]
pub(crate) struct Place {
    /// At this file, of which the attributes are known where it was looked up.
    pub file: FHandle,
    pub attr: Option<Fattr>,
    /// The components that are left.
    pub way: Way,
    /// How many links were followed.
    pub links: u32,
}

/// Whether a text begins with a slash.
fn is_absolute(text: &[u8]) -> bool
    ensures { result ≡ is_absolute text.now }
{
    match text.first() {
        Some(first) => *first == b'/',
        None => false,
    }
}

/// Follows a link that a component named.
fn follow<L: Link>(
    alloc: Global,
    link: &mut L,
    caller: &mut Caller,
    nfs: Addr,
    root: FHandle,
    place: &mut Place,
    file: FHandle,
) -> Result<(), LoadError>
    requires xid { caller.old.next_xid < 2 ^ 32 - 1 }
    requires tries { caller.old.tries ≤ 64 }
    requires wait { caller.old.wait ≤ 1000 }
    requires machine { length caller.old.machine ≤ 255 }
    requires links { place.old.links ≤ 8 }
    ensures same { caller.new ≡ record caller.old { next_xid = caller.new.next_xid } }
    ensures xid { IfOk result (λ done. caller.new.next_xid ≡ caller.old.next_xid + 1) }
    ensures most { caller.new.next_xid ≤ caller.old.next_xid + 1 }
    ensures least { caller.old.next_xid ≤ caller.new.next_xid }
    ensures links { IfOk result (λ done. (place.new.links ≡ place.old.links + 1) × (place.new.links ≤ 8)) }
    ensures few { IfOk result (λ done. length place.new.way ≤ length place.old.way + 1025) }
    ensures error { IfErr result IsWalkError }
    ensures ninth { result ≡ Err errors.Loop → place.old.links ≡ 8 }
    ensures went { Moves (L.told link.old) (L.told link.new) (Went (WalksOn nfs root (at_link place.old.file place.old.attr file place.old.way place.old.links) caller.old (at place.new.file place.new.attr place.new.way place.new.links) caller.new result) (load_fails result) caller.old.next_xid caller.new.next_xid) }
    ensures trusted { IfOk result (λ done. Moves (L.told link.old) (L.told link.new) (Trusted caller.old nfs caller.new.next_xid (λ c. IsFile c root the_root → (path : List ℕ) → OnLink c path place.old.links place.old.way place.old.file place.old.attr file → OnPath c path place.new.links place.new.way place.new.file place.new.attr))) }
    ensures fault { IfErr result (λ why. IsFault why → Rose (L.faults link.old) (L.faults link.new)) }
    ensures faults { L.faults link.old ≤ L.faults link.new }
    ensures drained { L.drained link.new ≡ L.drained link.old }
{
    if place.links == MOST_LINKS {
        return Err(LoadError::Loop);
    }
    let target = match readlink(alloc, link, caller, nfs, file) {
        Ok(target) => target,
        Err(why) => return Err(why),
    };
    let text = target.as_slice();
    match place.way.turn(alloc, text) {
        Ok(()) => {}
        Err(NoMemory) => return Err(out_of_memory(Stage::Readlink)),
    }
    place.links += 1;
    if is_absolute(text) {
        place.file = root;
        place.attr = None;
        return Ok(());
    }
    Ok(())
}

/// Goes on by one component. An empty one is skipped.
fn step<L: Link>(
    alloc: Global,
    link: &mut L,
    caller: &mut Caller,
    nfs: Addr,
    root: FHandle,
    place: &mut Place,
    name: &[u8],
) -> Result<(), LoadError>
    requires xid { caller.old.next_xid < 2 ^ 32 - 2 }
    requires tries { caller.old.tries ≤ 64 }
    requires wait { caller.old.wait ≤ 1000 }
    requires machine { length caller.old.machine ≤ 255 }
    requires links { place.old.links ≤ 8 }
    ensures same { caller.new ≡ record caller.old { next_xid = caller.new.next_xid } }
    ensures xid { IfOk result (λ done. caller.new.next_xid + place.old.links ≤ caller.old.next_xid + 1 + place.new.links) }
    ensures each { IfOk result (λ done. caller.old.next_xid + 2 * place.new.links ≤ caller.new.next_xid + 2 * place.old.links) }
    ensures most { caller.new.next_xid ≤ caller.old.next_xid + 2 }
    ensures links { IfOk result (λ done. (place.old.links ≤ place.new.links) × (place.new.links ≤ 8)) }
    ensures few { IfOk result (λ done. length place.new.way + place.old.links * 1025 ≤ length place.old.way + place.new.links * 1025) }
    ensures error { IfErr result IsWalkError }
    ensures ninth { result ≡ Err errors.Loop → (place.old.links ≡ 8) × (caller.old.next_xid + 1 ≤ caller.new.next_xid) }
    ensures went { Moves (L.told link.old) (L.told link.new) (Went (WalksOn nfs root (at place.old.file place.old.attr (name.now ∷ place.old.way) place.old.links) caller.old (at place.new.file place.new.attr place.new.way place.new.links) caller.new result) (load_fails result) caller.old.next_xid caller.new.next_xid) }
    ensures trusted { IfOk result (λ done. Moves (L.told link.old) (L.told link.new) (Trusted caller.old nfs caller.new.next_xid (λ c. IsFile c root the_root → (path : List ℕ) → OnPath c path place.old.links (name.now ∷ place.old.way) place.old.file place.old.attr → OnPath c path place.new.links place.new.way place.new.file place.new.attr))) }
    ensures fault { IfErr result (λ why. IsFault why → Rose (L.faults link.old) (L.faults link.new)) }
    ensures faults { L.faults link.old ≤ L.faults link.new }
    ensures drained { L.drained link.new ≡ L.drained link.old }
{
    if name.is_empty() {
        return Ok(());
    }
    if name.len() > MOST_NAME {
        return Err(LoadError::Refused {
            step: Stage::Lookup,
            status: NAME_TOO_LONG,
        });
    }
    let found = match lookup(alloc, link, caller, nfs, place.file, name) {
        Ok(found) => found,
        Err(why) => return Err(why),
    };
    if found.attr.kind == LINK {
        return match follow(alloc, link, caller, nfs, root, place, found.file) {
            Ok(()) => Ok(()),
            Err(why) => Err(why),
        };
    }
    place.file = found.file;
    place.attr = Some(found.attr);
    Ok(())
}

/// The attributes at the end of a walk. They are asked for where the end is the root directory by itself.
fn attributes_at<L: Link>(
    alloc: Global,
    link: &mut L,
    caller: &mut Caller,
    nfs: Addr,
    root: FHandle,
    place: &Place,
) -> Result<Fattr, LoadError>
    requires xid { caller.old.next_xid < 2 ^ 32 - 1 }
    requires tries { caller.old.tries ≤ 64 }
    requires wait { caller.old.wait ≤ 1000 }
    requires machine { length caller.old.machine ≤ 255 }
    requires end { place.now.way ≡ [] }
    ensures same { caller.new ≡ record caller.old { next_xid = caller.new.next_xid } }
    ensures most { caller.new.next_xid ≤ caller.old.next_xid + 1 }
    ensures error { IfErr result IsWalkError }
    ensures no_loop { result ≡ Err errors.Loop → ⊥ }
    ensures went { Moves (L.told link.old) (L.told link.new) (Went (Knows nfs root (at place.now.file place.now.attr [] place.now.links) caller.old place.now.file place.now.links caller.new result) (load_fails result) caller.old.next_xid caller.new.next_xid) }
    ensures trusted { IfOk result (λ attr. Moves (L.told link.old) (L.told link.new) (Trusted caller.old nfs caller.new.next_xid (λ c. (number : ℕ) → IsAt c place.now.file place.now.attr number → AreOf c number attr))) }
    ensures fault { IfErr result (λ why. IsFault why → Rose (L.faults link.old) (L.faults link.new)) }
    ensures faults { L.faults link.old ≤ L.faults link.new }
    ensures drained { L.drained link.new ≡ L.drained link.old }
{
    match place.attr {
        Some(attr) => Ok(attr),
        None => match getattr(alloc, link, caller, nfs, place.file) {
            Ok(attr) => Ok(attr),
            Err(why) => Err(why),
        },
    }
}

/// The end of a walk, with its attributes, where it is a file.
fn finish<L: Link>(
    alloc: Global,
    link: &mut L,
    caller: &mut Caller,
    nfs: Addr,
    root: FHandle,
    place: &Place,
) -> Result<(FHandle, Fattr), LoadError>
    requires xid { caller.old.next_xid < 2 ^ 32 - 1 }
    requires tries { caller.old.tries ≤ 64 }
    requires wait { caller.old.wait ≤ 1000 }
    requires machine { length caller.old.machine ≤ 255 }
    requires end { place.now.way ≡ [] }
    ensures same { caller.new ≡ record caller.old { next_xid = caller.new.next_xid } }
    ensures most { caller.new.next_xid ≤ caller.old.next_xid + 1 }
    ensures kind { IfOk result (λ got. got.1.kind ≡ 1) }
    ensures error { IfErr result IsWalkError }
    ensures no_loop { result ≡ Err errors.Loop → ⊥ }
    ensures went { Moves (L.told link.old) (L.told link.new) (Went (λ h part. Walked (IsSettledBy h) nfs root (at place.now.file place.now.attr place.now.way place.now.links) caller.old result part) (load_fails result) caller.old.next_xid caller.new.next_xid) }
    ensures trusted { IfOk result (λ got. Moves (L.told link.old) (L.told link.new) (Trusted caller.old nfs caller.new.next_xid (λ c. (number : ℕ) → IsAt c place.now.file place.now.attr number → IsFile c got.0 number × AreOf c number got.1))) }
    ensures fault { IfErr result (λ why. IsFault why → Rose (L.faults link.old) (L.faults link.new)) }
    ensures faults { L.faults link.old ≤ L.faults link.new }
    ensures drained { L.drained link.new ≡ L.drained link.old }
{
    match attributes_at(alloc, link, caller, nfs, root, place) {
        Ok(attr) => {
            if attr.kind == FILE {
                return Ok((place.file, attr));
            }
            Err(LoadError::NotFile { kind: attr.kind })
        }
        Err(why) => Err(why),
    }
}

/// Goes the way of a path from the root directory, with LOOKUP, and READLINK where a link stands on it (RFC 1094, sections 2.2.5 and
/// 2.2.6). The path has at most 1,024 bytes.
pub fn walk<L: Link>(
    alloc: Global,
    caller: &mut Caller,
    link: &mut L,
    nfs: Addr,
    root: &FHandle,
    path: &[u8],
) -> Result<(FHandle, Fattr), LoadError>
    requires xid { caller.old.next_xid ≤ 2 ^ 32 - 65536 }
    requires tries { caller.old.tries ≤ 64 }
    requires wait { caller.old.wait ≤ 1000 }
    requires machine { length caller.old.machine ≤ 255 }
    requires path { length path.now ≤ 1024 }
    ensures same { caller.new ≡ record caller.old { next_xid = caller.new.next_xid } }
    ensures xid { caller.new.next_xid ≤ caller.old.next_xid + 10000 }
    // At the end stands a file.
    ensures kind { IfOk result (λ got. got.1.kind ≡ 1) }
    // Over a link that tells, the walk went by these calls, each as the replies before it say, and ended so.
    ensures told { Moves (L.told link.old) (L.told link.new) (λ h part. Walked (IsSettledBy h) nfs root.now (at root.now None (components path.now) 0) caller.old result part) }
    ensures lasts { Lasts (10000 * most_asking_ticks) (L.told link.old) (L.told link.new) }
    // Over a link that tells a world of a configuration, the path leads to this file, with these attributes.
    ensures reached { IfOk result (λ got. Moves (L.told link.old) (L.told link.new) (Trusted caller.old nfs caller.new.next_xid (λ c. IsFile c root.now the_root → IsReached c path.now got.0 got.1))) }
    // Over every link: what stands at the end is no file, a status isn't 0, and a ninth link comes after eight with two calls each.
    ensures error { IfErr result IsWalkError }
    ensures ninth { result ≡ Err errors.Loop → caller.old.next_xid + 17 ≤ caller.new.next_xid }
    // The link failed exactly where the answer says so, and then its count of faults rose.
    ensures fails { Fails (load_fails result) (L.told link.old) (L.told link.new) }
    ensures fault { IfErr result (λ why. IsFault why → Rose (L.faults link.old) (L.faults link.new)) }
    ensures faults { L.faults link.old ≤ L.faults link.new }
    ensures drained { L.drained link.new ≡ L.drained link.old }
{
    let way = match Way::new(alloc, path) {
        Ok(way) => way,
        Err(NoMemory) => return Err(out_of_memory(Stage::Lookup)),
    };
    let mut place = Place {
        file: *root,
        attr: None,
        way,
        links: 0,
    };
    loop {
        let name = match place.way.next(alloc) {
            Ok(Some(name)) => name,
            Ok(None) => return finish(alloc, link, caller, nfs, *root, &place),
            Err(NoMemory) => return Err(out_of_memory(Stage::Lookup)),
        };
        match step(alloc, link, caller, nfs, *root, &mut place, name.as_slice()) {
            Ok(()) => {}
            Err(why) => return Err(why),
        }
    }
}
