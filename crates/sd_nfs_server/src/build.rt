//! The files of the root export, from the lines of the configuration.

ghost use Rattle.std.specs.Prelude.{◌≡◌, ◌<◌, ◌≤◌, ◌↔◌, IsTrue, IfOk, OnOk, length, insert};
ghost use Rattle.sd_config.specs.Config.{AreRootItems, item_path};
ghost use Rattle.sd_services.specs.Files.{AreNumbered, IsBefore, standing_of};
ghost use Rattle.sd_nfs_server.specs.Fits.{NodesFit};
ghost use Rattle.sd_nfs_server.specs.Placing.{Ascends, IsPlaceOf, HasPathAt, Placed, PlacedDirectories, PlacedItem, LookedAt};

use sd_config::RootItem;
use sd_outside::{ByteList, NoMemory};
use sd_services::{Node, Standing};
use std::alloc::Global;
use std::cmp::Ordering;

/// The node's path stands before that path in byte order.
fn stands_before(node: &Node, path: &[u8]) -> bool
    ensures { IsTrue result ↔ IsBefore node.now.path path.now }
{
    node.path.as_slice().cmp(path) == Ordering::Less
}

/// How many nodes stand before a path in byte order, found by halving.
pub(crate) fn place_of(nodes: &[Node], path: &[u8]) -> usize
    requires { Ascends nodes.now }
    ensures { IsPlaceOf nodes.now path.now result }
{
    let mut low = 0;
    let mut high = nodes.len();
    while low < high {
        let middle = low + (high - low) / 2;
        if stands_before(&nodes[middle], path) {
            low = middle + 1;
        } else {
            high = middle;
        }
    }
    low
}

/// A node with that path stands at a place.
pub(crate) fn stands_at(nodes: &[Node], at: usize, path: &[u8]) -> bool
    ensures { IsTrue result ↔ HasPathAt nodes.now at path.now }
{
    if at < nodes.len() {
        nodes[at].path.as_slice() == path
    } else {
        false
    }
}

/// Puts a node at a place.
fn insert(
    alloc: Global,
    nodes: &mut Vec<Node>,
    at: usize,
    path: &[u8],
    what: Standing,
) -> Result<(), NoMemory>
    requires { at ≤ length nodes.old.items }
    ensures { OnOk result (nodes.new.items ≡ insert nodes.old.items at (record { path = path.now; what = what })) }
{
    let path = ByteList::from_slice(alloc, path)?;
    match nodes.insert(at, Node { path, what }) {
        Ok(()) => Ok(()),
        Err(_) => Err(NoMemory),
    }
}

/// Puts a node at its place, where nothing stands at its path.
fn place(alloc: Global, nodes: &mut Vec<Node>, path: &[u8], what: Standing) -> Result<(), NoMemory>
    requires { Ascends nodes.old.items }
    ensures placed { OnOk result (Placed nodes.old.items (record { path = path.now; what = what }) nodes.new.items) }
    ensures up { OnOk result (Ascends nodes.new.items) }
{
    let at = place_of(nodes.as_slice(), path);
    if stands_at(nodes.as_slice(), at, path) {
        return Ok(());
    }
    Ok(insert(alloc, nodes, at, path, what)?)
}

/// Puts the directory before a slash at its place.
fn place_before(alloc: Global, nodes: &mut Vec<Node>, path: &[u8], i: usize) -> Result<(), NoMemory>
    requires inside { i < length path.now }
    requires up { Ascends nodes.old.items }
    ensures looked { OnOk result (LookedAt path.now i nodes.old.items nodes.new.items) }
    ensures up { OnOk result (Ascends nodes.new.items) }
{
    if path[i] == b'/' {
        Ok(place(alloc, nodes, &path[..i], Standing::Directory)?)
    } else {
        Ok(())
    }
}

/// Puts each directory on the way to a path at its place.
fn place_directories(alloc: Global, nodes: &mut Vec<Node>, path: &[u8]) -> Result<(), NoMemory>
    requires { Ascends nodes.old.items }
    ensures placed { OnOk result (PlacedDirectories path.now nodes.old.items (length path.now) nodes.new.items) }
    ensures up { OnOk result (Ascends nodes.new.items) }
{
    for i in 0..path.len() {
        place_before(alloc, nodes, path, i)?;
    }
    Ok(())
}

fn path_of(item: &RootItem) -> &[u8]
    ensures { result.now ≡ item_path item.now }
{
    match item {
        RootItem::File { path, .. } => path.as_slice(),
        RootItem::Symlink { path, .. } => path.as_slice(),
    }
}

fn standing_of(item: &RootItem) -> Result<Standing, NoMemory>
    ensures { IfOk result (λ what. what ≡ standing_of item.now) }
{
    match item {
        RootItem::File { bytes, .. } => Ok(Standing::File {
            bytes: bytes.copy()?,
        }),
        RootItem::Symlink { text, .. } => Ok(Standing::Symlink { text: text.copy()? }),
    }
}

/// Puts what a line stands for, and the directories on the way to it.
fn place_item(alloc: Global, nodes: &mut Vec<Node>, item: &RootItem) -> Result<(), NoMemory>
    requires { Ascends nodes.old.items }
    ensures { OnOk result (PlacedItem item.now nodes.old.items nodes.new.items) }
{
    let what = standing_of(item)?;
    place_directories(alloc, nodes, path_of(item))?;
    Ok(place(alloc, nodes, path_of(item), what)?)
}

/// All that stands in the root export, in byte order of the full paths.
pub fn nodes_of(alloc: Global, items: &[RootItem]) -> Result<Vec<Node>, NoMemory>
    requires { AreRootItems items.now }
    ensures numbered { IfOk result (λ nodes. AreNumbered items.now nodes.items) }
    ensures fit { IfOk result (λ nodes. NodesFit nodes.items) }
{
    let mut nodes = Vec::new(alloc);
    place(alloc, &mut nodes, b"".as_slice(), Standing::Directory)?;
    for item in items {
        place_item(alloc, &mut nodes, item)?;
    }
    Ok(nodes)
}
