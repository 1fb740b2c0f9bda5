//! The tables.

use crate::calls::rows::{BARE, BARE_CALLS, CALLS, NO_ROOT, NO_ROOT_CALLS, TREE};
use crate::calls::texts::{address, call_of, handle, plan_text, tree_of};
use sd_nfs_server::{fhandle_of, plan_nfs};
use std::alloc::Global;
use std::process::Abort;
use std::test::Fail;

/// Each call of a table is answered as it says.
fn answers(rt: &impl Abort, alloc: Global, lines: &str, calls: &str) -> Result<(), Fail> {
    let tree = tree_of(alloc, lines)?;
    for row in calls.lines() {
        let (call, want) = row.split_once(" | ").ok_or("no bar")?;
        let (from, call) = call.split_once(' ').ok_or("no caller")?;
        let args = call_of(alloc, call)?;
        let plan = plan_nfs(alloc, &tree, address(from), &args)?;
        assert_eq!(rt; plan_text(alloc, &plan)?.as_str(), want, "{row}");
    }
    Ok(())
}

#[test]
fn every_procedure(rt: HostRuntime) -> Result<(), Fail> {
    answers(&rt, rt.alloc(), TREE, CALLS)
}

#[test]
fn no_swap_file_and_no_items(rt: HostRuntime) -> Result<(), Fail> {
    answers(&rt, rt.alloc(), BARE, BARE_CALLS)
}

#[test]
fn no_root_export(rt: HostRuntime) -> Result<(), Fail> {
    answers(&rt, rt.alloc(), NO_ROOT, NO_ROOT_CALLS)
}

#[test]
fn handles(rt: HostRuntime) -> Result<(), Fail> {
    let tree = tree_of(rt.alloc(), TREE)?;
    for (text, export, file) in [("0.1", 0, 1), ("0.11", 0, 11), ("1.1", 1, 1)] {
        let file_handle = handle(text)?;
        assert_eq!(rt; fhandle_of(export, file), file_handle);
        assert_eq!(rt; tree.find(&file_handle), Some((export, file)));
    }
    for text in ["0.0", "0.12", "1.2", "2.1", "0.1.2", "0.1.1.1"] {
        assert_eq!(rt; tree.find(&handle(text)?), None, "{text}");
    }
    Ok(())
}
