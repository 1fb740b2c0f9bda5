//! Every message against tables worked by hand: read, written again, cut anywhere, and with one word more.

mod rows;

ghost use Rattle.std.specs.Prelude.{IfOk};
ghost use Rattle.sd_nfs_msg.specs.Layout.{ArgsFit, ResultFits};

use crate::items::{Row, row_of};
use rows::{ARGS, LIMITS_OF_ARGS, LIMITS_OF_RESULTS, NAMES, RESULTS};
use sd_nfs_msg::{NfsArgs, NfsResult, read_args, read_result, write_args, write_result};
use sd_outside::ByteList;
use sd_xdr::{MsgError, XdrError};
use std::alloc::Global;
use std::test::Fail;

/// What is printed, with the names of the rows.
fn named(alloc: Global, text: &str) -> Result<String, Fail> {
    let mut text = String::from_str(alloc, text)?;
    for (long, short) in NAMES {
        text = text.replace(alloc, long, short)?;
    }
    Ok(text)
}

/// Reading by the row's procedure; rows are of procedures that are used.
fn args_of(alloc: Global, row: &Row, bytes: &[u8]) -> Result<Result<NfsArgs, MsgError>, Fail>
    ensures { IfOk result (λ r. IfOk r ArgsFit) }
{
    let proc_no = row.proc_no;
    if proc_no > 17 || proc_no == 3 || proc_no == 7 {
        return Err("no procedure")?;
    }
    Ok(read_args(alloc, proc_no, bytes))
}

fn result_of(alloc: Global, row: &Row, bytes: &[u8]) -> Result<Result<NfsResult, MsgError>, Fail>
    ensures { IfOk result (λ r. IfOk r ResultFits) }
{
    let proc_no = row.proc_no;
    if proc_no > 17 || proc_no == 3 || proc_no == 7 {
        return Err("no procedure")?;
    }
    Ok(read_result(alloc, proc_no, bytes))
}

#[test]
fn arguments(rt: HostRuntime) -> Result<(), Fail> {
    let alloc = rt.alloc();
    for line in ARGS.lines() {
        let (row, want) = row_of(alloc, line)?;
        let bytes = row.bytes.as_slice();
        let args = args_of(alloc, &row, bytes)??;
        assert_eq!(rt;
            named(alloc, format!(in alloc; "{args:?}")?.as_str())?.as_str(),
            want
        );
        assert_eq!(rt; write_args(alloc, &args)?.as_slice(), bytes, "{line}");
        for len in 0..bytes.len() {
            let short = XdrError::Short {
                at: row.cut_at(len),
            };
            let cut = args_of(alloc, &row, &bytes[..len])?.err();
            assert_eq!(rt; cut, Some(MsgError::Xdr(short)), "{len} of {line}");
        }
        let tail = XdrError::Tail { at: bytes.len() };
        let longer = args_of(alloc, &row, row.and_a_word()?.as_slice())?.err();
        assert_eq!(rt; longer, Some(MsgError::Xdr(tail)), "{line}");
    }
    Ok(())
}

#[test]
fn results(rt: HostRuntime) -> Result<(), Fail> {
    let alloc = rt.alloc();
    for line in RESULTS.lines() {
        let (row, want) = row_of(alloc, line)?;
        let bytes = row.bytes.as_slice();
        let outcome = result_of(alloc, &row, bytes)??;
        assert_eq!(rt;
            named(alloc, format!(in alloc; "{outcome:?}")?.as_str())?.as_str(),
            want
        );
        assert_eq!(rt; write_result(alloc, &outcome)?.as_slice(), bytes, "{line}");
        for len in 0..bytes.len() {
            let short = XdrError::Short {
                at: row.cut_at(len),
            };
            let cut = result_of(alloc, &row, &bytes[..len])?.err();
            assert_eq!(rt; cut, Some(MsgError::Xdr(short)), "{len} of {line}");
        }
        let tail = XdrError::Tail { at: bytes.len() };
        let longer = result_of(alloc, &row, row.and_a_word()?.as_slice())?.err();
        assert_eq!(rt; longer, Some(MsgError::Xdr(tail)), "{line}");
    }
    Ok(())
}

#[test]
fn limits(rt: HostRuntime) -> Result<(), Fail> {
    let alloc = rt.alloc();
    for line in LIMITS_OF_ARGS.lines() {
        let (row, want) = row_of(alloc, line)?;
        match args_of(alloc, &row, row.bytes.as_slice())? {
            Ok(_) => assert_eq!(rt; want, "read", "{line}"),
            Err(e) => assert_eq!(rt; format!(in alloc; "{e:?}")?.as_str(), want, "{line}"),
        }
    }
    for line in LIMITS_OF_RESULTS.lines() {
        let (row, want) = row_of(alloc, line)?;
        match result_of(alloc, &row, row.bytes.as_slice())? {
            Ok(_) => assert_eq!(rt; want, "read", "{line}"),
            Err(e) => assert_eq!(rt; format!(in alloc; "{e:?}")?.as_str(), want, "{line}"),
        }
    }
    Ok(())
}
