//! Messages and credentials against tables worked by hand.

mod rows;

use crate::items::bytes_of;
use rows::{CREDENTIALS, MESSAGES, WHOLE};
use sd_outside::ByteList;
use sd_rpc_msg::{
    Call, Message, MsgError, Outcome, UnixCred, read_message, read_unix, write_message, write_unix,
};
use sd_xdr::XdrError;
use std::alloc::Global;
use std::test::Fail;

fn name_of(message: &Message) -> &'static str {
    match message {
        Message::Asked(_) => "Call",
        Message::Answered(reply) => match &reply.outcome {
            Outcome::Success { .. } => "Success",
            Outcome::ProgUnavail { .. } => "ProgUnavail",
            Outcome::ProgMismatch { .. } => "ProgMismatch",
            Outcome::ProcUnavail { .. } => "ProcUnavail",
            Outcome::GarbageArgs { .. } => "GarbageArgs",
            Outcome::RpcMismatch { .. } => "RpcMismatch",
            Outcome::AuthError { .. } => "AuthError",
        },
    }
}

#[test]
fn messages(rt: HostRuntime) -> Result<(), Fail> {
    let alloc = rt.alloc();
    for row in MESSAGES.lines() {
        let (items, want) = row.split_once(" | ").ok_or("no bar")?;
        let bytes = bytes_of(alloc, items)?;
        match read_message(alloc, bytes.as_slice()) {
            Ok(message) => {
                assert_eq!(rt; name_of(&message), want, "{row}");
                let again = write_message(alloc, &message)?;
                assert_eq!(rt; again.as_slice(), bytes.as_slice(), "{row}");
            }
            Err(e) => assert_eq!(rt; format!(in alloc; "{e:?}")?.as_str(), want, "{row}"),
        }
    }
    Ok(())
}

#[test]
fn messages_that_are_cut(rt: HostRuntime) -> Result<(), Fail> {
    for row in WHOLE.lines() {
        let (items, places) = row.split_once(" | ").ok_or("no bar")?;
        let bytes = bytes_of(rt.alloc(), items)?;
        let bytes = bytes.as_slice();
        for len in 0..bytes.len() {
            let mut at = 0;
            for place in places.split(' ') {
                let place = place.parse::<usize>()?;
                if place <= len {
                    at = place;
                }
            }
            let cut = read_message(rt.alloc(), &bytes[..len]).err();
            assert_eq!(rt;
                cut,
                Some(MsgError::Xdr(XdrError::Short { at })),
                "{len} of {row}"
            );
        }
        assert!(rt; read_message(rt.alloc(), bytes).is_ok(), "{row}");
    }
    Ok(())
}

#[test]
fn credentials(rt: HostRuntime) -> Result<(), Fail> {
    let alloc = rt.alloc();
    for row in CREDENTIALS.lines() {
        let (items, want) = row.split_once(" | ").ok_or("no bar")?;
        let bytes = bytes_of(alloc, items)?;
        match read_unix(alloc, bytes.as_slice()) {
            Ok(cred) => {
                assert_eq!(rt; want, "UnixCred", "{row}");
                let again = write_unix(alloc, &cred)?;
                assert_eq!(rt; again.as_slice(), bytes.as_slice(), "{row}");
            }
            Err(e) => assert_eq!(rt; format!(in alloc; "{e:?}")?.as_str(), want, "{row}"),
        }
    }
    Ok(())
}

#[test]
fn fields_in_their_order(rt: HostRuntime) -> Result<(), Fail> {
    let alloc = rt.alloc();
    let items = "00000001 00000004 62*4 00000002 00000003 00000002 00000014 00000015";
    let cred = read_unix(alloc, bytes_of(alloc, items)?.as_slice())?;
    assert_eq!(rt; (cred.stamp, cred.uid, cred.gid), (1, 2, 3));
    assert_eq!(rt; cred.machine.as_slice(), b"bbbb".as_slice());
    assert_eq!(rt; cred.gids.as_slice(), [20u32, 21].as_slice());
    let items =
        "00000007 00000000 00000002 00000003 00000004 00000005 00000006 00*4 00000008 00000001 ff*1 00*3 09*2";
    match read_message(alloc, bytes_of(alloc, items)?.as_slice())? {
        Message::Asked(call) => {
            assert_eq!(rt;
                (call.xid, call.prog, call.vers, call.proc_no),
                (7, 3, 4, 5)
            );
            assert_eq!(rt; (call.cred.flavor, call.verf.flavor), (6, 8));
            assert_eq!(rt; call.cred.body.as_slice().len(), 0);
            assert_eq!(rt; call.verf.body.as_slice(), [255u8].as_slice());
            assert_eq!(rt; call.args.as_slice(), [9u8, 9].as_slice());
        }
        Message::Answered(_) => panic!(rt; "a call is a reply"),
    }
    Ok(())
}
