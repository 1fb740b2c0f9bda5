//! Bytes of the standard's form, worked by hand.

use sd_outside::{ByteList, FHandle, ListOf};
use sd_xdr::{
    MsgError, XdrError, XdrReader, XdrWriter, read_list, read_times, write_list, write_times,
};
use std::test::Fail;

#[test]
fn refuses_at_the_place(rt: HostRuntime) {
    let bytes = [0u8, 0, 0, 5, 0x41, 0x42, 0x43, 0x44, 0x45, 0, 0, 1];
    let mut reader = XdrReader::new(&bytes);
    assert_eq!(rt;
        reader.opaque_var(8).err(),
        Some(XdrError::Filling { at: 11 })
    );
    assert_eq!(rt;
        reader.opaque_var(4).err(),
        Some(XdrError::TooLong { at: 0, len: 5 })
    );
    assert_eq!(rt;
        reader.opaque_fixed(13).err(),
        Some(XdrError::Short { at: 0 })
    );
    assert_eq!(rt;
        reader.bool().err(),
        Some(XdrError::NotBool { at: 0, word: 5 })
    );
    assert_eq!(rt;
        reader.word_between(1, 4).err(),
        Some(XdrError::Kind { at: 0, word: 5 })
    );
    assert_eq!(rt;
        reader.count(4).err(),
        Some(XdrError::TooLong { at: 0, len: 5 })
    );
    assert_eq!(rt;
        reader.rpc_version(7).err(),
        Some(MsgError::RpcVersion { xid: 7, got: 5 })
    );
    assert_eq!(rt;
        reader.auth_body().err(),
        Some(MsgError::Xdr(XdrError::Filling { at: 11 }))
    );
    assert_eq!(rt; reader.at(), 0);
    assert_eq!(rt; reader.u32().ok(), Some(5));
    assert_eq!(rt;
        reader.char().err(),
        Some(XdrError::Kind {
            at: 4,
            word: 0x4142_4344
        })
    );
    assert_eq!(rt;
        reader.opaque_fixed(3).err(),
        Some(XdrError::Filling { at: 7 })
    );
    assert_eq!(rt; reader.finish().err(), Some(XdrError::Tail { at: 4 }));
}

#[test]
fn reads_what_it_wrote(rt: HostRuntime) -> Result<(), Fail> {
    let mut writer = XdrWriter::new(rt.alloc());
    writer.words(&[7, 2])?;
    writer.i32(-2)?;
    writer.bool(true)?;
    writer.char(192)?;
    writer.u32(2)?;
    writer.opaque_fixed(b"abc")?;
    writer.opaque_var(b"hello")?;
    writer.opaque_var(b"no")?;
    writer.rest(b"xy")?;
    let bytes = writer.finish();
    assert_eq!(rt; bytes.as_slice().len(), 50);
    let mut reader = XdrReader::new(bytes.as_slice());
    assert_eq!(rt; reader.u32()?, 7);
    reader.rpc_version(7)?;
    assert_eq!(rt; reader.i32()?, -2);
    assert_eq!(rt; reader.bool()?, true);
    assert_eq!(rt; reader.char()?, 192);
    assert_eq!(rt; reader.word_between(1, 2)?, 2);
    assert_eq!(rt; reader.opaque_fixed(3)?, b"abc".as_slice());
    assert_eq!(rt; reader.opaque_var(5)?, b"hello".as_slice());
    assert_eq!(rt; reader.auth_body()?, b"no".as_slice());
    assert_eq!(rt; reader.end().err(), Some(XdrError::Tail { at: 48 }));
    assert_eq!(rt; reader.rest(), b"xy".as_slice());
    reader.finish()?;
    Ok(())
}

#[test]
fn lists(rt: HostRuntime) -> Result<(), Fail> {
    let alloc = rt.alloc();
    let mut names: ListOf<ByteList> = ListOf::empty(alloc);
    names.push(ByteList::from_slice(alloc, b"boss")?)?;
    let mut writer = XdrWriter::new(alloc);
    write_list(&mut writer, names.as_slice())?;
    writer.u32(2)?;
    write_times(&mut writer, &[8u32, 9])?;
    write_times(&mut writer, &[FHandle([7; 32])])?;
    let bytes = writer.finish();
    let mut reader = XdrReader::new(bytes.as_slice());
    let again: ListOf<ByteList> = read_list(alloc, &mut reader)?;
    assert_eq!(rt; again.as_slice().len(), 1);
    assert_eq!(rt; reader.at(), 16);
    let count = reader.count(2)?;
    let numbers: ListOf<u32> = read_times(alloc, &mut reader, count)?;
    assert_eq!(rt; numbers.as_slice(), [8u32, 9].as_slice());
    let files: ListOf<FHandle> = read_times(alloc, &mut reader, 1)?;
    assert_eq!(rt; files.as_slice(), [FHandle([7; 32])].as_slice());
    reader.finish()?;
    Ok(())
}
