//! Messages as rows of words, worked by hand from RFC 1094, appendix A.
//!
//! A row has the procedure, its items, and how they read. An item is joined by `+` of words of eight hexadecimal digits and of
//! `hh*n` for n equal bytes.

/// Arguments.
pub const ARGS: &str = "\
0 | 00*0 | Null
1 | 00000002+2f*1+61*1+00*2 | Mnt { path: ByteList { bytes: [47, 97] } }
1 | 00000000 | Mnt { path: ByteList { bytes: [] } }
2 | 00*0 | Dump
3 | 00000005+2f*1+73*1+77*1+61*1+70*1+00*3 | Umnt { path: ByteList { bytes: [47, 115, 119, 97, 112] } }
4 | 00*0 | UmntAll
5 | 00*0 | Export";

/// Results.
pub const RESULTS: &str = "\
0 | 00*0 | Void
1 | 00000002 | Refused { status: 2 }
1 | ffffffff | Refused { status: 4294967295 }
1 | 00000000 07*32 | Given(FHandle([7, 7, 7, 7, 7, 7, 7, 7, 7, 7, 7, 7, 7, 7, 7, 7, 7, 7, 7, 7, 7, 7, 7, 7, 7, 7, 7, 7, 7, 7, 7, 7]))
2 | 00000000 | Mounts(ListOf { items: [] })
2 | 00000001 00000002+68*1+31*1+00*2 00000002+2f*1+61*1+00*2 00000001 00000001+68*1+00*3 00000005+2f*1+61*1+62*1+63*1+64*1+00*3 00000000 | Mounts(ListOf { items: [MountPair { host: ByteList { bytes: [104, 49] }, path: ByteList { bytes: [47, 97] } }, MountPair { host: ByteList { bytes: [104] }, path: ByteList { bytes: [47, 97, 98, 99, 100] } }] })
3 | 00*0 | Void
4 | 00*0 | Void
5 | 00000000 | Exports(ListOf { items: [] })
5 | 00000001 00000002+2f*1+61*1+00*2 00000001 00000003+73*1+75*1+6e*1+00*1 00000001 00000000 00000000 00000001 00000002+2f*1+62*1+00*2 00000000 00000000 | Exports(ListOf { items: [ExportItem { path: ByteList { bytes: [47, 97] }, groups: ListOf { items: [ByteList { bytes: [115, 117, 110] }, ByteList { bytes: [] }] } }, ExportItem { path: ByteList { bytes: [47, 98] }, groups: ListOf { items: [] } }] })";

/// Arguments at a limit, which are read, and refused ones.
pub const LIMITS_OF_ARGS: &str = "\
1 | 00000400+61*1024 | read
1 | 00000401+61*1025+00*3 | Xdr(TooLong { at: 0, len: 1025 })
3 | ffffffff | Xdr(TooLong { at: 0, len: 4294967295 })
3 | 00000001+61*1+00*1+01*1+00*1 | Xdr(Filling { at: 6 })";

/// Results at a limit, which are read, and refused ones.
pub const LIMITS_OF_RESULTS: &str = "\
1 | 0000000d 07*32 | Xdr(Tail { at: 4 })
2 | 00000002 | Xdr(NotBool { at: 0, word: 2 })
2 | 00000001 000000ff+61*255+00*1 00000400+61*1024 00000000 | read
2 | 00000001 00000100+61*256 | Xdr(TooLong { at: 4, len: 256 })
2 | 00000001 00000001+68*1+00*3 00000401 | Xdr(TooLong { at: 12, len: 1025 })
5 | 00000001 00000002+2f*1+61*1+00*2 00000003 | Xdr(NotBool { at: 12, word: 3 })
5 | 00000001 00000002+2f*1+61*1+00*2 00000001 00000100 | Xdr(TooLong { at: 16, len: 256 })
5 | 00000001 00000002+2f*1+61*1+00*2 00000000 00000002 | Xdr(NotBool { at: 16, word: 2 })";
