//! Messages as rows of words, worked by hand from RFC 1094, sections 2.2 and 2.3.
//!
//! A row has the procedure, its items, and how they read. An item is joined by `+` of words of eight hexadecimal digits and of
//! `hh*n` for n equal bytes. What stands in several rows has a name.

/// How `FHandle` and the attributes of the rows print, by their names.
pub const NAMES: [(&str, &str); 4] = [
    (
        "FHandle([7, 7, 7, 7, 7, 7, 7, 7, 7, 7, 7, 7, 7, 7, 7, 7, 7, 7, 7, 7, 7, 7, 7, 7, 7, 7, 7, 7, 7, 7, 7, 7])",
        "seven",
    ),
    (
        "FHandle([8, 8, 8, 8, 8, 8, 8, 8, 8, 8, 8, 8, 8, 8, 8, 8, 8, 8, 8, 8, 8, 8, 8, 8, 8, 8, 8, 8, 8, 8, 8, 8])",
        "eight",
    ),
    (
        "Fattr { kind: 1, mode: 2, nlink: 3, uid: 4, gid: 5, size: 6, blocksize: 7, rdev: 8, blocks: 9, fsid: 10, fileid: 11, atime_s: 12, atime_u: 13, mtime_s: 14, mtime_u: 15, ctime_s: 16, ctime_u: 17 }",
        "attr",
    ),
    (
        "Sattr { mode: 33, uid: 34, gid: 35, size: 36, atime_s: 37, atime_u: 38, mtime_s: 39, mtime_u: 40 }",
        "set",
    ),
];

/// Arguments.
pub const ARGS: &str = "\
0 | 00*0 | Null
1 | 07*32 | Getattr { file: seven }
2 | 07*32 00000021 00000022 00000023 00000024 00000025 00000026 00000027 00000028 | Setattr { file: seven, set: set }
4 | 07*32 00000002+76*1+6d*1+00*2 | Lookup { dir: seven, name: ByteList { bytes: [118, 109] } }
4 | 07*32 00000000 | Lookup { dir: seven, name: ByteList { bytes: [] } }
5 | 07*32 | Readlink { file: seven }
6 | 07*32 00002000 00001000 00000009 | Read { file: seven, offset: 8192, count: 4096, total: 9 }
8 | 07*32 00000001 00002000 00000003 00000005+61*1+62*1+63*1+64*1+65*1+00*3 | Write { file: seven, begin: 1, offset: 8192, total: 3, bytes: ByteList { bytes: [97, 98, 99, 100, 101] } }
8 | 07*32 00000000 00000000 00000000 00000000 | Write { file: seven, begin: 0, offset: 0, total: 0, bytes: ByteList { bytes: [] } }
9 | 07*32 00000001+61*1+00*3 00000021 00000022 00000023 00000024 00000025 00000026 00000027 00000028 | Create { dir: seven, name: ByteList { bytes: [97] }, set: set }
10 | 07*32 00000003+61*1+62*1+63*1+00*1 | Remove { dir: seven, name: ByteList { bytes: [97, 98, 99] } }
11 | 07*32 00000001+61*1+00*3 08*32 00000002+62*1+63*1+00*2 | Rename { dir: seven, name: ByteList { bytes: [97] }, to_dir: eight, to_name: ByteList { bytes: [98, 99] } }
12 | 07*32 08*32 00000002+62*1+63*1+00*2 | Link { from: seven, to_dir: eight, to_name: ByteList { bytes: [98, 99] } }
13 | 07*32 00000001+61*1+00*3 00000004+2f*1+62*1+69*1+6e*1 00000021 00000022 00000023 00000024 00000025 00000026 00000027 00000028 | Symlink { dir: seven, name: ByteList { bytes: [97] }, path: ByteList { bytes: [47, 98, 105, 110] }, set: set }
14 | 07*32 00000001+61*1+00*3 00000021 00000022 00000023 00000024 00000025 00000026 00000027 00000028 | Mkdir { dir: seven, name: ByteList { bytes: [97] }, set: set }
15 | 07*32 00000001+61*1+00*3 | Rmdir { dir: seven, name: ByteList { bytes: [97] } }
16 | 07*32 00000003 00000400 | Readdir { dir: seven, cookie: [0, 0, 0, 3], count: 1024 }
17 | 07*32 | Statfs { file: seven }";

/// Results.
pub const RESULTS: &str = "\
0 | 00*0 | Null
1 | 00000046 | Refused { status: 70 }
1 | 00000000 00000001 00000002 00000003 00000004 00000005 00000006 00000007 00000008 00000009 0000000a 0000000b 0000000c 0000000d 0000000e 0000000f 00000010 00000011 | Getattr { attr: attr }
2 | 00000001 | Refused { status: 1 }
2 | 00000000 00000001 00000002 00000003 00000004 00000005 00000006 00000007 00000008 00000009 0000000a 0000000b 0000000c 0000000d 0000000e 0000000f 00000010 00000011 | Setattr { attr: attr }
4 | 00000002 | Refused { status: 2 }
4 | 00000000 07*32 00000001 00000002 00000003 00000004 00000005 00000006 00000007 00000008 00000009 0000000a 0000000b 0000000c 0000000d 0000000e 0000000f 00000010 00000011 | Lookup { file: seven, attr: attr }
5 | 00000006 | Refused { status: 6 }
5 | 00000000 00000006+2f*1+62*1+69*1+6e*1+2f*1+61*1+00*2 | Readlink { path: ByteList { bytes: [47, 98, 105, 110, 47, 97] } }
6 | 00000015 | Refused { status: 21 }
6 | 00000000 00000001 00000002 00000003 00000004 00000005 00000006 00000007 00000008 00000009 0000000a 0000000b 0000000c 0000000d 0000000e 0000000f 00000010 00000011 00000007+61*1+62*1+63*1+64*1+65*1+66*1+67*1+00*1 | Read { attr: attr, bytes: ByteList { bytes: [97, 98, 99, 100, 101, 102, 103] } }
6 | 00000000 00000001 00000002 00000003 00000004 00000005 00000006 00000007 00000008 00000009 0000000a 0000000b 0000000c 0000000d 0000000e 0000000f 00000010 00000011 00000000 | Read { attr: attr, bytes: ByteList { bytes: [] } }
8 | 0000001c | Refused { status: 28 }
8 | 00000000 00000001 00000002 00000003 00000004 00000005 00000006 00000007 00000008 00000009 0000000a 0000000b 0000000c 0000000d 0000000e 0000000f 00000010 00000011 | Write { attr: attr }
9 | 0000001e | Refused { status: 30 }
9 | 00000000 07*32 00000001 00000002 00000003 00000004 00000005 00000006 00000007 00000008 00000009 0000000a 0000000b 0000000c 0000000d 0000000e 0000000f 00000010 00000011 | Create { file: seven, attr: attr }
10 | 00000063 | Refused { status: 99 }
10 | 00000000 | Remove
11 | 00000042 | Refused { status: 66 }
11 | 00000000 | Rename
12 | 00000011 | Refused { status: 17 }
12 | 00000000 | Link
13 | 0000003f | Refused { status: 63 }
13 | 00000000 | Symlink
14 | 00000045 | Refused { status: 69 }
14 | 00000000 07*32 00000001 00000002 00000003 00000004 00000005 00000006 00000007 00000008 00000009 0000000a 0000000b 0000000c 0000000d 0000000e 0000000f 00000010 00000011 | Mkdir { file: seven, attr: attr }
15 | ffffffff | Refused { status: 4294967295 }
15 | 00000000 | Rmdir
16 | 00000014 | Refused { status: 20 }
16 | 00000000 00000000 00000001 | Readdir { entries: ListOf { items: [] }, eof: true }
16 | 00000000 00000000 00000000 | Readdir { entries: ListOf { items: [] }, eof: false }
16 | 00000000 00000001 00000005 00000001+2e*1+00*3 00000001 00000001 00000006 00000002+76*1+6d*1+00*2 00000002 00000000 00000001 | Readdir { entries: ListOf { items: [DirEntry { fileid: 5, name: ByteList { bytes: [46] }, cookie: [0, 0, 0, 1] }, DirEntry { fileid: 6, name: ByteList { bytes: [118, 109] }, cookie: [0, 0, 0, 2] }] }, eof: true }
17 | 0000000d | Refused { status: 13 }
17 | 00000000 00002000 00002000 00000064 00000003 00000002 | Statfs { tsize: 8192, bsize: 8192, blocks: 100, bfree: 3, bavail: 2 }";

/// Arguments at a limit, which are read, and refused ones.
pub const LIMITS_OF_ARGS: &str = "\
4 | 07*32 000000ff+61*255+00*1 | read
4 | 07*32 00000100+61*256 | Xdr(TooLong { at: 32, len: 256 })
4 | 07*32 00000001+61*1+00*2+01*1 | Xdr(Filling { at: 39 })
8 | 07*32 00000000 00000000 00000000 00002000+61*8192 | read
8 | 07*32 00000000 00000000 00000000 00002001+61*8193 | Xdr(TooLong { at: 44, len: 8193 })
8 | 07*32 00000000 00000000 00000000 ffffffff | Xdr(TooLong { at: 44, len: 4294967295 })
11 | 07*32 00000001+61*1+00*3 08*32 00000100 | Xdr(TooLong { at: 72, len: 256 })
13 | 07*32 00000001+61*1+00*3 00000400+61*1024 00000021 00000022 00000023 00000024 00000025 00000026 00000027 00000028 | read
13 | 07*32 00000001+61*1+00*3 00000401+61*1025 | Xdr(TooLong { at: 40, len: 1025 })
16 | 07*32 00*3 | Xdr(Short { at: 32 })";

/// Results at a limit, which are read, and refused ones.
pub const LIMITS_OF_RESULTS: &str = "\
1 | 00000046 00000001 00000002 00000003 00000004 00000005 00000006 00000007 00000008 00000009 0000000a 0000000b 0000000c 0000000d 0000000e 0000000f 00000010 00000011 | Xdr(Tail { at: 4 })
5 | 00000000 00000400+61*1024 | read
5 | 00000000 00000401+61*1025 | Xdr(TooLong { at: 4, len: 1025 })
6 | 00000000 00000001 00000002 00000003 00000004 00000005 00000006 00000007 00000008 00000009 0000000a 0000000b 0000000c 0000000d 0000000e 0000000f 00000010 00000011 00002000+61*8192 | read
6 | 00000000 00000001 00000002 00000003 00000004 00000005 00000006 00000007 00000008 00000009 0000000a 0000000b 0000000c 0000000d 0000000e 0000000f 00000010 00000011 00002001+61*8193 | Xdr(TooLong { at: 72, len: 8193 })
6 | 00000000 00000001 00000002 00000003 00000004 00000005 00000006 00000007 00000008 00000009 0000000a 0000000b 0000000c 0000000d 0000000e 0000000f 00000010 00000011 00000005+61*5+00*1+09*2 | Xdr(Filling { at: 82 })
10 | 00000000 00000001 00000002 00000003 00000004 00000005 00000006 00000007 00000008 00000009 0000000a 0000000b 0000000c 0000000d 0000000e 0000000f 00000010 00000011 | Xdr(Tail { at: 4 })
16 | 00000000 00000002 | Xdr(NotBool { at: 4, word: 2 })
16 | 00000000 00000000 00000002 | Xdr(NotBool { at: 8, word: 2 })
16 | 00000000 00000001 00000005 00000100 | Xdr(TooLong { at: 12, len: 256 })
16 | 00000000 00000001 00000005 00000001+61*1+00*3 00000001 ffffffff | Xdr(NotBool { at: 24, word: 4294967295 })
17 | 00000001 00000000 00000000 00000000 00000000 00000000 | Xdr(Tail { at: 4 })";
