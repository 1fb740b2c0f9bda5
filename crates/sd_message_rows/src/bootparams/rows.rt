//! Messages and files, worked by hand from `bootparam_prot.x` and bootparams(5).

/// Arguments: the procedure, the items, and how they read. An item is a word of eight hexadecimal digits, or `hh*n` for n equal
/// bytes. What is read is written with signed chars.
pub const ARGS: &str = "\
0 | 00*0 | Null
0 | 00*1 | Xdr(Tail { at: 0 })
1 | 00000001 ffffffc0 ffffffa8 00000001 00000002 | Whoami c0a80102
1 | 00000001 000000c0 000000a8 00000001 00000002 | Whoami c0a80102
1 | 00000001 000000c0 ffffffa8 00000001 00000002 | Whoami c0a80102
1 | 00000001 0000007f 00000080 ffffff80 ffffffff | Whoami 7f8080ff
1 | 00000001 00000100 00000000 00000000 00000000 | Xdr(Kind { at: 4, word: 256 })
1 | 00000001 00000000 00000000 00000000 ffffff7f | Xdr(Kind { at: 16, word: 4294967167 })
1 | 00000002 00000000 00000000 00000000 00000000 | Xdr(Kind { at: 0, word: 2 })
1 | 00000001 00000000 00000000 00*3 | Xdr(Short { at: 12 })
1 | 00000001 00000000 00000000 00000000 00000000 00*4 | Xdr(Tail { at: 20 })
2 | 00000006 61*6 00*2 00000004 62*4 | Getfile 616161616161 62626262
2 | 00000006 61*6 00*1 01*1 00000004 62*4 | Xdr(Filling { at: 11 })
2 | 00000000 00000020 62*32 | Getfile  6262626262626262626262626262626262626262626262626262626262626262
2 | 00000000 00000021 62*33 00*3 | Xdr(TooLong { at: 4, len: 33 })
2 | 00000100 61*256 00000000 | Xdr(TooLong { at: 0, len: 256 })
2 | 00000004 61*4 | Xdr(Short { at: 8 })";

/// Results, likewise.
pub const RESULTS: &str = "\
0 | 00*0 | Void
0 | 00*4 | Xdr(Tail { at: 0 })
1 | 00000001 61*1 00*3 00000001 62*1 00*3 00000001 ffffffc0 ffffffa8 00000001 00000001 | Whoami 61 62 c0a80101
1 | 00000001 61*1 00*3 00000001 62*1 00*3 00000001 000000c0 ffffffa8 00000001 00000001 | Whoami 61 62 c0a80101
1 | 00000001 61*1 00*3 00000001 62*1 00*3 00000003 | Xdr(Kind { at: 16, word: 3 })
1 | 00000001 61*1 00*3 00000001 62*1 00*3 00000001 00000080 00000100 | Xdr(Kind { at: 24, word: 256 })
1 | 00000001 61*1 00*3 00000100 62*256 | Xdr(TooLong { at: 8, len: 256 })
2 | 00000001 61*1 00*3 00000001 0000000a 00000000 00000000 00000001 00000002 2f*1 72*1 00*2 | Getfile 61 0a000001 2f72
2 | 00000001 61*1 00*3 00000001 0000000a 00000000 00000000 00000001 00000401 | Xdr(TooLong { at: 28, len: 1025 })
2 | 00000001 61*1 00*3 00000001 0000000a 00000000 00000000 00000001 00000000 07*1 | Xdr(Tail { at: 32 })";

/// Files, with what they say (the clients, and each entry behind a bar), or the refusal.
pub const FILES: [(&str, &str); 26] = [
    ("", ""),
    ("\n \t\n# a b=c\n", ""),
    (
        "sparky root=boss:/r \\\n swap=boss:/s",
        " sparky | sparky root boss /r | sparky swap boss /s",
    ),
    (
        "sparky root=boss:/r\\\nswap=boss:/s\nb",
        " sparky b | sparky root boss /r | sparky swap boss /s",
    ),
    ("a\tk=s:p:q=r\n", " a | a k s p:q=r"),
    ("a\\b \\c=s:\\\\\n", " a\\b | a\\b \\c s \\"),
    ("a =: #x k\\\n k\nb", " a b | a   "),
    ("a#b k=#:#", " a#b | a#b k # #"),
    ("#x \\\n y=z\nb", " b"),
    ("a k=s:p\nb k=s:q", " a b | a k s p | b k s q"),
    ("sparky root", "Bad { line: 1, why: NoEquals }"),
    ("a\na", "Bad { line: 2, why: DoubleClient }"),
    ("a k=s:p\n\na k=s:q", "Bad { line: 3, why: DoubleClient }"),
    ("a k=s:p k=s:q", "Bad { line: 1, why: DoubleKey }"),
    (
        "a k=s:p \\\n l=s:q \\\n k=t:r",
        "Bad { line: 3, why: DoubleKey }",
    ),
    ("a \\\n b=c", "Bad { line: 2, why: NoColon }"),
    ("a b:c=d", "Bad { line: 1, why: NoColon }"),
    ("a # \\\n b=c\n=x", "Bad { line: 3, why: NoName }"),
    ("a=\u{e9}", "Bad { line: 1, why: NotText }"),
    ("a\r\n", "Bad { line: 1, why: NotText }"),
    ("a k\u{7f}", "Bad { line: 1, why: NotText }"),
    ("# \u{e9} \u{1}\na k=s:p", " a | a k s p"),
    (
        "a 123456789 123456789=123456789:x",
        "Bad { line: 1, why: NoEquals }",
    ),
    (
        "a 12345678901234567890123456789012=s:p",
        " a | a 12345678901234567890123456789012 s p",
    ),
    (
        "a 123456789012345678901234567890123=s:p",
        "Bad { line: 1, why: TooLong }",
    ),
    ("\\\n\\\n a b", "Bad { line: 3, why: NoEquals }"),
];
