//! Messages as rows of words, worked by hand from RFC 1057, appendix A.
//!
//! A row has the procedure, its words, and how they read. An item is a word of eight hexadecimal digits, or `hh*n` for n equal
//! bytes.

/// Arguments: a variant, or the refusal.
pub const ARGS: &str = "\
0 | 00*0 | Null
0 | 00*1 | Xdr(Tail { at: 0 })
1 | 000186a3 00000002 00000011 00000801 | Set(Mapping { prog: 100003, vers: 2, prot: 17, port: 2049 })
1 | 000186a3 00000002 00000011 00000801 00*1 | Xdr(Tail { at: 16 })
2 | 000186a3 00000002 00000011 00*4 | Unset(Mapping { prog: 100003, vers: 2, prot: 17, port: 0 })
2 | 000186a3 00000002 00000011 00*3 | Xdr(Short { at: 12 })
3 | 000186a3 00000002 00000011 ffffffff | Getport(Mapping { prog: 100003, vers: 2, prot: 17, port: 4294967295 })
3 | 00*0 | Xdr(Short { at: 0 })
3 | 00*7 | Xdr(Short { at: 4 })
4 | 00*0 | Dump
4 | 00*4 | Xdr(Tail { at: 0 })
5 | 000186ba 00000001 00000002 00000005 01*5 00*3 | Callit 100026 1 2 0101010101
5 | 000186ba 00000001 00000002 00000005 01*5 00*2 | Xdr(Short { at: 12 })
5 | 000186ba 00000001 00000002 00000005 01*5 00*2 07*1 | Xdr(Filling { at: 23 })
5 | 000186ba 00000001 00000002 00000000 | Callit 100026 1 2 
5 | 000186ba 00000001 00000002 00000000 00*1 | Xdr(Tail { at: 16 })
5 | 000186ba 00000001 00000002 ffffffff 00*8 | Xdr(Short { at: 12 })";

/// Results: a variant, or the refusal.
pub const RESULTS: &str = "\
0 | 00*0 | Void
0 | 00*4 | Xdr(Tail { at: 0 })
1 | 00000001 | Flag(true)
1 | 00000000 | Flag(false)
1 | 00000002 | Xdr(NotBool { at: 0, word: 2 })
2 | 00000001 | Flag(true)
2 | 00*3 | Xdr(Short { at: 0 })
3 | 00000801 | Port(2049)
3 | 0000ffff | Port(65535)
3 | 00010000 | Xdr(Kind { at: 0, word: 65536 })
3 | 00000801 00*4 | Xdr(Tail { at: 4 })
4 | 00000000 | Mappings
4 | 00000001 000186a0 00000002 00000011 0000006f 00000000 | Mappings 111
4 | 00000001 000186a0 00000002 00000011 0000006f 00000001 000186a3 00000002 00000011 00000801 00000000 | Mappings 111 2049
4 | 00000001 000186a0 00000002 00000011 0000006f | Xdr(Short { at: 20 })
4 | 00000001 000186a0 00000002 00000011 0000006f 00000001 000186a3 00*5 | Xdr(Short { at: 32 })
4 | 00000001 000186a0 00000002 00000011 0000006f 00000003 | Xdr(NotBool { at: 20, word: 3 })
5 | 000003f8 00000004 02*4 | Callit 1016 02020202
5 | ffffffff 00000000 | Callit 4294967295 
5 | 000003f8 00000001 02*1 00*1 01*1 00*1 | Xdr(Filling { at: 10 })
5 | 000003f8 00000004 02*4 00*1 | Xdr(Tail { at: 12 })";
