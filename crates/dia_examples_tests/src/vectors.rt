//! Vectors: a dictionary, the policy, and a line of its answer.

pub(super) const ROWS: &str = r#"
# all vectors of X T { X }
%avp X 9001 Unsigned32 any\n<T> ::= < Diameter Header: 302, REQ >  { X }\n | kept => valid T\tT: shortest\t010000208000012e00000000000186a1000186a1000023290000000c00000000
%avp X 9001 Unsigned32 any\n<T> ::= < Diameter Header: 302, REQ >  { X }\n | kept => valid T\tT: plain\t010000208000012e00000000000186a2000186a2000023290000000c00000001
%avp X 9001 Unsigned32 any\n<T> ::= < Diameter Header: 302, REQ >  { X }\n | kept => valid T\tT: header T set\t010000209000012e00000000000186a3000186a3000023290000000c00000001
%avp X 9001 Unsigned32 any\n<T> ::= < Diameter Header: 302, REQ >  { X }\n | kept => valid T\tT: header reserved bits set\t010000208f00012e00000000000186a4000186a4000023290000000c00000001
%avp X 9001 Unsigned32 any\n<T> ::= < Diameter Header: 302, REQ >  { X }\n | kept => valid T\tT: X with M\t010000208000012e00000000000186a5000186a5000023294000000c00000001
%avp X 9001 Unsigned32 any\n<T> ::= < Diameter Header: 302, REQ >  { X }\n | kept => valid T\tT: X 0\t010000208000012e00000000000186a6000186a6000023290000000c00000000
%avp X 9001 Unsigned32 any\n<T> ::= < Diameter Header: 302, REQ >  { X }\n | kept => valid T\tT: X 4294967295\t010000208000012e00000000000186a7000186a7000023290000000cffffffff
%avp X 9001 Unsigned32 any\n<T> ::= < Diameter Header: 302, REQ >  { X }\n | kept => fault 5011 at 0 version -\tT: header version 2\t020000208000012e00000000000186a8000186a8000023290000000c00000001
%avp X 9001 Unsigned32 any\n<T> ::= < Diameter Header: 302, REQ >  { X }\n | kept => fault 5015 at 1 length -\tT: header length 16\t010000108000012e00000000000186a9000186a9000023290000000c00000001
%avp X 9001 Unsigned32 any\n<T> ::= < Diameter Header: 302, REQ >  { X }\n | kept => fault 5015 at 1 length -\tT: header length and 1\t010000218000012e00000000000186aa000186aa000023290000000c00000001
%avp X 9001 Unsigned32 any\n<T> ::= < Diameter Header: 302, REQ >  { X }\n | kept => truncated\tT: message without its last 4 bytes\t010000208000012e00000000000186ab000186ab000023290000000c
%avp X 9001 Unsigned32 any\n<T> ::= < Diameter Header: 302, REQ >  { X }\n | kept => trailing\tT: message and 4 bytes\t010000208000012e00000000000186ac000186ac000023290000000c0000000100000000
%avp X 9001 Unsigned32 any\n<T> ::= < Diameter Header: 302, REQ >  { X }\n | kept => fault 5013 at 4 bits -\tT: header E set\t01000020a000012e00000000000186ad000186ad000023290000000c00000001
%avp X 9001 Unsigned32 any\n<T> ::= < Diameter Header: 302, REQ >  { X }\n | kept => fault 3001 at 5 command -\tT: header code 303\t010000208000012f00000000000186ae000186ae000023290000000c00000001
%avp X 9001 Unsigned32 any\n<T> ::= < Diameter Header: 302, REQ >  { X }\n | kept => fault 3008 at 4 proxiable -\tT: header P set\t01000020c000012e00000000000186af000186af000023290000000c00000001
%avp X 9001 Unsigned32 any\n<T> ::= < Diameter Header: 302, REQ >  { X }\n | kept => fault 5005 at 20 missing X\tT: 0 of X\t010000148000012e00000000000186b0000186b0
%avp X 9001 Unsigned32 any\n<T> ::= < Diameter Header: 302, REQ >  { X }\n | kept => fault 5009 at 32 too-many X\tT: 2 of X\t0100002c8000012e00000000000186b1000186b1000023290000000c00000001000023290000000c00000001
%avp X 9001 Unsigned32 any\n<T> ::= < Diameter Header: 302, REQ >  { X }\n | kept => fault 5014 at 20 leaf-length X\tT: X x\t0100001c8000012e00000000000186b2000186b20000232900000008
%avp X 9001 Unsigned32 any\n<T> ::= < Diameter Header: 302, REQ >  { X }\n | kept => fault 5014 at 20 leaf-length X\tT: X x000001\t010000208000012e00000000000186b3000186b3000023290000000b00000100
%avp X 9001 Unsigned32 any\n<T> ::= < Diameter Header: 302, REQ >  { X }\n | kept => fault 5008 at 32 not-allowed 0:0\tT: and 0:0\t010000288000012e00000000000186b4000186b4000023290000000c000000010000000000000008
%avp X 9001 Unsigned32 any\n<T> ::= < Diameter Header: 302, REQ >  { X }\n | kept => fault 5001 at 32 unknown 0:0\tT: and 0:0 with M\t010000288000012e00000000000186b5000186b5000023290000000c000000010000000040000008
%avp X 9001 Unsigned32 any\n<T> ::= < Diameter Header: 302, REQ >  { X }\n | kept => fault 5014 at 20 avp-length -\tT: length of X 7\t010000208000012e00000000000186b6000186b6000023290000000700000001
%avp X 9001 Unsigned32 any\n<T> ::= < Diameter Header: 302, REQ >  { X }\n | kept => fault 5014 at 20 avp-length -\tT: length of X and 4\t010000208000012e00000000000186b7000186b7000023290000001000000001
%avp X 9001 Unsigned32 any\n<T> ::= < Diameter Header: 302, REQ >  { X }\n | kept => fault 5014 at 32 avp-length -\tT: and 4 bytes\t010000248000012e00000000000186b8000186b8000023290000000c0000000100000000
# Y T { Y }, kept
%avp Y 9002 vendor 7 UTF8String must\n<T> ::= < Diameter Header: 302, REQ >  { Y }\n | kept => valid T\tT: shortest\t010000208000012e00000000000186a1000186a10000232ac000000c00000007
# Y T { Y }, kept
%avp Y 9002 vendor 7 UTF8String must\n<T> ::= < Diameter Header: 302, REQ >  { Y }\n | kept => valid T\tT: Y "\x5cxf0\x5cx9f\x5cx98\x5cx80"\t010000248000012e00000000000186a7000186a70000232ac000001000000007f09f9880
# X T *0 [ X ], kept
%avp X 9001 Unsigned32 any\n<T> ::= < Diameter Header: 302, REQ > *0 [ X ]\n | kept => fault 5009 at 20 too-many X\tT: 1 of X\t010000208000012e00000000000186ad000186ad000023290000000c00000001
# X T 2*2 < X >, kept
%avp X 9001 Unsigned32 any\n<T> ::= < Diameter Header: 302, REQ > 2*2 < X >\n | kept => fault 5005 at 32 missing X\tT: 1 of X\t010000208000012e00000000000186b0000186b0000023290000000c00000001
# X Y T < X > [ Y ], kept
%avp X 9001 Unsigned32 any\n%avp Y 9002 vendor 7 UTF8String must\n<T> ::= < Diameter Header: 302, REQ >  < X >  [ Y ]\n | kept => fault 5005 at 20 missing X\tT: X last\t010000308000012e00000000000186b6000186b60000232ac000000d0000000761000000000023290000000c00000001
# X Y T *1 < X > { Y }, kept
%avp X 9001 Unsigned32 any\n%avp Y 9002 vendor 7 UTF8String must\n<T> ::= < Diameter Header: 302, REQ > *1 < X >  { Y }\n | kept => fault 5008 at 36 not-allowed X\tT: X last\t010000308000012e00000000000186b5000186b50000232ac000000d0000000761000000000023290000000c00000001
# X E T [ X ] { E }, kept
%avp X 9001 Unsigned32 any\n%avp E 9003 Enumerated any ( 3 5..6 0 )\n<T> ::= < Diameter Header: 302, REQ >  [ X ]  { E }\n | kept => fault 5004 at 20 leaf-value E\tT: E x00000001\t010000208000012e00000000000186bb000186bb0000232b0000000c00000001
# X E T [ X ] { E }, kept
%avp X 9001 Unsigned32 any\n%avp E 9003 Enumerated any ( 3 5..6 0 )\n<T> ::= < Diameter Header: 302, REQ >  [ X ]  { E }\n | kept => valid T\tT: each rule, reversed\t0100002c8000012e00000000000186ab000186ab0000232b0000000c00000000000023290000000c00000001
# X Y T { X } *1 [ AVP ], kept
%avp X 9001 Unsigned32 any\n%avp Y 9002 vendor 7 UTF8String must\n<T> ::= < Diameter Header: 302, REQ >  { X } *1 [ AVP ]\n | kept => valid T\tT: 1 of AVP, Y\t010000308000012e00000000000186a9000186a9000023290000000c000000010000232ac000000d0000000761000000
# X Y T { X } *1 [ AVP ], refused
%avp X 9001 Unsigned32 any\n%avp Y 9002 vendor 7 UTF8String must\n<T> ::= < Diameter Header: 302, REQ >  { X } *1 [ AVP ]\n | refused => valid T\tT: 1 of AVP, Y\t010000308000012e00000000000186a8000186a8000023290000000c000000010000232ac000000d0000000761000000
# X Y T { X } *1 [ AVP ], refused
%avp X 9001 Unsigned32 any\n%avp Y 9002 vendor 7 UTF8String must\n<T> ::= < Diameter Header: 302, REQ >  { X } *1 [ AVP ]\n | refused => fault 5001 at 32 unknown 0:0\tT: and 0:0\t010000288000012e00000000000186b7000186b7000023290000000c000000010000000000000008
# X Y G { X } T *1 [ G ], kept
%avp X 9001 Unsigned32 any\n%avp Y 9002 vendor 7 UTF8String must\n<G> ::= < AVP Header: 9100 >  { X }\n<T> ::= < Diameter Header: 302, REQ > *1 [ G ]\n | kept => fault 5005 at 28 missing X\tT/G: 0 of X\t0100001c8000012e00000000000186b7000186b70000238c00000008
# X Y G { X } T *1 [ G ], kept
%avp X 9001 Unsigned32 any\n%avp Y 9002 vendor 7 UTF8String must\n<G> ::= < AVP Header: 9100 >  { X }\n<T> ::= < Diameter Header: 302, REQ > *1 [ G ]\n | kept => fault 5014 at 28 avp-length -\tT/G: length of X and 4\t010000288000012e00000000000186bf000186bf0000238c00000014000023290000001000000001
# G [ G ] T [ G ], kept
<G> ::= < AVP Header: 9100 >  [ G ]\n<T> ::= < Diameter Header: 302, REQ >  [ G ]\n | kept => valid T\tT/G: 1 of G\t010000248000012e00000000000186a7000186a70000238c000000100000238c00000008
# X T A { X }, kept
%avp X 9001 Unsigned32 any\n<T> ::= < Diameter Header: 302, REQ >\n<A> ::= < Diameter Header: code, ERR [, PXY] >  { X }\n | kept => valid A\tA: plain\t010000202000012e0000000000030d4200030d42000023290000000c00000001
# U, kept
<U> ::= < Diameter Header: 302, REQ, 0 >\n | kept => fault 3007 at 8 application -\tU: header application 1\t010000148000012e00000001000186ac000186ac
"#;
