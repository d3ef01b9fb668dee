// How large types are, and which hold themselves; and of what kind expressions are, and which of them can be written.

/// Of declarations: a kind, kinds of variables, and how many fields and octets of headers a value of the kind has, and `+` or `-` for
/// whether the headers `hs` with the metadata `ms` are too large and for whether the variables hold too much. Headers and metadata
/// have 131,072 fields at most, headers 32,768 octets, variables 262,144 fields and 131,072 octets. Of an expression: `+` or `-` for
/// whether it can be written, and its kind.
const ROWS: &[u8] = b"=types come to these sizes or hold themselves|Zz
struct in_t { octet_t[2] s; bool b; } struct out_t { in_t x; in_t y; octet_t h; bit<8> v; }$sin_t;;3,2,-,-
struct in_t { octet_t[2] s; bool b; } struct out_t { in_t x; in_t y; octet_t h; bit<8> v; }$sout_t;;8,5,-,-
struct in_t { octet_t[2] s; bool b; } struct out_t { in_t x; in_t y; octet_t h; bit<8> v; }$koctet_t:7;;7,7,-,-
struct in_t { octet_t[2] s; bool b; } struct out_t { in_t x; in_t y; octet_t h; bit<8> v; }$b8;;1,0,-,-
struct s { standard_metadata_t sm; }$ss;;7,0,-,-
struct hs { bit_t[131072] s; } struct ms { }$b8;;1,0,-,-
struct hs { bit_t[131073] s; } struct ms { }$b8;;1,0,+,-
struct hs { bit_t[131071] s; } struct ms { bit<8> a; }$b8;;1,0,-,-
struct hs { bit_t[131072] s; } struct ms { bit<8> a; }$b8;;1,0,+,-
struct hs { octet_t[32768] s; } struct ms { }$b8;;1,0,-,-
struct hs { octet_t[32768] s; octet_t h; } struct ms { }$b8;;1,0,+,-
$b8;kbit_t:262143,hbit_t;1,0,-,-
$b8;kbit_t:262144,hbit_t;1,0,-,+
$b8;koctet_t:131071,hoctet_t;1,0,-,-
$b8;koctet_t:131072,hoctet_t;1,0,-,+
$b8;;1,0,-,-
struct s { s x; }$b8;;itself
struct a { b x; } struct b { bit<8> y; a z; }$b8;;itself
struct s { s[2] x; }$b8;;itself
struct a { b x; b y; } struct b { bit<8> y; }$b8;;1,0,-,-
struct b { bit<8> y; } struct a { b x; unknown u; }$b8;;1,0,-,-
=variables and their parts can be written|Kx
x$+b8
hdr.h.b$+b16
hdr.s[1]$+hh_t
hdr.s.last.a$+b8
x[3:0]$+b4
sm.egress_spec$+b9
=parameters that are only read can't be written|Kx
meta.m$-b7
meta$-sms
=operators make kinds of their operands|Kx
x + 1$-b8
x ++ hdr.h.b$-b24
x << hdr.h.b$-b8
x == 1$-t
(bit<4>) x$-b4
true ? x : 3$-b8
=calls and members are of the kind that they give|Kx
hdr.h.isValid()$-t
error.NoMatch$-e
=what doesn't fit is unknown|Kx
x + hdr.h.b$?
hdr.h.c$?
y$?
x[8:0]$?";

/// The rows of this file.
pub fn rows() -> &'static [u8] {
    ROWS
}
