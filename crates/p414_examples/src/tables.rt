// The rows of the tables: texts with their tokens and declarations, and programs.

/// Texts, and their tokens: how many and the place of the last (`T`), their octets (`W`), marks (`M`), or one number with its width (`N`);
/// how many declarations are read (`R`), and how large a stack is (`H`).
const TEXTS: &[u8] = b"#the longest mark is read first|M|
<<,=,< <<=<
==,=,>>,!=,~ ===>>!=~
#a number has its width and its value modulo 2 to the width|N|
-,16 0x1_0
8,1 8'257
8,3 08'0b1_1
128,340282366920938463463374607431768211455 128'340282366920938463463374607431768211455
#the longest mark comes first and words may touch|W|
<<,= <<=
a,>>,=,b,!=,c a>>=b!=c
12,ab,0,x_1 12ab 0x_1
a a // to the end
#skipped lines change no place|T|
1@2:2 # 5 \"f.p4\" 1? x
2@4:1 a?#line5?# 1\"x\"2?b
1@2:1 @pragma x /* y?z
2@2:1 a // b?c
2@3:2 a\r?# 7\r?\tb
#whole programs have all their tokens|T|
74@6:29 =1
333@23:80 =2
74@6:29 =3
90@7:29 =4
78@6:29 =5
207@13:68 =6
#the sample programs are read|R|
6 =1
15 =2
6 =3
6 =4
6 =5
11 =6
#an empty text has no declarations|R|
0 
0  ?// nothing?
#declarations are read|R|
1 header_type h_t { fields { a : 8; b : * (signed, saturating); } length : h.a * 4 + (1 << 2) - -h.a & ~3; max_length : 64; }
5 header h_t h; header h_t hs[2]; metadata m_t m; metadata m_t n { a : 1; b : +2; } metadata m_t o { };
2 field_list f { payload; payload.a; a; a[1].b; 8'3; } calculated_field a[last].b { update c if (valid(a[next])); verify c if (valid[1].b == 1); verify c; }
1 field_list_calculation c { input { f; g; } algorithm : csum16; output_width : 16; }
1 parser p { extract(h[next]); set_metadata(a.b, latest.c); set_metadata(a.b, latest[1].c); set_metadata(a.b, current.c); return select(current(0, 4), latest.a, current[1].b, a.b) { 1 mask 2, 3 : q; 4 : parse_error e; default : parse_error; } }
4 parser select { return select; } parser p { return q; } parser q { parse_error e; } parser r { parse_error select; }
2 action a() { } action b(x) { a(); modify_field(x.y, -1, +2, 3, x, x[last], x[0].y); }
1 table t { reads { a.b : exact; a[1] : valid; a.c mask 0xff : ternary; } actions { a; } min_size : 1; max_size : 2; size : 3; support_timeout : false; default_action : a(1, -2); }
2 table t { size : 3; default_action : a; action_profile : p; reads { } actions { b; c; } } table u { actions { a; } action_profile : p; default_action : a(); }
4 counter c { type : packets_and_bytes; static : t; instance_count : 8; min_width : 3; saturating; } meter m { direct : t; type : bytes; result : a.b; } register r { width : 8; instance_count : 2; signed; } register s { layout : h_t; }
1 control c { }
1 control c { apply(); if(); else(); apply(apply); apply(if) { else { } apply { } } a(); valid(); }
1 control c { if (true) { } else(); if (true) { a(); } else { b(); } if (a.b == 1 and not valid(h[1])) { } else if (a.b >= 2 or false) { apply(t) { hit { apply(u); } miss { } } } else { } }
1 control c { if (true) { } else if (true) { } else(); }
3 parser_value_set p; parser_exception e { } action_profile a { x : 1; { ( } [ }
5 control parser { } control header { } parser parser { return header; } action table(action) { table(action); } table control { actions { actions; } reads { reads : reads; } }
1 control c { apply(t) { hit { } miss { } } apply(t) { hit { apply(u) { hit { } } } } apply(t) { a { } b { } default { } } }
#a stack of headers has its size|H|
16 header h_t h[0x1_0];";

/// Programs: the graph of their parser states (`G`) and the first on an idle cycle (`I`), what walks over their control find (`S`, `C`,
/// `E`), their declarations by sort (`D`), their parser made ready (`V`, `L`), and their signature (`P`, and `Q` of P4_16).
const PROGRAMS: &[u8] =
    b"#states have their extracts and what their returns name in the order of the text|G|header_type h_t { fields { a : 8; } } header h_t h; header h_t s[4]; metadata h_t m; control ingress { } 
1:101>,>010,2>0,3>, parser q { extract(s[next]); extract(h); extract(s[1]); return ingress; } parser start { set_metadata(m.a, 1); return select(current(0, 8)) { 1 : q; 2 : parse_error e; 3 : start; 4 : q; default : ingress; } } parser r { extract(m); return q; } parser e { extract(standard_metadata); parse_error bad; }
#a state that leads to itself and extracts nothing is idle|I|header_type h_t { fields { a : 8; } } header h_t h; header h_t s[4]; metadata h_t m; control ingress { } 
0 parser start { return start; }
- parser start { extract(h); return start; }
0 parser start { set_metadata(m.a, 1); return start; }
#a cycle is idle where none of its states extracts|I|header_type h_t { fields { a : 8; } } header h_t h; header h_t s[4]; metadata h_t m; control ingress { } 
0 parser start { return q; } parser q { return r; } parser r { return start; }
- parser start { return q; } parser q { return r; } parser r { extract(h); return start; }
#an idle cycle is found beside a branch that extracts|I|header_type h_t { fields { a : 8; } } header h_t h; header h_t s[4]; metadata h_t m; control ingress { } 
1 parser start { extract(h); return q; } parser q { return select(h.a) { 1 : start; 2 : r; default : ingress; } } parser r { return select(h.a) { 1 : q; default : start; } }
#of two idle cycles the least state is found though start reaches neither|I|header_type h_t { fields { a : 8; } } header h_t h; header h_t s[4]; metadata h_t m; control ingress { } 
2 parser start { extract(h); return ingress; } parser a { return ingress; } parser b { return c; } parser c { return b; } parser d { return d; }
#all statements of a control, from the outside in|S|
t0i0et0a control ingress { if (true) { } else { apply(acl); } }
t0i0fi0n control ingress { if (true) { } else if (true) { } }
t0bhh100 control ingress { apply(acl) { hit { } miss { } } }
t0i0n control ingress { if ((1 + 1)) { } }
#the conditions of a control|C|
r control ingress { if (true) { } else { apply(acl); } }
rr control ingress { if (true) { } else if (true) { } }
 control ingress { apply(acl) { hit { } miss { } } }
( control ingress { if ((1 + 1)) { } }
#the expressions of the first condition|E|
r control ingress { if (true) { } else { apply(acl); } }
r control ingress { if (true) { } else if (true) { } }
 control ingress { apply(acl) { hit { } miss { } } }
(bnn control ingress { if ((1 + 1)) { } }
#declarations keep their order in their sort|D|
acl,routes table acl { actions { a; } } meter m { type : bytes; } table routes { actions { a; } } control ingress { }
#values and statements of a parser that is ready stand by number|V|
- header_type h_t { fields { a : 8; b : 16; } } header h_t h; header h_t s[3]; header_type m_t { fields { f : 8; g : 4; } } metadata m_t m { g : -1; f : 257; } parser start { extract(h); set_metadata(m.f, current(4, 8)); set_metadata(m.g, latest.b);   extract(s[2]); set_metadata(m.f, -2); set_metadata(m.f, standard_metadata.ingress_port);   return select(latest.a, m.g) { 0x123, 0x1000 : next_one; 0xf0 mask 0xff0 : ingress; default : start; } } parser next_one { return ingress; } control ingress { }
#the next element of a stack is told by the packet|L|
- =4
#a table without keys has its action|P|
t/1024/-/out3,;: =1
t/1024/-/act,;: =3
t/1024/-/out3,;: =4
#tables actions and a direct counter stand by their names|P|
reject/1024/-/nowhere,;routes/1024/0/nowhere,route,;:routed, =2
#a parameter is as wide as the field that gets it|P|
u/1024/-/go,;: =5
#two tables stand by their names|P|
ta/1024/-/again,;tb/1024/-/finish,;: =6
#a table of each kind|P|header_type h_t { fields { a : 8; b : 16; c : 32; d : 8; } } header h_t h; header_type m_t { fields { f : 8; g : 9; k : 128; } } metadata m_t m; parser start { extract(h); return ingress; } control ingress { } 
by_mask/1024/-/act,;by_number/1024/-/act,;by_prefix/1024/-/act,;by_range/1024/-/act,;by_validity/1024/-/act,;: action act() { no_op(); } table by_range { reads { h.d : range; } actions { act; } } table by_prefix { reads { h.c : lpm; } actions { act; } } table by_mask { reads { h.b mask 0xff : ternary; } actions { act; } } table by_number { reads { m.k : exact; } actions { act; } } table by_validity { reads { h : valid; } actions { act; } }
#keys stand in the order of the text|P|header_type h_t { fields { a : 8; b : 16; c : 32; d : 8; } } header h_t h; header_type m_t { fields { f : 8; g : 9; k : 128; } } metadata m_t m; parser start { extract(h); return ingress; } control ingress { } 
t/1024/-/act,;: action act() { no_op(); } table t { reads { standard_metadata.ingress_port : ternary; h : valid; h.c : lpm; standard_metadata.packet_length : range; } actions { act; } }
#a size goes before a greatest size|P|header_type h_t { fields { a : 8; b : 16; c : 32; d : 8; } } header h_t h; header_type m_t { fields { f : 8; g : 9; k : 128; } } metadata m_t m; parser start { extract(h); return ingress; } control ingress { } 
a/5/-/act,;b/7/-/act,;c/1024/-/act,;d/4294967295/-/act,;e/4294967295/-/act,;f/0/-/act,;: action act() { no_op(); } table a { actions { act; } max_size : 7; size : 5; min_size : 1; } table b { actions { act; } max_size : 7; } table c { actions { act; } min_size : 9; } table d { actions { act; } size : 4294967295; } table e { actions { act; } size : 4294967296; } table f { actions { act; } size : 0; }
#actions stand by the octets of their names each once|P|header_type h_t { fields { a : 8; b : 16; c : 32; d : 8; } } header h_t h; header_type m_t { fields { f : 8; g : 9; k : 128; } } metadata m_t m; parser start { extract(h); return ingress; } control ingress { } 
t/1024/-/B,_a,a,ab,b,;: action b() { no_op(); } action a() { no_op(); } action ab() { no_op(); } action B() { no_op(); } action _a() { no_op(); } table t { actions { b; a; ab; B; _a; a; } }
#an object of each kind|P|header_type h_t { fields { a : 8; b : 16; c : 32; d : 8; } } header h_t h; header_type m_t { fields { f : 8; g : 9; k : 128; } } metadata m_t m; parser start { extract(h); return ingress; } control ingress { } 
:v,w,x,y,z, register z { width : 128; instance_count : 1; } meter y { type : bytes; instance_count : 16; } counter x { type : packets_and_bytes; instance_count : 1048576; } counter w { type : bytes; instance_count : 3; } register v { width : 1; instance_count : 2; }
#a direct counter is that of its table|P|header_type h_t { fields { a : 8; b : 16; c : 32; d : 8; } } header h_t h; header_type m_t { fields { f : 8; g : 9; k : 128; } } metadata m_t m; parser start { extract(h); return ingress; } control ingress { } 
t/1024/1/act,;u/1024/-/act,;v/1024/2/act,;:a,of_t,of_v, action act() { no_op(); } table t { reads { h.a : exact; } actions { act; } } table u { reads { h.a : exact; } actions { act; } } table v { reads { h.a : exact; } actions { act; } } counter of_v { type : bytes; direct : v; } counter a { type : packets; instance_count : 9; } counter of_t { type : packets; direct : t; instance_count : 5; }
#what a control plane sees of programs of P4_16|Q|
: #include <core.p4>?#include <v1model.p4>?header h_t { bit<48> a; bit<48> b; bit<16> c; }?struct hs { h_t h; }?struct ms { bit<7> m; }?parser P(packet_in p, out hs hdr, inout ms meta, inout standard_metadata_t sm) {?  state start { p.extract(hdr.h); transition accept; } }?control V(inout hs hdr, inout ms meta) { apply { } }?control I(inout hs hdr, inout ms meta, inout standard_metadata_t sm) {??  apply { sm.egress_spec = 9w3; } }?control E(inout hs hdr, inout ms meta, inout standard_metadata_t sm) { apply { } }?control C(inout hs hdr, inout ms meta) { apply { } }?control D(packet_out p, in hs hdr) { apply { p.emit(hdr.h); } }?V1Switch(P(), V(), I(), E(), C(), D()) main;?
t/4294967295/-/go,;u/65536/-/drop,go,;: #include <core.p4>?#include <v1model.p4>?header h_t { bit<48> a; bit<48> b; bit<16> c; }?struct hs { h_t h; }?struct ms { bit<7> m; }?parser P(packet_in p, out hs hdr, inout ms meta, inout standard_metadata_t sm) {?  state start { p.extract(hdr.h); transition accept; } }?control V(inout hs hdr, inout ms meta) { apply { } }?control I(inout hs hdr, inout ms meta, inout standard_metadata_t sm) {?action go(bit<9> port, bit<7> m) { sm.egress_spec = port; meta.m = m; }?@name(\"drop\") action zap() { mark_to_drop(sm); }?table u { key = { hdr.h.c : exact; hdr.h.isValid() : exact; } actions = { zap; NoAction; go; } size = 65536; }?@name(\"t\") table v { actions = { go; go; }?  key = { hdr.h.a[47:16] : lpm; sm.ingress_port : ternary; meta.m : range; } size = 4294967296; }?  apply { sm.egress_spec = 9w3; } }?control E(inout hs hdr, inout ms meta, inout standard_metadata_t sm) { apply { } }?control C(inout hs hdr, inout ms meta) { apply { } }?control D(packet_out p, in hs hdr) { apply { p.emit(hdr.h); } }?V1Switch(P(), V(), I(), E(), C(), D()) main;?
t/1024/2/;u/1024/1/;v/1024/3/;:a,e,low,up,x,z, #include <core.p4>?#include <v1model.p4>?header h_t { bit<48> a; bit<48> b; bit<16> c; }?struct hs { h_t h; }?struct ms { bit<7> m; }?meter(16, MeterType.bytes) z; @name(\"low\") direct_counter(CounterType.bytes) d;?@name(\"a\") register<bit<128>>(1) r;?parser P(packet_in p, out hs hdr, inout ms meta, inout standard_metadata_t sm) {?  state start { p.extract(hdr.h); transition accept; } }?control V(inout hs hdr, inout ms meta) { apply { } }?control I(inout hs hdr, inout ms meta, inout standard_metadata_t sm) {?counter(3, CounterType.packets) x; direct_counter(CounterType.packets_and_bytes) e;?@name(\"up\") direct_counter(CounterType.packets) z;?table t { actions = { NoAction; } counters = d; }?table u { actions = { NoAction; } counters = e; }?table v { actions = { NoAction; } counters = z; }?  apply { sm.egress_spec = 9w3; } }?control E(inout hs hdr, inout ms meta, inout standard_metadata_t sm) { apply { } }?control C(inout hs hdr, inout ms meta) { apply { } }?control D(packet_out p, in hs hdr) { apply { p.emit(hdr.h); } }?V1Switch(P(), V(), I(), E(), C(), D()) main;?";

/// The rows of texts.
pub fn texts() -> &'static [u8] {
    TEXTS
}

/// The rows of programs.
pub fn programs() -> &'static [u8] {
    PROGRAMS
}
