// Which applications of tables a state of P4_14 notes, of a packet of the octets 12 34 56, where `h.a` is 0x12 and `h.b` is 0x34, worked by
// hand.
//
// On each line stand: how it is run (`s` sequentially, `p` in parallel, `e` sequentially and then the control `egress`), and a hexadecimal
// number of three digits for each application: the table, one more than the entry of a hit, or 0, and one more than the action that ran,
// or 0. Behind a `|` follow the entries, with `;` in place of line ends, and behind another `|` the control `ingress`.

/// What stands in front of the control. The tables are, in order, d1 to d5, e, f, l, n, r, s, v and w, from 0 to c.
pub const HEAD: &[u8] = b"header_type h_t { fields { a : 8; b : 8; } }
header_type m_t { fields { t : 64; } }
header h_t h;
header h_t g;
metadata m_t m;
parser start { extract(h); return ingress; }
counter c { type : packets_and_bytes; direct : e; }
action note(d) { shift_left(m.t, m.t, 4); bit_or(m.t, m.t, d); }
action other(d) { shift_left(m.t, m.t, 4); bit_or(m.t, m.t, d); }
action plain() { shift_left(m.t, m.t, 4); bit_or(m.t, m.t, 15); }
action byte(d) { modify_field(h.b, d); }
action swap() { modify_field(h.a, h.b); modify_field(h.b, h.a); }
table d1 { actions { note; } default_action : note(1); }
table d2 { actions { note; } default_action : note(2); }
table d3 { actions { note; } default_action : note(3); }
table d4 { actions { note; } default_action : note(4); }
table d5 { actions { note; } default_action : note(5); }
table e { reads { h.a : exact; } actions { plain; other; note; } }
table f { reads { h.a : exact; } actions { note; other; plain; } default_action : other(6); }
table l { reads { h.b : lpm; } actions { note; } }
table n { reads { h.a : ternary; h.b : ternary; } actions { note; } }
table r { reads { h.b : range; h.a mask 0x0f : exact; } actions { note; } }
table s { actions { swap; } default_action : swap(); }
table v { reads { h : valid; g : valid; } actions { note; } }
table w { actions { byte; } default_action : byte(-1); }
control third { apply(d3); }
control thrice { third(); apply(d4); third(); }
control egress { apply(d5); }
control ingress { ";

/// What stands behind it.
pub const BEHIND: &[u8] = b" }";

/// The rows.
pub const ROWS: &[u8] = b"s 0||
s 511|table_add e note 0x12 => 5|apply(e);
s 521|table_add e note 0x13 => 4;table_add e note 0x12 => 5|apply(e);
s 511511|table_add e note 0x12 => 5|apply(e); apply(e);
s 500|table_add e note 0x13 => 5|apply(e);
s 502|table_set_default e other 7|apply(e);
s 602||apply(f);
s 603|table_set_default f plain|apply(f);
s 601|table_set_default f plain;table_set_default f note 8|apply(f);
s 611|table_add f note 0x12 => 5;table_set_default f plain|apply(f);
s 511|table_add e note 0x12 => 5;table_set_default e plain|apply(e);
s 1||apply(d1);
s 1|table_set_default d1 note 9|apply(d1);
s 511001|table_add e note 0x12 => 5|apply(e) { hit { apply(d1); } miss { apply(d2); } }
s 500101||apply(e) { hit { apply(d1); } miss { apply(d2); } }
s 503101|table_set_default e plain|apply(e) { hit { apply(d1); } miss { apply(d2); } }
s 511001|table_add e note 0x12 => 5|apply(e) { note { apply(d1); } default { apply(d2); } }
s 511001|table_add e note 0x12 => 5|apply(e) { default { apply(d2); } note { apply(d1); } }
s 512101|table_add e other 0x12 => 5|apply(e) { note { apply(d1); } default { apply(d2); } }
s 513201|table_add e plain 0x12 =>|apply(e) { note { apply(d1); } other { apply(d2); } plain { apply(d3); } }
s 500101||apply(e) { note { apply(d1); } default { apply(d2); } }
s 501001|table_set_default e note 7|apply(e) { note { apply(d1); } default { apply(d2); } }
s 512|table_add e other 0x12 => 5|apply(e) { note { apply(d1); } }
s 511001101|table_add e note 0x12 => 5|apply(e) { note { apply(d1); apply(d2); } other { apply(d3); } }
s 511001301|table_add e note 0x12 => 5|apply(e) { note { apply(d1); } } apply(d4);
s 1||if (h.a == 0x12) { apply(d1); } else { apply(d2); }
s 101||if (h.a == 0x13) { apply(d1); } else { apply(d2); }
s 201||if (h.a == 0x13) { apply(d1); } else if (valid(g)) { apply(d2); } else { apply(d3); }
s 301||if (h.a == 0x13) { apply(d1); } apply(d4);
s 201301201001||thrice(); apply(d1);
s 731|table_add l note 0/0 => 1;table_add l note 0x30/4 => 2;table_add l note 0x34/8 => 3|apply(l);
s 721|table_add l note 0/0 => 1;table_add l note 0x30/4 => 2;table_add l note 0x35/8 => 3|apply(l);
s 821|table_add n note 0x10&&&0xf0 0&&&0 => 4 10;table_add n note 0&&&0 0x34&&&0xff => 5 5|apply(n);
s 811|table_add n note 0x10&&&0xf0 0&&&0 => 4 5;table_add n note 0&&&0 0x34&&&0xff => 5 5|apply(n);
s 911|table_add r note 0x30->0x40 2 => 8 0|apply(r);
s 900|table_add r note 0x35->0x40 2 => 8 0|apply(r);
s b11|table_add v note 1 0 => 6|apply(v);
s b00|table_add v note 1 1 => 6|apply(v);
s c01001||apply(w); if (h.b == 255) { apply(d1); }
s a01001||apply(s); if (h.a == h.b) { apply(d1); } else { apply(d2); }
p a01101||apply(s); if (h.a == h.b) { apply(d1); } else { apply(d2); }
e 1401||apply(d1);";
