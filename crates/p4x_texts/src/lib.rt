//! Texts that the examples of several crates share: whole programs of P4_14.
#![tactic(auto)]

/// A header of 14 octets, and one table, which sends each packet to port 3.
pub const ONE_TABLE: &[u8] = b"header_type eth_t { fields { a : 48; b : 48; c : 16; } }
header eth_t eth;
parser start { extract(eth); return ingress; }
action out3() { modify_field(standard_metadata.egress_spec, 3); }
table t { actions { out3; } default_action : out3(); }
control ingress { apply(t); }
";

/// Packets of IPv4 are routed by the longest prefix, with their checksum, and all others dropped.
pub const ROUTER: &[u8] = b"header_type ethernet_t { fields { dst : 48; src : 48; kind : 16; } }
header_type ipv4_t { fields { version : 4; ihl : 4; diffserv : 8; totalLen : 16;
  identification : 16; flags : 3; fragOffset : 13; ttl : 8; protocol : 8;
  hdrChecksum : 16; srcAddr : 32; dstAddr : 32; } }
header ethernet_t ethernet;
header ipv4_t ipv4;
parser start { extract(ethernet);
  return select(latest.kind) { 0x0800 : parse_ipv4; default : ingress; } }
parser parse_ipv4 { extract(ipv4); return ingress; }
field_list ipv4_list { ipv4.version; ipv4.ihl; ipv4.diffserv; ipv4.totalLen;
  ipv4.identification; ipv4.flags; ipv4.fragOffset; ipv4.ttl; ipv4.protocol;
  ipv4.srcAddr; ipv4.dstAddr; }
field_list_calculation ipv4_sum { input { ipv4_list; } algorithm : csum16; output_width : 16; }
calculated_field ipv4.hdrChecksum { verify ipv4_sum; update ipv4_sum; }
action route(port, mac) { modify_field(standard_metadata.egress_spec, port);
  modify_field(ethernet.dst, mac); add_to_field(ipv4.ttl, -1); }
action nowhere() { drop(); }
table routes { reads { ipv4.dstAddr : lpm; } actions { route; nowhere; }
  size : 1024; default_action : nowhere(); }
table reject { actions { nowhere; } default_action : nowhere(); }
counter routed { type : packets; direct : routes; }
control ingress {
  if (valid(ipv4) and ipv4.ttl > 1) { apply(routes); } else { apply(reject); } }
";

/// A header of four octets, one table, and a comment within a body.
pub const COMMENT: &[u8] = b"header_type four_t { fields { x : 16; y : 8; z : 8; } }
header four_t f;
parser start { extract(f); return ingress; }
action act() { modify_field(standard_metadata.egress_spec, 3); /* mark */ }
table t { actions { act; } default_action : act(); }
control ingress { apply(t); }
";

/// A stack of two labels, of which the last is told by its lowest bit.
pub const LABELS: &[u8] = b"header_type lab_t { fields { v : 7; bos : 1; } }
header lab_t labels[2];
parser start { extract(labels[next]);
  return select(latest.bos) { 1 : ingress; default : start; } }
action out3() { modify_field(standard_metadata.egress_spec, 3); }
table t { actions { out3; } default_action : out3(); }
control ingress { apply(t); }
";

/// One lpm key, and a table without a default action.
pub const NO_DEFAULT: &[u8] = b"header_type four_t { fields { x : 16; y : 8; z : 8; } }
header four_t f;
parser start { extract(f); return ingress; }
action go(port) { modify_field(standard_metadata.egress_spec, port); }
table u { reads { f.x : lpm; } actions { go; } }
control ingress { apply(u); }
";

/// A packet is resubmitted once, with a field of its metadata.
pub const RESUBMIT: &[u8] = b"header_type four_t { fields { x : 16; y : 8; z : 8; } }
header four_t f;
parser start { extract(f); return ingress; }
header_type m_t { fields { k : 8; l : 8; n : 8; } }
metadata m_t m { l : 5; }
field_list keep { m.k; }
action again() { modify_field(m.k, 1); modify_field(m.l, 2); modify_field(m.n, 4);
  resubmit(keep); }
action finish() { modify_field(f.y, m.k); add(f.z, m.l, m.n);
  modify_field(standard_metadata.egress_spec, 3); }
table ta { actions { again; } default_action : again(); }
table tb { actions { finish; } default_action : finish(); }
control ingress { if (m.k == 0) { apply(ta); } else { apply(tb); } }
";
