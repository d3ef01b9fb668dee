// Programs as they are written, and one as a programmer may write it.

/// Header and struct types, a parser with each kind of keyset, transition and target, and `main`.
pub const PARSED: &[u8] = b"#include <core.p4>
#include <v1model.p4>

header h_t {
    bit<8> a;
    bit<32> b;
}

header e_t { }

struct headers {
    h_t h;
    h_t[4] s;
}

struct metadata {
    @field_list(1, 2)
    bit<16> a;
    bool b;
}

parser P(packet_in p, out headers h, inout metadata m) {
    bit<8> v = 8w1;

    state start {
        p.extract(h.h);
        m.b = p.lookahead<bool>();
        transition select(h.h.a, m.a) {
            (8w1, _): more;
            (8w0 &&& 8w15, 3 .. 9): accept;
            default: reject;
        }
    }

    state more {
        transition select((m.b ? v : h.h.a)) {
            8w7: start;
            v + 8w1: last;
        }
    }

    state none {
        transition select(v) { }
    }

    state last {
        transition accept;
    }
}

parser Q(packet_in p, in headers h) { }

V1Switch(P(), C()) main;
";

/// Objects, actions, tables and controls.
pub const CONTROLLED: &[u8] = b"#include <core.p4>
#include <v1model.p4>

@name(\"c_all\")
counter(16, CounterType.packets) c;

control C(inout headers h, inout standard_metadata_t s) {
    direct_counter(CounterType.bytes) d;
    register<bit<32> >(8) r;
    @name(\"m_all\")
    meter(n, MeterType.packets) m;
    bit<8> v;

    @name(\"go\")
    action go(bit<9> port) {
        s.egress_spec = port;
    }

    action none() { }

    table t {
        key = {
            h.a: exact @name(\"a\");
            (h.b & 8w15): ternary;
        }
        actions = {
            go;
            NoAction;
        }
        size = 64;
        counters = d;
        default_action = go(9w1);
    }

    @name(\"all\")
    table u {
        key = { }
        actions = {
            none;
        }
        default_action = NoAction();
    }

    apply {
        if (h.isValid()) {
            t.apply();
        }
    }
}

control N(in headers h) {
    apply { }
}

V1Switch(C()) main;
";

/// Statements and expressions.
pub const STATED: &[u8] = b"#include <core.p4>
#include <v1model.p4>

control S(inout headers h, inout standard_metadata_t s) {
    action act(in bit<8> a, out bool b) {
        bit<8> v = (a - (a - a));
        h_t x;
        ;
        { }
        {
            b = true;
        }
        b = (bool) s.b;
        x.a = (bit<8>) ~-v;
        x.b = h.s[1].b;
        v[3:0] = x.a[7:4];
        s.parser_error = error.NoMatch;
    }

    apply {
        if (false) { }
        if (s.a == 8w1) {
            act(1, b);
        } else if (!h.s[0].isValid()) {
            hash(v, HashAlgorithm.crc16, 8w0, { h.a, (v ++ w) }, 8w9);
            nothing({ });
        } else { }
        if (a && (b || c))
            ;
        else
            mark_to_drop(s);
        switch (t.apply().action_run) {
            act: {
                x = (((a + b) * c) |+| d);
                y = ((e << 2) ^ ((f |-| g) >> 3));
            }
            default: { }
        }
        switch (u.apply().action_run) { }
        b = (((i < j) != (k <= l)) == ((m > n) != (o >= p)));
        v = ((q & r) | (b ? t : u));
        w = p.lookahead<bit<8> >();
    }
}

V1Switch(S()) main;
";

/// A program as a programmer may write it.
pub const PLAIN: &[u8] = b"#include <core.p4>
#include <v1model.p4>
header h_t { bit<48> a; bit<48> b; bit<16> c; }
struct hs { h_t h; }
struct ms { }
parser P(packet_in p, out hs hdr, inout ms meta, inout standard_metadata_t sm) {
  state start { p.extract(hdr.h); transition accept; } }
control V(inout hs hdr, inout ms meta) { apply { } }
control I(inout hs hdr, inout ms meta, inout standard_metadata_t sm) {
  apply { sm.egress_spec = 9w3; } }
control E(inout hs hdr, inout ms meta, inout standard_metadata_t sm) { apply { } }
control C(inout hs hdr, inout ms meta) { apply { } }
control D(packet_out p, in hs hdr) { apply { p.emit(hdr.h); } }
V1Switch(P(), V(), I(), E(), C(), D()) main;
";

/// The same as it is written.
pub const PLAIN_WRITTEN: &[u8] = b"#include <core.p4>
#include <v1model.p4>

header h_t {
    bit<48> a;
    bit<48> b;
    bit<16> c;
}

struct hs {
    h_t h;
}

struct ms { }

parser P(packet_in p, out hs hdr, inout ms meta, inout standard_metadata_t sm) {
    state start {
        p.extract(hdr.h);
        transition accept;
    }
}

control V(inout hs hdr, inout ms meta) {
    apply { }
}

control I(inout hs hdr, inout ms meta, inout standard_metadata_t sm) {
    apply {
        sm.egress_spec = 9w3;
    }
}

control E(inout hs hdr, inout ms meta, inout standard_metadata_t sm) {
    apply { }
}

control C(inout hs hdr, inout ms meta) {
    apply { }
}

control D(packet_out p, in hs hdr) {
    apply {
        p.emit(hdr.h);
    }
}

V1Switch(P(), V(), I(), E(), C(), D()) main;
";

/// What the first program of P4_14 in `p4x_texts`, with one table, is written as.
pub const TRANSLATED: &[u8] = b"#include <core.p4>
#include <v1model.p4>

header h_t {
    bit<48> f_a;
    bit<48> f_b;
    bit<16> f_c;
}

struct hs {
    h_t h;
}

struct ms { }

parser P(packet_in p, out hs hdr, inout ms meta, inout standard_metadata_t sm) {
    state start {
        p.extract(hdr.h);
        transition accept;
    }
}

control V(inout hs hdr, inout ms meta) {
    apply { }
}

control I(inout hs hdr, inout ms meta, inout standard_metadata_t sm) {
    @name(\"out3\")
    action a() {
        sm.egress_spec = 9w3;
    }

    @name(\"t\")
    table t {
        actions = {
            a;
        }
        default_action = a();
    }

    apply {
        if (sm.parser_error == error.NoError) {
            t.apply();
        } else {
            mark_to_drop(sm);
        }
    }
}

control E(inout hs hdr, inout ms meta, inout standard_metadata_t sm) {
    apply { }
}

control C(inout hs hdr, inout ms meta) {
    apply { }
}

control D(packet_out p, in hs hdr) {
    apply {
        p.emit(hdr.h);
    }
}

V1Switch(P(), V(), I(), E(), C(), D()) main;
";
