// How expressions, statements and declarations are read, told by how they are written again: with all parentheses that they need, and on
// lines as a programmer puts them. What is written is read as no other syntax, so the text tells the tree.

/// Behind a `$` stands what is written, where it isn't what is read.
const ROWS: &[u8] = b"=operators bind by their tightness|Ws
x = a - b - c;$x = ((a - b) - c);
x = a - (b - c);$x = (a - (b - c));
x = (a - b) - c;$x = ((a - b) - c);
x = ((a));$x = a;
x = a + b |+| c |-| d ++ e;$x = ((((a + b) |+| c) |-| d) ++ e);
x = a == b != c;$x = ((a == b) != c);
x = a <= b >= c > d;$x = (((a <= b) >= c) > d);
x = !a.b[1];
x = ~(a + b);
x = a || b && c == d < e | f ^ g & h << i + j * -k;$x = (a || (b && (c == (d < (e | (f ^ (g & (h << (i + (j * -k))))))))));
x = -a * b + c << d & e ^ f | g < h == i && j || k;$x = ((((((((((-a * b) + c) << d) & e) ^ f) | g) < h) == i) && j) || k);
=choices bind to the right|Ws
x = a ? b : c ? d : e;$x = (a ? b : (c ? d : e));
x = (a ? b : c) ? d : e;$x = ((a ? b : c) ? d : e);
x = a || b ? c ? d : e : f + g;$x = ((a || b) ? (c ? d : e) : (f + g));
=two greater marks that touch are a shift|Ws
x = a >> b;$x = (a >> b);
x = a < b >> c;$x = (a < (b >> c));
x = a>>b>c;$x = ((a >> b) > c);
x = a.bool >> 8w1 >> b[1];$x = ((a.bool >> 8w1) >> b[1]);
x = hdr.bit < 8 >> y;$x = (hdr.bit < (8 >> y));
x = hdr.bit<8>>y;$x = (hdr.bit < (8 >> y));
x = hdr.bit < 8 > y;$x = ((hdr.bit < 8) > y);
x = a . bit < 8w4 >> (b);$x = (a.bit < (8w4 >> b));
x = (bit<8>) a >> b;$x = ((bit<8>) a >> b);
=members, elements, slices and calls follow one another|Ws
x = a.size.bit.b;
x = a.if.true.main._;
x = a[1][7:8w0].b;
x = (a + b)[1](c).d;
=numbers have their widths and values|Ws
x = 8w300 + 0x1f + 0b1_0;$x = ((8w300 + 31) + 2);
x = 4w0x1_00 + 16w5;$x = (4w256 + 16w5);
x[8w1] = true;
x = error.NoError == false;$x = (error.NoError == false);
=calls have arguments and lists|Ws
f();
a.f(b, c + 1)(d);$a.f(b, (c + 1))(d);
f({}, {a, b}, c);$f({ }, { a, b }, c);
x = f(g());
f((a), (b)(c));$f(a, b(c));
=casts bind as prefixes do|Ws
x = (bit<8>) a.b + c;$x = ((bit<8>) a.b + c);
x = (bool) (bit<8> ) -a;$x = (bool) (bit<8>) -a;
x = -(bool) a;
x = (h) + a;$x = (h + a);
=a lookahead has a type and arguments|Ws
x = p.lookahead<bit<8>>();$x = p.lookahead<bit<8> >();
p.lookahead<bool>(1);
x = p.lookahead<h>() + 1;$x = (p.lookahead<h>() + 1);
x = p.lookahead<h[2]>();
x = p.lookahead<bit<8>>() >> 2;$x = (p.lookahead<bit<8> >() >> 2);
x = (a + b).lookahead<h>(q, {r});$x = (a + b).lookahead<h>(q, { r });
x = p.lookahead < h > q;$x = (((p.lookahead) < h) > q);
x = p.lookahead<h>>(q);$x = ((p.lookahead) < (h >> q));
x = p.lookahead + lookahead<h>(q);$x = ((((p.lookahead) + lookahead) < h) > q);
=an else belongs to the last if|Ws
if (a) ;$if (a)%            ;
if (a) if (b) ; else ;$if (a)%            if (b)%                ;%            else%                ;
if (a) { if (b) ; } else ;$if (a) {%            if (b)%                ;%        } else%            ;
if (a) if (b) ; else ; else ;$if (a)%            if (b)%                ;%            else%                ;%        else%            ;
if (a) ; else if (b) ; else if (c) ; else ;$if (a)%            ;%        else if (b)%            ;%        else if (c)%            ;%        else%            ;
if (a) ; else if (b) if (c) ; else ;$if (a)%            ;%        else if (b)%            if (c)%                ;%            else%                ;
=variables are declared|Ws
bit<8> a;
bool a = b;
h a;
h[8w2] a = b;
bit<8w5> lookahead = hit;
=expressions are called and assigned to|Ws
(f());$f();
a[1].f();
a + 1 = b;$(a + 1) = b;
h[1] = a;
=blocks and cases hold statements|Ws
{ }
{ ; { } }${%            ;%            { }%        }
switch (t.apply().action_run) { a : { } default : { ; } }$switch (t.apply().action_run) {%            a: { }%            default: {%                ;%            }%        }
switch (t.apply().action_run) { }
=leaves are written as they are|Ws
x = 8w255;
x = 0x1f;$x = 31;
x = 4w0b1_0;$x = 4w2;
x = true;
x = false;
x = error.NoMatch;
x = a;
x = (a);$x = a;
=suffixes stand right behind|Ws
x = a.b.c;
x = a.if.apply;
x = a[1].b;
x = a[7 : 0];$x = a[7:0];
x = a.b[8w7:4];
x = f();
x = a.f(b, 1, c.d);
x = f(a)(b)[1];
x = f({ }, { a, (b + c) });
x = f({a,b});$x = f({ a, b });
=lookaheads have their type|Ws
x = p.lookahead<h_t>();
x = p.lookahead<bit<8>>();$x = p.lookahead<bit<8> >();
x = p.lookahead<bool>().a;
x = p.lookahead<h[8w2]>(a, b);
x = f(a.lookahead);$x = f((a.lookahead));
=casts and prefixes stand in front|Ws
x = (bit<8>)a;$x = (bit<8>) a;
x = (bool) a;
x = (bit<8w8>) (bool) -a;
x = ! ~ - a;$x = !~-a;
x = - - a;$x = --a;
x = -(a + b);
x = (-a)[7:0];
x = ((bit<8>) a).b;
x = (bit<8>) (a ++ b);
=each operator stands in parentheses|Ws
x = a * b;$x = (a * b);
x = a + b;$x = (a + b);
x = a - b;$x = (a - b);
x = a |+| b;$x = (a |+| b);
x = a |-| b;$x = (a |-| b);
x = a ++ b;$x = (a ++ b);
x = a << b;$x = (a << b);
x = a >> b;$x = (a >> b);
x = a & b;$x = (a & b);
x = a ^ b;$x = (a ^ b);
x = a | b;$x = (a | b);
x = a < b;$x = (a < b);
x = a <= b;$x = (a <= b);
x = a > b;$x = (a > b);
x = a >= b;$x = (a >= b);
x = a == b;$x = (a == b);
x = a != b;$x = (a != b);
x = a && b;$x = (a && b);
x = a || b;$x = (a || b);
=operands keep their parentheses|Ws
x = a - b - c;$x = ((a - b) - c);
x = a - (b - c);$x = (a - (b - c));
x = -a * !b;$x = (-a * !b);
x = (a + b).c;
x = a + b[1];$x = (a + b[1]);
x = (a + b)[1](c, d - e).f;$x = (a + b)[1](c, (d - e)).f;
x = a ? b : c ? d : e;$x = (a ? b : (c ? d : e));
x = (a ? b : c) ? d || e : f;$x = ((a ? b : c) ? (d || e) : f);
=no parentheses stand within others|Ws
if (a - b - c) { }$if ((a - b) - c) { }
if (a == b && c) { }$if ((a == b) && c) { }
if (a.lookahead) { }
if (a ? b : c) { }
=more parentheses stand around a base|Ws
x = (a - b).c;
x = (-a).c;
x = ((bool) a).c;
x = (a ? b : c).c;
x = a.lookahead.c;$x = (a.lookahead).c;
x = a.b[1].c;
=there may be no declaration|Vd

=declarations are read with each part that may be left out|Vd
header h { }
header h { bit<129> a; bit<8w5> b; }
header hit { bit<8> miss; bit<8> lookahead; bit<8> exact; }
struct s { bit<8> a; bool b; h c; h[2] d; }
struct s { @field_list(1, 8w2) @name(\"bit\") @field_list(3) h[4w3] a; }
direct_counter(CounterType.packets_and_bytes) d;
@name(\"r\") register<bit<8>>(16) r;
register<bit<8> >(1 + 2) s;$register<bit<8> >((1 + 2)) s;
register<bit<8>> (hdr.bit < 8 >> y) s;$register<bit<8> >((hdr.bit < (8 >> y))) s;
parser p(in h a) { }
parser p(h a, out bit<8> b, inout h[2] c) { bit<8> d; bool e = true; h f; state s { transition reject; } state t { ; transition s; } }
parser p(in h a) { state s { transition select(a, b) { } } state t { transition select(a) { 1 : s; default : accept; } } }
control c(in h a) { apply { } }
control c(in bool a) { bit<8> b = 1; counter(1, CounterType.bytes) d; @name(\"x\") counter(1, CounterType.bytes) e; h[3] k; apply { } }
control c(in bool a) { action f() { } @name(\"g\") action g(in bit<8> i, bit<9> j) { ; } table t { actions = { f; } } @name(\"u\") table u { actions = { NoAction; } } apply { } }
header h_t { bit<129> a; bit<48> b; bit<16> c; }
=two declarations are read|Vd
struct s { } struct t { }
counter(1, CounterType.packets) c; meter(2, MeterType.bytes) m;
counter(1, MeterType.packets) c; meter(1, HashAlgorithm.crc16) m;
meter(1, HashAlgorithm.csum16) m; meter(1, HashAlgorithm.crc32) n;
meter(1, CloneType.I2E) m; direct_counter(HashAlgorithm.identity) d;
@name(\"a\") @field_list(1) counter(1, CloneType.E2E) c; header h { }
struct CounterType { } struct packets { }
=properties of tables are read|Vp
actions = { NoAction; }
key = { a.b : exact; a + 1 : lpm @name(\"k\"); } actions = { f; g; NoAction; } size = 4w3; counters = d; default_action = f(1, a);$key = { a.b : exact; (a + 1) : lpm @name(\"k\"); } actions = { f; g; NoAction; } size = 4w3; counters = d; default_action = f(1, a);
default_action = NoAction(); key = { } actions = { f; }
size = 8w300; actions = { f; } default_action = f();
counters = c; actions = { f; } key = { hdr.bit < 8 >> y : ternary; }$counters = c; actions = { f; } key = { (hdr.bit < (8 >> y)) : ternary; }
=a keyset is one part|Vk
default : accept;
_ : s;
1 : reject;
0x10 &&& 0xf0 : s;$16 &&& 240 : s;
1 .. 8w3 : s;
a ? b : c : s;
=a keyset in parentheses is a tuple|Vk
(1) : s;
((1)) : s;$(1) : s;
(default) : s;
(1, _, default, 2 .. 3, 4 &&& 5) : s;
(1 &&& 2) : s;
((1) + 2, (bit<8>) 3) : s;$((1 + 2), (bit<8>) 3) : s;
=parentheses of a part are no tuple|Vk
(a) &&& b : s;$a &&& b : s;
(a) .. b : s;$a .. b : s;
(a) + b : s;$a + b : s;
(a).b &&& c : s;$a.b &&& c : s;
(a) ? b : c : s;$a ? b : c : s;
(bit<8>) 3 : s;
(bool) a &&& b : s;
=include lines have blanks and comments around them|Wt
#include <core.p4>%#include <v1model.p4>%V1Switch(A(), B()) main;$#include <core.p4>%#include <v1model.p4>%%V1Switch(A(), B()) main;%
  #include <core.p4>\t%% \t#include <v1model.p4>  % V1Switch ( A ( ) ) main ;%$#include <core.p4>%#include <v1model.p4>%%V1Switch(A()) main;%
// c%#include <core.p4>%/* c%*/%#include <v1model.p4>%V1Switch(/* A */ B()) main; // c$#include <core.p4>%#include <v1model.p4>%%V1Switch(B()) main;%
=variables, assignments and calls have a line each|Ws
bit<8> a;%        h_t[2] b;%        bool c = (a == 8w1);%        b[1].d = c;%        f(a, b);%        ;
=blocks have levels|Ws
{ }%        {%            ;%            {%                a = b;%            }%        }
=conditions stand in one pair of parentheses|Ws
if (a) {%            b = c;%        }%        if ((a == b) && c)%            b = c;%        if (a.isValid()) { } else {%            b = c;%        }%        if (a)%            b = c;%        else%            f();
=a chain of else if stays at its level|Ws
if (a) {%            b = c;%        } else if (d) {%            e = f;%        } else if (g)%            ;%        else { }
=an else stays with its if|Ws
if (a)%            if (b)%                ;%            else%                ;%        if (a)%            if (b)%                ;%            else%                ;%        else%            ;%        if (a) {%            if (b)%                ;%        } else%            ;
=cases have a block each|Ws
switch (t.apply().action_run) { }%        switch (t.apply().action_run) {%            a: {%                b = c;%            }%            default: { }%        }
=other blanks are left out|Ws
if(a){;}else if(b)c=d-e-f;%{bit<8w8>g=!h;} switch(t.apply().action_run){a:{i();}}$if (a) {%            ;%        } else if (b)%            c = ((d - e) - f);%        {%            bit<8w8> g = !h;%        }%        switch (t.apply().action_run) {%            a: {%                i();%            }%        }
=names have 64 octets, and expressions and statements nest 500 deep|Vs
1`long = `64`a`1`.`64`b`1`;`
1`x = `500`(`1`a`500` - b)`1`;`
1`x = `500`(a - `1`b`500`)`1`;`
500`{`500`}`
500`if (a) `1`;`";

/// The rows of this file.
pub fn rows() -> &'static [u8] {
    ROWS
}
