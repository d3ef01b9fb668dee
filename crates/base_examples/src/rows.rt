// Tables of rows, one function that goes through them, and what stands in no row.
use crate::bits::{
    are_calculated, are_printed, are_rows, has_field, have_the_first_bit_first, keep_their_order,
    stand_at_odd_bits,
};
use crate::captures::{are_same, come_to};
use crate::desks::{fails_where_it_was_asked, sinks_fail, whole_files_go_in_pieces};
use crate::fates::{are_fates, keep_their_state};
use crate::graph_answers::{has_least_of_chain, is_chain_ordered, is_told};
use crate::hosts::{
    fails_where_no_file_is, gives_up, keeps_files, keeps_the_files_used_last, makes_calls_again,
    prints, reads_in_turn,
};
use crate::items::are_read;
use crate::lines::cut;
use crate::random::agree;
use crate::readers::{are_taken, makes_all, takes_all};
use crate::signatures::is_judged;
use crate::stores::{are_emptied, are_summed, goes_to_0};
use crate::tables::{are_copied, failing_table, is_key_of_nine};
use crate::threads::{are_bounds, passes_end};
use std::alloc::Global;
use std::process::Abort;
use std::str;

// A line that begins with `=` tells the name of the rows behind it. The first cell of a row is a letter for what it asks; what the
// other cells hold is told at the functions that look at them.

/// Of graphs: what is asked; a graph; what is told beside it, as the labels of its nodes; and what is expected. The numbers of
/// components are the only ones in a finishing order, and the orders follow from the definition.
const GRAPHS: &[u8] = b"=a chain is numbered from its end
N|1/2/||210
N|/0/1||012
=cycles that share a node are one component
N|1/02/1/0||0001
=components that lead one way stay apart
N|1/02/3/24/||22110
=a node that leads into a cycle is not on it
L|1/2/1||1
=a self loop is a cycle
L|1//2||2
=two ways to a node are no cycle
L|12/3/3/||-
L|-||-
=an edge that leads nowhere is seen
C|1/2||-
C|1/0||+
=each call counts in a size
S|12/3/3/|1,1,1,1;100|5,2,2,1
S|/00|3,4;100|3,10
=a size over the limit is the limit
S|11/22/33/|1,1,1,1;10|10,7,3,1
=there is no size where a node lies on a cycle
S|/2/1|1,1,1;10|
=what is reached is what walks lead to
R|1/02/2/1/|1|11100
R|1/02/2/1/|4|00001
=labels of one node keep their order
O||201|201
O|||
=branches give the least label first
O|12/3/3/|4/3/1/0|4130
O|12/3/3/|/3/1/|13
=a node without labels hands the order on
O|1/2/|5//0|50
=a label that comes again is not before itself
O|1/|1/10|10
O|1/2/|1//10|10
O|01/|1/0|10
O||331|31
=labels that come both ways have no order
O|1/2/|1/0/1|x
O||101|x
O|12//|/01/10|x
O|1/0|0/1|x
O|123///|/01/12/20|x
=nodes that are not reached count for nothing
O|/0|10/012|10
=orders join over labels of several nodes
O|12//|/43/30|430
O|12//|/43/20|2043";

/// Of the small grammar (`I`): tokens, and what they build.
const ITEMS: &[u8] = b"=an item is built parts first
I|a|a
I|()|0]
I|(a,b)|ab0::]
I|((a))|a0:]0:]
=times binds tighter than plus
I|a+b*c|abc*+
I|a*b+c|ab*c+
=the left of two like operators is done first
I|a+b+c|ab+c+
=the first token that can't stand there is told
I|,|!0
I|ab|!1
I|a+*|!2
I|(,|!1
I|(a,)|!3
I|(a))|!3
=tokens that end too early are refused behind the last
I||!0
I|(|!1
I|a+|!2
I|(a,|!3
=parentheses may be nested deep
I|100000(a100000)|#300001
I|100000(a|!100001
I|100000(a100001)|!200001";

/// Of captures: what comes of one as a whole (`K`), that two lists of pieces have the same octets (`E`), and the steps of readers (`D`
/// and `M`) and of one that is fed octet by octet (`T`).
const CAPTURES: &[u8] = b"=a capture holds the frame or breaks its first rule
K|lrf||m0
K|bRf||m0
K|nrf||N0
K|l||m
K|lcf||m0
K|||1
K|x||1
K|y||2
K|o||3
K|lh||4
K|lrs||4
K|lrfz||4
K|lL||5
K|lrfL||5
K|wY||5
=what is written is read again
K|wuf||m0
K|vuf||N0
E|w|g
E|u|r
=packets come in on the ports of a list and then on port 0
K|lrfrfrf|p|m5,510,0
=a reader answers step by step
D|<lrfz =f = e4
D|<lrfL!5 <m!5 =f = e5 k1
D|e1 <x e1 k n <.!2 e2 k
D|<o!3 n
=one octet at a time gives the same records
T|nrfrf|2|28|+
T|wZ|0|65535|-
=records are made as they are asked for
M|<lr3 = <4z =f = f e4
M|<lrfL f =f = f5 <rf = e5 k1
M|<nrfrf =f =f = e k1 n+
M|e1 <x e1 k <. f2 = e2 n
M|<orf f3 = k";

/// Of packets over the small runners: the octets of one (`F`) or of two (`A`), a bound, what is sent, and how many items are cut.
const FATES: &[u8] = b"=a plain packet makes one pass
F|0809|1|0303080900|0
F||1|030100|0
=a dropped packet is cloned before
F|01aa|256|050301aa01|0
F|01aa|1||1
=a packet is resubmitted twice
F|02|3|03020206|0
F|02|2||1
=what recirculates for ever is cut
F|03|1||1
F|03|2||1
F|03|65536||1
=egress clones what it holds and the clone has a pass of its own
F|04|2|0302040006020402|0
F|04|1|03020400|1
=an unknown session makes no clone
F|05|1|03020500|0
=a clone waits in front of what is resubmitted
F|06|3|0502060103020606|0
F|06|2|05020601|1
F|06|1||2
=three items of one pass wait in order: two clones and the recirculated packet
F|07|1||3
F|07|2|05020701|2
F|07|4|050207010602070203020704|0
=arrivals are numbered and what one gives stands before all that later ones give
A|0408|256|000302040000060204020103020800|0
A|0408|1|00030204000103020800|1";

/// Of fields of octets (`B`), of what is calculated of bit lists (`X`), and of the lines of faults (`P`). Of the results of `crc16` of
/// one to nine bits: in the order of a reflected CRC the last bit of the octet 80 comes last, so the list 1 is the polynomial 1. Of
/// x^16, x^17 and x^18 the polynomial 8005 leaves 8005, 800f and 801b, and the result has their bits from the last on: a001, f001 and
/// d801. Those of `crc32` are what zlib gives for the filled octets. Of sums: of 101 the word is a000, of abc it is abc0; of 12345 the
/// words are 1234 and 5000, of 010203 they are 0102 and 0300. Of seventeen ones the sum is 17fff, and what is carried out makes it 8000.
const NUMBERS: &[u8] = b"=whole octets stand beside others
B|0102030405060708090a0b0c0d0e0f1011|8 48 020304050607|
B|0102030405060708090a0b0c0d0e0f1011|12 48 203040506070|
B|0102030405060708090a0b0c0d0e0f1011|88 48 0c0d0e0f1011|
B|0102030405060708090a0b0c0d0e0f1011|8 128 02030405060708090a0b0c0d0e0f1011|
B|010203|8 16 0203|
B|0102030405060708090a0b0c0d0e0f1011|8 48 a1b2c3d4e5f6|01a1b2c3d4e5f608090a0b0c0d0e0f1011
B|0102030405060708090a0b0c0d0e0f1011|84 48 123456789abc|0102030405060708090a0123456789abc1
B|0102030405060708090a0b0c0d0e0f1011|8 128 00000000000000030000000000000005|0100000000000000030000000000000005
=fields of octets stand at any bit
B|12345678|3 7 48|
B|12345678|4 24 234567|
B|12345678|0 32 12345678|
B|12345678|32 0 0|
B|12345678|5 9 1ff|17fc5678
B|17fc5678|13 2 1|17fa5678
=the common check values of nine digits
X|72:313233343536373839|sbb3d tcbf43926 i313233343536373839
=the checksum of a header of IPv4
X|80:45000073000040004011 80:0000c0a80001c0a800c7|cb861
=the empty list has the values of no bits
X||cffff s0 t0 i0
=the last octet of a CRC is filled with zeros
X|1:1|sa001 t3fba6cad
X|2:1|sf001 ta4deae1d
X|3:5|s7800 t04d44c65
X|9:1|sa001 tac6191df
=the last word of a sum is filled with zeros
X|3:5|c5fff
X|12:abc|c543f
X|20:12345|c9dcb
X|24:010203|cfbfd
X|17:1ffff|c7fff
=identity is the number of a short list
X|1:1|i1
X|3:5|i5
X|20:12345|i12345
X|128:ffffffffffffffffffffffffffffffff|iffffffffffffffffffffffffffffffff
=identity keeps the last 128 bits
X|3:7 128:80000000000000000000000000000001|i80000000000000000000000000000001
X|3:7 128:80000000000000000000000000000001 4:a|i1a
=a line tells the rule and the place that its family has
P|L1|12:34|refused L1 at 12:34
P|S1|12:34|refused S1 at 12:34
P|S1||refused S1
P|C28|12:34|refused C28
P|T10||refused T10
P|K5|12:34|refused K5
P|E7|12:34|refused E7 at 12:1
P|P1|12:34|refused P1 at 12:1
P|G2|12:34|refused G2 at 12:1
P|X4|12:34|refused X4 at 12:1
=the longest line has 58 octets
P|L255|18446744073709551615:18446744073709551615|refused L255 at 18446744073709551615:18446744073709551615";

/// Of signatures (`G`): tables and objects with semicolons between, and whether they are well formed.
const SIGNATURES: &[u8] = b"=tables stand in the octet order of their names, each once
G|Z;a||+
G|a;ab||+
G|ab;a||-
G|a;a||-
=registers stand in the octet order of their names, each once, and have 1 to 128 bits
G||a 1 4;b 1 4|+
G||a 128 4;b 128 4|+
G||b 8 4;a 8 4|-
G||a 8 4;a 8 4|-
G||a 0 4;b 0 4|-
G||a 129 4;b 129 4|-
=actions stand in the octet order of their names, each once, and their parameters have 1 to 128 bits
G|acl :a=1 :b=1||+
G|acl :a=128 :b=128||+
G|acl :b=9 :a=9||-
G|acl :a=9 :a=9||-
G|acl :a=0 :b=0||-
G|acl :a=129 :b=129||-
=a table has 64 keys at most of 1 to 128 bits, and one lpm key
G|acl e1 l32||+
G|acl l32 e1 l32||-
G|acl e0||-
G|acl e129||-
G|acl e128 e128 e128 e128 e128 e128 e128 e128 e128 e128 e128 e128 e128 e128 e128 e128 e128 e128 e128 e128 e128 e128 e128 e128 e128 e128 e128 e128 e128 e128 e128 e128 e128 e128 e128 e128 e128 e128 e128 e128 e128 e128 e128 e128 e128 e128 e128 e128 e128 e128 e128 e128 e128 e128 e128 e128 e128 e128 e128 e128 e128 e128 e128 e128||+
G|acl e128 e128 e128 e128 e128 e128 e128 e128 e128 e128 e128 e128 e128 e128 e128 e128 e128 e128 e128 e128 e128 e128 e128 e128 e128 e128 e128 e128 e128 e128 e128 e128 e128 e128 e128 e128 e128 e128 e128 e128 e128 e128 e128 e128 e128 e128 e128 e128 e128 e128 e128 e128 e128 e128 e128 e128 e128 e128 e128 e128 e128 e128 e128 e128 e128||-
=a direct counter belongs to one table and has no cells
G|acl;route >0|hits d0;marks 8 0|+
G|acl;route|hits d0;marks 8 0|+
G|acl >0;route >0|hits d0;marks 8 0|-
G|acl >1;route|hits d0;marks 8 0|-
G|acl >2;route|hits d0;marks 8 0|-
G|acl >0;route|hits d1;marks 8 1|-";

/// Of random tables (`Y`): mixes of keys.
const MIXES: &[u8] = b"=random tables
Y|0 4 4 1 100 100
Y|0 16 4 2 100 100
Y|0 64 4 3 100 100
Y|0 256 4 4 100 100
Y|0 1 4 1 1000 50
Y|2 1 4 1 1000 50
Y|8 1 4 2 1000 50
Y|5859374 1 5 10 20000 20";

static TABLES: [&[u8]; 6] = [GRAPHS, ITEMS, CAPTURES, FATES, NUMBERS, SIGNATURES];

fn tables() -> &'static [&'static [u8]] {
    &TABLES
}

fn mixes() -> &'static [u8] {
    MIXES
}

/// Whether what a row tells of a capture holds.
fn holds_of_capture(alloc: Global, asked: u8, row: &[u8]) -> bool {
    let (pieces, row) = cut(row, b'|');
    let (first, row) = cut(row, b'|');
    let (second, third) = cut(row, b'|');
    match asked {
        b'K' => come_to(alloc, pieces, first, second),
        b'E' => are_same(alloc, pieces, first),
        b'D' => takes_all(alloc, pieces),
        b'M' => makes_all(alloc, pieces),
        _ => are_taken(alloc, pieces, first, second, third),
    }
}

/// Whether what a row tells holds.
fn holds(alloc: Global, row: &[u8]) -> bool {
    let (asked, row) = cut(row, b'|');
    let (first, more) = cut(row, b'|');
    let (second, third) = cut(more, b'|');
    match asked {
        [b'I'] => are_read(alloc, first, second),
        [b'F' | b'A'] => are_fates(alloc, asked, first, second, third),
        [b'B'] => has_field(alloc, first, second, third),
        [b'X'] => are_calculated(alloc, first, second),
        [b'P'] => are_printed(first, second, third),
        [b'G'] => is_judged(alloc, first, second, third),
        [b'Y'] => agree(alloc, first),
        [asked @ (b'K' | b'E' | b'D' | b'M' | b'T')] => holds_of_capture(alloc, *asked, row),
        _ => is_told(alloc, asked, first, second, third),
    }
}

fn check_row(rt: &(impl Abort + AllocGlobal), name: &[u8], place: usize, row: &[u8]) {
    let holds = holds(rt.alloc(), row);
    assert!(rt;
        holds,
        "{}, row {place}",
        str::from_utf8(name).unwrap_or("?")
    );
}

/// Checks each row of a table. One that fails is told by the name of its group and its place there, from 0.
fn check_table(rt: &(impl Abort + AllocGlobal), table: &[u8]) {
    let mut name = table;
    let mut place = 0usize;
    let mut left = table;
    for _ in 0..table.len() {
        let (line, more) = cut(left, b'\n');
        if let [b'=', head @ ..] = line {
            name = head;
            place = 0;
        } else {
            check_row(rt, name, place, line);
            place = place.saturating_add(1);
        }
        if more.is_empty() {
            break;
        }
        left = more;
    }
}

#[test]
fn each_row_holds(rt: HostRuntime) {
    for table in tables() {
        check_table(&rt, table);
    }
}

#[test]
fn the_index_of_a_table_agrees_with_the_scan(rt: HostRuntime) {
    check_table(&rt, mixes());
}

#[test]
fn long_chains_and_large_tables_take_no_stack(rt: HostRuntime) {
    let nodes = 100_000;
    let open = has_least_of_chain(rt.alloc(), nodes, None);
    let cycle = has_least_of_chain(rt.alloc(), nodes, Some(0));
    let late = has_least_of_chain(rt.alloc(), nodes, Some(nodes - 2));
    assert_eq!(rt; (open, cycle, late), (true, true, true));
    let ordered = is_chain_ordered(rt.alloc(), 1) && is_chain_ordered(rt.alloc(), 4096);
    assert!(rt; ordered);
    assert_eq!(rt; failing_table(rt.alloc()), None);
}

#[test]
fn lists_stores_and_copies_are_what_was_put_in(rt: HostRuntime) {
    let alloc = rt.alloc();
    assert!(rt; have_the_first_bit_first(alloc));
    assert!(rt; stand_at_odd_bits(alloc));
    assert!(rt; keep_their_order(alloc));
    assert!(rt; are_rows(alloc));
    assert!(rt; goes_to_0(alloc));
    assert!(rt; are_summed(alloc, 2));
    assert!(rt; are_summed(alloc, 1_048_576));
    assert!(rt; are_emptied(alloc));
    assert!(rt; is_key_of_nine(alloc));
    assert!(rt; are_copied(alloc));
    assert!(rt; keep_their_state(alloc));
    assert!(rt; are_bounds());
    assert!(rt; passes_end(alloc));
}

#[test]
fn desks_and_sinks_fail_where_they_have_to(rt: HostRuntime) {
    let alloc = rt.alloc();
    assert!(rt; fails_where_it_was_asked(alloc));
    assert!(rt; sinks_fail(alloc));
    assert!(rt; whole_files_go_in_pieces(alloc));
    assert!(rt; fails_where_no_file_is(&rt));
    assert!(rt; keeps_files(alloc, &rt));
    assert!(rt; keeps_the_files_used_last(&rt));
    assert!(rt; reads_in_turn(&rt));
    assert!(rt; makes_calls_again(&rt));
    assert!(rt; gives_up(&rt));
    assert!(rt; prints(&rt));
}
