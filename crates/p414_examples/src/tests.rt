// What is told of texts, and of what is put together.
use crate::declared::{counter_declares, header_type_declares, table_declares};
use crate::nodes::nodes_give_back;
use crate::rows::check_table;
use crate::tables::{programs, texts};

#[test]
fn texts_are_divided_and_read(rt: HostRuntime) {
    check_table(&rt, texts());
}

#[test]
fn programs_have_their_graphs_walks_parsers_and_signatures(rt: HostRuntime) {
    check_table(&rt, programs());
}

#[test]
fn what_is_put_together_tells_what_was_put_the_first_of_two(rt: HostRuntime) {
    let table = table_declares(rt.alloc());
    let counter = counter_declares(rt.alloc());
    let header_type = header_type_declares(rt.alloc());
    let nodes = nodes_give_back(rt.alloc());
    assert_eq!(rt;
        (table, counter, header_type, nodes),
        (true, true, true, true)
    );
}
