// What P4_14 tables, counters, header types and metadata declare: absent, one, and the first of two.
use p4x_bits::{OutOfMemory, Rows, Text};
use p414_syntax::{
    CounterType, ExprNode, Field, FieldWidth, HeaderType, Inst, Literal, Named, Nodes, Read,
    ReadKey, StateAttr, Stateful, Table, TableAttr, TypeTail,
};
use std::alloc::Global;

fn literal(value: u128) -> Literal {
    Literal { width: None, value }
}

fn is_value(literal: Option<Literal>, value: u128) -> bool {
    match literal {
        Some(literal) => literal.value == value,
        None => false,
    }
}

fn is_text(text: Option<&Text>, octets: &[u8]) -> bool {
    match text {
        Some(text) => text.as_slice() == octets,
        None => false,
    }
}

/// A key of an instance without a name.
fn key(alloc: Global) -> Read {
    Read {
        key: ReadKey::Instance(Inst {
            name: Text::new(alloc),
            index: None,
        }),
        mask: None,
        kind: Text::new(alloc),
    }
}

/// A size, one key, a default action without a list of arguments, and another size.
fn attributes(alloc: Global) -> Result<Rows<TableAttr>, OutOfMemory> {
    let reads = Rows::from_vec(vec![in alloc; key(alloc)]?);
    let action = Text::from_slice(alloc, b"drop")?;
    Ok(Rows::from_vec(vec![in alloc;
        TableAttr::Size(literal(5)),
        TableAttr::Reads(reads),
        TableAttr::DefaultAction(action, None),
        TableAttr::Size(literal(7)),
    ]?))
}

fn table(alloc: Global) -> Result<Table, OutOfMemory> {
    let name = Text::from_slice(alloc, b"acl")?;
    Ok(Table {
        name,
        attributes: attributes(alloc)?,
    })
}

/// Whether that table declares what comes first.
fn declares_first(table: &Table) -> bool {
    is_value(table.size(), 5)
        && table.min_size().is_none()
        && table.reads().len() == 1
        && table.actions().len() == 0
        && is_text(table.default_action(), b"drop")
        && table.default_arguments().is_none()
        && table.action_profile().is_none()
        && table.name_text() == b"acl".as_slice()
}

/// A direct counter without a name.
fn counter(alloc: Global) -> Result<Stateful, OutOfMemory> {
    let table = Text::from_slice(alloc, b"acl")?;
    let attributes = Rows::from_vec(vec![in alloc;
        StateAttr::Counts(CounterType::Bytes),
        StateAttr::Direct(table),
        StateAttr::Saturating,
        StateAttr::Width(literal(32)),
    ]?);
    Ok(Stateful {
        name: Text::new(alloc),
        attributes,
    })
}

/// Whether that counter declares what stands.
fn declares_direct(counter: &Stateful) -> bool {
    matches!(counter.counts(), Some(CounterType::Bytes))
        && is_text(counter.direct_table(), b"acl")
        && counter.static_table().is_none()
        && counter.is_saturating()
        && !counter.is_signed()
        && is_value(counter.width(), 32)
        && counter.instance_count().is_none()
}

/// A field of 8 bits without a name.
fn field(alloc: Global) -> Field {
    Field {
        name: Text::new(alloc),
        width: FieldWidth::Bits(literal(8)),
        attributes: Rows::new(alloc),
    }
}

/// A header type of this name and with these fields, whose length is at most a number.
fn header_type_of(
    alloc: Global,
    name: Text,
    fields: Rows<Field>,
) -> Result<HeaderType, OutOfMemory> {
    let mut nodes = Nodes::new(alloc);
    let length = nodes.expression(ExprNode::Number(literal(20)))?;
    let tails = Rows::from_vec(vec![in alloc; TypeTail::MaxLength(length)]?);
    Ok(HeaderType::new(name, fields, tails, nodes))
}

fn header_type(alloc: Global) -> Result<HeaderType, OutOfMemory> {
    let name = Text::from_slice(alloc, b"ipv4_t")?;
    let fields = Rows::from_vec(vec![in alloc; field(alloc)]?);
    header_type_of(alloc, name, fields)
}

/// Whether that header type declares what stands.
fn declares_most(header_type: &HeaderType) -> bool {
    header_type.length().is_none()
        && header_type.max_length().is_some()
        && header_type.fields().len() == 1
        && header_type.name_text() == b"ipv4_t".as_slice()
}

/// Whether it gives back its parts.
fn gives_back(header_type: &HeaderType) -> bool {
    let parts = header_type.parts();
    parts.name.as_slice() == b"ipv4_t".as_slice()
        && parts.fields.len() == 1
        && parts.tails.len() == 1
        && parts.nodes.exprs_len() == 1
}

/// Whether a table tells the first of two attributes, and which are absent.
pub fn table_declares(alloc: Global) -> bool {
    match &table(alloc) {
        Ok(table) => declares_first(table),
        Err(_) => false,
    }
}

/// Whether a counter tells its attributes, and which are absent.
pub fn counter_declares(alloc: Global) -> bool {
    match &counter(alloc) {
        Ok(counter) => declares_direct(counter),
        Err(_) => false,
    }
}

/// Whether a header type tells its attributes, and gives back its parts.
pub fn header_type_declares(alloc: Global) -> bool {
    match &header_type(alloc) {
        Ok(header_type) => declares_most(header_type) && gives_back(header_type),
        Err(_) => false,
    }
}
