// Parsers that are ready to run.
use p414_names::{Names14, names_of};
use p414_ready_parser::{
    CaseRow, CaseTest, InitialRow, Next, ReadyEnd, ReadyParser, ReadyState, ReadyStatement,
    ReadyValue, SelectPart, ready_parser,
};
use p414_sem::Standard;
use p414_slots::FieldSlot;
use p414_syntax::{Decl, Syntax14};
use std::alloc::Global;

/// Whether the end of a state joins these values and has these rows.
fn selects(state: &ReadyState, parts: &[SelectPart], rows: &[CaseRow]) -> bool {
    match &state.end {
        ReadyEnd::Select {
            parts: joined,
            rows: found,
        } => joined.as_slice() == parts && found.as_slice() == rows,
        ReadyEnd::To(_) => false,
    }
}

/// Whether the end of a state leads there.
fn leads(state: &ReadyState, next: Next) -> bool {
    match &state.end {
        ReadyEnd::Select { .. } => false,
        ReadyEnd::To(to) => *to == next,
    }
}

fn row(test: CaseTest, next: Next) -> CaseRow {
    CaseRow { test, next }
}

fn part(value: ReadyValue, width: u8) -> SelectPart {
    SelectPart { value, width }
}

/// The next element of a stack, or this one, of so many bits.
fn extract(instance: u32, element: Option<u32>, bits: u32) -> ReadyStatement {
    ReadyStatement::Extract {
        instance,
        element,
        bits,
    }
}

/// A field of the metadata `m` of the program of values.
fn of_metadata(field: u32) -> FieldSlot {
    FieldSlot::Declared {
        instance: 2,
        element: 0,
        field,
    }
}

fn set(slot: FieldSlot, width: u8, value: ReadyValue) -> ReadyStatement {
    ReadyStatement::Set { slot, width, value }
}

fn latest(instance: u32, field: u32) -> ReadyValue {
    ReadyValue::Latest { instance, field }
}

/// The statements of the first state of the program of values.
fn statements() -> [ReadyStatement; 6] {
    let current = ReadyValue::Current {
        offset: 4,
        width: 8,
    };
    let port = ReadyValue::Field(FieldSlot::Standard(Standard::IngressPort));
    [
        extract(0, Some(0), 24),
        set(of_metadata(0), 8, current),
        set(of_metadata(1), 4, latest(0, 1)),
        extract(1, Some(2), 24),
        set(of_metadata(0), 8, ReadyValue::Number(254)),
        set(of_metadata(0), 8, port),
    ]
}

/// The rows with which it ends.
fn cases() -> [CaseRow; 3] {
    let masked = CaseTest::Masked {
        mask: 0xff0,
        value: 0xf0,
    };
    [
        row(CaseTest::Equal(0x123), Next::State(1)),
        row(masked, Next::Accept),
        row(CaseTest::Any, Next::State(0)),
    ]
}

/// The initial values of that program.
fn initials() -> [InitialRow; 2] {
    [
        InitialRow {
            slot: of_metadata(1),
            value: 15,
        },
        InitialRow {
            slot: of_metadata(0),
            value: 1,
        },
    ]
}

/// Whether these are the states of the program of values.
fn are_of_values(states: &[ReadyState]) -> bool {
    let parts = [
        part(latest(1, 0), 8),
        part(ReadyValue::Field(of_metadata(1)), 4),
    ];
    match states {
        [first, second] => {
            first.statements.as_slice() == statements().as_slice()
                && selects(first, &parts, &cases())
                && leads(second, Next::Accept)
        }
        _ => false,
    }
}

/// Whether this is the one state of a stack of labels.
fn are_of_labels(states: &[ReadyState]) -> bool {
    let rows = [
        row(CaseTest::Equal(1), Next::Accept),
        row(CaseTest::Any, Next::State(0)),
    ];
    match states {
        [first] => {
            first.statements.as_slice() == [extract(0, None, 8)].as_slice()
                && selects(first, &[part(latest(0, 1), 1)], &rows)
        }
        _ => false,
    }
}

/// Whether a parser is that of the labels (`L`), or of the values.
fn is_parser(asked: u8, parser: &ReadyParser) -> bool {
    if asked == b'L' {
        return are_of_labels(parser.states.as_slice());
    }
    are_of_values(parser.states.as_slice())
        && parser.initials.as_slice() == initials().as_slice()
        && parser.start == Next::State(0)
}

/// The same of the parser of these names.
fn is_made_of(alloc: Global, asked: u8, names: &Names14<'_>) -> bool {
    match &ready_parser(alloc, names) {
        Ok(parser) => is_parser(asked, parser),
        Err(_) => false,
    }
}

fn is_of_decls(alloc: Global, asked: u8, decls: &[Decl]) -> bool {
    match &names_of(alloc, decls) {
        Ok(Some(names)) => is_made_of(alloc, asked, names),
        _ => false,
    }
}

/// The same of the parser of a program.
pub fn has_parser(alloc: Global, asked: u8, syntax: &Syntax14) -> bool {
    is_of_decls(alloc, asked, syntax.decls.as_slice())
}
