// The rows of the words for annotations, types, parameters and members.
ghost use Rattle.std.specs.Prelude.{◌≡◌, []};
ghost use Rattle.predictive_parser.specs.Told.{told};
ghost use Rattle.p416_reader.specs.internal.Rows.{part_rows, part_otherwise};

use crate::rows::{
    A_NAME, A_NUMBER, A_STRING, BRACKET_CLOSE, DOT, GREATER, LESS, PAREN_CLOSE, PAREN_OPEN, Rows,
    Told,
};
use crate::symbols::{Action, Class, Known, PartAction, PartWord, Word};
use p416_syntax::{
    Annotation16, CloneType, CounterType, Direction, HashAlgorithm, Keyword16, Mark16, Member,
    MeterType,
};
use predictive_parser::{Otherwise, Row, Symbol, WordRows};

const TYPE_OF: Rows = &[
    row!(Class::Name => part!(SizeOption), put_part!(TypeNamed)),
    row!(key!(Bit) => LESS, A_NUMBER, GREATER, put_part!(TypeBit)),
    row!(key!(Bool) => put_part!(TypeBool)),
];

const SIZE_OPTION: Rows = &[
    row!(mark!(BracketOpen) => A_NUMBER, BRACKET_CLOSE, put_part!(SomeLiteral)),
];

const FIRST_NOTE: Rows = &[
    row!(Class::At(Annotation16::Name) => put_part!(NoNotes), PAREN_OPEN, A_STRING, PAREN_CLOSE,
        put_part!(AddNameNote)),
    row!(Class::At(Annotation16::FieldList) => put_part!(NoNotes), PAREN_OPEN,
        put_part!(NoNumbers), A_NUMBER, put_part!(AddNumber), part!(MoreNumbers), PAREN_CLOSE,
        put_part!(AddListNote)),
];

const NOTES: Rows = &[
    row!(Class::NewNameNote => PAREN_OPEN, A_STRING, PAREN_CLOSE, put_part!(AddNameNote),
        part!(Notes)),
    row!(Class::At(Annotation16::FieldList) => PAREN_OPEN, put_part!(NoNumbers), A_NUMBER,
        put_part!(AddNumber), part!(MoreNumbers), PAREN_CLOSE, put_part!(AddListNote),
        part!(Notes)),
];

const MORE_NUMBERS: Rows = &[
    row!(mark!(Comma) => A_NUMBER, put_part!(AddNumber), part!(MoreNumbers)),
];

const PARAM: Rows = &[
    row!(key!(In) => part!(TypeOf), A_NAME, put_part!(AddParam(Some(Direction::In)))),
    row!(key!(Out) => part!(TypeOf), A_NAME, put_part!(AddParam(Some(Direction::Out)))),
    row!(key!(InOut) => part!(TypeOf), A_NAME, put_part!(AddParam(Some(Direction::InOut)))),
    like!(Word::Part(PartWord::TypeOf) => A_NAME, put_part!(AddParam(None))),
];

const PARAMS: Rows = &[
    row!(key!(In) => part!(TypeOf), A_NAME, put_part!(AddParam(Some(Direction::In))),
        part!(MoreParams)),
    row!(key!(Out) => part!(TypeOf), A_NAME, put_part!(AddParam(Some(Direction::Out))),
        part!(MoreParams)),
    row!(key!(InOut) => part!(TypeOf), A_NAME, put_part!(AddParam(Some(Direction::InOut))),
        part!(MoreParams)),
    like!(Word::Part(PartWord::TypeOf) => A_NAME, put_part!(AddParam(None)), part!(MoreParams)),
];

const MORE_PARAMS: Rows = &[row!(mark!(Comma) => part!(Param), part!(MoreParams))];

const MEMBER: Rows = &[
    row!(known!(HashAlgorithm) => DOT, part!(HashMember)),
    row!(known!(CounterType) => DOT, part!(CounterMember)),
    row!(known!(MeterType) => DOT, part!(MeterMember)),
    row!(known!(CloneType) => DOT, part!(CloneMember)),
];

const HASH_MEMBER: Rows = &[
    row!(known!(Csum16) => put_part!(Member(Member::HashAlgorithm(HashAlgorithm::Csum16)))),
    row!(known!(Crc16) => put_part!(Member(Member::HashAlgorithm(HashAlgorithm::Crc16)))),
    row!(known!(Crc32) => put_part!(Member(Member::HashAlgorithm(HashAlgorithm::Crc32)))),
    row!(known!(Identity) => put_part!(Member(Member::HashAlgorithm(HashAlgorithm::Identity)))),
];

const COUNTER_MEMBER: Rows = &[
    row!(known!(Packets) => put_part!(Member(Member::CounterType(CounterType::Packets)))),
    row!(known!(Bytes) => put_part!(Member(Member::CounterType(CounterType::Bytes)))),
    row!(known!(PacketsAndBytes) =>
        put_part!(Member(Member::CounterType(CounterType::PacketsAndBytes)))),
];

const METER_MEMBER: Rows = &[
    row!(known!(Packets) => put_part!(Member(Member::MeterType(MeterType::Packets)))),
    row!(known!(Bytes) => put_part!(Member(Member::MeterType(MeterType::Bytes)))),
];

const CLONE_MEMBER: Rows = &[
    row!(known!(I2E) => put_part!(Member(Member::CloneType(CloneType::I2E)))),
    row!(known!(E2E) => put_part!(Member(Member::CloneType(CloneType::E2E)))),
];

/// The rows of a word for annotations, types, parameters and members, and what it does where none of them fits.
pub fn rows_of(word: PartWord) -> Told
    ensures rows { told [] result.rows.now ≡ part_rows word }
    ensures otherwise { result.otherwise ≡ part_otherwise word }
{
    match word {
        PartWord::TypeOf => refuse!(TYPE_OF),
        PartWord::SizeOption => build!(SIZE_OPTION => Action::Part(PartAction::NoLiteral)),
        PartWord::FirstNote => refuse!(FIRST_NOTE),
        PartWord::Notes => pass!(NOTES),
        PartWord::MoreNumbers => pass!(MORE_NUMBERS),
        PartWord::Param => refuse!(PARAM),
        PartWord::Params => pass!(PARAMS),
        PartWord::MoreParams => pass!(MORE_PARAMS),
        PartWord::Member => refuse!(MEMBER),
        PartWord::HashMember => refuse!(HASH_MEMBER),
        PartWord::CounterMember => refuse!(COUNTER_MEMBER),
        PartWord::MeterMember => refuse!(METER_MEMBER),
        PartWord::CloneMember => refuse!(CLONE_MEMBER),
    }
}
