// The structs of metadata, that of the headers and that of all metadata.
ghost use Rattle.std.specs.Prelude.{◌≡◌, ◌++◌, [], ◌∷◌, codes, filter_map, map, IfOk, OnOk};
ghost use Rattle.lower_laws_names.specs.Types.{header_member, member_field, metadata_member, notes_of, plain};
ghost use Rattle.lower_rows.specs.Named.{named_field};
ghost use Rattle.lower_decls.specs.Table.{member_in};
ghost use Rattle.lower_marks.specs.FieldMarks.{marks_at};
ghost use Rattle.lower_decls.specs.Tops.{headers_struct, marked_field, marked_from, metadata_struct, struct_by, structs};

use crate::numbers::plain;
use crate::rows::MemberRow;
use lower_marks::FieldMarks;
use lower_rows::{FieldRow, Form};
use p4x_bits::{OutOfMemory, Rows, Text};
use p416_syntax::{Decl16, Literal16, Note, Struct16, StructField, Type16};
use std::alloc::Global;

/// Numbers without widths.
fn plains(alloc: Global, numbers: &[u8]) -> Result<Rows<Literal16>, OutOfMemory>
    ensures { IfOk result (λ found. found ≡ map plain numbers.now) }
{
    let mut found = Rows::new(alloc);
    for number in numbers {
        found.push(plain(*number as u128))?;
    }
    Ok(found)
}

/// The annotations of a field with these marks.
fn notes_of(alloc: Global, numbers: &[u8]) -> Result<Rows<Note>, OutOfMemory>
    ensures { IfOk result (λ found. found ≡ notes_of numbers.now) }
{
    let mut notes = Rows::new(alloc);
    if !numbers.is_empty() {
        notes.push(Note::FieldList(plains(alloc, numbers)?))?;
    }
    Ok(notes)
}

/// A field of a struct of metadata.
fn marked_field(alloc: Global, numbers: &[u8], field: &FieldRow) -> Result<StructField, OutOfMemory>
    ensures { IfOk result (λ found. found ≡ marked_field numbers.now (named_field field.now)) }
{
    let notes = notes_of(alloc, numbers)?;
    let name = Text::from_slice(alloc, field.called.as_slice())?;
    let of = Type16::Bit(plain(field.width as u128));
    Ok(StructField { notes, of, name })
}

/// The marks of a field of an instance.
fn marks_at(marks: &[Rows<u8>], field: usize) -> &[u8]
    ensures { result.now ≡ marks_at marks.now field }
{
    match marks.get(field) {
        Some(found) => found.as_slice(),
        None => &[],
    }
}

/// The fields of a struct of metadata.
fn marked_fields(
    alloc: Global,
    marks: &[Rows<u8>],
    fields: &[FieldRow],
) -> Result<Rows<StructField>, OutOfMemory>
    ensures { IfOk result (λ found. found ≡ marked_from marks.now 0 (map named_field fields.now)) }
{
    let mut found = Rows::new(alloc);
    for i in 0..fields.len() {
        found.push(marked_field(alloc, marks_at(marks, i), &fields[i])?)?;
    }
    Ok(found)
}

/// The struct of a metadata instance; none of another.
fn struct_of(
    alloc: Global,
    marks: &FieldMarks,
    row: &MemberRow,
) -> Result<Option<Decl16>, OutOfMemory>
    ensures { IfOk result (λ found. found ≡ struct_by marks.now (member_in row.now)) }
{
    match row.instance.form {
        Form::Header => Ok(None),
        Form::Stack => Ok(None),
        Form::Metadata => {
            let name = Text::from_slice(alloc, row.type_called.as_slice())?;
            let marks = marks.of_instance(row.number);
            let fields = marked_fields(alloc, marks, row.instance.fields.as_slice())?;
            Ok(Some(Decl16::Struct(Struct16 { name, fields })))
        }
    }
}

/// Puts the structs of metadata behind what is there.
fn add_structs_of(
    alloc: Global,
    marks: &FieldMarks,
    rows: &[MemberRow],
    found: &mut Rows<Decl16>,
) -> Result<(), OutOfMemory>
    ensures { OnOk result (found.new ≡ found.old ++ filter_map (struct_by marks.now) (map member_in rows.now)) }
{
    for row in rows {
        if let Some(decl) = struct_of(alloc, marks, row)? {
            found.push(decl)?;
        }
    }
    Ok(())
}

/// A member of the struct of the headers or of that of the metadata.
fn member_field(
    alloc: Global,
    name: &[u8],
    type_name: &[u8],
    size: Option<Literal16>,
) -> Result<StructField, OutOfMemory>
    ensures { IfOk result (λ found. found ≡ member_field name.now type_name.now size) }
{
    let notes = Rows::new(alloc);
    let of = Type16::Named(Text::from_slice(alloc, type_name)?, size);
    let name = Text::from_slice(alloc, name)?;
    Ok(StructField { notes, of, name })
}

/// A header or a stack, as a member of the struct of the headers.
fn header_member(alloc: Global, row: &MemberRow) -> Result<Option<StructField>, OutOfMemory>
    ensures { IfOk result (λ found. found ≡ header_member (member_in row.now)) }
{
    let name = row.instance.called.as_slice();
    let type_name = row.type_called.as_slice();
    match row.instance.form {
        Form::Header => Ok(Some(member_field(alloc, name, type_name, None)?)),
        Form::Stack => {
            let size = plain(row.instance.size as u128);
            Ok(Some(member_field(alloc, name, type_name, Some(size))?))
        }
        Form::Metadata => Ok(None),
    }
}

/// A metadata instance, as a member of the struct of the metadata.
fn metadata_member(alloc: Global, row: &MemberRow) -> Result<Option<StructField>, OutOfMemory>
    ensures { IfOk result (λ found. found ≡ metadata_member (member_in row.now)) }
{
    let name = row.instance.called.as_slice();
    let type_name = row.type_called.as_slice();
    match row.instance.form {
        Form::Header => Ok(None),
        Form::Stack => Ok(None),
        Form::Metadata => Ok(Some(member_field(alloc, name, type_name, None)?)),
    }
}

/// The members of the struct of the headers.
fn header_members(alloc: Global, rows: &[MemberRow]) -> Result<Rows<StructField>, OutOfMemory>
    ensures { IfOk result (λ found. found ≡ filter_map header_member (map member_in rows.now)) }
{
    let mut found = Rows::new(alloc);
    for row in rows {
        if let Some(field) = header_member(alloc, row)? {
            found.push(field)?;
        }
    }
    Ok(found)
}

/// The members of the struct of the metadata.
fn metadata_members(alloc: Global, rows: &[MemberRow]) -> Result<Rows<StructField>, OutOfMemory>
    ensures { IfOk result (λ found. found ≡ filter_map metadata_member (map member_in rows.now)) }
{
    let mut found = Rows::new(alloc);
    for row in rows {
        if let Some(field) = metadata_member(alloc, row)? {
            found.push(field)?;
        }
    }
    Ok(found)
}

/// The struct of the headers.
fn headers_struct(alloc: Global, rows: &[MemberRow]) -> Result<Decl16, OutOfMemory>
    ensures { IfOk result (λ found. found ≡ headers_struct (map member_in rows.now)) }
{
    let name = Text::from_slice(alloc, b"hs")?;
    let fields = header_members(alloc, rows)?;
    Ok(Decl16::Struct(Struct16 { name, fields }))
}

/// The struct of the metadata.
fn metadata_struct(alloc: Global, rows: &[MemberRow]) -> Result<Decl16, OutOfMemory>
    ensures { IfOk result (λ found. found ≡ metadata_struct (map member_in rows.now)) }
{
    let name = Text::from_slice(alloc, b"ms")?;
    let fields = metadata_members(alloc, rows)?;
    Ok(Decl16::Struct(Struct16 { name, fields }))
}

/// Puts all structs behind what is there.
pub fn add_structs(
    alloc: Global,
    marks: &FieldMarks,
    rows: &[MemberRow],
    found: &mut Rows<Decl16>,
) -> Result<(), OutOfMemory>
    ensures { OnOk result (found.new ≡ found.old ++ structs marks.now (map member_in rows.now)) }
{
    add_structs_of(alloc, marks, rows, found)?;
    found.push(headers_struct(alloc, rows)?)?;
    found.push(metadata_struct(alloc, rows)?)?;
    Ok(())
}
