// What the declarations at the top declare.
ghost use Rattle.std.specs.Prelude.{◌≡◌, List};
ghost use Rattle.p416_syntax.specs.Scopes.{Known};
ghost use Rattle.p416_syntax.specs.Declarations.{top_name, instance_name, instance_sort};
ghost use Rattle.p416_syntax.specs.Unknown.{declared_name};
ghost use Rattle.p416_names.specs.Seen.{seen_sort};

use crate::kind::{Kind, ObjectKind};
use crate::sort::Sort;
use p4x_bits::Text;
use p416_syntax::{Decl16, Instance};

/// The name of a stateful object.
pub fn instance_name(instance: &Instance) -> &Text
    ensures { result.now ≡ instance_name instance.now }
{
    match instance {
        Instance::Counter(_, _, name) => name,
        Instance::DirectCounter(_, name) => name,
        Instance::Register(_, _, name) => name,
        Instance::Meter(_, _, name) => name,
    }
}

/// What the name of a stateful object means.
pub fn instance_sort<'a>(instance: &Instance) -> Sort<'a>
    ensures { (names : List Known) → seen_sort names result ≡ instance_sort instance.now }
{
    match instance {
        Instance::Counter(_, _, _) => Sort::Object(ObjectKind::Counter),
        Instance::DirectCounter(_, _) => Sort::Object(ObjectKind::DirectCounter),
        Instance::Register(_, _, _) => Sort::Object(ObjectKind::Register),
        Instance::Meter(_, _, _) => Sort::Object(ObjectKind::Meter),
    }
}

/// The name that a declaration at the top declares.
pub fn decl_name(decl: &Decl16) -> &Text
    ensures { result.now ≡ declared_name decl.now }
{
    match decl {
        Decl16::Header(header) => &header.name,
        Decl16::Struct(declared) => &declared.name,
        Decl16::Instance(_, instance) => instance_name(instance),
        Decl16::Parser(parser) => &parser.name,
        Decl16::Control(control) => &control.name,
    }
}

/// What a declaration at the top declares its name as.
pub fn decl_sort(decl: &Decl16) -> Sort<'_>
    ensures { (names : List Known) → seen_sort names result ≡ (top_name decl.now).sort }
{
    match decl {
        Decl16::Header(header) => Sort::Type(Kind::Header(header.name.as_slice())),
        Decl16::Struct(declared) => Sort::Type(Kind::Struct(declared.name.as_slice())),
        Decl16::Instance(_, instance) => instance_sort(instance),
        Decl16::Parser(_) => Sort::Block,
        Decl16::Control(_) => Sort::Block,
    }
}
