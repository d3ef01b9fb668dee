// The stateful objects of a program, by their own names and by those that the control plane knows.
ghost use Rattle.std.specs.Prelude.{◌≡◌, ◌++◌, map, flat_map, filter_map, option_map, slice_get, option_and_then, IfOk, OnOk};
ghost use Rattle.name_numbers.specs.Names.{find_name};
ghost use Rattle.p416_syntax.specs.Properties.{counters_of};
ghost use Rattle.p416_names.specs.SeenKinds.{referred};
ghost use Rattle.v1_core.specs.Signatures.{in_order, own_object, objects_in, top_object, place_among, plane_among, shape_among};
ghost use Rattle.p416_signature.specs.internal.Seen.{seen_object, own_name, plane_of};
ghost use Rattle.p416_signature.specs.internal.Gathered.{objects_seen, plane_in, number_in, shape_in, sig_among};

use crate::by_name::ByName;
use crate::order::in_order;
use crate::shapes::{plane_name, shape_of};
use match_core::ObjectSig;
use name_numbers::{Numbering, narrow, number_names};
use p4x_bits::{OutOfMemory, Rows, Text};
use p416_names::instance_name;
use p416_syntax::{Decl16, Instance, Local, Table16};
use state_store::Shape;
use std::alloc::Global;

/// An object with its control-plane name.
#[derive(Clone, Copy, Drop)]
pub struct Found<'a> {
    /// The name by which the control plane knows it.
    pub plane: &'a [u8],
    /// What it is declared as.
    pub instance: &'a Instance,
}

/// Puts the objects that a control declares last.
fn add_own<'a>(found: &mut Vec<Found<'a>>, locals: &'a [Local]) -> Result<(), OutOfMemory>
    ensures { OnOk result (map seen_object found.new.items ≡ map seen_object found.old.items ++ filter_map own_object locals.now) }
{
    for declared in locals {
        if let Local::Instance(notes, instance) = declared {
            found.push(Found {
                plane: plane_name(notes.as_slice(), instance_name(instance)),
                instance,
            })?;
        }
    }
    Ok(())
}

/// Puts the objects of a declaration last.
fn add_objects<'a>(found: &mut Vec<Found<'a>>, decl: &'a Decl16) -> Result<(), OutOfMemory>
    ensures { OnOk result (map seen_object found.new.items ≡ map seen_object found.old.items ++ objects_in decl.now) }
{
    match decl {
        Decl16::Instance(notes, instance) => {
            found.push(Found {
                plane: plane_name(notes.as_slice(), instance_name(instance)),
                instance,
            })?;
            Ok(())
        }
        Decl16::Control(control) => add_own(found, control.locals.as_slice()),
        _ => Ok(()),
    }
}

/// The objects of a program, in the order of the text. The one error is want of memory.
pub fn all_objects(alloc: Global, decls: &[Decl16]) -> Result<Vec<Found<'_>>, OutOfMemory>
    ensures { IfOk result (λ found. map seen_object found.items ≡ flat_map objects_in decls.now) }
{
    let mut found = Vec::new(alloc);
    for decl in decls {
        add_objects(&mut found, decl)?;
    }
    Ok(found)
}

/// The objects that are declared at the top.
fn top_objects(alloc: Global, decls: &[Decl16]) -> Result<Vec<Found<'_>>, OutOfMemory>
    ensures { IfOk result (λ found. map seen_object found.items ≡ filter_map top_object decls.now) }
{
    let mut found = Vec::new(alloc);
    for decl in decls {
        if let Decl16::Instance(notes, instance) = decl {
            found.push(Found {
                plane: plane_name(notes.as_slice(), instance_name(instance)),
                instance,
            })?;
        }
    }
    Ok(found)
}

/// The object at a place.
fn object_at<'a>(objects: &[Found<'a>], place: usize) -> Option<Found<'a>>
    ensures { option_map seen_object result ≡ slice_get (map seen_object objects.now) place }
{
    objects.get(place).copied()
}

/// The first object with a name among these names.
fn first<'a>(objects: &[Found<'a>], names: &Numbering<'_>, name: &[u8]) -> Option<Found<'a>>
    ensures { option_map seen_object result ≡ option_and_then (slice_get (map seen_object objects.now)) (find_name names.now name.now) }
{
    match names.find(name) {
        Some(place) => object_at(objects, place as usize),
        None => None,
    }
}

/// The control-plane name of an object, if there is one.
fn plane_of<'a>(found: Option<Found<'a>>) -> Option<&'a [u8]>
    ensures { option_map referred result ≡ option_map plane_of (option_map seen_object found.entry) }
{
    match found {
        Some(object) => Some(object.plane),
        None => None,
    }
}

/// The shape of an object; a meter without cells where there is none.
fn shape_in(found: Option<Found<'_>>) -> Result<Shape, OutOfMemory>
    ensures { IfOk result (λ shape. shape ≡ shape_in (option_map seen_object found.entry)) }
{
    match found {
        Some(object) => shape_of(object.instance),
        None => Ok(Shape::Meter { cells: 0 }),
    }
}

/// The own names of objects, in order.
fn own_names<'a>(alloc: Global, objects: &[Found<'a>]) -> Result<Vec<&'a [u8]>, OutOfMemory>
    ensures { IfOk result (λ names. map (λ name. name.now) names.items ≡ map own_name (map seen_object objects.now)) }
{
    let mut names = Vec::new(alloc);
    for object in objects {
        names.push(instance_name(object.instance).as_slice())?;
    }
    Ok(names)
}

/// The control-plane names of objects, in order.
fn planes<'a>(alloc: Global, objects: &[Found<'a>]) -> Result<Vec<&'a [u8]>, OutOfMemory>
    ensures { IfOk result (λ names. map (λ name. name.now) names.items ≡ map plane_of (map seen_object objects.now)) }
{
    let mut names = Vec::new(alloc);
    for object in objects {
        names.push(object.plane)?;
    }
    Ok(names)
}

/// These objects, found by their own names.
fn by_name<'a>(alloc: Global, objects: Vec<Found<'a>>) -> Result<ByName<'a>, OutOfMemory>
    ensures { IfOk result (λ found. objects_seen found ≡ map seen_object objects.entry.items) }
{
    let names = number_names(alloc, own_names(alloc, &objects)?)?;
    Ok(ByName { names, objects })
}

impl<'a> ByName<'a> {
    /// The objects that a control declares. The one error is want of memory.
    pub fn of_control(alloc: Global, locals: &'a [Local]) -> Result<Self, OutOfMemory>
        ensures { IfOk result (λ found. objects_seen found ≡ filter_map own_object locals.now) }
    {
        let mut objects = Vec::new(alloc);
        add_own(&mut objects, locals)?;
        by_name(alloc, objects)
    }

    /// The control-plane name of the first object with this name.
    #[tactic(auto, using(crate::proofs::Finding::plane_found))]
    fn plane(&self, name: &[u8]) -> Option<&'a [u8]>
        ensures { option_map referred result ≡ plane_among (objects_seen self.now) name.now }
    {
        plane_of(first(&self.objects, &self.names, name))
    }
}

/// The control-plane name of the object that a name in a control means: one of the control's own, else one at the top, else
/// the name itself.
pub fn plane_in<'a>(own: &ByName<'a>, top: &ByName<'a>, name: &'a [u8]) -> &'a [u8]
    ensures { result.now ≡ plane_in (objects_seen own.now) (objects_seen top.now) name.now }
{
    match own.plane(name) {
        Some(plane) => plane,
        None => match top.plane(name) {
            Some(plane) => plane,
            None => name,
        },
    }
}

/// The number of a name among these, or how many there are. The one error is want of memory.
pub fn number_of(numbers: &Numbering<'_>, name: &[u8]) -> Result<u32, OutOfMemory>
    ensures { IfOk result (λ number. number ≡ place_among numbers.now name.now) }
{
    match numbers.find(name) {
        Some(number) => Ok(number),
        None => narrow(numbers.len()),
    }
}

/// The numbers of all objects, by their control-plane names, and the objects at the top by their own.
pub struct Objects<'a> {
    /// The control-plane names of all objects, in the order of their octets.
    pub numbers: Numbering<'a>,
    /// The objects at the top, by their own names.
    pub top: ByName<'a>,
}

impl Drop for Objects<'_> {
    fn drop(self) {
        let Objects {
            numbers: _numbers,
            top: _top,
        } = self;
    }
}

impl<'a> Objects<'a> {
    /// The objects of a program whose control-plane names are these in order. The one error is want of memory.
    pub fn of(
        alloc: Global,
        decls: &'a [Decl16],
        ordered: Vec<&'a [u8]>,
    ) -> Result<Self, OutOfMemory>
        ensures numbers { IfOk result (λ o. o.numbers ≡ map (λ name. name.now) ordered.entry.items) }
        ensures top { IfOk result (λ o. objects_seen o.top ≡ filter_map top_object decls.now) }
    {
        let numbers = number_names(alloc, ordered)?;
        let top = by_name(alloc, top_objects(alloc, decls)?)?;
        Ok(Objects { numbers, top })
    }

    /// The number of the direct counter of a table in a control that declares these objects. The one error is want of
    /// memory.
    pub fn direct(&self, own: &ByName<'a>, table: &'a Table16) -> Result<Option<u32>, OutOfMemory>
        ensures { IfOk result (λ number. number ≡ option_map (number_in self.now (objects_seen own.now)) (counters_of table.now.properties)) }
    {
        match table.counters() {
            Some(name) => {
                let plane = plane_in(own, &self.top, name.as_slice());
                Ok(Some(number_of(&self.numbers, plane)?))
            }
            None => Ok(None),
        }
    }
}

/// The shape of the first object with a control-plane name, where these are the names of the objects in order; a meter
/// without cells where none has it.
#[tactic(auto, using(crate::proofs::Finding::shape_found))]
fn shape_among(
    objects: &[Found<'_>],
    names: &Numbering<'_>,
    name: &[u8],
) -> Result<Shape, OutOfMemory>
    requires { names.now ≡ map plane_of (map seen_object objects.now) }
    ensures { IfOk result (λ shape. shape ≡ shape_among (map seen_object objects.now) name.now) }
{
    let shape = shape_in(first(objects, names, name))?;
    Ok(shape)
}

/// The object with a control-plane name, where these are the names of the objects in order.
fn object_sig(
    alloc: Global,
    objects: &[Found<'_>],
    names: &Numbering<'_>,
    name: &[u8],
) -> Result<ObjectSig, OutOfMemory>
    requires { names.now ≡ map plane_of (map seen_object objects.now) }
    ensures { IfOk result (λ object. object ≡ sig_among (map seen_object objects.now) name.now) }
{
    let shape = shape_among(objects, names, name)?;
    let name = Text::from_slice(alloc, name)?;
    Ok(ObjectSig { name, shape })
}

/// The objects with these control-plane names, in order, where all objects are these. The one error is want of memory.
pub fn object_sigs(
    alloc: Global,
    objects: &[Found<'_>],
    ordered: &[&[u8]],
) -> Result<Rows<ObjectSig>, OutOfMemory>
    ensures { IfOk result (λ sigs. sigs ≡ map (sig_among (map seen_object objects.now)) (map (λ name. name.now) ordered.now)) }
{
    let names = number_names(alloc, planes(alloc, objects)?)?;
    let mut sigs = Rows::new(alloc);
    for name in ordered {
        sigs.push(object_sig(alloc, objects, &names, name)?)?;
    }
    Ok(sigs)
}

/// The control-plane names of these objects in the order of their octets, each once. The one error is want of memory.
pub fn object_names<'a>(alloc: Global, objects: &[Found<'a>]) -> Result<Vec<&'a [u8]>, OutOfMemory>
    ensures { IfOk result (λ names. map (λ name. name.now) names.items ≡ in_order (map plane_of (map seen_object objects.now))) }
{
    let names = planes(alloc, objects)?;
    in_order(alloc, &names)
}
