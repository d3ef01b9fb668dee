// How many fields and octets of headers the values of each type have.
ghost use Rattle.std.specs.Prelude.{◌≡◌, false, IfOk, MatchOption};
ghost use Rattle.digraph.specs.Components.{AreComponents};
ghost use Rattle.digraph.specs.Expansions.{HasCycle};
ghost use Rattle.p416_syntax.specs.Declarations.{layouts_of};
ghost use Rattle.p416_syntax.specs.Totals.{fields_of_kind, octets_of_kind};
ghost use Rattle.p416_syntax.specs.Unknown.{declares_twice, struct_graph};
ghost use Rattle.p416_names.specs.SeenKinds.{seen_kind};
ghost use Rattle.p416_type_totals.specs.Limit.{up_to};
ghost use Rattle.p416_type_totals.specs.internal.Sized.{of_kind};
ghost use Rattle.p416_type_totals.specs.internal.Written.{IsTable};

use crate::graph::struct_graph;
use crate::headers::Headers;
use crate::measure::Measure;
use crate::structs::{size_of_kind, structs_of};
use crate::types::Types;
use digraph::Components;
use p4x_bits::OutOfMemory;
use p416_names::{Kind, Top};
use std::alloc::Global;
use std::marker::Model;

/// What the values of the declared types count by a measure.
struct Table {
    headers: Headers,
    structs: Vec<u128>,
}

impl Drop for Table {
    fn drop(self) {
        let Table {
            headers: _headers,
            structs: _structs,
        } = self;
    }
}

/// How many fields and how many octets of headers a value of each type of a program has. Contracts see the declarations of
/// the program.
pub struct TypeTotals<'t, 'a> {
    types: Types<'t, 'a>,
    fields: Table,
    octets: Table,
}

impl Drop for TypeTotals<'_, '_> {
    fn drop(self) {
        let TypeTotals {
            types: _types,
            fields: _fields,
            octets: _octets,
        } = self;
    }
}

impl<'t, 'a> Model for TypeTotals<'t, 'a> {
    ghost use Rattle.std.specs.Prelude.{◌≡◌, List};
    ghost use Rattle.std.specs.Coded.{codes};
    ghost use Rattle.p416_syntax.specs.contracts.program.Decl16 as declaration;
    ghost use Rattle.p416_syntax.specs.declared.program.Decl16.{Decl16};
    ghost use Rattle.p416_type_totals.specs.declared.measure.Measure.TheVariants as measure;
    ghost use Rattle.p416_type_totals.specs.internal.Written.{IsTable};

    ghost Value = { List Decl16 };

    ghost coded = { Prim.hlevel (codes, declaration.the_row.coded) };

    ghost view = { λ t. t.types };

    ghost invariant = { λ t. IsTable measure.Fields t.types t.fields × IsTable measure.Octets t.types t.octets };
}

/// What the values of the declared types count by a measure, where no struct holds itself.
fn table_of(
    alloc: Global,
    types: &Types<'_, '_>,
    measure: Measure,
    components: &Components,
) -> Result<Table, OutOfMemory>
    requires once { declares_twice types.now ≡ false }
    requires components { AreComponents (struct_graph types.now) components.now }
    requires acyclic { HasCycle (struct_graph types.now) → ⊥ }
    ensures { IfOk result (IsTable measure types.now) }
{
    let headers = Headers::of(alloc, types, measure)?;
    let structs = structs_of(alloc, types, &headers, components)?;
    Ok(Table { headers, structs })
}

/// What a value of a kind counts, but at most the limit.
#[tactic(auto, using(crate::proofs::Looking::looked_is))]
fn total(types: &Types<'_, '_>, table: &Table, kind: Kind<'_>) -> u128
    requires { IsTable table.now.headers.measure types.now table.now }
    ensures { result ≡ up_to (of_kind table.now.headers.measure (layouts_of types.now) (seen_kind kind.entry)) }
{
    size_of_kind(types, &table.headers, &table.structs, kind)
}

impl<'t, 'a> TypeTotals<'t, 'a> {
    /// What the values of the types of a program count that declares no name twice at the top; None exactly where a struct
    /// holds itself, through others or directly, a part of what T1 forbids. In time linear in the declarations, but for the
    /// look-ups; the one error is want of memory.
    pub fn of(alloc: Global, top: &'t Top<'a>) -> Result<Option<Self>, OutOfMemory>
        requires { declares_twice top.now ≡ false }
        ensures { IfOk result (λ found. MatchOption found (HasCycle (struct_graph top.now)) (λ totals. (totals ≡ top.now) × (HasCycle (struct_graph top.now) → ⊥))) }
    {
        let types = Types::of(alloc, top)?;
        let graph = struct_graph(alloc, &types)?;
        let components = Components::of(alloc, &graph)?;
        if components.least_on_cycle(&graph).is_some() {
            return Ok(None);
        }
        let fields = table_of(alloc, &types, Measure::Fields, &components)?;
        let octets = table_of(alloc, &types, Measure::Octets, &components)?;
        Ok(Some(TypeTotals {
            types,
            fields,
            octets,
        }))
    }

    /// How many fields a value of a kind has, but at most the limit.
    pub fn fields(&self, kind: Kind<'_>) -> u128
        ensures { result ≡ up_to (fields_of_kind (layouts_of self.now) (seen_kind kind.entry)) }
    {
        total(&self.types, &self.fields, kind)
    }

    /// How many octets of headers a value of a kind has, but at most the limit.
    pub fn octets(&self, kind: Kind<'_>) -> u128
        ensures { result ≡ up_to (octets_of_kind (layouts_of self.now) (seen_kind kind.entry)) }
    {
        total(&self.types, &self.octets, kind)
    }
}
