// A program that is made ready once for a run.
ghost use Rattle.std.specs.Prelude.{◌≡◌, IfOk, IfSome, OnOk};
ghost use Rattle.state_store.specs.Ports.{IsPort};
ghost use Rattle.match_core.specs.Fits.{Fits};
ghost use Rattle.match_core.specs.Signatures.{IsSignature};
ghost use Rattle.match_core.specs.Stores.{shapes_of};
ghost use Rattle.p414_layout.specs.Shapes.{layout_of};
ghost use Rattle.p414_act_run.specs.Moments.{moment};
ghost use Rattle.p414_sem.specs.CalculatedFields.{fails_verification, updated};
ghost use Rattle.p414_sem.specs.Controls.{control_run};
ghost use Rattle.p414_sem.specs.Expanded.{IsExpanded};
ghost use Rattle.p414_sem.specs.Parsing.{parsed};
ghost use Rattle.p414_sem.specs.Passes.{begins, cloned, deparsed, held_of, is_accepted, none_preserved, preserved_by};
ghost use Rattle.p414_sem.specs.Signatures.{signature14};
ghost use Rattle.p414_passes.specs.Leaving.{AreWhole};
ghost use Rattle.p414_passes.specs.Kept.{FitsKept};
ghost use Rattle.p414_pipe_run.specs.Held.{packed};
ghost use Rattle.p414_pipe_run.specs.Prepared.{comes_to, setting_of};

use crate::held::Held14;
use fabric::Item;
use match_core::{Entries, Signature};
use p4x_bits::{Octets, OutOfMemory, Rows};
use p414_act_run::{Calculations, calculations14};
use p414_body_check::Program14;
use p414_calculated_fields::{CalculatedFields, calculated_fields14};
use p414_control_run::{ControlStack, ReadyPipelines, ready_pipelines};
use p414_field_lists::{FieldLists, field_lists14};
use p414_layout::Layout;
use p414_parse_run::{Parsed, parse_ready, ready14};
use p414_passes::{
    Kept14, are_whole, begin_again, begin_item, clone_packet, deparse, header_order,
};
use p414_ready_parser::ReadyParser;
use p414_state::{State14, layout14};
use p414_syntax::Rule14;
use state_store::Store;
use std::alloc::Global;
use std::marker::Model;

/// A program with what fills its tables, under a rule, made ready to run packets: a packet's run looks up no name. Contracts see the
/// declarations, the rule, the entries, and the order in which headers leave.
pub struct ReadyProgram14<'r> {
    pipelines: ReadyPipelines<'r>,
    parser: ReadyParser,
    layout: Layout,
    order: Rows<u32>,
    lists: FieldLists,
    fields: CalculatedFields,
    calculations: Calculations,
}

impl Drop for ReadyProgram14<'_> {
    fn drop(self) {
        let ReadyProgram14 {
            pipelines: _pipelines,
            parser: _parser,
            layout: _layout,
            order: _order,
            lists: _lists,
            fields: _fields,
            calculations: _calculations,
        } = self;
    }
}

impl<'r> Model for ReadyProgram14<'r> {
    ghost use Rattle.std.specs.Coded.{codes};
    ghost use Rattle.p414_syntax.specs.contracts.syntax.Decl as declaration;
    ghost use Rattle.p414_pipe_run.specs.Prepared.{Prepared};
    ghost use Rattle.p414_pipe_run.specs.internal.Ready.{AreParts};

    ghost Value = { Prepared };

    ghost coded = { Prim.hlevel (codes, declaration.the_row.coded) };

    ghost view = { λ r. record { loaded = r.pipelines; order = r.order } };

    ghost invariant = { λ r. AreParts (record { loaded = r.pipelines; order = r.order }) r.parser r.layout r.lists r.fields r.calculations };
}

/// Whether parsing reached the control `ingress`.
fn is_accepted(end: Parsed) -> bool
    ensures { result ≡ is_accepted end }
{
    match end {
        Parsed::Accepted => true,
        Parsed::OutOfPacket | Parsed::OutOfBounds | Parsed::UnhandledSelect => false,
    }
}

/// What the instances of a program are made of, where its headers are whole octets, as they are in each program that breaks no rule.
fn whole_layout(alloc: Global, program: &Program14) -> Result<Layout, OutOfMemory>
    ensures is { IfOk result (λ layout. layout ≡ layout_of program.now.decls) }
    ensures whole { IfOk result AreWhole }
{
    let layout = layout14(alloc, program)?;
    if are_whole(layout.shapes()) {
        Ok(layout)
    } else {
        Err(OutOfMemory)
    }
}

/// A program with these entries, made ready under this rule for a run that begins with this store. The one error is want of memory.
pub fn ready_program14<'r>(
    alloc: Global,
    program: &'r Program14,
    rule: Rule14,
    signature: &Signature,
    entries: &'r Entries,
    store: &Store,
) -> Result<ReadyProgram14<'r>, OutOfMemory>
    requires signature { signature.now ≡ signature14 program.now.decls }
    requires well_formed { IsSignature signature.now }
    requires fits { Fits entries.now signature.now }
    requires shapes { store.now.shapes ≡ shapes_of signature.now entries.now }
    ensures loaded { IfOk result (λ ready. ready.loaded ≡ record { decls = program.now.decls; rule = rule; entries = entries.now }) }
    ensures expanded { IfOk result (λ ready. IsExpanded program.now.decls (comes_to ready)) }
{
    let order = header_order(alloc, program)?;
    let layout = whole_layout(alloc, program)?;
    let parser = ready14(alloc, program)?;
    let lists = field_lists14(alloc, program)?;
    let fields = calculated_fields14(alloc, program)?;
    let calculations = calculations14(alloc, program)?;
    let pipelines = ready_pipelines(alloc, program, rule, signature, entries, store)?;
    // It breaks no rule, so it comes to something.
    let _accepted = program.syntax();
    Ok(ReadyProgram14 {
        pipelines,
        parser,
        layout,
        order,
        lists,
        fields,
        calculations,
    })
}

impl<'r> ReadyProgram14<'r> {
    /// What is preserved where nothing is. The one error is want of memory.
    #[tactic(auto, using(crate::proofs::Steps::fits_now))]
    pub(crate) fn nothing(&self, alloc: Global) -> Result<Kept14, OutOfMemory>
        ensures is { IfOk result (λ kept. kept ≡ none_preserved self.now.loaded.decls) }
        ensures fits { IfOk result (FitsKept (layout_of self.now.loaded.decls)) }
    {
        let kept = Kept14::nothing(alloc, self.layout.shapes())?;
        Ok(kept)
    }

    /// What a request with this list preserves of a packet. The one error is want of memory.
    #[tactic(auto, using(crate::proofs::Steps::fits_now, crate::proofs::Steps::shapes_now))]
    pub(crate) fn preserve(
        &self,
        alloc: Global,
        list: Option<u32>,
        packet: &State14,
    ) -> Result<Kept14, OutOfMemory>
        requires { packet.now.layout ≡ layout_of self.now.loaded.decls }
        ensures is { IfOk result (λ kept. kept ≡ preserved_by self.now.loaded.decls (comes_to self.now) packet.now.state list) }
        ensures fits { IfOk result (FitsKept (layout_of self.now.loaded.decls)) }
    {
        let kept = Kept14::of_list(alloc, self.layout.shapes(), &self.lists, list, packet)?;
        Ok(kept)
    }

    /// The clone of a packet behind egress that a request with this list asks for. The one error is want of memory.
    #[tactic(auto, using(crate::proofs::Steps::shapes_now, crate::proofs::Steps::whole_there, crate::proofs::Steps::kept_there))]
    pub(crate) fn clone_for(
        &self,
        alloc: Global,
        list: Option<u32>,
        packet: &State14,
    ) -> Result<State14, OutOfMemory>
        requires { packet.now.layout ≡ layout_of self.now.loaded.decls }
        ensures { IfOk result (λ clone. clone ≡ record { layout = layout_of self.now.loaded.decls; state = (cloned self.now.loaded.decls (preserved_by self.now.loaded.decls (comes_to self.now) packet.now.state list) packet.now.state).state }) }
    {
        let kept = Kept14::of_list(alloc, self.layout.shapes(), &self.lists, list, packet)?;
        let clone = clone_packet(alloc, packet, &kept)?;
        Ok(clone)
    }

    /// The state of an item as its pass begins, made anew. The one error is want of memory.
    #[tactic(auto, using(crate::proofs::Steps::whole_now, crate::proofs::Steps::kept_here))]
    fn begin_anew(&self, alloc: Global, item: &Item<Kept14>) -> Result<State14, OutOfMemory>
        requires port { IsPort item.now.port }
        requires kept { FitsKept (layout_of self.now.loaded.decls) item.now.kept }
        ensures { IfOk result (λ state. state ≡ record { layout = layout_of self.now.loaded.decls; state = begins self.now.loaded.decls item.now }) }
    {
        let state = begin_item(
            alloc,
            &self.layout,
            item.octets.as_slice(),
            item.port,
            item.instance,
            &item.kept,
        )?;
        Ok(state)
    }

    /// The same in the memory of a state that isn't used any more.
    fn begin_in(&self, spare: State14, item: &Item<Kept14>) -> Result<State14, OutOfMemory>
        requires port { IsPort item.now.port }
        requires kept { FitsKept (layout_of self.now.loaded.decls) item.now.kept }
        requires spare { spare.layout ≡ layout_of self.now.loaded.decls }
        ensures { IfOk result (λ state. state ≡ record { layout = layout_of self.now.loaded.decls; state = begins self.now.loaded.decls item.now }) }
    {
        let mut state = spare;
        // The program's headers are whole octets.
        let _layout = &self.layout;
        begin_again(
            &mut state,
            item.octets.as_slice(),
            item.port,
            item.instance,
            &item.kept,
        )?;
        Ok(state)
    }

    /// The state of an item as its pass begins, in the memory of one that isn't used any more, where there is such.
    fn begin(
        &self,
        alloc: Global,
        spare: Option<State14>,
        item: &Item<Kept14>,
    ) -> Result<State14, OutOfMemory>
        requires port { IsPort item.now.port }
        requires kept { FitsKept (layout_of self.now.loaded.decls) item.now.kept }
        requires spare { IfSome spare (λ state. state.layout ≡ layout_of self.now.loaded.decls) }
        ensures { IfOk result (λ state. state ≡ record { layout = layout_of self.now.loaded.decls; state = begins self.now.loaded.decls item.now }) }
    {
        match spare {
            Some(spare) => self.begin_in(spare, item),
            None => self.begin_anew(alloc, item),
        }
    }

    /// Parses an item, in the memory of a state that isn't used any more, where there is such. The one error is want of memory.
    pub(crate) fn hold(
        &self,
        alloc: Global,
        spare: Option<State14>,
        item: &Item<Kept14>,
    ) -> Result<Held14, OutOfMemory>
        requires port { IsPort item.now.port }
        requires kept { FitsKept (layout_of self.now.loaded.decls) item.now.kept }
        requires spare { IfSome spare (λ state. state.layout ≡ layout_of self.now.loaded.decls) }
        ensures { IfOk result (λ held. held ≡ packed self.now.loaded.decls (held_of (parsed self.now.loaded.decls (begins self.now.loaded.decls item.now)))) }
    {
        let mut packet = self.begin(alloc, spare, item)?;
        let end = parse_ready(&self.parser, &mut packet)?;
        Ok(Held14 {
            packet,
            failed: !is_accepted(end),
        })
    }

    /// Whether verification of a packet raises `p4_pe_checksum`. The one error is want of memory.
    #[tactic(auto, using(crate::proofs::Steps::fails_now))]
    pub(crate) fn fails(&self, alloc: Global, packet: &State14) -> Result<bool, OutOfMemory>
        ensures { IfOk result (λ fails. fails ≡ fails_verification self.now.loaded.decls (comes_to self.now) packet.now.state) }
    {
        let fails = self.fields.fail(alloc, &self.calculations, packet)?;
        Ok(fails)
    }

    /// The octets of a packet that leaves: its calculated fields are updated, and it is put together. The one error is want of
    /// memory.
    #[tactic(auto, using(crate::proofs::Steps::whole_behind, crate::proofs::Steps::updated_now))]
    pub(crate) fn leave(&self, alloc: Global, packet: &mut State14) -> Result<Octets, OutOfMemory>
        requires { packet.old.layout ≡ layout_of self.now.loaded.decls }
        ensures is { IfOk result (λ out. out ≡ deparsed self.now.loaded.decls (comes_to self.now) (updated self.now.loaded.decls (comes_to self.now) packet.old.state)) }
        ensures layout { OnOk result (packet.new.layout ≡ packet.old.layout) }
    {
        self.fields.update(alloc, &self.calculations, packet)?;
        let out = deparse(alloc, packet, self.order.as_slice())?;
        Ok(out)
    }
}

impl<'r> ReadyProgram14<'r> {
    /// The control `ingress` runs on a packet and on the counters, registers and meters. The one error is want of memory, and packet and
    /// store aren't used again after it.
    pub(crate) fn run_ingress<'s>(
        &'s self,
        alloc: Global,
        stack: &mut ControlStack<'s>,
        packet: &mut State14,
        store: &mut Store,
    ) -> Result<(), OutOfMemory>
        requires layout { packet.old.layout ≡ layout_of self.now.loaded.decls }
        requires shapes { store.old.shapes ≡ shapes_of (signature14 self.now.loaded.decls) self.now.loaded.entries }
        ensures layout { OnOk result (packet.new.layout ≡ packet.old.layout) }
        ensures shapes { OnOk result (store.new.shapes ≡ store.old.shapes) }
        ensures runs { OnOk result (moment packet.new store.new ≡ control_run (setting_of self.now) (comes_to self.now).ingress (moment packet.old store.old)) }
    {
        self.pipelines.run_ingress(alloc, stack, packet, store)?;
        Ok(())
    }

    /// The same of the control `egress`, if there is one.
    pub(crate) fn run_egress<'s>(
        &'s self,
        alloc: Global,
        stack: &mut ControlStack<'s>,
        packet: &mut State14,
        store: &mut Store,
    ) -> Result<(), OutOfMemory>
        requires layout { packet.old.layout ≡ layout_of self.now.loaded.decls }
        requires shapes { store.old.shapes ≡ shapes_of (signature14 self.now.loaded.decls) self.now.loaded.entries }
        ensures layout { OnOk result (packet.new.layout ≡ packet.old.layout) }
        ensures shapes { OnOk result (store.new.shapes ≡ store.old.shapes) }
        ensures runs { OnOk result (moment packet.new store.new ≡ control_run (setting_of self.now) (comes_to self.now).egress (moment packet.old store.old)) }
    {
        self.pipelines.run_egress(alloc, stack, packet, store)?;
        Ok(())
    }
}
