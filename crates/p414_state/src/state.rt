// The state of a packet.
ghost use Rattle.std.specs.Prelude.{◌≡◌, ℕ, ◌*◌, ◌%◌, ◌^◌, ◌<◌, ◌≤◌, true, false, length, map, IfOk, IsOk, MatchBool, OnErr, OnOk};
ghost use Rattle.p4x_bits.specs.BitLists.{octet_bits};
ghost use Rattle.state_store.specs.Ports.{IsPort};
ghost use Rattle.p414_sem.specs.Slots.{declared};
ghost use Rattle.p414_sem.specs.State.{is_valid, header_at, elements_at, cleared, with_elements, read, place_of, size_of, standard_number, request_of, with_header, with_place, with_standard, with_valid, with_request, with_event, without_events, skipped, written};
ghost use Rattle.p414_sem.specs.Packing.{numbers_in, bits_in};
ghost use Rattle.p414_layout.specs.Placed.{total};
ghost use Rattle.p414_layout.specs.Shapes.{shape_at, element_count, last_place, layout_of};
ghost use Rattle.p414_state.specs.Packets.{Packet, with_state, IsHeader, width_at, standard_bits, new_packet, with_headers_begun};
ghost use Rattle.p414_state.specs.Headers.{header_in, IsPacked, ArePacked, HoldsHeader, HoldsStack, HasElement, IsWhole, FitsAt};
ghost use Rattle.p414_state.specs.internal.Cells.{new_laid, begun_of, renewed_of};

use crate::header::PackedHeader;
use crate::instance::InstanceCells;
use crate::requests::{Requests, get as request_of, with as with_request};
use crate::stack::PackedStack;
use crate::standard::{StandardFields, get as standard_of, with as with_standard};
use fabric::{Event, RequestKind};
use p4x_bits::OutOfMemory;
use p414_layout::Layout;
use p414_sem::{Request14, Standard};
use std::alloc::Global;
use std::marker::Model;

/// The state of a packet under a program: for each instance and each element of a stack whether it is valid and a number
/// for each field, the place of each stack, the octets that aren't parsed yet, the fields of `standard_metadata`, the last
/// request of each kind, and the applications of tables (P4_14 1.0.5, "Headers and Fields", "Standard Intrinsic Metadata",
/// "Parser Specification"; requests and applications are this project's own).
///
/// Instances and fields are named by their numbers in the order of declaration, and an element by its index, which is 0
/// where there is no stack. Metadata is always valid, and the fields of an invalid header are 0. What isn't there is invalid,
/// reads 0 and gets nothing. What takes no memory says so; after want of memory a state is as it was.
pub struct State14 {
    instances: Vec<InstanceCells>,
    octets: Vec<u8>,
    parsed: usize,
    standard: StandardFields,
    requests: Requests,
    events: Vec<Event>,
}

impl Drop for State14 {
    fn drop(self) {
        let State14 {
            instances: _instances,
            octets: _octets,
            parsed: _parsed,
            standard: _standard,
            requests: _requests,
            events: _events,
        } = self;
    }
}

impl Model for State14 {
    ghost use Rattle.p414_state.specs.Packets.{Packet};
    ghost use Rattle.p414_state.specs.internal.Parts.{packet_of, AreParts};

    ghost Value = { Packet };

    ghost view = { λ s. packet_of s.instances.items s.octets.items s.parsed s.standard s.requests s.events.items };

    ghost invariant = { λ s. AreParts s.octets.items s.parsed s.standard };
}

/// No request of any kind.
const NO_REQUESTS: Requests = Requests {
    clone_i2e: None,
    clone_e2e: None,
    resubmit: None,
    recirculate: None,
};

impl State14 {
    /// The number of a field; 0 where its header is invalid, or where there is no such field. It takes no memory.
    pub fn number(&self, instance: u32, element: u32, field: u32) -> u128
        ensures is { result ≡ read self.now.state (declared instance element field) }
        ensures fits { result < 2 ^ width_at self.now.layout instance field }
    {
        match self.instances.get(instance as usize) {
            Some(cells) => cells.number(element, field),
            None => 0,
        }
    }

    /// Whether a header or an element is valid; metadata is, and what isn't there isn't. It takes no memory.
    pub fn valid(&self, instance: u32, element: u32) -> bool
        ensures { result ≡ is_valid self.now.state instance element }
    {
        match self.instances.get(instance as usize) {
            Some(cells) => cells.is_valid(element),
            None => false,
        }
    }

    /// The place of a stack, which is the index of the element that is extracted next; 0 where there is no stack. It
    /// takes no memory.
    pub fn place(&self, instance: u32) -> u32
        ensures is { result ≡ place_of self.now.state instance }
        ensures fits { result ≤ last_place (shape_at self.now.layout instance) }
    {
        match self.instances.get(instance as usize) {
            Some(cells) => cells.place(),
            None => 0,
        }
    }

    /// The greatest place of an instance: the number of elements of a stack, and 0 where there is no stack. It takes no
    /// memory.
    pub fn last_place(&self, instance: u32) -> u32
        ensures { result ≡ last_place (shape_at self.now.layout instance) }
    {
        match self.instances.get(instance as usize) {
            Some(cells) => cells.last_place(),
            None => 0,
        }
    }

    /// How many elements an instance has: those of a stack, or one; 0 where there is no such instance. It takes no memory.
    pub fn size(&self, instance: u32) -> u32
        ensures is { result ≡ size_of self.now.state instance }
        ensures count { result ≡ element_count (shape_at self.now.layout instance) }
    {
        match self.instances.get(instance as usize) {
            Some(cells) => cells.size(),
            None => 0,
        }
    }

    /// How many instances there are. It takes no memory.
    pub fn instances(&self) -> usize
        ensures { result ≡ length self.now.layout }
    {
        self.instances.len()
    }

    /// How many fields an instance has. It takes no memory.
    pub fn fields(&self, instance: u32) -> usize
        ensures { result ≡ length (shape_at self.now.layout instance).widths }
    {
        match self.instances.get(instance as usize) {
            Some(cells) => cells.fields(),
            None => 0,
        }
    }

    /// The bits of all fields of an instance's element. It takes no memory.
    pub fn bits(&self, instance: u32) -> usize
        ensures { result ≡ total (shape_at self.now.layout instance).widths }
    {
        match self.instances.get(instance as usize) {
            Some(cells) => cells.bits(),
            None => 0,
        }
    }

    /// The bits of a field, 0 to 128; 0 where there is no such field. It takes no memory.
    pub fn width(&self, instance: u32, field: u32) -> u8
        ensures is { result ≡ width_at self.now.layout instance field }
        ensures fits { result ≤ 128 }
    {
        match self.instances.get(instance as usize) {
            Some(cells) => cells.width(field),
            None => 0,
        }
    }

    /// Whether an instance is metadata, which is always valid. It takes no memory.
    pub fn is_metadata(&self, instance: u32) -> bool
        ensures { result ≡ (shape_at self.now.layout instance).metadata }
    {
        match self.instances.get(instance as usize) {
            Some(cells) => cells.is_metadata(),
            None => false,
        }
    }

    /// A field of `standard_metadata`. It takes no memory.
    pub fn standard(&self, field: Standard) -> u32
        ensures is { result ≡ standard_number self.now.state field }
        ensures fits { result < 2 ^ standard_bits field }
    {
        standard_of(self.standard, field)
    }

    /// The octets that aren't parsed yet. It takes no memory.
    pub fn unparsed(&self) -> &[u8]
        ensures { result.now ≡ self.now.state.unparsed }
    {
        &self.octets[self.parsed..]
    }

    /// The last request of a kind; None exactly where none stands. It takes no memory.
    pub fn request(&self, kind: RequestKind) -> Option<Request14>
        ensures { result ≡ request_of self.now.state kind }
    {
        request_of(self.requests, kind)
    }

    /// The applications of tables since `clear_events`, in order. It takes no memory.
    pub fn events(&self) -> &[Event]
        ensures { result.now ≡ self.now.state.events }
    {
        &self.events
    }

    /// Whether there is such an instance.
    fn has(&self, instance: u32) -> bool
        ensures { MatchBool result (instance < length self.now.layout) (length self.now.layout ≤ instance) }
    {
        (instance as usize) < self.instances.len()
    }

    /// Puts a number into a field; nothing where its header is invalid, or where there is no such field. It takes no
    /// memory and can't fail.
    pub fn put_number(
        &mut self,
        instance: u32,
        element: u32,
        field: u32,
        value: u128,
    ) -> Result<(), OutOfMemory>
        requires { value < 2 ^ width_at self.old.layout instance field }
        ensures done { IsOk result }
        ensures put { self.new ≡ with_state self.old (written self.old.state (declared instance element field) value) }
    {
        if self.has(instance) {
            self.instances[instance as usize].put(element, field, value);
        }
        Ok(())
    }

    /// Makes a header valid or invalid. Where that changes its validity, its fields become 0, and else nothing changes;
    /// nor does it where there is no such header. It takes no memory and can't fail.
    pub fn put_valid(&mut self, instance: u32, element: u32, on: bool) -> Result<(), OutOfMemory>
        requires { IsHeader self.old.layout instance }
        ensures done { IsOk result }
        ensures put { self.new ≡ with_state self.old (with_valid self.old.state instance element on) }
    {
        if self.has(instance) {
            self.instances[instance as usize].put_valid(element, on);
        }
        Ok(())
    }

    /// Makes a header valid or invalid, with all fields 0; nothing where there is no such header. It takes no memory.
    pub fn clear_header(&mut self, instance: u32, element: u32, valid: bool)
        requires { IsHeader self.old.layout instance }
        ensures { self.new ≡ with_state self.old (with_header self.old.state instance element (cleared valid (header_at self.old.state instance element))) }
    {
        if self.has(instance) {
            self.instances[instance as usize].put_cleared(element, valid);
        }
    }

    /// A copy of a header. The one error is want of memory.
    pub fn header(
        &self,
        alloc: Global,
        instance: u32,
        element: u32,
    ) -> Result<PackedHeader, OutOfMemory>
        requires { HasElement self.now.layout instance element }
        ensures { IfOk result (HoldsHeader (shape_at self.now.layout instance) (header_at self.now.state instance element)) }
    {
        self.instances[instance as usize].element(alloc, element)
    }

    /// Puts a header in the place of one; nothing where there is no such header. It takes no memory.
    pub fn put_header(&mut self, instance: u32, element: u32, header: &PackedHeader)
        requires { IsPacked (shape_at self.old.layout instance) header.now }
        ensures { self.new ≡ with_state self.old (with_header self.old.state instance element (header_in (shape_at self.old.layout instance).widths header.now)) }
    {
        if self.has(instance) {
            self.instances[instance as usize].put_element(element, header);
        }
    }

    /// A copy of the elements of an instance; none where there is no such instance. The one error is want of memory.
    pub fn stack(&self, alloc: Global, instance: u32) -> Result<PackedStack, OutOfMemory>
        ensures { IfOk result (HoldsStack (shape_at self.now.layout instance) (elements_at self.now.state instance)) }
    {
        match self.instances.get(instance as usize) {
            Some(cells) => cells.elements(alloc),
            None => Ok(PackedStack::of(Vec::new(alloc))),
        }
    }

    /// Puts other elements in the place of those of an instance. It takes no memory.
    pub fn put_stack(&mut self, instance: u32, stack: PackedStack)
        requires { ArePacked (shape_at self.old.layout instance) stack }
        ensures { self.new ≡ with_state self.old (with_elements self.old.state instance (map (header_in (shape_at self.old.layout instance).widths) stack)) }
    {
        if self.has(instance) {
            self.instances[instance as usize].put_elements(stack);
        }
    }

    /// The octets of a header: the bits of its fields, first field first, where these are whole octets; none where there is
    /// no such header. It takes no memory.
    pub fn octets(&self, instance: u32, element: u32) -> &[u8]
        ensures { IsWhole self.now.layout instance element → octet_bits result.now ≡ bits_in (shape_at self.now.layout instance).widths (header_at self.now.state instance element).numbers }
    {
        match self.instances.get(instance as usize) {
            Some(cells) => cells.octets(element),
            None => &[],
        }
    }

    /// An instance is as its shape tells, whatever was done with the state. It does nothing.
    pub fn fits(&self, instance: u32)
        ensures { FitsAt self.now instance }
    {
        if let Some(cells) = self.instances.get(instance as usize) {
            cells.fits();
        }
    }

    /// Puts a field of `standard_metadata`. It takes no memory and can't fail.
    pub fn put_standard(&mut self, field: Standard, value: u32) -> Result<(), OutOfMemory>
        requires { value < 2 ^ standard_bits field }
        ensures done { IsOk result }
        ensures put { self.new ≡ with_state self.old (with_standard self.old.state field value) }
    {
        self.standard = with_standard(self.standard, field, value);
        Ok(())
    }

    /// Puts the place of a stack, at most its size; 0 where there is no stack. It takes no memory and can't fail.
    pub fn put_place(&mut self, instance: u32, place: u32) -> Result<(), OutOfMemory>
        requires { place ≤ last_place (shape_at self.old.layout instance) }
        ensures done { IsOk result }
        ensures put { self.new ≡ with_state self.old (with_place self.old.state instance place) }
    {
        if self.has(instance) {
            self.instances[instance as usize].put_place(place);
        }
        Ok(())
    }

    /// Takes so many octets off the front of those that aren't parsed. It takes no memory and can't fail.
    pub fn skip(&mut self, octets: usize) -> Result<(), OutOfMemory>
        requires { octets ≤ length self.old.state.unparsed }
        ensures done { IsOk result }
        ensures skipped { self.new ≡ with_state self.old (skipped self.old.state octets) }
    {
        self.parsed += octets;
        Ok(())
    }

    /// Puts the request of a kind, or none. It takes no memory and can't fail.
    pub fn put_request(
        &mut self,
        kind: RequestKind,
        request: Option<Request14>,
    ) -> Result<(), OutOfMemory>
        ensures done { IsOk result }
        ensures put { self.new ≡ with_state self.old (with_request self.old.state kind request) }
    {
        self.requests = with_request(self.requests, kind, request);
        Ok(())
    }

    /// Notes an application of a table. The one error is want of memory, and the state is then as it was.
    pub fn push_event(&mut self, event: Event) -> Result<(), OutOfMemory>
        ensures ok { OnOk result (self.new ≡ with_state self.old (with_event self.old.state event)) }
        ensures err { OnErr result (self.new ≡ self.old) }
    {
        self.events.push(event)?;
        Ok(())
    }

    /// Forgets the applications of tables. It takes no memory.
    pub fn clear_events(&mut self)
        ensures { self.new ≡ with_state self.old (without_events self.old.state) }
    {
        self.events.clear();
    }

    /// Makes a header valid, with the next bits that aren't parsed as its fields, first field first; nothing where there
    /// is no such header. Nothing is taken off these bits. It takes no memory.
    pub fn fill(&mut self, instance: u32, element: u32)
        requires { total (shape_at self.old.layout instance).widths ≤ 8 * length self.old.state.unparsed }
        ensures { self.new ≡ with_state self.old (with_header self.old.state instance element (record { valid = true; numbers = numbers_in (shape_at self.old.layout instance).widths (octet_bits self.old.state.unparsed) })) }
    {
        if self.has(instance) {
            self.instances[instance as usize].fill(element, &self.octets[self.parsed..]);
        }
    }

    /// Makes all headers invalid, with all fields 0, and all places 0. Metadata stays. It takes no memory.
    pub fn clear_headers(&mut self)
        ensures { self.new ≡ with_state self.old (with_headers_begun self.old) }
    {
        begin_all(&mut self.instances);
    }

    /// The same state again, with the same applications of tables. The one error is want of memory.
    pub fn copy(&self, alloc: Global) -> Result<State14, OutOfMemory>
        ensures { IfOk result (λ state. state ≡ self.now) }
    {
        let mut instances = Vec::with_capacity(alloc, self.instances.len())?;
        for cells in &self.instances {
            instances.push(cells.copy(alloc)?)?;
        }
        Ok(State14 {
            instances,
            octets: Vec::from_slice(alloc, &self.octets[self.parsed..])?,
            parsed: 0,
            standard: self.standard,
            requests: self.requests,
            events: Vec::from_slice(alloc, &self.events)?,
        })
    }
}

/// Makes all headers invalid, with all fields 0, and all places 0.
fn begin_all(instances: &mut Vec<InstanceCells>)
    ensures { instances.new.items ≡ map begun_of instances.old.items }
{
    for index in 0..instances.len() {
        instances[index].begin();
    }
}

/// Makes all instances those of a state in which nothing is parsed.
fn renew_all(instances: &mut Vec<InstanceCells>)
    ensures { instances.new.items ≡ map renewed_of instances.old.items }
{
    for index in 0..instances.len() {
        instances[index].renew();
    }
}

/// How many octets there are, as a field of 32 bits keeps it.
fn length_of(octets: &[u8]) -> u32
    ensures { result ≡ length octets.now % 2 ^ 32 }
{
    (octets.len() as u64 % 0x1_0000_0000) as u32
}

/// The instances of a layout, in which nothing is parsed.
fn instances_of(alloc: Global, layout: &Layout) -> Result<Vec<InstanceCells>, OutOfMemory>
    ensures { IfOk result (λ instances. instances.items ≡ map new_laid layout.now) }
{
    let mut instances = Vec::new(alloc);
    let shapes = layout.shapes();
    for shape in shapes {
        instances.push(InstanceCells::new(alloc, shape.copy(alloc)?)?)?;
    }
    Ok(instances)
}

impl State14 {
    /// The state of an item of these octets, that came in on this port, of this kind: nothing is parsed, all headers are
    /// invalid, all metadata is 0, and nothing is requested. The one error is want of memory.
    pub fn of_layout(
        alloc: Global,
        layout: &Layout,
        octets: &[u8],
        port: u16,
        kind: u32,
    ) -> Result<State14, OutOfMemory>
        requires { IsPort port }
        ensures { IfOk result (λ state. state ≡ new_packet layout.now octets.now port kind) }
    {
        let instances = instances_of(alloc, layout)?;
        let kept = Vec::from_slice(alloc, octets)?;
        let length = length_of(octets);
        Ok(State14 {
            instances,
            octets: kept,
            parsed: 0,
            standard: StandardFields {
                ingress_port: port as u32,
                egress_spec: 0,
                egress_port: 0,
                packet_length: length,
                instance_type: kind,
            },
            requests: NO_REQUESTS,
            events: Vec::new(alloc),
        })
    }

    /// Makes it the state of another item of these octets, that came in on this port, of this kind, as `of_layout` makes one anew
    /// for the same layout; the memory is used again. The one error is want of memory, and the state isn't used again after it.
    pub fn renew(&mut self, octets: &[u8], port: u16, kind: u32) -> Result<(), OutOfMemory>
        requires { IsPort port }
        ensures { OnOk result (self.new ≡ new_packet self.old.layout octets.now port kind) }
    {
        renew_all(&mut self.instances);
        self.parsed = 0;
        self.octets.clear();
        self.octets.extend_from_slice(octets)?;
        self.standard = StandardFields {
            ingress_port: port as u32,
            egress_spec: 0,
            egress_port: 0,
            packet_length: length_of(octets),
            instance_type: kind,
        };
        self.requests = NO_REQUESTS;
        self.events.clear();
        Ok(())
    }
}
