// C22: which actions come to requests that are made in one pipeline alone, and which tables list such actions.
ghost use Rattle.std.specs.Prelude.{◌≡◌, ◌++◌, map, nat_lt, option_to_list, slice_index, IfOk, OnOk};
ghost use Rattle.std.specs.List.{list_any};
ghost use Rattle.digraph.specs.Components.{AreComponents};
ghost use Rattle.digraph.specs.Expansions.{AreSizes};
ghost use Rattle.p414_syntax.specs.Actions.{ActionCallsItself};
ghost use Rattle.p414_syntax.specs.Names.{has_name};
ghost use Rattle.p414_syntax.specs.Tables.{table_in};
ghost use Rattle.p414_pipeline_check.specs.internal.Requests.{AreListed, action_graph, all_calls, any_request, is_request, lists_request, names_request, own_requests, primitives_of, tables_with_requests};

use digraph::{Components, Digraph};
use p4x_bits::{OutOfMemory, Text};
use p414_calls::{ActionCalls, Invocation, action_number};
use p414_names::{Names14, is_among};
use p414_syntax::Decl;
use std::alloc::Global;

/// Which requests are meant.
#[derive(Clone, Copy, Drop)]
pub enum Kind {
    /// Those that are made in ingress alone.
    OfIngress,
    /// Those that are made in egress alone.
    OfEgress,
}

const INGRESS_REQUESTS: [&[u8]; 3] = [b"resubmit", b"clone_ingress_pkt_to_egress", b"clone_i2e"];

const EGRESS_REQUESTS: [&[u8]; 3] = [b"recirculate", b"clone_egress_pkt_to_egress", b"clone_e2e"];

/// Whether a name is that of a primitive that makes such a request.
fn names_primitive(kind: Kind, name: &[u8]) -> bool
    ensures { result ≡ has_name (primitives_of kind) name.now }
{
    match kind {
        Kind::OfIngress => is_among(name, &INGRESS_REQUESTS),
        Kind::OfEgress => is_among(name, &EGRESS_REQUESTS),
    }
}

/// Whether a call makes such a request by itself.
fn is_request(names: &Names14<'_>, kind: Kind, call: &Invocation<'_>) -> bool
    ensures { result ≡ is_request names.now (primitives_of kind) call.now }
{
    action_number(names, call.callee()).is_none() && names_primitive(kind, call.callee())
}

/// Whether one of these calls does.
fn some_request(names: &Names14<'_>, kind: Kind, calls: &[Invocation<'_>]) -> bool
    ensures { result ≡ list_any (is_request names.now (primitives_of kind)) calls.now }
{
    for call in calls {
        if is_request(names, kind, call) {
            return true;
        }
    }
    false
}

/// 1 where one of the calls of an action does, and else 0.
fn any_request(names: &Names14<'_>, kind: Kind, calls: &ActionCalls<'_>) -> u64
    ensures { result ≡ any_request names.now (primitives_of kind) calls.now }
{
    if some_request(names, kind, calls.as_slice()) {
        1
    } else {
        0
    }
}

/// The same of each action.
fn own_requests(
    alloc: Global,
    names: &Names14<'_>,
    kind: Kind,
    calls: &[ActionCalls<'_>],
) -> Result<Vec<u64>, OutOfMemory>
    ensures { IfOk result (λ found. found.items ≡ own_requests names.now (primitives_of kind) calls.now) }
{
    let mut found = Vec::new(alloc);
    for action in calls {
        found.push(any_request(names, kind, action))?;
    }
    Ok(found)
}

/// For each action 1 where it comes to such a request, and else 0.
fn request_sizes(
    alloc: Global,
    graph: &Digraph,
    components: &Components,
    own: &[u64],
    names: &Names14<'_>,
    kind: Kind,
) -> Result<Vec<u64>, OutOfMemory>
    requires graph { graph.now ≡ action_graph names.now }
    requires components { AreComponents graph.now components.now }
    requires own { own.now ≡ own_requests names.now (primitives_of kind) (all_calls names.now) }
    requires acyclic { ActionCallsItself names.now → ⊥ }
    ensures { IfOk result (λ sizes. AreSizes (action_graph names.now) (own_requests names.now (primitives_of kind) (all_calls names.now)) 1 sizes.items) }
{
    match components.sizes(alloc, graph, own, 1)? {
        Some(sizes) => Ok(sizes),
        None => Ok(Vec::new(alloc)),
    }
}

/// Whether a size is there and isn't 0.
fn is_over(sizes: &[u64], number: usize) -> bool
    ensures { result ≡ nat_lt 0 (slice_index sizes.now number) }
{
    match sizes.get(number) {
        Some(size) => *size > 0,
        None => false,
    }
}

/// Whether a name is that of an action that comes to such a request, where these are the sizes of the actions.
fn names_request(names: &Names14<'_>, sizes: &[u64], name: &[u8]) -> bool
    ensures { result ≡ names_request names.now sizes.now name.now }
{
    match action_number(names, name) {
        Some(number) => is_over(sizes, number),
        None => false,
    }
}

/// Whether one of these names is.
fn some_named_request(names: &Names14<'_>, sizes: &[u64], listed: &[Text]) -> bool
    ensures { result ≡ list_any (names_request names.now sizes.now) listed.now }
{
    for name in listed {
        if names_request(names, sizes, name.as_slice()) {
            return true;
        }
    }
    false
}

/// Puts behind these whether a declaration lists such an action, if it is a table.
fn add_table(
    found: &mut Vec<bool>,
    names: &Names14<'_>,
    sizes: &[u64],
    decl: &Decl,
) -> Result<(), OutOfMemory>
    ensures { OnOk result (found.new.items ≡ found.old.items ++ map (lists_request names.now sizes.now) (option_to_list (table_in decl.now))) }
{
    if let Decl::Table(table) = decl {
        found.push(some_named_request(names, sizes, table.actions()))?;
    }
    Ok(())
}

/// For each table whether it lists such an action.
#[tactic(auto, using(crate::proofs::Loops::table_now))]
fn tables_with_requests(
    alloc: Global,
    names: &Names14<'_>,
    sizes: &[u64],
) -> Result<Vec<bool>, OutOfMemory>
    ensures { IfOk result (λ found. found.items ≡ tables_with_requests names.now sizes.now) }
{
    let mut found = Vec::new(alloc);
    for decl in names.decls() {
        add_table(&mut found, names, sizes, decl)?;
    }
    Ok(found)
}

/// For each table whether it lists an action that comes to a request of this kind.
pub fn listed_requests(
    alloc: Global,
    graph: &Digraph,
    components: &Components,
    calls: &[ActionCalls<'_>],
    names: &Names14<'_>,
    kind: Kind,
) -> Result<Vec<bool>, OutOfMemory>
    requires graph { graph.now ≡ action_graph names.now }
    requires components { AreComponents graph.now components.now }
    requires calls { calls.now ≡ all_calls names.now }
    requires acyclic { ActionCallsItself names.now → ⊥ }
    ensures { IfOk result (λ listed. AreListed names.now (primitives_of kind) listed.items) }
{
    let own = own_requests(alloc, names, kind, calls)?;
    let sizes = request_sizes(alloc, graph, components, &own, names, kind)?;
    tables_with_requests(alloc, names, &sizes)
}
