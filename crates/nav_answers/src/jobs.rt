//! What is found of one reference, as a job between `enter` and `leave` of the gate.
ghost use Rattle.std.specs.Prelude.{◌≡◌, ◌≢◌, ◌<◌, length, All, Err, IfOk, OnOk, slice_index_or, IsTrue};
ghost use Rattle.graph_nodes.specs.Whole.{is_reference_of};
ghost use Rattle.list_facts.specs.Members.{IsIn};
ghost use Rattle.nav_answers.specs.{Asking.{AddsLinks, IsCrowdedAmong, IsFound, IsReferenceIn}, Sources.{graphs_seen}, Twins.{AreKept}};
ghost use Rattle.stacks_vars.specs.declared.scopes.NodeAt.{NodeAt};

use crate::asking::{Query, ask};
use crate::links::Links;
use crate::rows::hit_of;
use crate::twins::{Kept, Searched, lead_of};
use nav_io::Gate;
use stacks_vars::NodeAt;
use stitcher::{Room, StitchFault};
use whole_search::Found;

/// Adds what is found of the reference at the place among all, as the job of that number. Where one was searched lately
/// that begins like it, what was found of that is so of this one, and there is no search.
pub fn add_found<'a, G: Gate>(
    room: &mut Room<'a>,
    query: &Query<'a>,
    gate: &G,
    all: &[NodeAt],
    job: usize,
    searched: &mut Searched<'a>,
    links: &mut Links,
) -> Result<(), StitchFault>
    requires source { query.now.source.now.rows ≡ query.now.view.now }
    requires references { All (IsReferenceIn (graphs_seen query.now.view.now)) all.now }
    requires inside { job < length all.now }
    requires kept { AreKept query.now.bounds
        (graphs_seen query.now.view.now) searched.old.list.items }
    ensures found { (d : NodeAt) → OnOk result (AddsLinks query.now.bounds
        (graphs_seen query.now.view.now) (slice_index_or all.now job d) links.old links.new) }
    ensures kept { OnOk result (AreKept query.now.bounds
        (graphs_seen query.now.view.now) searched.new.list.items) }
    ensures crowded { result ≡ Err StitchFault.Crowded
        → IsCrowdedAmong query.now.bounds (graphs_seen query.now.view.now) all.now }
{
    let reference = all[job];
    let Some(lead) = lead_of(query.source, reference) else {
        ask_into(room, query, gate, all, job, reference, links)?;
        return Ok(());
    };
    if let Some(found) = searched.known(query, reference, &lead) {
        return add_known(query, gate, job, reference, found, links);
    }
    let found = ask_into(room, query, gate, all, job, reference, links)?;
    let kept = Kept {
        reference,
        lead,
        found,
    };
    Ok(searched.put(query, kept)?)
}

/// Adds what is known of the reference, as the job of that number; the one error is want of memory.
fn add_known<G: Gate>(
    _query: &Query,
    gate: &G,
    job: usize,
    reference: NodeAt,
    found: &Found,
    links: &mut Links,
) -> Result<(), StitchFault>
    requires found { IsFound _query.now.bounds
        (graphs_seen _query.now.view.now) reference found.now.rows found.now.limit }
    ensures found { OnOk result (AddsLinks _query.now.bounds
        (graphs_seen _query.now.view.now) reference links.old links.new) }
    ensures memory { result ≢ Err StitchFault.Crowded }
{
    gate.enter(job);
    let added = links.add(hit_of(reference), found);
    gate.leave(job);
    Ok(added?)
}

/// Asks the reference, one of all these, as the job of that number, and adds what is found of it, which it tells.
fn ask_into<'a, G: Gate>(
    room: &mut Room<'a>,
    query: &Query<'a>,
    gate: &G,
    _all: &[NodeAt],
    job: usize,
    reference: NodeAt,
    links: &mut Links,
) -> Result<Found, StitchFault>
    requires source { query.now.source.now.rows ≡ query.now.view.now }
    requires reference { IsTrue
        (is_reference_of (graphs_seen query.now.view.now) reference.file reference.node) }
    requires among { IsIn reference _all.now }
    ensures found { OnOk result (AddsLinks query.now.bounds
        (graphs_seen query.now.view.now) reference links.old links.new) }
    ensures told { IfOk result (λ found. IsFound query.now.bounds
        (graphs_seen query.now.view.now) reference found.rows found.limit) }
    ensures crowded { result ≡ Err StitchFault.Crowded
        → IsCrowdedAmong query.now.bounds (graphs_seen query.now.view.now) _all.now }
{
    let found = ask(room, query, gate, job, reference)?;
    links.add(hit_of(reference), &found)?;
    Ok(found)
}
