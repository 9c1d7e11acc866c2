ghost use Rattle.std.specs.Prelude.{◌≡◌, ◌<◌, ◌^◌, length, All, IsTrue, IfOk};
ghost use Rattle.whole_search.specs.{Leads.{live_at}, Refusals.{IsDeadEnd, IsRefusedAt, LeadsNowhere}, Walk.{IsLive}};

use crate::dead_ends::{DeadEnds, ROOM, weight_of};
use crate::edges::edges_out;
use crate::query::Query;
use crate::spot::is_at_definition;
use partial_path::{Config, EdgeAt, is_cut_edge, step};
use std::alloc::{AllocError, Global};

/// After how many runs in a row without one that counts places are watched: a search that goes well is spared the copy
/// of its places.
const PATIENCE: usize = 64;

/// Finds the dead ends among the places that a search goes on from. A place is watched until all runs from
/// it were met. Where none of them counted, its edges are tried once more, and it is a dead end where each of
/// them is refused, or leads to a dead end.
#[derive(Drop)]
pub struct Watch {
    pub dead_ends: DeadEnds,
    /// The places that are watched, the last one last.
    places: Vec<Place>,
    /// What they weigh, which is at most `ROOM`.
    weight: usize,
    /// How many runs had counted when a place was gone on from the last time.
    counted: usize,
    /// From how many places the search went on since it was another number.
    fruitless: usize,
}

/// A place that is watched.
#[derive(Drop)]
struct Place {
    at: Config,
    weight: usize,
    /// How many runs were open beside those from here, all of which the search comes to later.
    open: usize,
    /// How many runs had counted.
    counted: usize,
}

impl Watch {
    ghost use Rattle.std.specs.Prelude.{◌≡◌, ◌<◌, ◌^◌, [], length, All, IfSome, OnOk};
    ghost use Rattle.whole_search.specs.{Leads.{live_at}, Refusals.{IsDeadEnd}, Walk.{IsLive}};

    /// Nothing watched, and no dead ends. It takes no memory.
    pub fn new(alloc: Global) -> Watch
        ensures { result.dead_ends.kept.items ≡ [] }
    {
        Watch {
            dead_ends: DeadEnds::new(alloc),
            places: Vec::new(alloc),
            weight: 0,
            counted: 0,
            fruitless: 0,
        }
    }

    /// Watches the place, from which the search goes on, unless a run counted a short while ago. So many
    /// other runs are open, and so many have counted.
    pub fn add(
        &mut self,
        alloc: Global,
        at: &Config,
        open: usize,
        counted: usize,
    ) -> Result<(), AllocError>
        ensures { OnOk result (self.new.dead_ends ≡ self.old.dead_ends) }
    {
        if self.is_patient(counted) {
            return Ok(());
        }
        // What would be too much isn't watched: at worst a dead end isn't found.
        let weight = weight_of(at);
        if weight > ROOM.saturating_sub(self.weight) {
            return Ok(());
        }
        self.places.push(Place {
            at: at.copy(alloc)?,
            weight,
            open,
            counted,
        })?;
        self.weight = self.weight.saturating_add(weight);
        Ok(())
    }

    /// Whether a run counted a short while ago.
    fn is_patient(&mut self, counted: usize) -> bool
        ensures { self.new.dead_ends ≡ self.old.dead_ends }
    {
        if counted != self.counted {
            self.counted = counted;
            self.fruitless = 0;
        }
        self.fruitless = self.fruitless.saturating_add(1);
        self.fruitless <= PATIENCE
    }

    /// Keeps those of the places that are dead ends, of which all runs were met and none counted, now that so many runs
    /// are open and so many have counted.
    pub fn settle(
        &mut self,
        alloc: Global,
        query: &Query,
        open: usize,
        counted: usize,
    ) -> Result<(), AllocError>
        requires files { length query.now.files.now < 2 ^ 32 }
        requires live { IsLive (live_at query.now.leads.now) query.now.files.now }
        requires dead_ends { All (IsDeadEnd query.now.files.now) self.old.dead_ends.kept.items }
        ensures dead_ends { OnOk result
            (All (IsDeadEnd query.now.files.now) self.new.dead_ends.kept.items) }
    {
        while let Some(place) = self.pop_met(open) {
            // Where a run from here counted, it leads somewhere: the edges needn't be tried.
            if place.counted == counted
                && leads_nowhere(alloc, query, &self.dead_ends, &place.at)?
            {
                self.dead_ends.keep(alloc, place.at, place.weight)?;
            }
        }
        Ok(())
    }

    /// The last place, where all runs from it were met.
    fn pop_met(&mut self, open: usize) -> Option<Place>
        ensures dead_ends { self.new.dead_ends ≡ self.old.dead_ends }
        ensures fewer { IfSome result
            (λ _. length self.new.places.items < length self.old.places.items) }
    {
        if !self.has_met(open) {
            return None;
        }
        let place = self.places.pop()?;
        self.weight = self.weight.saturating_sub(place.weight);
        Some(place)
    }

    /// Whether all runs from the last place were met.
    fn has_met(&self, open: usize) -> bool {
        match self.places.last() {
            // The last open run is gone on from first, so one of the others is taken only when all from here were met.
            Some(place) => open < place.open,
            None => false,
        }
    }
}

/// Whether the configuration is known to be a dead end: no run lands from its spot, or it is remembered.
pub fn is_dead_end(query: &Query, dead_ends: &DeadEnds, at: &Config) -> bool
    requires live { IsLive (live_at query.now.leads.now) query.now.files.now }
    requires dead_ends { All (IsDeadEnd query.now.files.now) dead_ends.now.kept.items }
    ensures { IsTrue result → IsDeadEnd query.now.files.now at.now }
{
    if !query.leads.is_live(at.spot) {
        return true;
    }
    dead_ends.holds(at)
}

/// Whether each edge from here is refused, or leads to a dead end.
fn leads_nowhere(
    alloc: Global,
    query: &Query,
    dead_ends: &DeadEnds,
    at: &Config,
) -> Result<bool, AllocError>
    requires files { length query.now.files.now < 2 ^ 32 }
    requires live { IsLive (live_at query.now.leads.now) query.now.files.now }
    requires dead_ends { All (IsDeadEnd query.now.files.now) dead_ends.now.kept.items }
    ensures { IfOk result (λ nowhere. IsTrue nowhere → IsDeadEnd query.now.files.now at.now) }
{
    let edges = edges_out(alloc, query.files, at.spot)?;
    each_leads_nowhere(alloc, query, dead_ends, at, &edges)
}

/// Whether each of these edges is refused, or leads to a dead end.
fn each_leads_nowhere(
    alloc: Global,
    query: &Query,
    dead_ends: &DeadEnds,
    at: &Config,
    edges: &[EdgeAt],
) -> Result<bool, AllocError>
    requires live { IsLive (live_at query.now.leads.now) query.now.files.now }
    requires dead_ends { All (IsDeadEnd query.now.files.now) dead_ends.now.kept.items }
    ensures { IfOk result
        (λ nowhere. IsTrue nowhere → All (LeadsNowhere query.now.files.now at.now) edges.now) }
{
    for edge in edges {
        if !leads_nowhere_by(alloc, query, dead_ends, at, *edge)? {
            return Ok(false);
        }
    }
    Ok(true)
}

/// Whether the edge is refused, or leads to a dead end.
fn leads_nowhere_by(
    alloc: Global,
    query: &Query,
    dead_ends: &DeadEnds,
    at: &Config,
    edge: EdgeAt,
) -> Result<bool, AllocError>
    requires live { IsLive (live_at query.now.leads.now) query.now.files.now }
    requires dead_ends { All (IsDeadEnd query.now.files.now) dead_ends.now.kept.items }
    ensures { IfOk result
        (λ nowhere. IsTrue nowhere → LeadsNowhere query.now.files.now at.now edge) }
{
    let Some(next) = step(alloc, query.files, at.copy(alloc)?, edge)? else {
        return Ok(true);
    };
    Ok(is_refused_at(query, dead_ends, edge, &next))
}

/// Whether the edge that led here isn't cut, and here is a dead end and no result.
fn is_refused_at(query: &Query, dead_ends: &DeadEnds, edge: EdgeAt, next: &Config) -> bool
    requires live { IsLive (live_at query.now.leads.now) query.now.files.now }
    requires dead_ends { All (IsDeadEnd query.now.files.now) dead_ends.now.kept.items }
    ensures { IsTrue result → IsRefusedAt query.now.files.now edge next.now }
{
    if is_cut_edge(query.files, edge) || is_at_definition(query.files, next) {
        return false;
    }
    is_dead_end(query, dead_ends, next)
}
