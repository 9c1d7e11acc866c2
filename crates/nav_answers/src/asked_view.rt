ghost use Rattle.std.specs.Prelude.{◌≡◌, true, Err, IfOk, IfSome, IsTrue, OnOk};
ghost use Rattle.graph_nodes.specs.Whole.{is_definition_of};
ghost use Rattle.back_stitch.specs.Lists.{AreThoseThatReach, HasMany};
ghost use Rattle.end_index.specs.Ends.{IsEndIndexOf};
ghost use Rattle.nav_answers.specs.{Sources.{graphs_seen}, Asking.{IsKnown, IsKnownOf, is_each, is_whole}};

use crate::parts::Parts;
use back_stitch::{BackFault, back};
use end_index::{EndIndex, EndSource};
use partial_path::Bounds;
use stacks_vars::NodeAt;
use std::alloc::{AllocError, Global};
use std::marker::Model;
use std::mem;
use std::thread::Threads;
use version_tree::View;
use whole_search::Hit;

/// What was found of all references of the files that a user sees.
#[derive(Drop)]
pub enum Told {
    /// Each with its definitions, and whether a run of one of them was left out for its length or depth.
    Each(Parts),
    /// One of them has too many runs.
    Crowded,
}

/// That, with the bounds within which they were asked.
#[derive(Drop)]
pub struct Known {
    pub bounds: Bounds,
    pub told: Told,
}

impl Known {
    /// Whether it tells that none of them is crowded within these bounds.
    fn is_each(&self, bounds: Bounds) -> bool
        ensures within { IsTrue result → self.now.bounds ≡ bounds }
        ensures each { IsTrue result → is_each self.now.told ≡ true }
    {
        self.bounds == bounds && matches!(&self.told, Told::Each(_))
    }

    /// Whether it tells of all definitions.
    fn is_whole(&self) -> bool
        ensures { result ≡ is_whole self.now.told }
    {
        match &self.told {
            Told::Each(parts) => parts.whole(),
            Told::Crowded => true,
        }
    }
}

/// What a user sees of a version, and what was found of its references, once they were asked. A contract sees it as
/// the view alone: what is kept decides no answer.
#[derive(Drop)]
pub struct AskedView {
    view: View,
    known: Option<Known>,
    /// Paths by where they end, of the view or of an earlier one, and whether they are of the view.
    ends: EndIndex,
    fits: bool,
}

impl Model for AskedView {
    ghost use Rattle.std.specs.Prelude.{List, IfSome, IsTrue};
    ghost use Rattle.version_tree.specs.Contents.{FileRow};
    ghost use Rattle.nav_answers.specs.{Sources.{graphs_seen}, Asking.{IsKnown}};
    ghost use Rattle.end_index.specs.Ends.{IsEndIndexOf};

    ghost Value = { List FileRow };

    ghost view = { λ v. v.view };

    ghost invariant = { λ v. IfSome v.known (IsKnown (graphs_seen v.view))
        × (IsTrue v.fits → IsEndIndexOf v.view v.ends) };
}

impl AskedView {
    ghost use Rattle.std.specs.Prelude.{◌≡◌, Err, IfOk, IfSome, IsTrue, OnOk};
    ghost use Rattle.graph_nodes.specs.Whole.{is_definition_of};
    ghost use Rattle.whole_search.specs.Answers.{IsAnyCrowded};
    ghost use Rattle.back_stitch.specs.Lists.{AreThoseThatReach, HasMany};
    ghost use Rattle.nav_answers.specs.{declared.asked_view.Known.{Known}, Sources.{graphs_seen}, Asking.{IsKnown, IsKnownOf}};

    /// The view, of whose references nothing is kept yet. It takes no memory.
    pub fn of(alloc: Global, view: View) -> AskedView
        ensures { result ≡ view }
    {
        AskedView::after(view, EndIndex::new(alloc))
    }

    /// The same with the paths by where they end that an earlier view kept: what is asked for by where it ends is then
    /// listed anew of such files alone as have changed, where they are few. It takes no memory.
    pub fn after(view: View, ends: EndIndex) -> AskedView
        ensures { result ≡ view }
    {
        AskedView {
            view,
            known: None,
            ends,
            fits: false,
        }
    }

    /// The paths by where they end, for a later view.
    pub fn into_ends(self) -> EndIndex {
        self.ends
    }

    /// The view.
    pub fn view(&self) -> &View
        ensures { result.now ≡ self.now }
    {
        &self.view
    }

    /// What is kept of its references within these bounds, which is taken out; None where nothing is kept or it is of
    /// other bounds, and that is let go.
    pub(crate) fn take_known(&mut self, bounds: Bounds) -> Option<Known>
        ensures known { IfSome result (IsKnown (graphs_seen self.old)) }
        ensures bounds { IfSome result (λ (known : Known). known.bounds ≡ bounds) }
        ensures same { self.new ≡ self.old }
    {
        match self.known.take() {
            Some(known) if known.bounds == bounds => Some(known),
            _ => None,
        }
    }

    /// Keeps what was found of its references for these definitions; nothing where it doesn't tell of all definitions.
    pub(crate) fn keep_known(&mut self, known: Known, definitions: &[Hit])
        requires { IsKnownOf (graphs_seen self.old) definitions.now known }
        ensures { self.new ≡ self.old }
    {
        self.known = if_whole(&self.view, known, definitions);
    }

    /// Whether all its references are kept within these bounds; then none of them is crowded.
    pub(crate) fn has_each(&self, bounds: Bounds) -> bool
        ensures { IsTrue result → ¬ IsAnyCrowded bounds (graphs_seen self.now) }
    {
        match &self.known {
            Some(known) => known.is_each(bounds),
            None => false,
        }
    }

    /// The references from which a bounded complete run leads to the definition, in file order; `Many` where too many
    /// back lists lead to it, and else `NoMemory` where memory is refused. What is asked for by where it ends is listed
    /// the first time, and kept.
    pub(crate) fn leading<R: Threads + Sync>(
        &mut self,
        rt: &R,
        alloc: Global,
        node: NodeAt,
    ) -> Result<Vec<NodeAt>, BackFault>
        requires definition { IsTrue (is_definition_of (graphs_seen self.old) node.file node.node) }
        ensures leading { IfOk result
            (λ rows. AreThoseThatReach (graphs_seen self.old) node rows.items) }
        ensures many { result ≡ Err BackFault.Many → HasMany (graphs_seen self.old) node }
        ensures few { OnOk result (¬ HasMany (graphs_seen self.old) node) }
        ensures same { self.new ≡ self.old }
    {
        let fits = mem::replace(&mut self.fits, false);
        fit_to(rt, alloc, &self.view, fits, &mut self.ends)?;
        self.fits = true;
        leading_by(alloc, &self.view, &self.ends, node)
    }
}

/// Makes the index that of the view, unless it is. The one error is want of memory.
fn fit_to<R: Threads + Sync>(
    rt: &R,
    alloc: Global,
    view: &View,
    fits: bool,
    ends: &mut EndIndex,
) -> Result<(), AllocError>
    requires { IsTrue fits → IsEndIndexOf view.now ends.old }
    ensures { OnOk result (IsEndIndexOf view.now ends.new) }
{
    if fits {
        return Ok(());
    }
    ends.fit(rt, alloc, view)?;
    Ok(())
}

/// The same, by the paths that end outside their files.
fn leading_by(
    alloc: Global,
    view: &View,
    ends: &EndIndex,
    node: NodeAt,
) -> Result<Vec<NodeAt>, BackFault>
    requires ends { IsEndIndexOf view.now ends.now }
    requires definition { IsTrue (is_definition_of (graphs_seen view.now) node.file node.node) }
    ensures leading { IfOk result
        (λ rows. AreThoseThatReach (graphs_seen view.now) node rows.items) }
    ensures many { result ≡ Err BackFault.Many → HasMany (graphs_seen view.now) node }
    ensures few { OnOk result (¬ HasMany (graphs_seen view.now) node) }
{
    let source = EndSource::of(view, ends);
    back(alloc, &source, node.file, node.node)
}

/// What was found for these definitions, where it tells of all definitions.
fn if_whole(_view: &View, known: Known, _definitions: &[Hit]) -> Option<Known>
    requires { IsKnownOf (graphs_seen _view.now) _definitions.now known }
    ensures { IfSome result (IsKnown (graphs_seen _view.now)) }
{
    if !known.is_whole() {
        return None;
    }
    Some(known)
}
