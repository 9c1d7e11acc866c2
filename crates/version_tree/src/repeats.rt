ghost use Rattle.std.specs.{Prelude.{◌≡◌, ◌++◌, List, ℕ, map, None, Some, IfOk, OnOk, MatchOption, MatchResult}, Option.{option_map}, List.Sorted.{IsPermutation, IsSortedBy}, Ordering.{is_lt}};
ghost use Rattle.version_tree.specs.{Contents.{path_cmp}, Verdict.{twice, touched, all_touched}, Refused.{Refuses}, Repeats.{is_again, repeat_from}, declared.edit.EditFault.TheVariants.{Twice}};

use crate::edit::{Edit, EditFault};
use crate::text::PathText;
use std::alloc::{AllocError, Global};

/// Refuses edits of which two name one path to put or remove: the least such path. It sorts the
/// paths.
pub(crate) fn no_path_twice(alloc: Global, edits: &[Edit]) -> Result<(), EditFault>
    ensures { MatchResult result (λ _. option_map Twice (twice edits.now)
        ≡ None) (Refuses (option_map Twice (twice edits.now))) }
{
    let mut paths = touched_paths(alloc, edits)?;
    sort_paths(&mut paths)?;
    match first_repeat(paths.as_slice()) {
        Some(path) => Err(EditFault::Twice(path.copy(alloc)?)),
        None => Ok(()),
    }
}

// The paths that the edits put or remove, in the order of the edits.
fn touched_paths<'a>(alloc: Global, edits: &'a [Edit]) -> Result<Vec<&'a PathText>, AllocError>
    ensures { IfOk result (λ paths. map (λ p. p.now) paths.items ≡ all_touched edits.now) }
{
    let mut paths = Vec::new(alloc);
    for edit in edits {
        if let Edit::Put { path, .. } | Edit::Remove { path } = edit {
            paths.push(path)?;
        }
    }
    Ok(paths)
}

// Sorts the paths by their bytes. The one error is want of memory.
fn sort_paths<'a>(paths: &mut Vec<&'a PathText>) -> Result<(), AllocError>
    ensures moved { IsPermutation paths.old.items paths.new.items }
    ensures sorted { OnOk result (IsSortedBy
        (λ p q. is_lt (path_cmp p.now q.now)) paths.new.items) }
{
    paths.sort_by(|p, q| p.as_str().as_bytes().cmp(q.as_str().as_bytes()))?;
    Ok(())
}

// The first path that is the one before it once more.
fn first_repeat<'a>(paths: &[&'a PathText]) -> Option<&'a PathText>
    ensures { MatchOption result (repeat_from None (map (λ p. p.now) paths.now) ≡ None)
        (λ path. repeat_from None (map (λ p. p.now) paths.now) ≡ Some path.now) }
{
    let mut last: Option<&'a PathText> = None;
    for path in paths {
        let path: &'a PathText = path;
        if is_again(last, path) {
            return Some(path);
        }
        last = Some(path);
    }
    None
}

// Whether the path is the last one once more.
fn is_again(last: Option<&PathText>, path: &PathText) -> bool
    ensures { result ≡ is_again (option_map (λ p. p.now) last.entry) path.now }
{
    match last {
        Some(last) => last
            .as_str()
            .as_bytes()
            .cmp(path.as_str().as_bytes())
            .is_eq(),
        None => false,
    }
}
