//! What several threads found, each of its own references: lists that are kept side by side.
use crate::links::{Link, Links, links_to};
use std::alloc::{AllocError, Global};
use std::marker::Model;
use whole_search::Hit;

/// What was found of some references, in several lists, each by the definitions and then by the references. To merge
/// them would take longer than to look into each. A contract sees the links one list behind the other.
#[derive(Drop)]
pub struct Parts {
    lists: Vec<Vec<Link>>,
    limit: bool,
    whole: bool,
}

impl Model for Parts {
    ghost use Rattle.std.specs.Prelude.{All};
    ghost use Rattle.nav_answers.specs.Links.{AreInOrder, Table, links_in, table_of};

    ghost Value = { Table };

    ghost view = { λ p. table_of (links_in p.lists.items) p.limit p.whole };

    ghost invariant = { λ p. All AreInOrder p.lists.items };
}

impl Parts {
    ghost use Rattle.std.specs.{Prelude.{◌≡◌, ◌++◌, ◌||◌, ◌&&◌, [], false, true, IfOk, OnOk}, List.Sorted.{IsStrictlySortedBy}};
    ghost use Rattle.nav_answers.specs.Links.{by_link, rows_of_any};

    /// What is found of no references, with memory for so many lists; the one error is want of it.
    pub fn with_capacity(alloc: Global, lists: usize) -> Result<Parts, AllocError>
        ensures list { IfOk result (λ none. none.list ≡ []) }
        ensures limit { IfOk result (λ none. none.limit ≡ false) }
        ensures whole { IfOk result (λ none. none.whole ≡ true) }
    {
        Ok(Parts {
            lists: Vec::with_capacity(alloc, lists)?,
            limit: false,
            whole: true,
        })
    }

    /// Adds what was found of other references, which is in order; the one error is want of memory.
    pub fn append(&mut self, links: Links) -> Result<(), AllocError>
        requires { IsStrictlySortedBy by_link links.list.items }
        ensures list { OnOk result (self.new.list ≡ self.old.list ++ links.list.items) }
        ensures limit { OnOk result (self.new.limit ≡ (self.old.limit || links.limit)) }
        ensures whole { OnOk result (self.new.whole ≡ (self.old.whole && links.whole)) }
    {
        self.limit = self.limit || links.limit;
        self.whole = self.whole && links.whole;
        self.lists.push(links.list)?;
        Ok(())
    }

    /// Whether a run of one of the references was left out for its length or depth.
    pub fn limit(&self) -> bool
        ensures { result ≡ self.now.limit }
    {
        self.limit
    }

    /// Whether each reference is there with each of its definitions.
    pub fn whole(&self) -> bool
        ensures { result ≡ self.now.whole }
    {
        self.whole
    }

    /// The references of the definitions, in no order. Those of each definition are found by halving in each list. The one
    /// error is want of memory.
    pub fn rows_of_any(&self, alloc: Global, definitions: &[Hit]) -> Result<Vec<Hit>, AllocError>
        ensures { IfOk result (λ rows. rows.items ≡ rows_of_any self.now.list definitions.now) }
    {
        let mut rows = Vec::new(alloc);
        for definition in definitions {
            add_rows_of(&mut rows, &self.lists, *definition)?;
        }
        Ok(rows)
    }
}

ghost use Rattle.std.specs.Prelude.{◌≡◌, ◌++◌, All, OnOk};
ghost use Rattle.nav_answers.specs.Links.{AreInOrder, links_in, references_among, rows_of_one};

/// Adds the references of the definition that the lists have; the one error is want of memory.
fn add_rows_of(rows: &mut Vec<Hit>, lists: &[Vec<Link>], definition: Hit) -> Result<(), AllocError>
    requires { All AreInOrder lists.now }
    ensures { OnOk result
        (rows.new.items ≡ rows.old.items ++ rows_of_one (links_in lists.now) definition) }
{
    for list in lists {
        add_references(rows, links_to(list, definition))?;
    }
    Ok(())
}

/// Adds the references of the links; the one error is want of memory.
fn add_references(rows: &mut Vec<Hit>, links: &[Link]) -> Result<(), AllocError>
    ensures { OnOk result (rows.new.items ≡ rows.old.items ++ references_among links.now) }
{
    for link in links {
        rows.push(link.reference)?;
    }
    Ok(())
}
