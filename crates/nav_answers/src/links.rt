ghost use Rattle.std.specs.{Prelude.{◌≡◌, ◌≤◌, ◌++◌, ◌||◌, ◌&&◌, ◌↔◌, [], false, true, filter, length, Contains, IfOk, OnOk}, List.{prefix_len}, List.Sorted.{IsPartitionedBy, IsPermutation, IsSorted, IsStrictlySortedBy}};
ghost use Rattle.nav_answers.specs.{declared.links.Link.{Link}, Asking.{Holds}, Links.{by_link, is_before, is_link_to, link_side, links_of, links_to_any, references_among, rows_of_any}};

use std::alloc::{AllocError, Global};
use std::cmp::Ordering;
use whole_search::{Found, Hit};

/// A reference and one of its definitions.
#[derive(Clone, Copy, PartialEq, Eq, PartialOrd, Ord)]
pub struct Link {
    pub definition: Hit,
    pub reference: Hit,
}

/// What was found of some references: each with its definitions, and whether a run of one of them was left out for its
/// length or depth.
#[derive(Drop)]
pub struct Links {
    pub list: Vec<Link>,
    pub limit: bool,
    /// Whether each is there with each of its definitions; else at least those that are asked about are there.
    pub whole: bool,
    /// How many there may be before those to other definitions are let go.
    pub room: usize,
}

impl Links {
    /// What is found of no references, with room for so many links to definitions that aren't asked about. It takes no
    /// memory.
    pub fn new(alloc: Global, room: usize) -> Links
        ensures list { result.list.items ≡ [] }
        ensures limit { result.limit ≡ false }
        ensures whole { result.whole ≡ true }
    {
        Links {
            list: Vec::new(alloc),
            limit: false,
            whole: true,
            room,
        }
    }

    /// Adds what was found of a reference; the one error is want of memory.
    pub fn add(&mut self, reference: Hit, found: &Found) -> Result<(), AllocError>
        ensures list { OnOk result (self.new.list.items
            ≡ self.old.list.items ++ links_of reference found.now.rows) }
        ensures limit { OnOk result (self.new.limit ≡ (self.old.limit || found.now.limit)) }
        ensures whole { OnOk result (self.new.whole ≡ self.old.whole) }
    {
        add_links(&mut self.list, reference, found.rows.items())?;
        self.limit = self.limit || found.limit;
        Ok(())
    }

    /// Lets go of the links to other definitions than these where there are more than there is room for; the one error
    /// is want of memory. Then there is room for twice as many as are left, so this comes again only when as many more
    /// are found.
    pub fn hold(&mut self, alloc: Global, definitions: &[Hit]) -> Result<(), AllocError>
        ensures { OnOk result (Holds definitions.now self.old self.new) }
    {
        if self.list.len() <= self.room {
            return Ok(());
        }
        sort(&mut self.list);
        self.list = links_to_any(alloc, &self.list, definitions)?;
        self.whole = false;
        self.room = self.room.max(self.list.len().saturating_mul(2));
        Ok(())
    }

    /// The same by the definitions and then by the references, each pair once.
    pub fn in_order(self) -> Links
        ensures order { IsStrictlySortedBy by_link result.list.items }
        ensures exact { (link : Link) → Contains result.list.items link
            ↔ Contains self.list.items link }
        ensures limit { result.limit ≡ self.limit }
        ensures whole { result.whole ≡ self.whole }
    {
        let mut links = self;
        sort(&mut links.list);
        links
    }
}

/// The links to these definitions, in no order, of links that stand by their definitions. Those to each are found by
/// halving. The one error is want of memory.
fn links_to_any(alloc: Global, list: &[Link], definitions: &[Hit]) -> Result<Vec<Link>, AllocError>
    requires { IsStrictlySortedBy by_link list.now }
    ensures { IfOk result (λ links. links.items ≡ links_to_any list.now definitions.now) }
{
    let mut links = Vec::new(alloc);
    for definition in definitions {
        links.extend_from_slice(links_to(list, *definition))?;
    }
    Ok(links)
}

/// Adds the reference with each of these definitions; the one error is want of memory.
fn add_links(list: &mut Vec<Link>, reference: Hit, definitions: &[Hit]) -> Result<(), AllocError>
    ensures { OnOk result (list.new.items ≡ list.old.items ++ links_of reference definitions.now) }
{
    for definition in definitions {
        list.push(Link {
            definition: *definition,
            reference,
        })?;
    }
    Ok(())
}

/// Puts the links by the definitions and then by the references, each pair once.
fn sort(list: &mut Vec<Link>)
    ensures order { IsStrictlySortedBy by_link list.new.items }
    ensures exact { (l : Link) → Contains list.new.items l ↔ Contains list.old.items l }
{
    put_in_order(list);
    list.dedup();
}

/// Puts the links by the definitions and then by the references. Lists that are in order and stand one behind the other
/// are merged, with memory for one of them; where that is refused, all are sorted in place.
fn put_in_order(list: &mut Vec<Link>)
    ensures sorted { IsSorted by_link list.new.items }
    ensures permutation { IsPermutation list.old.items list.new.items }
{
    if list.sort().is_err() {
        list.sort_unstable();
    }
}

/// The links to the definition, of links that stand by their definitions.
pub fn links_to(list: &[Link], definition: Hit) -> &[Link]
    requires { IsStrictlySortedBy by_link list.now }
    ensures { result.now ≡ filter (is_link_to definition) list.now }
{
    let low = count_before(list, definition);
    let rest = &list[low..];
    let many = count_at(rest, definition);
    &rest[..many]
}

/// How many of the links stand before those to the definition, by halving.
fn count_before(list: &[Link], definition: Hit) -> usize
    requires { IsPartitionedBy (is_before definition) list.now }
    ensures value { result ≡ prefix_len (is_before definition) list.now }
    ensures bound { result ≤ length list.now }
{
    list.partition_point(|link| link_side(link, definition).is_lt())
}

/// How many of the first links are to the definition, by halving, of links of which none to it stands after another.
fn count_at(list: &[Link], definition: Hit) -> usize
    requires { IsPartitionedBy (is_link_to definition) list.now }
    ensures value { result ≡ prefix_len (is_link_to definition) list.now }
    ensures bound { result ≤ length list.now }
{
    list.partition_point(|link| link_side(link, definition).is_eq())
}

/// How the link's definition stands to that one, by file and then by position.
fn link_side(link: &Link, definition: Hit) -> Ordering
    ensures { result ≡ link_side definition link.now }
{
    link.definition.cmp(&definition)
}
