ghost use Rattle.std.specs.{Prelude.{◌≡◌, ◌^◌, ◌<◌, length, map, option_map, IfOk, IfErr, codes}, Option.{option_copied}};
ghost use Rattle.serde_json.specs.View.{view};
ghost use Rattle.graph_json.specs.{Named.{is_name, name_of, name_in, name_at, names_of, first_called, number_of, is_unknown, is_repeat}, Numbering.{IsNumbering}};

use crate::fault::GraphTextFault;
use indexmap::IndexMap;
use serde_json::Value;
use std::alloc::Global;
use std::marker::Model;

/// How long a name may be, in bytes.
const MAX_NAME: usize = 256;

/// Whether the text may be a name: 1 to 256 bytes, the first of them no `@`, with which the shared places begin.
pub(crate) fn may_be_name(text: &str) -> bool
    ensures { result ≡ is_name text.now }
{
    match text.as_bytes() {
        [] => false,
        [first, rest @ ..] => *first != b'@' && rest.len() < MAX_NAME,
    }
}

fn name(v: &Value) -> Option<&str>
    ensures { option_copied result ≡ name_of (view v.now) }
{
    let text = v.as_str()?;
    if may_be_name(text) { Some(text) } else { None }
}

/// The name that a member is. It lies in the value and isn't copied.
pub(crate) fn member_name<'a>(v: &'a Value, member: &str) -> Option<&'a str>
    ensures { option_copied result ≡ name_in member.now (view v.now) }
{
    name(v.get(member)?)
}

/// The name at that place of an array, likewise.
pub(crate) fn item_name(v: &Value, i: usize) -> Option<&str>
    ensures { option_copied result ≡ name_at i (view v.now) }
{
    name(v.get(i)?)
}

/// The names of a file's nodes. A contract sees the name of each node, in order.
#[derive(Drop)]
pub(crate) struct Names<'a> {
    nodes: &'a [Value],
    firsts: IndexMap<&'a str, u32>,
}

impl<'a> Model for Names<'a> {
    ghost use Rattle.std.specs.Prelude.{ℕ, List, Option, map};
    ghost use Rattle.serde_json.specs.View.{view as data_of};
    ghost use Rattle.graph_json.specs.{Named.{names_of}, Numbering.{IsNumbering}};

    ghost Value = { List (Option (List ℕ)) };

    ghost view = { λ n. names_of (map data_of n.nodes.now) };

    ghost invariant = { λ n. IsNumbering (names_of (map data_of n.nodes.now)) n.firsts };
}

impl<'a> Names<'a> {
    /// The names of these nodes, found by a hash table; the one error is want of memory.
    pub(crate) fn of(alloc: Global, nodes: &'a [Value]) -> Result<Names<'a>, GraphTextFault>
        requires { length nodes.now < 2 ^ 32 }
        ensures ok { IfOk result (λ n. n ≡ names_of (map view nodes.now)) }
        ensures err { IfErr result (λ e. e ≡ GraphTextFault.NoMemory) }
    {
        let firsts = number_all(alloc, nodes)?;
        Ok(Names { nodes, firsts })
    }

    /// The first node of that name.
    fn first(&self, name: &str) -> Option<u32>
        ensures { result ≡ first_called self.now name.now }
    {
        self.firsts.get(name).copied()
    }

    /// The position that a name stands for, 0 where no node has it: that is told as a fault once all shapes are right.
    pub(crate) fn number(&self, name: &str) -> u32
        ensures { result ≡ number_of self.now name.now }
    {
        self.first(name).unwrap_or(0)
    }

    /// Whether there is a name and no node has it.
    pub(crate) fn lacks(&self, name: Option<&str>) -> bool
        ensures { result ≡ is_unknown self.now (option_copied name.entry) }
    {
        match name {
            Some(name) => self.first(name).is_none(),
            None => false,
        }
    }

    /// Whether an earlier node has the name of the node at that position: then the name stands for that one.
    pub(crate) fn repeats(&self, n: usize, node: &Value) -> bool
        ensures { result ≡ is_repeat self.now n (name_in (codes "name") (view node.now)) }
    {
        match member_name(node, "name") {
            Some(name) => (self.number(name) as usize) < n,
            None => false,
        }
    }
}

/// For each name of a node, the first node that has it.
fn number_all<'a>(
    alloc: Global,
    nodes: &'a [Value],
) -> Result<IndexMap<&'a str, u32>, GraphTextFault>
    requires { length nodes.now < 2 ^ 32 }
    ensures ok { IfOk result (λ m. IsNumbering (names_of (map view nodes.now)) m) }
    ensures err { IfErr result (λ e. e ≡ GraphTextFault.NoMemory) }
{
    let mut firsts = IndexMap::new(alloc);
    for (i, node) in nodes.iter().enumerate() {
        let Some(own) = member_name(node, "name") else {
            continue;
        };
        // The first node keeps the name: `insert` would put a later one in its place.
        if firsts.get(own).is_none() {
            firsts.insert(own, i as u32)?;
        }
    }
    Ok(firsts)
}
