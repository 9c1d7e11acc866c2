//! A path of a file, lent by the pools in which its parts stand.
use crate::path_row::{PathRow, end_of, kept_tail, start_of};
use crate::pools::Pools;
use crate::rule::{End, Start};
use stacks_vars::{NodeAt, SymOut, SymPat, Tail};
use std::marker::Model;

/// A partial path that a file keeps, lent. All its file numbers are 0. It has two references, and a contract
/// sees the path.
#[derive(Drop)]
pub struct StoredPath<'a> {
    pools: &'a Pools,
    row: &'a PathRow,
}

impl<'a> Model for StoredPath<'a> {
    ghost use Rattle.partial_path.specs.{Rules.{Rule}, Pooled.{rule_in, IsRowIn}};

    ghost Value = { Rule };

    ghost view = { λ p. rule_in p.pools.now p.row.now };

    ghost invariant = { λ p. IsRowIn p.pools.now p.row.now };
}

impl<'a> StoredPath<'a> {
    ghost use Rattle.std.specs.Prelude.{◌≡◌, map, length};
    ghost use Rattle.partial_path.specs.{Rules.{IsRule}, FileNumbers.{own_edge}, Pooled.{rule_in, IsRowIn}};

    /// The path of the row in these pools.
    pub(crate) fn of(pools: &'a Pools, row: &'a PathRow) -> StoredPath<'a>
        requires { IsRowIn pools.now row.now }
        ensures { result ≡ rule_in pools.now row.now }
    {
        StoredPath { pools, row }
    }

    /// The same path once more. It costs nothing.
    pub fn again(&self) -> StoredPath<'a>
        ensures { result ≡ self.now }
    {
        StoredPath {
            pools: self.pools,
            row: self.row,
        }
    }

    /// Where the path begins.
    pub fn start(&self) -> Start
        ensures value { result ≡ self.now.start }
        ensures rule { IsRule self.now }
    {
        start_of(self.row.start)
    }

    /// Where the path ends.
    pub fn end(&self) -> End
        ensures value { result ≡ self.now.end }
        ensures rule { IsRule self.now }
    {
        end_of(self.row.end)
    }

    /// The greatest number of symbols on the way, less those that the path leaves as they are.
    pub fn peak(&self) -> u32
        ensures value { result ≡ self.now.peak }
        ensures rule { IsRule self.now }
    {
        self.row.peak as u32
    }

    /// The symbols that the path asks for, the front first.
    pub fn asked(&self) -> &'a [SymPat]
        ensures value { result.now ≡ self.now.pre.symbols }
        ensures rule { IsRule self.now }
    {
        let pools = self.pools;
        part_of(&pools.asked, self.row.asked_from as usize, self.row.asked)
    }

    /// The scopes with which the scope stack has to begin, the front first.
    pub fn fixed(&self) -> &'a [NodeAt]
        ensures value { result.now ≡ self.now.pre.scopes.fixed }
        ensures rule { IsRule self.now }
    {
        let pools = self.pools;
        part_of(&pools.nodes, self.row.nodes_from as usize, self.row.fixed)
    }

    /// The symbols that the path makes, the front first.
    pub fn made(&self) -> &'a [SymOut]
        ensures value { result.now ≡ self.now.post.symbols }
        ensures rule { IsRule self.now }
    {
        let pools = self.pools;
        part_of(&pools.made, self.row.made_from as usize, self.row.made)
    }

    /// The scopes that the path makes, the front first.
    pub fn scopes(&self) -> &'a [NodeAt]
        ensures value { result.now ≡ self.now.post.scopes.scopes }
        ensures rule { IsRule self.now }
    {
        let pools = self.pools;
        let from = self.row.nodes_from as usize + self.row.fixed as usize;
        part_of(&pools.nodes, from, self.row.scopes)
    }

    /// What stands behind the scopes that the path makes.
    pub fn tail(&self) -> Tail
        ensures value { result ≡ self.now.post.scopes.tail }
        ensures rule { IsRule self.now }
    {
        kept_tail(self.row.tail)
    }

    /// The numbers in its file of the edges that the path stands for, the first first.
    pub fn edge_numbers(&self) -> &'a [u32]
        ensures value { map own_edge result.now ≡ self.now.edges }
        ensures count { length result.now ≡ length self.now.edges }
        ensures rule { IsRule self.now }
    {
        let pools = self.pools;
        part_of(&pools.edges, self.row.edges_from as usize, self.row.edges)
    }
}

ghost use Rattle.std.specs.Prelude.{◌≡◌};
ghost use Rattle.partial_path.specs.Pooled.{part_of, IsPartOf};

/// So many items of the pool, from that place on.
fn part_of<T>(pool: &Vec<T>, from: usize, len: u16) -> &[T]
    requires { IsPartOf from len pool.now.items }
    ensures { result.now ≡ part_of from len pool.now.items }
{
    &pool.as_slice()[from..from + len as usize]
}
