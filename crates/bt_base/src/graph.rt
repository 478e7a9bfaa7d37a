ghost use Rattle.std.specs.Prelude.{◌≡◌, ℕ, ◌<◌, ◌==◌, ◌||◌, List, [], true, length, replicate, slice_index_or, vec_len, IfOk, OnOk, OnErr};
ghost use Rattle.std.specs.List.Sorted.{IsStrictlyIncreasing};
ghost use Rattle.bt_base.specs.Graph.{has, is_edge, is_edge_with, rows_of, IsGraph};

use crate::Want;
use std::alloc::Global;
use std::marker::Model;

/// A graph over the nodes 0, 1, .. below their count, of at most 2^32 - 1 nodes.
///
/// It is seen as the list of each node's successors, which rise.
#[derive(Debug, Drop)]
pub struct Graph {
    rows: Vec<Vec<u32>>,
}

impl Model for Graph {
    ghost use Rattle.std.specs.Prelude.{ℕ, List};
    ghost use Rattle.bt_base.specs.Graph.{rows_of, IsGraph};

    ghost Value = { List (List ℕ) };

    ghost view = { λ graph. rows_of graph.rows.items };

    ghost invariant = { λ graph. IsGraph (rows_of graph.rows.items) };
}

/// So many empty rows.
fn empty_rows(alloc: Global, count: u32) -> Result<Vec<Vec<u32>>, Want>
    ensures { IfOk result (λ rows. rows_of rows.items ≡ replicate count []) }
{
    let mut rows = Vec::with_capacity(alloc, count as usize)?;
    for _ in 0..count {
        rows.push(Vec::new(alloc))?;
    }
    Ok(rows)
}

/// Puts a number into a row that rises, at its place, unless it is there.
fn put_rising(row: &mut Vec<u32>, number: u32) -> Result<(), Want>
    requires { IsStrictlyIncreasing row.old.items }
    ensures rising { IsStrictlyIncreasing row.new.items }
    ensures within { (n : ℕ) → has row.new.items n ≡ true → (has row.old.items n || (n == number)) ≡ true }
    ensures numbers { OnOk result ((n : ℕ) → has row.new.items n ≡ (has row.old.items n || (n == number))) }
    ensures err { OnErr result (row.new.items ≡ row.old.items) }
{
    match row.binary_search(&number) {
        Ok(_) => {}
        Err(place) => row.insert(place, number)?,
    }
    Ok(())
}

/// Adds an edge to the rows of a graph, unless it is there.
fn add_edge(rows: &mut Vec<Vec<u32>>, from: u32, to: u32) -> Result<(), Want>
    requires from { from < vec_len rows.old }
    requires to { to < vec_len rows.old }
    requires graph { IsGraph (rows_of rows.old.items) }
    ensures edges { OnOk result ((n m : ℕ) → is_edge (rows_of rows.new.items) n m ≡ is_edge_with (rows_of rows.old.items) from to n m) }
    ensures graph { IsGraph (rows_of rows.new.items) }
    ensures count { vec_len rows.new ≡ vec_len rows.old }
    ensures err { OnErr result (rows_of rows.new.items ≡ rows_of rows.old.items) }
{
    let row = &mut rows[from as usize];
    put_rising(row, to)
}

impl Graph {
    /// A graph of so many nodes, without edges.
    pub fn new(alloc: Global, nodes: u32) -> Result<Graph, Want>
        ensures empty { IfOk result (λ graph. graph ≡ replicate nodes []) }
        ensures graph { IfOk result IsGraph }
    {
        let rows = empty_rows(alloc, nodes)?;
        Ok(Graph { rows })
    }

    /// Adds an edge; one that is there stays and stands once. Where memory is wanting nothing changes.
    pub fn add(&mut self, from: u32, to: u32) -> Result<(), Want>
        requires from { from < length self.old }
        requires to { to < length self.old }
        ensures edges { OnOk result ((n m : ℕ) → is_edge self.new n m ≡ is_edge_with self.old from to n m) }
        ensures graph { IsGraph self.new }
        ensures count { length self.new ≡ length self.old }
        ensures err { OnErr result (self.new ≡ self.old) }
    {
        add_edge(&mut self.rows, from, to)
    }

    /// The successors of a node, rising.
    pub fn next(&self, n: u32) -> &[u32]
        requires { n < length self.now }
        ensures row { result.now ≡ slice_index_or self.now n [] }
        ensures graph { IsGraph self.now }
    {
        &self.rows[n as usize]
    }

    /// How many nodes it has.
    pub fn count(&self) -> u32
        ensures count { result ≡ length self.now }
        ensures graph { IsGraph self.now }
    {
        self.rows.len() as u32
    }
}
