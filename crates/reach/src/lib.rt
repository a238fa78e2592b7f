// Zero-delay links between nodes, which node leads to which over them, and the least node on a zero-delay loop.
#![tactic(auto)]

ghost use Rattle.std.specs.Prelude.{false, [], ◌&&◌, ◌≡◌, ℕ, ◌<◌, ◌≤◌, min, eqb, get_or, length, replicate, take};
ghost use Rattle.sheet.specs.Limits.{most_nodes, most_modules};
ghost use Rattle.sheet.specs.Enumerate.{each};
ghost use Rattle.sheet.specs.Sheet.{Sheet, node_count};
ghost use Rattle.sheet.specs.Told.{refusal_in};
ghost use Rattle.sheet.specs.Loop.{leads, leads_over};
ghost use Rattle.sheet.specs.Refusal.{loop_rows, first};
ghost use Rattle.reach.specs.Links.{links, links_below, entry, Holds, Adds, RowAdds, diagonal_rows, Network};

use sheet::{MODULES, MOST_NODES, Module, NODES, Refusal};

// A row for each node, a flag for each node that it leads to.
pub type Matrix = [[bool; NODES]; NODES];

// No node leads anywhere: what a matrix begins as.
pub const UNLINKED: Matrix = [[false; NODES]; NODES];

// A node leads nowhere.
fn clear_row(row: &mut [bool; NODES])
    ensures { row.new ≡ replicate most_nodes false }
{
    *row = [false; NODES];
}

// No node leads anywhere, whatever the matrix held. Row by row: `*reach = UNLINKED` made a second matrix on the stack and copied it, and a
// check of a small sheet took three times as long.
fn clear(reach: &mut Matrix)
    ensures { (u : ℕ) → u < most_nodes → get_or reach.new u [] ≡ replicate most_nodes false }
{
    for row in reach.iter_mut() {
        clear_row(row);
    }
}

// The first modules of a list, as many as a sheet may have.
#[tactic(auto, using(std::proofs::lemmas::List::take_min))]
pub fn cut(modules: &[Module]) -> &[Module]
    ensures first { result.now ≡ take most_modules modules.now }
    ensures few { length result.now ≤ most_modules }
{
    &modules[..MODULES.min(modules.len())]
}

// A node leads to node v, if the test says so. A row is lent on its own: behind two indices in a row no proof knows its length.
fn mark_row(row: &mut [bool; NODES], v: u8, test: bool)
    ensures { RowAdds row.old (λ b. test && eqb b v) row.new }
{
    row[v as usize] |= test;
}

// The first node leads to the second, if the test says so.
fn mark(reach: &mut Matrix, u: u8, v: u8, test: bool)
    ensures { Adds reach.old (λ a b. test && (eqb a u && eqb b v)) reach.new }
{
    mark_row(&mut reach[u as usize], v, test);
}

// The links of one module.
fn mark_module(reach: &mut Matrix, m: Module)
    ensures { Adds reach.old (links m) reach.new }
{
    let used = level::inputs(m.kind);
    let at_once = m.delay == 0;
    mark(reach, m.first, m.output, at_once & (0 < used));
    mark(reach, m.second, m.output, at_once & (1 < used));
    mark(reach, m.third, m.output, at_once & (2 < used));
}

// The links of all modules.
fn mark_modules(reach: &mut Matrix, modules: &[Module])
    ensures { Adds reach.old (links_below modules.now (length modules.now)) reach.new }
{
    for m in modules {
        mark_module(reach, *m);
    }
}

// A node leads where another does too. By index, since no proof knows what was written through a `zip` with `iter_mut`.
fn join_row(row: &mut [bool; NODES], with: &[bool; NODES])
    ensures { RowAdds row.old (λ v. get_or with.now v false) row.new }
{
    for (v, leads) in row.iter_mut().enumerate() {
        *leads |= with[v];
    }
}

// If a node leads to node k, it leads where that leads.
fn join_over(row: &mut [bool; NODES], from_k: &[bool; NODES], k: usize)
    requires { k < most_nodes }
    ensures { RowAdds row.old (λ v. get_or row.old k false && get_or from_k.now v false) row.new }
{
    if row[k] {
        join_row(row, from_k);
    }
}

// Every node that leads to node k leads where that leads.
fn close_over(reach: &mut Matrix, k: usize)
    requires { k < most_nodes }
    ensures { Adds reach.old (λ a v. entry reach.old a k && entry reach.old k v) reach.new }
{
    let from_k = reach[k];
    for row in reach.iter_mut() {
        join_over(row, &from_k, k);
    }
}

// Which node leads to which over nodes below n, from which is linked to which.
fn close(reach: &mut Matrix, n: usize)
    requires { n ≤ most_nodes }
    ensures { (S : Sheet) → Holds reach.old (leads S) → Holds reach.new (leads_over S n) }
{
    for k in 0..n {
        close_over(reach, k);
    }
}

// Which node leads to which over modules of delay 0. A row and a column stand there for every byte, whether a node or not.
// The matrix is lent, not returned, so that it stands on the stack once.
pub fn closure(reach: &mut Matrix, modules: &[Module], nodes: u16)
    ensures { (S : Sheet) → Network modules.now nodes S → Holds reach.new (leads_over S (node_count S)) }
{
    clear(reach);
    mark_modules(reach, cut(modules));
    close(reach, nodes.min(MOST_NODES) as usize);
}

// The least node that leads to itself. A node stands for its row and for its column, so this goes by number.
pub fn least_on_loop(reach: &Matrix, nodes: u16) -> Result<(), Refusal>
    ensures { refusal_in result ≡ first (each (min nodes most_nodes) (diagonal_rows (entry reach.now))) }
{
    for v in 0..nodes.min(MOST_NODES) {
        let on_loop = reach[v as usize][v as usize];
        if on_loop {
            return Err(Refusal::Loop(u32::from(v)));
        }
    }
    Ok(())
}

// Refusal 18: a zero-delay loop.
pub fn loop_refusal(modules: &[Module], nodes: u16) -> Result<(), Refusal>
    ensures { (S : Sheet) → Network modules.now nodes S → refusal_in result ≡ first (each (node_count S) (loop_rows S)) }
{
    let mut reach = UNLINKED;
    closure(&mut reach, modules, nodes);
    least_on_loop(&reach, nodes)
}
