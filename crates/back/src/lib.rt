// A layer read: the cheapest end, the cost at a point, and the step back over one boundary.
// All functions here are inner ones: their `requires` say where the layer stands.
#![tactic(auto)]

ghost use Rattle.std.specs.Prelude.{◌≡◌, ◌+◌, ◌/◌, ◌≤◌, ◌<◌};
ghost use Rattle.integers.specs.Pairs.{unit, lex};
ghost use Rattle.quadratic.specs.Quad.{count_limit};
ghost use Rattle.curve.specs.Lows.{rank_of};
ghost use Rattle.model.specs.Held.{Table};
ghost use Rattle.model.specs.Ends.{point_at};
ghost use Rattle.model.specs.Labels.{used};
ghost use Rattle.layer.specs.Layer.{ShapeOf};
ghost use Rattle.labels.specs.Boundary.{label_of};
ghost use Rattle.back.specs.Step.{MayOffer, Offers, meets_at, BackReady, StepTo};
ghost use Rattle.back.specs.Read.{Readable, Reads, EndTo};

use curve::{Low, Rank};
use labels::{Boundary, Key};
use layer::{Problem, Shape};
use plan::{Edge, Plan};

// A cost with its changes, and the level's index and the state that have it.
#[derive(Clone, Copy)]
pub struct End {
    pub low: Low,
    pub state: usize,
}

// The better of the best end so far and the best of state s, which comes later.
fn better_end(ws: &[u64], plan: &Plan, cur: usize, g: Shape, s: usize, best: End) -> End
    requires { Readable 1 cur g ws.now × (ShapeOf plan.now g × ((s < plan.now.states) × (best.low.rank.changes ≤ count_limit))) }
    ensures { (result.low.rank.changes ≤ count_limit) × ((H : Table) → Reads 1 cur g ws.now H → EndTo plan.now H s best → EndTo plan.now H (s + 1) result) }
{
    if !layer::in_set(plan.end, s) {
        return best;
    }
    let grid = g.grid;
    let f = layer::list_at(cur, g, Key { count: 0, state: s });
    let low = curve::least_in(ws, f, 0, grid.levels - 1, grid);
    if quadratic::comes_first(low.rank, best.low.rank) {
        End { low, state: s }
    } else {
        best
    }
}

// The cheapest end in the end set: fewest changes, then lowest state, then lowest level. None, state 0 and level 0 where there is none. No label is
// open at the end, so the lists of count 0 are all that is read.
pub fn best_end(ws: &[u64], plan: &Plan, cur: usize, g: Shape) -> End
    requires { Readable 1 cur g ws.now × ShapeOf plan.now g }
    ensures { (result.low.rank.changes ≤ count_limit) × ((H : Table) → Reads 1 cur g ws.now H → EndTo plan.now H plan.now.states result) }
{
    let mut best = End {
        low: Low::NONE,
        state: 0,
    };
    for s in 0..g.states {
        best = better_end(ws, plan, cur, g, s, best);
    }
    best
}

// The least cost over the first n counts of what ends in state s at the level with index j.
pub fn point_cost(ws: &[u64], cur: usize, g: Shape, n: usize, s: usize, j: u64) -> u64
    requires { Readable n cur g ws.now × ((s < g.states) × (j < g.grid.levels)) }
    ensures { (H : Table) → Reads n cur g ws.now H → result ≡ point_at n H s j / unit }
{
    let mut best = quadratic::NONE;
    for k in 0..n {
        let f = layer::list_at(cur, g, Key { count: k, state: s });
        let here = curve::value_at(ws, f, j, g.grid);
        best = best.min(here.value);
    }
    best
}

// What an edge offers at a boundary to a list at index j, with the lowest level it comes from; none, or more, where it offers nothing.
fn offer_of(ws: &[u64], e: Edge, boundary: Boundary, cur: usize, key: Key, j: u64, g: Shape) -> Low
    requires { Readable (used (label_of boundary.label)) cur g ws.now × MayOffer (label_of boundary.label) boundary.t e key.count key.state j g }
    ensures { Offers (label_of boundary.label) boundary.t e key.count key.state j cur g ws.now result }
{
    if !labels::leads(boundary, e, key) {
        return Low::NONE;
    }
    let source = Key {
        count: labels::count_before(boundary, e.kind, key.count),
        state: e.from as usize,
    };
    let f = layer::list_at(cur, g, source);
    edges::least_before(ws, f, e.kind, j, g.grid)
}

// A cost there is, which with the penalty is the wanted one, and which has the wanted changes with those of the edge.
fn meets(found: Rank, pen: u64, ch: u64, want: Rank) -> bool
    requires { ((pen ≤ 1152921504606846976) × (ch ≤ 1)) × ((found.changes ≤ count_limit) × (want.changes ≤ count_limit)) }
    ensures { result ≡ meets_at (rank_of found) (lex pen ch) (rank_of want) }
{
    found.value < quadratic::NONE
        && found.value + pen == want.value
        && found.changes + ch == want.changes
}

// The edge before a boundary, and the cost there with its changes and its level's index.
#[derive(Clone, Copy)]
pub struct Step {
    pub edge: usize,
    pub low: Low,
}

// The step back over a boundary from a list at index j: the lowest edge whose offer with its penalty and its change is the wanted cost with the wanted
// changes, from its lowest level. Edges and levels of the same cost and more changes are passed over. None where there is no such edge.
pub fn step_back(
    ws: &[u64],
    problem: &Problem,
    boundary: Boundary,
    cur: usize,
    key: Key,
    j: u64,
    want: Rank,
) -> Option<Step>
    requires { Readable (used (label_of boundary.label)) cur problem.now.shape ws.now × (BackReady problem.now.plan.now (label_of boundary.label) boundary.t key.count key.state j problem.now.shape × (want.changes ≤ count_limit)) }
    ensures { (H : Table) → Reads (used (label_of boundary.label)) cur problem.now.shape ws.now H → StepTo problem.now.plan.now boundary.t H key.count key.state j (rank_of want) result }
{
    for i in 0..problem.plan.edgecount {
        let e = coded::edge_in(&problem.code, i);
        let low = offer_of(ws, e, boundary, cur, key, j, problem.shape);
        let pen = plan::penalty_of(e.class);
        let ch = labels::change_of(e.kind) as u64;
        if meets(low.rank, pen, ch, want) {
            return Some(Step { edge: i, low });
        }
    }
    None
}
