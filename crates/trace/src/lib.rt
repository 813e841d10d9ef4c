// One step of the way back: from the cost at a count, a state and a level after t + 1 readings to where it came from after t readings. A run
// whose first reading is found is written to the lent list.
// All functions here are inner ones: their `requires` say where the layer stands.
#![tactic(auto)]

ghost use Rattle.std.specs.Prelude.{◌≡◌, [], ◌∷◌, ◌+◌, ◌-◌, ◌*◌, ◌≤◌, ◌<◌, pos, ◌+ℤ◌};
ghost use Rattle.model.specs.Run.{joins};
ghost use Rattle.quadratic.specs.Fine.{far};
ghost use Rattle.runs.specs.Runs.{five_of};
ghost use Rattle.trace.specs.Trace.{StepReady, StepMade};

use curve::{Low, Rank};
use labels::{Boundary, Key};
use layer::Problem;
use plan::{Edge, Kind};
use runs::Run;

// Where the way back stands: the list, the index of the level in it and the cost there; the last reading of the run that is open, and how many
// runs are written.
#[derive(Clone, Copy)]
pub struct Point {
    pub key: Key,
    pub low: Low,
    pub last: usize,
    pub runs: usize,
}

// The square of the distance of two places.
fn square_of(u: u64, v: u64) -> u64
    requires { (u < 262144) × (v < 262144) }
    ensures { result ≡ far u v * far u v }
{
    let d = u.abs_diff(v);
    d * d
}

// A stay edge from a state to itself.
#[tactic(auto, unfolding(model::specs::Run::joins, model::specs::Run::is_stay))]
fn joins_run(e: Edge) -> bool
    ensures { result ≡ joins e }
{
    matches!(e.kind, Kind::Stay) && e.from == e.to
}

// The numbers of a run.
pub fn run_of(first: usize, last: usize, state: usize, lo: i16, j: u64, edge: usize) -> Run
    requires { ((first ≤ 65536) × (last ≤ 65536)) × ((state ≤ 65536) × ((j ≤ 65536) × (edge ≤ 65536))) }
    ensures { five_of result ≡ pos first ∷ pos last ∷ pos state ∷ (lo +ℤ pos j) ∷ pos edge ∷ [] }
{
    Run {
        first: first as i32,
        last: last as i32,
        state: state as i32,
        level: (lo as i32) + (j as i32),
        edge: edge as i32,
    }
}

// The step over boundary t, the layer after t readings standing at cur.
pub fn step(
    ws: &[u64],
    problem: &Problem,
    t: usize,
    cur: usize,
    from: Point,
    out: &mut [i32],
) -> Point
    requires { StepReady problem.now.plan.now problem.now.readings.now t cur problem.now.shape from ws.now out.old }
    ensures { StepMade problem.now.plan.now problem.now.readings.now t from result out.old out.new }
{
    let label = labels::label_on(problem.plan, &problem.code, t);
    let boundary = Boundary { t, label };
    let u = integers::bias(problem.readings[t]);
    let level = from.low.level;
    let loss = square_of(u, problem.shape.grid.base + level);
    let want = Rank {
        value: from.low.rank.value - loss,
        ..from.low.rank
    };
    let Some(found) = back::step_back(ws, problem, boundary, cur, from.key, level, want) else {
        return from;
    };
    let e = coded::edge_in(&problem.code, found.edge);
    let key = Key {
        count: labels::count_before(boundary, e.kind, from.key.count),
        state: e.from as usize,
    };
    let before = Point {
        key,
        low: found.low,
        ..from
    };
    if joins_run(e) {
        return before;
    }
    let lo = problem.plan.lo;
    let r = run_of(t + 1, from.last, from.key.state, lo, level, found.edge);
    runs::put_run(out, from.runs, r);
    Point {
        last: t,
        runs: from.runs + 1,
        ..before
    }
}
