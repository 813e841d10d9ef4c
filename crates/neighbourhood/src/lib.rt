// The costs for each number of changes: the segment neighbourhood table.
//
// A slot is a layer of the segmentations with one number of changes: slot i + 1 has those with i changes, and slot 0 has nothing. A stay keeps
// the slot and a change comes from the slot before, so that one reading more is one step of the search's layers for each slot.
//
// The words of the workspace, counted in layers: slot 0; two banks of K + 1 slots, one with the layers at hand and one for the next ones; and the
// temporary lists after them.
#![tactic(auto)]

ghost use Rattle.std.specs.Prelude.{◌≡◌, ◌++◌, true, ℕ, suc, ◌+◌, ◌*◌, ◌≤◌, ◌<◌, min, length, take, drop};
ghost use Rattle.model.specs.Held.{Table};
ghost use Rattle.model.specs.Ends.{least_end_at};
ghost use Rattle.model.specs.Result.{cost_list};
ghost use Rattle.model.specs.Index.{reported};
ghost use Rattle.model.specs.Neighbourhood.{entries, table_of};
ghost use Rattle.layer.specs.Layer.{Shape-small, ShapeOf, place_most, layer_cell};
ghost use Rattle.back.specs.Read.{Readable, Reads};
ghost use Rattle.search.specs.ToldCosts.{filled_told};
ghost use Rattle.search.specs.Costs.{filled_of, costs_after};
ghost use Rattle.neighbourhood.specs.Neighbourhood.{table_result, table_words_after};
ghost use Rattle.neighbourhood.specs.Slots.{slots_most, slot_of, Emptied, Slots, Ground, Banks, StepTo, ForwardTo};
ghost use Rattle.neighbourhood.specs.Fill.{entry_told, Put, Decided, Fillable, FilledTo};

use curve::Rank;
use layer::{Origin, Problem, Shape};
use plan::{Plan, Refusal};

// How many entries a table has at most: one for each number of changes from 0 on.
const ENTRIES: usize = Plan::MAX_CHANGES + 1;

// The number in the caller's list for a number of changes that no allowed segmentation has: the largest one.
const NO_COST: u64 = 18446744073709551615;

// The place that comes after n layers.
fn place_of(g: Shape, n: usize) -> usize
    requires { Shape-small g × (n ≤ slots_most) }
    ensures { (result ≡ n * (layer_cell * (g.states * g.grid.levels))) × (result ≤ place_most) }
{
    n * (layer::LAYER_WORDS * (g.states * (g.grid.levels as usize)))
}

// How many slots after slot 0 have segmentations after t readings: no segmentation has as many changes as readings.
fn slots_at(most: usize, t: usize) -> usize
    requires { most ≤ 32 }
    ensures { result ≡ min (suc most) t }
{
    t.min(most + 1)
}

// Where slot i of the bank after b layers stands after t readings, counted in layers: that of slot 0 while it has nothing.
#[tactic(auto, unfolding(crate::specs::Slots::slot_of))]
fn slot_of(b: usize, i: usize, t: usize) -> usize
    requires { (b ≤ 33) × (i ≤ 33) }
    ensures { result ≡ slot_of b i t }
{
    if i == 0 || t < i { 0 } else { b + i }
}

// Slot 0: a layer in which nothing is reached.
fn put_nothing(ws: &mut [u64], g: Shape)
    requires { Shape-small g × (layer_cell * (g.states * g.grid.levels) ≤ length ws.old) }
    ensures { Emptied g ws.old ws.new }
{
    let levels = g.grid.levels;
    let size = 4 * (levels as usize);
    let n = labels::COUNTS * g.states;
    for q in 0..n {
        curve::constant(ws, q * size, levels, Rank::NONE);
    }
}

// One reading more: the slots after t + 1 readings in the bank after `to` layers, from those after t readings in the bank after `from` layers.
fn step_slots(ws: &mut [u64], problem: &Problem, t: usize, most: usize, from: usize, to: usize)
    requires { Ground problem.now.plan.now problem.now.readings.now most problem.now.shape ws.old × (Banks most from to × ((1 ≤ t) × ((t < length problem.now.readings.now) × Slots problem.now.plan.now problem.now.readings.now most t from ws.old))) }
    ensures { StepTo problem.now.plan.now problem.now.readings.now most (suc t) to ws.old ws.new }
{
    let g = problem.shape;
    let free = place_of(g, 2 * most + 3);
    let last = slots_at(most, t + 1);
    for i in 0..last {
        let changes = place_of(g, slot_of(from, i, t));
        let stays = place_of(g, slot_of(from, i + 1, t));
        let next = place_of(g, to + (i + 1));
        let origin = Origin { stays, changes };
        layer::next_layer(ws, problem, t, origin, next, free);
    }
}

// All readings: the bank that has the slots after the last one.
fn forward(ws: &mut [u64], problem: &Problem, most: usize) -> usize
    requires { Ground problem.now.plan.now problem.now.readings.now most problem.now.shape ws.old }
    ensures { ForwardTo problem.now.plan.now problem.now.readings.now most result ws.old ws.new }
{
    let g = problem.shape;
    put_nothing(ws, g);
    let first = place_of(g, 1);
    let free = place_of(g, 2 * most + 3);
    layer::first_layer(ws, problem, first, free);
    let n = problem.readings.len();
    let mut from = 0;
    let mut to = most + 1;
    for t in 1..n {
        step_slots(ws, problem, t, most, from, to);
        (from, to) = (to, from);
    }
    from
}

// The least cost of the layer at o in the end set.
fn entry(ws: &[u64], plan: &Plan, o: usize, g: Shape) -> Option<u64>
    requires { Readable 1 o g ws.now × ShapeOf plan.now g }
    ensures { (H : Table) → Reads 1 o g ws.now H → entry_told result ≡ reported (least_end_at plan.now H) }
{
    let least = back::best_end(ws, plan, o, g).low.rank.value;
    if quadratic::NONE <= least {
        return None;
    }
    Some(least)
}

// The entries, at the front of a list, and whether one of them is a cost.
fn put_entries(ws: &[u64], problem: &Problem, most: usize, bank: usize, list: &mut [u64]) -> bool
    requires { Ground problem.now.plan.now problem.now.readings.now most problem.now.shape ws.now × (Slots problem.now.plan.now problem.now.readings.now most (length problem.now.readings.now) bank ws.now × ((bank ≤ suc most) × (suc most ≤ length list.old))) }
    ensures { Put problem.now.plan.now problem.now.readings.now most result list.old list.new }
{
    let n = problem.readings.len();
    let mut some = false;
    for k in 0..most + 1 {
        let o = place_of(problem.shape, slot_of(bank, k + 1, n));
        let cost = entry(ws, problem.plan, o, problem.shape);
        list[k] = cost.unwrap_or(NO_COST);
        if cost.is_some() {
            some = true;
        }
    }
    some
}

// Whether no segmentation is allowed at all. An entry that is a cost tells that one is; where there is none, the forward half of the search tells.
fn none_allowed(ws: &mut [u64], problem: &Problem, most: usize, some: bool) -> bool
    requires { Ground problem.now.plan.now problem.now.readings.now most problem.now.shape ws.old × (some ≡ true → table_of problem.now.plan.now problem.now.readings.now most ≡ cost_list (entries problem.now.plan.now problem.now.readings.now (suc most))) }
    ensures { Decided problem.now.plan.now problem.now.readings.now most result ws.old ws.new }
{
    if some {
        return false;
    }
    let mut table = [saved::UNUSED; saved::SLOTS];
    let reached = search::cheapest(ws, problem, &mut table, 0);
    let least = reached.end.low.rank.value;
    quadratic::NONE <= least
}

// The first n numbers of a list at the front of another. Both may be longer, so n is no length of either.
fn copy_front(list: &[u64], n: usize, out: &mut [u64])
    requires { (n ≤ length list.now) × (n ≤ length out.old) }
    ensures { out.new ≡ take n list.now ++ drop n out.old }
{
    out[..n].copy_from_slice(&list[..n]);
}

// The table over a workspace and a list that are long enough. Nothing is written to the list before it is known that the answer is not 16.
fn fill(
    ws: &mut [u64],
    plan: Plan,
    readings: &[i16],
    most: usize,
    g: Shape,
    costs: &mut [u64],
) -> Result<usize, Refusal>
    requires { Fillable plan readings.now most g ws.old costs.old }
    ensures { FilledTo plan readings.now most (filled_told result) ws.old ws.new costs.old costs.new }
{
    let mut list = [0u64; ENTRIES];
    let problem = Problem {
        plan: &plan,
        code: coded::code_of(plan),
        readings,
        shape: g,
    };
    let bank = forward(ws, &problem, most);
    let some = put_entries(ws, &problem, most, bank, &mut list);
    if none_allowed(ws, &problem, most, some) {
        return Err(Refusal::NoSegmentation);
    }
    copy_front(&list, most + 1, costs);
    Ok(most + 1)
}

// The least cost for each number of changes from 0 to `most`, which is K, in this order; the largest number where there is none.
pub fn by_changes(
    plan: Plan,
    readings: &[i16],
    most: usize,
    workspace: &mut [u64],
    costs: &mut [u64],
) -> Result<usize, Refusal>
    ensures answer { filled_told result ≡ filled_of (table_result plan readings.now most (length workspace.old) (length costs.old)) }
    ensures list { costs.new ≡ costs_after (table_result plan readings.now most (length workspace.old) (length costs.old)) costs.old }
    ensures words { workspace.new ≡ table_words_after plan most (table_result plan readings.now most (length workspace.old) (length costs.old)) workspace.old }
{
    let n = readings.len();
    refusals::check_table(plan, n, most)?;
    let g = search::shape_of(plan);
    let need = search::work_words(g.states, g.grid.levels) * (most + 1);
    if workspace.len() < need {
        return Err(Refusal::WorkspaceTooShort);
    }
    if costs.len() < most + 1 {
        return Err(Refusal::ListTooShort);
    }
    search::read_all(readings);
    let filled = fill(workspace, plan, readings, most, g, costs);
    search::clear(workspace, need);
    filled
}
