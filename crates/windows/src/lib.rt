// The moving window: the least cost of every stretch of w readings of a long record.
#![tactic(auto)]

ghost use Rattle.std.specs.Prelude.{◌≡◌, length};
ghost use Rattle.saved.specs.Walk.{most_slots};
ghost use Rattle.search.specs.ToldCosts.{filled_told};
ghost use Rattle.search.specs.Costs.{filled_of, costs_after};
ghost use Rattle.windows.specs.Windows.{window_result, window_words};
ghost use Rattle.windows.specs.Fill.{Fillable, FilledTo};

use layer::{Problem, Shape};
use plan::{Plan, Refusal};
use saved::Saved;

// The costs of all parts, one after the other. Each part is searched as if it were the record; no layer is saved, since nothing goes back.
fn each_part(
    ws: &mut [u64],
    whole: &Problem,
    w: usize,
    table: &mut [Saved],
    costs: &mut [u64],
) -> Result<usize, Refusal>
    requires fillable { Fillable whole.now.plan.now whole.now.readings.now w whole.now.shape ws.old costs.old }
    requires table_size { length table.old ≡ most_slots }
    ensures { FilledTo whole.now.plan.now whole.now.readings.now w (filled_told result) ws.old ws.new costs.old costs.new }
{
    let readings = whole.readings;
    let last = readings.len() - w;
    let mut part = *whole;
    for a in 0..last + 1 {
        part.readings = &readings[a..a + w];
        let reached = search::cheapest(ws, &part, table, 0);
        let least = reached.end.low.rank.value;
        if quadratic::NONE <= least {
            return Err(Refusal::NoSegmentation);
        }
        costs[a] = least;
    }
    Ok(last + 1)
}

// The walk with what it lends to every part: the plan's edges and labels, and the table of saved layers, of which none is used.
fn fill(
    ws: &mut [u64],
    plan: Plan,
    record: &[i16],
    w: usize,
    g: Shape,
    costs: &mut [u64],
) -> Result<usize, Refusal>
    requires { Fillable plan «record».now w g ws.old costs.old }
    ensures { FilledTo plan «record».now w (filled_told result) ws.old ws.new costs.old costs.new }
{
    let mut table = [saved::UNUSED; saved::SLOTS];
    let problem = Problem {
        plan: &plan,
        code: coded::code_of(plan),
        readings: record,
        shape: g,
    };
    each_part(ws, &problem, w, &mut table, costs)
}

// The least cost of each part of w readings, in the order of the start.
pub fn least_costs(
    plan: Plan,
    record: &[i16],
    w: usize,
    workspace: &mut [u64],
    costs: &mut [u64],
) -> Result<usize, Refusal>
    ensures answer { filled_told result ≡ filled_of (window_result plan «record».now w (length workspace.old) (length costs.old)) }
    ensures list { costs.new ≡ costs_after (window_result plan «record».now w (length workspace.old) (length costs.old)) costs.old }
    ensures words { workspace.new ≡ window_words plan (window_result plan «record».now w (length workspace.old) (length costs.old)) workspace.old }
{
    let n = record.len();
    refusals::check_window(plan, n, w)?;
    let g = search::shape_of(plan);
    let need = search::work_words(g.states, g.grid.levels);
    if workspace.len() < need {
        return Err(Refusal::WorkspaceTooShort);
    }
    if costs.len() < n - w + 1 {
        return Err(Refusal::ListTooShort);
    }
    search::read_all(record);
    let filled = fill(workspace, plan, record, w, g, costs);
    search::clear(workspace, need);
    filled
}
