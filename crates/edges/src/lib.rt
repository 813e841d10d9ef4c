// The lists of a layer over one edge after the other: the least so far, the loss of a reading, and the step back.
//
// Contracts speak of values at level indices, a cost and its changes as one number: wherever the lists read have the values F and G (`Curve`), the list
// written has the model's `edge_min`, `raise` and `min` of these. Stay is the list itself, any a constant but at one level, up the running minimum shifted, down
// the same in the mirror, abs both. `any_into` leaves out what would not be seen in the minimum.
//
// Three temporary lists are handed on (`Temps`): acc is the least so far, the next one goes to next, and work is one to work in. The place of the new least
// so far is one number, and not the three in their new order: a struct as a result would go through memory.
//
// An inner crate: which lists share no word, and their bounds, are `requires` (`Ready`, `Sound`).
#![tactic(auto)]

ghost use Rattle.std.specs.Prelude.{◌≡◌, ◌⊎◌, ℕ, ◌+◌, ◌*◌, ◌-◌, ◌≤◌, ◌<◌, ltb, length};
ghost use Rattle.plan.specs.declared.Kind.TheVariants.{Any};
ghost use Rattle.plan.specs.Build.{gap_of};
ghost use Rattle.model.specs.Model.{change_of};
ghost use Rattle.model.specs.Index.{up_min, down_min, edge_min, Permitted};
ghost use Rattle.quadratic.specs.Quad.{count_limit, cost_limit};
ghost use Rattle.curve.specs.Pieces.{piece, Apart};
ghost use Rattle.curve.specs.Lows.{top_cost, low_of, costs};
ghost use Rattle.curve.specs.Curve.{Limits};
ghost use Rattle.edges.specs.Back.{LeastOf, pick_low};
ghost use Rattle.edges.specs.Edge.{Into, Joint, Sound, Ready, Moved, StandsFor, Joined, Taken, WithLoss};

use curve::{Grid, Low, Rank};
use plan::Kind;

// Where the three temporary lists stand: the least so far, the next one, and one to work in.
#[derive(Clone, Copy)]
pub struct Temps {
    pub acc: usize,
    pub next: usize,
    pub work: usize,
}

// work: at each level the least of f at the other levels. That is the least of all, but at a level that has it: there it is the second least. It
// is left out where it cannot be seen: where the least so far comes there no later than the least with pen and one change. So it is where a stay
// from f, no dearer than this edge, was taken before; and one piece is quicker than three.
fn any_into(ws: &mut [u64], temps: Temps, f: usize, pen: u64, grid: Grid)
    requires { Ready temps.acc temps.next temps.work f pen grid.base grid.levels ws.old }
    ensures { StandsFor (edge_min grid.levels Any) pen 1 grid.base grid.levels ws.old ws.new f temps.acc temps.next temps.work }
{
    let two = curve::two_least(ws, f, grid);
    let Low { rank, level } = two.least;
    let so_far = curve::value_at(ws, temps.acc, level, grid);
    let offer = Rank {
        value: rank.value + pen,
        changes: rank.changes + 1,
    };
    if quadratic::comes_first(offer, so_far) {
        curve::constant_but(ws, temps.work, grid.levels, two);
    } else {
        curve::constant(ws, temps.work, grid.levels, rank);
    }
}

// work: at each level the least of f at the levels at least gap below.
fn up_into(ws: &mut [u64], f: usize, gap: u64, next: usize, work: usize, grid: Grid)
    requires into { Into f next work grid.levels (length ws.old) × (gap < 1024) }
    requires limits { Limits count_limit cost_limit grid.base grid.levels × Sound count_limit cost_limit grid.base grid.levels ws.old f }
    ensures { Moved (up_min gap) grid.base grid.levels ws.old ws.new f next work }
{
    curve::running_min(ws, f, next, grid);
    curve::shift(ws, next, gap, work, grid);
}

// work: at each level the least of f at the levels at least gap above, which is the same in the mirror.
fn down_into(ws: &mut [u64], f: usize, gap: u64, next: usize, work: usize, grid: Grid)
    requires into { Into f next work grid.levels (length ws.old) × (gap < 1024) }
    requires limits { Limits count_limit cost_limit grid.base grid.levels × Sound count_limit cost_limit grid.base grid.levels ws.old f }
    ensures { Moved (down_min grid.levels gap) grid.base grid.levels ws.old ws.new f next work }
{
    curve::mirror(ws, f, next, grid);
    curve::running_min(ws, next, work, grid);
    curve::shift(ws, work, gap, next, grid);
    curve::mirror(ws, next, work, grid);
}

// The least so far and g with pen and ch changes added, at next.
fn take(ws: &mut [u64], acc: usize, next: usize, g: usize, pen: u64, ch: u64, grid: Grid)
    requires joint { Joint acc next g grid.levels (length ws.old) × ((pen ≤ cost_limit) × (ch ≤ 1)) }
    requires limits { Limits count_limit cost_limit grid.base grid.levels }
    requires sound { Sound count_limit cost_limit grid.base grid.levels ws.old acc × Sound (count_limit - 1) (cost_limit - pen) grid.base grid.levels ws.old g }
    ensures { Joined pen ch grid.base grid.levels ws.old ws.new g acc next }
{
    curve::least_of_two(ws, acc, g, pen, ch, next, grid);
}

// An edge of kind any, at next.
fn take_any(ws: &mut [u64], temps: Temps, f: usize, pen: u64, grid: Grid)
    requires { Ready temps.acc temps.next temps.work f pen grid.base grid.levels ws.old }
    ensures { Taken (edge_min grid.levels Any) pen 1 grid.base grid.levels ws.old ws.new f temps.acc temps.next temps.work temps.next }
{
    any_into(ws, temps, f, pen, grid);
    take(ws, temps.acc, temps.next, temps.work, pen, 1, grid);
}

// An edge of kind up, at next.
fn take_up(ws: &mut [u64], temps: Temps, f: usize, gap: u64, pen: u64, grid: Grid)
    requires { Ready temps.acc temps.next temps.work f pen grid.base grid.levels ws.old × (gap < 1024) }
    ensures { Taken (up_min gap) pen 1 grid.base grid.levels ws.old ws.new f temps.acc temps.next temps.work temps.next }
{
    up_into(ws, f, gap, temps.next, temps.work, grid);
    take(ws, temps.acc, temps.next, temps.work, pen, 1, grid);
}

// An edge of kind down, at next.
fn take_down(ws: &mut [u64], temps: Temps, f: usize, gap: u64, pen: u64, grid: Grid)
    requires { Ready temps.acc temps.next temps.work f pen grid.base grid.levels ws.old × (gap < 1024) }
    ensures { Taken (down_min grid.levels gap) pen 1 grid.base grid.levels ws.old ws.new f temps.acc temps.next temps.work temps.next }
{
    down_into(ws, f, gap, temps.next, temps.work, grid);
    take(ws, temps.acc, temps.next, temps.work, pen, 1, grid);
}

// The least so far with an edge from the list at f taken in: where it stands, which is acc or next. A list that is none everywhere
// offers nothing. The rule for the levels is chosen by the kind's number; the range is for numbers that no kind has. Every kind but stay is one change more.
pub fn take_edge(ws: &mut [u64], temps: Temps, f: usize, kind: Kind, pen: u64, grid: Grid) -> usize
    requires { Ready temps.acc temps.next temps.work f pen grid.base grid.levels ws.old × (gap_of kind ≤ 1023) }
    ensures { Taken (edge_min grid.levels kind) pen (change_of kind) grid.base grid.levels ws.old ws.new f temps.acc temps.next temps.work result }
{
    if curve::all_none(ws, f, grid.levels) {
        return temps.acc;
    }
    let number = plan::kind_number(kind);
    let gap = plan::gap_of(kind) as u64;
    match number {
        0 => {
            take(ws, temps.acc, temps.next, f, pen, 0, grid);
            temps.next
        }
        1 => {
            take_any(ws, temps, f, pen, grid);
            temps.next
        }
        2 => {
            take_up(ws, temps, f, gap, pen, grid);
            temps.next
        }
        3 => {
            take_down(ws, temps, f, gap, pen, grid);
            temps.next
        }
        4 => {
            take_up(ws, temps, f, gap, pen, grid);
            let swapped = Temps {
                acc: temps.next,
                next: temps.acc,
                ..temps
            };
            take_down(ws, swapped, f, gap, pen, grid);
            temps.acc
        }
        5..=255 => temps.acc,
    }
}

// dst: the list at f with the loss of a reading at the place u: w times the square of the distance from each level.
pub fn add_reading(ws: &mut [u64], f: usize, u: u64, w: u64, dst: usize, grid: Grid)
    requires apart { Apart f dst (4 * grid.levels) × (dst + 4 * grid.levels ≤ length ws.old) }
    requires le_u { ((131072 ≤ u) × (u < 196608)) × ((w < 256) × (grid.base + grid.levels ≤ 196608)) }
    requires limits { Limits count_limit cost_limit grid.base grid.levels × Sound count_limit cost_limit grid.base grid.levels ws.old f }
    ensures { WithLoss w u grid.base grid.levels ws.old ws.new f dst }
{
    curve::add_loss(ws, f, u, w, dst, grid);
}

// The lower of two, the first where they are equal.
fn lower_of(a: Low, b: Low) -> Low
    requires { (a.rank.changes ≤ count_limit) × ((b.rank.changes ≤ count_limit) × (b.rank.value ≤ top_cost)) }
    ensures { result ≡ pick_low (ltb (low_of b) (low_of a)) b a }
{
    if quadratic::comes_first(b.rank, a.rank) {
        b
    } else {
        a
    }
}

// The least of f at the levels at least gap below j, with the lowest of them that has it.
fn least_below(ws: &[u64], f: usize, gap: u64, j: u64, grid: Grid) -> Low
    requires limits { Limits count_limit cost_limit grid.base grid.levels × Sound count_limit cost_limit grid.base grid.levels ws.now f }
    requires j_lt_levels { j < grid.levels }
    ensures { LeastOf (λ (i : ℕ). i + gap ≤ j) grid.levels (costs grid.base (piece ws.now f grid.levels)) result }
{
    if gap <= j {
        curve::least_in(ws, f, 0, j - gap, grid)
    } else {
        Low::NOWHERE
    }
}

// The least of f at the levels at least gap above j, with the lowest of them that has it.
fn least_above(ws: &[u64], f: usize, gap: u64, j: u64, grid: Grid) -> Low
    requires limits { Limits count_limit cost_limit grid.base grid.levels × Sound count_limit cost_limit grid.base grid.levels ws.now f }
    requires j_lt_levels { (j < grid.levels) × (gap < 1024) }
    ensures { LeastOf (λ (i : ℕ). j + gap ≤ i) grid.levels (costs grid.base (piece ws.now f grid.levels)) result }
{
    curve::least_in(ws, f, j + gap, grid.levels - 1, grid)
}

// The least of f at the levels at least gap from j, with the lowest of them that has it.
fn least_beside(ws: &[u64], f: usize, gap: u64, j: u64, grid: Grid) -> Low
    requires limits { Limits count_limit cost_limit grid.base grid.levels × Sound count_limit cost_limit grid.base grid.levels ws.now f }
    requires j_lt_levels { (j < grid.levels) × (gap < 1024) }
    ensures { LeastOf (λ (i : ℕ). (i + gap ≤ j) ⊎ (j + gap ≤ i)) grid.levels (costs grid.base (piece ws.now f grid.levels)) result }
{
    let below = least_below(ws, f, gap, j, grid);
    let above = least_above(ws, f, gap, j, grid);
    lower_of(below, above)
}

// The least of f at the levels from which an edge of the kind leads to level j, with the lowest of them that has it;
// none, or more, where there is no cost. Chosen as in `take_edge`.
pub fn least_before(ws: &[u64], f: usize, kind: Kind, j: u64, grid: Grid) -> Low
    requires limits { Limits count_limit cost_limit grid.base grid.levels × Sound count_limit cost_limit grid.base grid.levels ws.now f }
    requires j_lt_levels { (j < grid.levels) × (gap_of kind ≤ 1023) }
    ensures { LeastOf (λ (i : ℕ). Permitted kind i j) grid.levels (costs grid.base (piece ws.now f grid.levels)) result }
{
    let number = plan::kind_number(kind);
    let gap = plan::gap_of(kind) as u64;
    match number {
        0 => curve::least_in(ws, f, j, j, grid),
        1 => least_beside(ws, f, 1, j, grid),
        2 => least_below(ws, f, gap, j, grid),
        3 => least_above(ws, f, gap, j, grid),
        4 => least_beside(ws, f, gap, j, grid),
        5..=255 => Low::NOWHERE,
    }
}
