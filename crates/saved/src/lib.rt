// The layers in any order of time: some are saved, packed end to end in the workspace, and the others made again from them.
// What is saved, and when, never changes an answer: each entry of the stack holds the layer after as many readings as it says.
//
// The words of the workspace, with S states and L levels: two layers, from 0 and from LAYER_WORDS · S · L; the three temporary lists, from
// FREE_AT · S · L; and the stack of saved layers, from TEMP_WORDS · L after that up to ALL_WORDS · S · L.
#![tactic(auto)]

ghost use Rattle.std.specs.Prelude.{◌≡◌, ◌+◌, ◌*◌, ◌≤◌, ◌<◌, length};
ghost use Rattle.model.specs.Checked.{Checked};
ghost use Rattle.model.specs.Labels.{counts, used_at};
ghost use Rattle.layer.specs.Layer.{Shape-small, ShapeOf, place_most};
ghost use Rattle.saved.specs.Packed.{Row, PackReady, Saves, UnpackReady, Unpacked};
ghost use Rattle.saved.specs.Walk.{most_slots, off_of, Workspace, At, Goes, Walked, Begun, Reached, Places, Stack, Dropped, Restarted, Stops};

use layer::{Origin, Problem, Shape};

// The words of the workspace for each state and level: those of two layers, and all of them.
const FREE_AT: usize = 2 * layer::LAYER_WORDS;

pub const ALL_WORDS: usize = 24 * labels::COUNTS;

// The most layers that are saved. Where a record has no more, and they fit in the words, none is made twice.
pub const SLOTS: usize = 1024;

// A saved layer: after how many readings it is, and where the words end that it is packed in. They begin where those of the layer saved before
// it end. The table of SLOTS of them is lent from call to call and not handed on by value: at each step back that would copy all of it.
#[derive(Clone, Copy)]
pub struct Saved {
    pub time: usize,
    pub end: usize,
}

// An entry of the table that is not in use.
pub const UNUSED: Saved = Saved { time: 0, end: 0 };

// The layer after `time` readings stands at cur; other is where the other layer has its place; count entries of the table are in use.
#[derive(Clone, Copy)]
pub struct Walk {
    pub time: usize,
    pub cur: usize,
    pub other: usize,
    pub count: usize,
}

// States times levels: S · L above.
fn area(g: Shape) -> usize
    requires { Shape-small g }
    ensures { (result ≡ g.states * g.grid.levels) × (result ≤ 8192) }
{
    g.states * (g.grid.levels as usize)
}

// How many lists the layer after t readings has.
fn lists_at(problem: &Problem, t: usize) -> usize
    requires { Checked problem.now.plan.now × (ShapeOf problem.now.plan.now problem.now.shape) }
    ensures { (result ≡ used_at problem.now.plan.now t * problem.now.plan.now.states) × (result ≤ 8 * counts) }
{
    labels::counts_at(problem.plan, &problem.code, t) * problem.shape.states
}

// Where these saved layers end in the workspace, and the next one begins: where the stack begins if there is none.
fn stack_top(problem: &Problem, saved: &[Saved]) -> usize
    requires { Shape-small problem.now.shape × ShapeOf problem.now.plan.now problem.now.shape }
    ensures { result ≡ off_of problem.now.plan.now saved.now (length saved.now) }
{
    match saved.last() {
        Some(top) => top.end,
        None => {
            FREE_AT * area(problem.shape) + layer::TEMP_WORDS * (problem.shape.grid.levels as usize)
        }
    }
}

// The n lists from o on, packed from at on: where they end, or none where they would reach past limit.
fn pack(ws: &mut [u64], o: usize, at: usize, limit: usize, n: usize, levels: u64) -> Option<usize>
    requires { PackReady ws.old o at limit n levels }
    ensures { Saves ws.old ws.new o at limit n levels result }
{
    let size = 4 * (levels as usize);
    let mut to = at;
    for q in 0..n {
        let f = o + q * size;
        let words = 4 * curve::count(ws, f, levels);
        if limit - to < words {
            return None;
        }
        curve::copy(ws, f, to, levels);
        to += words;
    }
    Some(to)
}

// The n lists packed from at on, put in their places from o on.
fn unpack(ws: &mut [u64], at: usize, o: usize, n: usize, levels: u64)
    requires { UnpackReady ws.old at o n levels }
    ensures { Unpacked ws.old ws.new at o n levels }
{
    let size = 4 * (levels as usize);
    let mut from = at;
    for q in 0..n {
        let pieces = curve::copy(ws, from, o + q * size, levels);
        from += 4 * pieces;
    }
}

// The words that the n lists from o on take when they are packed.
fn words_of(ws: &[u64], o: usize, n: usize, levels: u64) -> usize
    requires { Row ws.now o n levels × (o + n * (4 * levels) ≤ place_most) }
    ensures { result ≤ 8 * counts * 4096 }
{
    let size = 4 * (levels as usize);
    let mut sum = 0;
    for q in 0..n {
        let pieces = curve::count(ws, o + q * size, levels);
        sum += 4 * pieces;
    }
    sum
}

// The least r with binomial(c + r, r) ≥ d: with c layers at hand, d steps can be walked back so that none is made more than r times.
fn repeats(d: usize, c: usize) -> usize
    requires { (d ≤ 4096) × (c ≤ 4096) }
    ensures { result ≤ d }
{
    let mut b = 1;
    for r in 0..d {
        if d <= b {
            return r;
        }
        b = b * (c + r + 1) / (r + 1);
    }
    d
}

// Where to save next on the way from a to t, with room for c layers: t where there is none.
fn next_save(a: usize, t: usize, c: usize) -> usize
    requires { (a < t) × ((t ≤ 4096) × (c ≤ most_slots)) }
    ensures { (a < result) × (result ≤ t) }
{
    if c == 0 {
        return t;
    }
    let d = t - a;
    let r = repeats(d, c + 1);
    a + (d * r / (c + 1 + r)).clamp(1, d)
}

// How many layers of these words there is room for: at most the slots. Later layers are taken to be as large as the one at hand.
fn free_slots(words: usize, free: usize, slots: usize) -> usize
    requires { (words ≤ 8 * counts * 4096) × (slots ≤ most_slots) }
    ensures { result ≤ most_slots }
{
    slots.min(free / (words + 1))
}

// How far to go before the next layer is saved, where at most so many slots are used: to t once they are. The slots are a matter of speed alone.
fn next_stop(
    ws: &[u64],
    problem: &Problem,
    walk: Walk,
    table: &[Saved],
    t: usize,
    slots: usize,
) -> usize
    requires stops { Stops problem.now.plan.now problem.now.shape walk t table.now ws.now }
    requires slots_le_most_slots { slots ≤ most_slots }
    ensures { (walk.time < result) × (result ≤ t) }
{
    let n = walk.count;
    if slots <= n {
        return t;
    }
    let free = ALL_WORDS * area(problem.shape) - stack_top(problem, &table[..n]);
    let lists = lists_at(problem, walk.time);
    let words = words_of(ws, walk.cur, lists, problem.shape.grid.levels);
    let c = free_slots(words, free, slots - n);
    next_save(walk.time, t, c)
}

// How many entries are left without those later than t on top.
fn drop_after(saved: &[Saved], t: usize) -> usize
    ensures { Dropped saved.now (length saved.now) t result }
{
    saved
        .iter()
        .rposition(|entry| entry.time <= t)
        .map_or(0, |n| n + 1)
}

// The layer after the first reading, at cur, with nothing saved.
fn start(ws: &mut [u64], problem: &Problem, cur: usize, other: usize) -> Walk
    requires { Workspace problem.now.plan.now problem.now.readings.now problem.now.shape ws.old × Places problem.now.plan.now cur other }
    ensures { Reached problem.now.plan.now problem.now.readings.now 1 0 ws.old ws.new result }
{
    let free = FREE_AT * area(problem.shape);
    layer::first_layer(ws, problem, cur, free);
    Walk {
        time: 1,
        cur,
        other,
        count: 0,
    }
}

// From the top saved layer, or from the first reading where none is saved. The table with its count: entries above it are written later.
fn restart(
    ws: &mut [u64],
    problem: &Problem,
    cur: usize,
    other: usize,
    table: &[Saved],
    count: usize,
) -> Walk
    requires { Workspace problem.now.plan.now problem.now.readings.now problem.now.shape ws.old × (Places problem.now.plan.now cur other × Stack problem.now.plan.now problem.now.readings.now count table.now ws.old) }
    ensures { Restarted problem.now.plan.now problem.now.readings.now count table.now ws.old ws.new result }
{
    let [below @ .., top] = &table[..count] else {
        return start(ws, problem, cur, other);
    };
    let time = top.time;
    let at = stack_top(problem, below);
    let lists = lists_at(problem, time);
    unpack(ws, at, cur, lists, problem.shape.grid.levels);
    Walk {
        time,
        cur,
        other,
        count,
    }
}

// Forward to x, with nothing saved on the way.
fn forward(ws: &mut [u64], problem: &Problem, walk: Walk, x: usize) -> Walk
    requires { Goes problem.now.plan.now problem.now.readings.now problem.now.shape walk x ws.old }
    ensures { Reached problem.now.plan.now problem.now.readings.now x walk.count ws.old ws.new result }
{
    let free = FREE_AT * area(problem.shape);
    let mut cur = walk.cur;
    let mut other = walk.other;
    for time in walk.time..x {
        let from = Origin {
            stays: cur,
            changes: cur,
        };
        layer::next_layer(ws, problem, time, from, other, free);
        (cur, other) = (other, cur);
    }
    Walk {
        time: x,
        cur,
        other,
        count: walk.count,
    }
}

// Forward to x, where the layer is saved if it is not the last on the way to t and there is room.
fn go_on(
    ws: &mut [u64],
    problem: &Problem,
    walk: Walk,
    table: &mut [Saved],
    x: usize,
    t: usize,
) -> Walk
    requires { Goes problem.now.plan.now problem.now.readings.now problem.now.shape walk x ws.old × Stack problem.now.plan.now problem.now.readings.now walk.count table.old ws.old }
    ensures { Walked problem.now.plan.now problem.now.readings.now x table.new ws.old ws.new result }
{
    let w = forward(ws, problem, walk, x);
    let n = w.count;
    if t <= x || SLOTS <= n {
        return w;
    }
    let at = stack_top(problem, &table[..n]);
    let limit = ALL_WORDS * area(problem.shape);
    let lists = lists_at(problem, w.time);
    let Some(end) = pack(ws, w.cur, at, limit, lists, problem.shape.grid.levels) else {
        return w;
    };
    table[n] = Saved { time: w.time, end };
    Walk { count: n + 1, ..w }
}

// Forward to t, with layers saved on the way in at most so many slots: SLOTS where the walk goes back, 0 where it does not.
pub fn advance(
    ws: &mut [u64],
    problem: &Problem,
    walk: Walk,
    table: &mut [Saved],
    t: usize,
    slots: usize,
) -> Walk
    requires goes { Goes problem.now.plan.now problem.now.readings.now problem.now.shape walk t ws.old × Stack problem.now.plan.now problem.now.readings.now walk.count table.old ws.old }
    requires slots_le_most_slots { slots ≤ most_slots }
    ensures { Walked problem.now.plan.now problem.now.readings.now t table.new ws.old ws.new result }
{
    let mut w = walk;
    // A turn goes to where the next layer is saved, and counts nothing.
    while w.time < t {
        let x = next_stop(ws, problem, w, table, t, slots);
        w = go_on(ws, problem, w, table, x, t);
    }
    w
}

// The layer after the first reading, with nothing saved.
pub fn begin(ws: &mut [u64], problem: &Problem) -> Walk
    requires { Workspace problem.now.plan.now problem.now.readings.now problem.now.shape ws.old }
    ensures { Begun problem.now.plan.now problem.now.readings.now ws.old ws.new result }
{
    start(ws, problem, 0, layer::LAYER_WORDS * area(problem.shape))
}

// Back to t: from the last layer saved that is not later, and forward again.
pub fn rewind(ws: &mut [u64], problem: &Problem, walk: Walk, table: &mut [Saved], t: usize) -> Walk
    requires { Workspace problem.now.plan.now problem.now.readings.now problem.now.shape ws.old × (At problem.now.plan.now problem.now.readings.now walk ws.old × (Stack problem.now.plan.now problem.now.readings.now walk.count table.old ws.old × ((1 ≤ t) × (t ≤ walk.time)))) }
    ensures { Walked problem.now.plan.now problem.now.readings.now t table.new ws.old ws.new result }
{
    let kept = drop_after(&table[..walk.count], t);
    let w = restart(ws, problem, walk.cur, walk.other, table, kept);
    advance(ws, problem, w, table, t, SLOTS)
}
