// The operations on lists in the workspace, once what they ask for is tested.
ghost use Rattle.std.specs.Prelude.{◌≡◌, ◌≤◌, true};
ghost use Rattle.plan.specs.Build.{gap_of};
ghost use Rattle.curve_test.specs.Valid.{Separate};

use crate::{direct, list};
use curve::{Grid, Low, Rank};
use edges::Temps;
use plan::Kind;

// A constant; false where there is no room.
fn constant(ws: &mut [u64], dst: usize, x: u64, levels: u64) -> bool {
    if !list::room(ws, dst, levels) {
        return false;
    }
    curve::constant(ws, dst, levels, direct::constant(x));
    true
}

// An operation on the list at f; false where it is not one that may be taken.
fn on_one(ws: &mut [u64], op: u64, f: usize, dst: usize, x: u64, grid: Grid) -> bool {
    if !list::valid(ws, f, grid) {
        return false;
    }
    if !list::apart(f, dst, grid.levels) {
        return false;
    }
    if !list::room(ws, dst, grid.levels) {
        return false;
    }
    match op {
        1 => {
            let u = direct::place(x, grid.base);
            let w = direct::weight(x);
            curve::add_loss(ws, f, u, w, dst, grid);
            true
        }
        2 => {
            curve::shift(ws, f, x % 12, dst, grid);
            true
        }
        3 => {
            curve::mirror(ws, f, dst, grid);
            true
        }
        4 => {
            curve::running_min(ws, f, dst, grid);
            true
        }
        _ => {
            let n = curve::count(ws, f, grid.levels);
            curve::copy(ws, f, dst, grid.levels) == n
        }
    }
}

// The least of two lists, with a penalty and changes on the second.
fn on_two(ws: &mut [u64], f: usize, g: usize, dst: usize, x: u64, grid: Grid) -> bool {
    if !list::valid(ws, f, grid) {
        return false;
    }
    if !list::valid(ws, g, grid) {
        return false;
    }
    if !list::apart(f, dst, grid.levels) {
        return false;
    }
    if !list::apart(g, dst, grid.levels) {
        return false;
    }
    if !list::room(ws, dst, grid.levels) {
        return false;
    }
    let pen = direct::penalty(x);
    let ch = direct::changes(x);
    curve::least_of_two(ws, f, g, pen, ch, dst, grid);
    true
}

// Operation op on the lists at f and g.
pub fn operate(
    ws: &mut [u64],
    op: u64,
    f: usize,
    g: usize,
    dst: usize,
    x: u64,
    grid: Grid,
) -> bool {
    match op {
        0 => constant(ws, dst, x, grid.levels),
        5 => on_two(ws, f, g, dst, x, grid),
        _ => on_one(ws, op, f, dst, x, grid),
    }
}

// Whether the temporary lists and the one at f share no word.
fn in_hand(temps: Temps, f: usize, levels: u64) -> bool
    ensures { result ≡ true → Separate temps.acc temps.next temps.work f levels }
{
    let Temps { acc, next, work } = temps;
    list::apart(f, acc, levels)
        && list::apart(f, next, levels)
        && list::apart(f, work, levels)
        && list::apart(acc, next, levels)
        && list::apart(acc, work, levels)
        && list::apart(next, work, levels)
}

// A kind by its number, with a gap below 1024; stay where no kind has it.
fn kind_of(number: u64, gap: u64) -> Kind
    ensures { gap_of result ≤ 1023 }
{
    let g = (gap % 1024) as u16;
    match number {
        0 => Kind::Stay,
        1 => Kind::Any,
        2 => Kind::Up(g),
        3 => Kind::Down(g),
        4 => Kind::Abs(g),
        _ => Kind::Stay,
    }
}

// An edge from the list at f into the least so far: where the least is then, or nothing where it may not be taken.
pub fn edge(
    ws: &mut [u64],
    temps: Temps,
    f: usize,
    number: u64,
    gap: u64,
    pen: u64,
    grid: Grid,
) -> Option<usize> {
    if !in_hand(temps, f, grid.levels) {
        return None;
    }
    if !list::valid(ws, temps.acc, grid) {
        return None;
    }
    if !list::valid(ws, f, grid) {
        return None;
    }
    if !list::room(ws, temps.next, grid.levels) {
        return None;
    }
    if !list::room(ws, temps.work, grid.levels) {
        return None;
    }
    if 1048576 < pen {
        return None;
    }
    let kind = kind_of(number, gap);
    Some(edges::take_edge(ws, temps, f, kind, pen, grid))
}

// The least on a range, if the list may be read.
pub fn range(ws: &[u64], f: usize, from: u64, to: u64, grid: Grid) -> Option<Low> {
    if list::valid(ws, f, grid) && to < grid.levels {
        Some(curve::least_in(ws, f, from, to, grid))
    } else {
        None
    }
}

// The least over the levels from which an edge leads to j.
pub fn before(ws: &[u64], f: usize, number: u64, gap: u64, j: u64, grid: Grid) -> Option<Low> {
    if list::valid(ws, f, grid) && j < grid.levels {
        let kind = kind_of(number, gap);
        Some(edges::least_before(ws, f, kind, j, grid))
    } else {
        None
    }
}

// What the list at f costs at level j, and with how many changes, if it may be read.
pub fn value(ws: &[u64], f: usize, j: u64, grid: Grid) -> Option<Rank> {
    if list::valid(ws, f, grid) && j < grid.levels {
        Some(curve::value_at(ws, f, j, grid))
    } else {
        None
    }
}
