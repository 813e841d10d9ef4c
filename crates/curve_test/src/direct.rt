// Functions of the level as plain lists of values, and what the operations make of them, level by level: 40 values for each of nine slots.
ghost use Rattle.std.specs.Prelude.{◌≡◌, ◌<◌};

use curve::{Grid, Rank};

// Where the value of the list in slot a stands for level j.
fn index(a: usize, j: u64) -> usize {
    (40 * (a % 9)).wrapping_add(j as usize)
}

// The value of the list in slot a, at level j; none past the end.
pub fn at(values: &[Rank], a: usize, j: u64) -> Rank {
    values.get(index(a, j)).copied().unwrap_or(Rank::NONE)
}

pub fn put(values: &mut [Rank], a: usize, j: u64, v: Rank) {
    if let Some(place) = values.get_mut(index(a, j)) {
        *place = v;
    }
}

// v with pen and ch changes more; none stays none.
fn plus(v: Rank, pen: u64, ch: u64) -> Rank {
    if v.value == quadratic::NONE {
        return v;
    }
    Rank {
        value: v.value.wrapping_add(pen),
        changes: v.changes.wrapping_add(ch),
    }
}

// w times the square of the distance of two places; a distance is below 65536.
fn loss(u: u64, v: u64, w: u64) -> u64 {
    let e = u.abs_diff(v) % 65536;
    w % 256 * (e * e)
}

// The place of a reading: any, or one among the first 64 levels from base on, mostly among the first 4.
pub fn place(x: u64, base: u64) -> u64
    ensures { result < 196608 }
{
    if x / 4096 % 8 == 0 {
        return 131072 + x / 32768 % 65536;
    }
    if x / 4096 % 8 < 4 {
        return 131072 + (base % 131072 + x / 64 % 64) % 65536;
    }
    131072 + (base % 131072 + x / 64 % 4) % 65536
}

// A weight from 1 to 255, mostly 1 or 2.
pub fn weight(x: u64) -> u64
    ensures { result < 256 }
{
    if x / 32768 % 8 == 0 {
        return 1 + x / 262144 % 255;
    }
    1 + x / 262144 % 2
}

// From 0 to 3 changes.
pub fn changes(x: u64) -> u64
    ensures { result < 4 }
{
    x / 4096 % 4
}

// A gap below 64, mostly below 4.
pub fn gap(x: u64) -> u64 {
    if x / 4096 % 4 == 0 { x % 64 } else { x % 4 }
}

// A penalty, mostly 0 or 1.
pub fn penalty(x: u64) -> u64
    ensures { result < 1048576 }
{
    if x / 16384 % 8 == 0 {
        return x / 2048 % 1048576;
    }
    x / 131072 % 2
}

// What operation 0 puts at every level: none, as for 0, or a cost that is mostly a low square.
pub fn constant(x: u64) -> Rank
    ensures { result.changes < 4 }
{
    if x / 16384 % 8 == 0 {
        return Rank::NONE;
    }
    let r = x / 1048576 % 4;
    Rank {
        value: if x / 131072 % 8 == 0 { x } else { r * r },
        changes: changes(x),
    }
}

// Whether an edge leads from index i to j; number 5 stands for the range from gap to j.
fn permits(number: u64, gap: u64, i: u64, j: u64) -> bool {
    match number {
        0 => i == j,
        1 => i != j,
        2 => i.wrapping_add(gap) <= j,
        3 => j.wrapping_add(gap) <= i,
        4 => gap <= i.abs_diff(j),
        _ => gap <= i && i <= j,
    }
}

// The first index that has the least value among those from which an edge leads to j, if there is one.
pub fn first_least(
    values: &[Rank],
    a: usize,
    number: u64,
    gap: u64,
    j: u64,
    levels: u64,
) -> Option<u64> {
    let mut best = None;
    for i in 0..levels {
        if permits(number, gap, i, j) && best.is_none_or(|k| at(values, a, i) < at(values, a, k)) {
            best = Some(i);
        }
    }
    best
}

// The values at acc and those at a over an edge, with pen and the edge's change added: the lesser at level j. Only a stay is no change.
fn edge_value(
    values: &[Rank],
    number: u64,
    gap: u64,
    pen: u64,
    a: usize,
    acc: usize,
    j: u64,
    levels: u64,
) -> Rank {
    let old = at(values, acc, j);
    match first_least(values, a, number, gap, j, levels) {
        None => old,
        Some(i) => old.min(plus(at(values, a, i), pen, u64::from(number != 0))),
    }
}

// The least of the values at a up to j.
fn least_to(values: &[Rank], a: usize, j: u64) -> Rank {
    let mut best = at(values, a, j);
    for i in 0..j {
        best = best.min(at(values, a, i));
    }
    best
}

// What operation op makes of the values at a, and at b, at level j. From 10 on op is an edge of kind op - 10.
pub fn value(values: &[Rank], op: u64, a: usize, b: usize, x: u64, j: u64, grid: Grid) -> Rank {
    let here = at(values, a, j);
    match op {
        0 => constant(x),
        1 => {
            let v = grid.base.wrapping_add(j);
            plus(here, loss(place(x, grid.base), v, weight(x)), 0)
        }
        2 => {
            let gap = x % 12;
            if j < gap {
                Rank::NONE
            } else {
                at(values, a, j - gap)
            }
        }
        3 => at(values, a, grid.levels.wrapping_sub(j.wrapping_add(1))),
        4 => least_to(values, a, j),
        5 => here.min(plus(at(values, b, j), penalty(x), changes(x))),
        6..=9 => here,
        10..=u64::MAX => edge_value(values, op - 10, gap(x), penalty(x), a, b, j, grid.levels),
    }
}
