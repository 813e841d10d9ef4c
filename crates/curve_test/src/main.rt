// Random lists through the operations of `curve` and `edges`, on grids at both ends and around zero: each level's cost and changes are
// compared with a direct computation. Nine lists of up to 40 levels stand in the workspace, slot s at word 160 s, and beside them the values that
// they should have. Slots 6 to 8 are temporary lists; what is made of them, and of slots 0 to 2 or slots 3 to 5, goes to the other half. Constants
// are mostly low squares, penalties 0 or 1 and readings near, so that changes often decide between equal costs.
#![tactic(auto)]

ghost use Rattle.std.specs.Prelude.{◌≤◌};

mod direct;
mod list;
mod run;

use curve::{Grid, Rank};
use edges::Temps;

// The lists, and the values that they should have.
#[derive(Drop)]
struct Slots {
    words: [u64; 1440],
    values: [Rank; 360],
}

// The word at which the list of a slot stands.
fn word(slot: usize) -> usize {
    160 * (slot % 9)
}

// The next of a fixed sequence of numbers below 2^31.
fn random(x: u64) -> u64 {
    (x % 2147483648 * 1103515245 + 12345) % 2147483648
}

// One of the numbers below n.
fn pick(x: u64, n: u64) -> u64 {
    if n == 0 { 0 } else { x / 64 % n }
}

// One of the three slots of a half.
fn slot(x: u64, half: u64) -> usize {
    (half % 2 * 3 + x / 64 % 3) as usize
}

// Puts at slot c the values that op makes of those at a and b. The count of levels at which the list there says otherwise.
fn compare(s: &mut Slots, op: u64, a: usize, b: usize, c: usize, x: u64, grid: Grid) -> u64 {
    let mut wrong: u64 = 0;
    for j in 0..grid.levels {
        let v = direct::value(&s.values, op, a, b, x, j, grid);
        direct::put(&mut s.values, c, j, v);
        if run::value(&s.words, word(c), j, grid) != Some(v) {
            wrong = wrong.wrapping_add(1);
        }
    }
    wrong
}

// Operation op from slots a and b to slot c.
fn test_one(s: &mut Slots, op: u64, a: usize, b: usize, c: usize, x: u64, grid: Grid) -> u64 {
    if run::operate(&mut s.words, op, word(a), word(b), word(c), x, grid) {
        compare(s, op, a, b, c, x, grid)
    } else {
        grid.levels
    }
}

// Slot a with a penalty and changes added, at slot 6: the less of that and of none, which is put at slot 7.
fn test_raise(s: &mut Slots, a: usize, x: u64, grid: Grid) -> u64 {
    let none = test_one(s, 0, 7, 7, 7, 0, grid);
    let raised = test_one(s, 5, 7, a, 6, x, grid);
    none.wrapping_add(raised)
}

// The least of slot a, raised, and of slot b, at slot c.
fn test_two(s: &mut Slots, a: usize, b: usize, c: usize, x: u64, grid: Grid) -> u64 {
    let raised = test_raise(s, a, random(x), grid);
    let least = test_one(s, 5, 6, b, c, x, grid);
    raised.wrapping_add(least)
}

// The running minimum of that least, which is put at slot 8.
fn test_running(s: &mut Slots, a: usize, b: usize, c: usize, x: u64, grid: Grid) -> u64 {
    let least = test_two(s, a, b, 8, x, grid);
    let running = test_one(s, 4, 8, 8, c, 0, grid);
    least.wrapping_add(running)
}

// An edge from slot a into slot b, raised; the result is copied to slot c.
fn test_edge(s: &mut Slots, a: usize, b: usize, c: usize, x: u64, grid: Grid) -> u64 {
    let raised = test_raise(s, b, random(random(x)), grid);
    let number = pick(random(x), 5);
    let temps = Temps {
        acc: word(6),
        next: word(7),
        work: word(8),
    };
    let gap = direct::gap(x);
    let pen = direct::penalty(x);
    let Some(r) = run::edge(&mut s.words, temps, word(a), number, gap, pen, grid) else {
        return grid.levels;
    };
    let at = r / 160;
    let taken = compare(s, 10 + number % 5, a, 6, at, x, grid);
    let last = test_one(s, 6, at, at, c, 0, grid);
    raised.wrapping_add(taken).wrapping_add(last)
}

// Whether the least on a range, or over the levels from which an edge leads to level j, is as computed.
fn is_least(s: &Slots, a: usize, number: u64, gap: u64, j: u64, grid: Grid) -> bool {
    let least = if number == 5 {
        run::range(&s.words, word(a), gap, j, grid)
    } else {
        run::before(&s.words, word(a), number, gap, j, grid)
    };
    let Some(low) = least else {
        return false;
    };
    match direct::first_least(&s.values, a, number, gap, j, grid.levels) {
        None => quadratic::NONE < low.rank.value,
        Some(i) => low.level == i && low.rank == direct::at(&s.values, a, i),
    }
}

// The count of levels j at which it is not.
fn test_leasts(s: &Slots, a: usize, x: u64, grid: Grid) -> u64 {
    let number = pick(x, 6);
    let gap = direct::gap(random(x));
    let mut wrong: u64 = 0;
    for j in 0..grid.levels {
        if !is_least(s, a, number, gap, j, grid) {
            wrong = wrong.wrapping_add(1);
        }
    }
    wrong
}

// The same on the least of slot a, raised, and of slot b, which is put at slot 8.
fn test_lows(s: &mut Slots, a: usize, b: usize, x: u64, grid: Grid) -> u64 {
    let least = test_two(s, a, b, 8, x, grid);
    let lows = test_leasts(s, 8, random(x), grid);
    least.wrapping_add(lows)
}

// The ith random operation, by its number, since it is drawn from random numbers; the first six are constants. In the first thousand constants are many, in the second readings.
fn test(s: &mut Slots, x: u64, i: u64, grid: Grid) -> u64 {
    if i < 6 {
        return test_one(s, 0, 0, 0, i as usize, x, grid);
    }
    let y = random(x);
    let op = pick(x, 16);
    let a = slot(y, i % 2);
    let b = slot(random(y), i % 2);
    let c = slot(random(random(y)), i % 2 + 1);
    let z = random(random(random(y)));
    match op {
        4 => test_running(s, a, b, c, z, grid),
        5 => test_two(s, a, b, c, z, grid),
        0..=6 => test_one(s, op, a, b, c, z, grid),
        7..=9 => test_edge(s, a, b, c, z, grid),
        10..=11 => test_lows(s, a, b, z, grid),
        12..=13 => test_one(s, 1, a, b, c, z, grid),
        _ => test_one(s, i / 1000 % 2, a, b, c, z, grid),
    }
}

// Random operations on one grid.
fn test_grid(s: &mut Slots, seed: u64, grid: Grid) -> u64 {
    let mut wrong: u64 = 0;
    let mut x = seed;
    for i in 0..2000 {
        x = random(x);
        wrong = wrong.wrapping_add(test(s, x, i, grid));
    }
    wrong
}

// The grids whose lowest or highest level is at an end of the signed 16-bit numbers, and one around zero.
fn test_levels(s: &mut Slots, levels: u64) -> u64
    requires { levels ≤ 40 }
{
    let low = test_grid(
        s,
        1,
        Grid {
            levels,
            base: 131072,
        },
    );
    let zero = test_grid(
        s,
        2,
        Grid {
            levels,
            base: 163840 - levels / 2,
        },
    );
    let high = test_grid(
        s,
        3,
        Grid {
            levels,
            base: 196608 - levels,
        },
    );
    low.wrapping_add(zero).wrapping_add(high)
}

fn main() {
    let mut s = Slots {
        words: [0; 1440],
        values: [Rank::NONE; 360],
    };
    let mut wrong: u64 = 0;
    for levels in [1, 2, 7, 40] {
        wrong = wrong.wrapping_add(test_levels(&mut s, levels));
    }
    io::write_all(1, b"wrong: ");
    io::print_decimal(1, wrong);
    io::write_all(1, b"\n");
}
