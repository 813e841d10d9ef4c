// Whole-number quadratics a v² - 2 z v + c on the places v = m + 163840 of signed levels m. With that bias no coefficient falls
// below zero under shifts and mirrors, so a, z and c are unsigned. Crossings and turning points are computed on the signed levels, by
// floor division. Beside them stands k, the number of changes behind it, which decides between equal costs: only `raise` adds to it. Code keeps a and k
// together in one word, as the workspace does, and takes them apart where one of them is looked at: quicker than four numbers (docs/BENCHMARK.md).
//
// An inner crate: each function requires the range of its quadratics (`Small`), and the callers' invariant (`Fine`) gives it.
// specs/Fine.antt has the laws that each operation keeps the invariant, and what it does to the value.
#![tactic(auto)]

ghost use Rattle.std.specs.Prelude.{◌≡◌, true, false, ℕ, ◌+◌, ◌*◌, ◌-◌, ◌≤◌, ◌<◌, leb, ltb, pos, ◌-ℤ◌};
ghost use Rattle.integers.specs.Pairs.{unit, lex};
ghost use Rattle.quadratic.specs.Level.{Placed};
ghost use Rattle.quadratic.specs.Places.{lowest_place, last_under};
ghost use Rattle.quadratic.specs.Quad.{quad, Small, Fine, Lowest, Cut, Turns, Stays, Halved, raised, pushed, moved, mirrored, up, down, Under, Over, cost, late, count_limit};

// The cost of what is not there, 2^60: sums and minima treat it as a number, `raise` and `add_square` leave it.
pub const NONE: u64 = 1152921504606846976;

// One change more, in the word that has a and k: w = a + 2^32 k.
pub const CHANGE: u64 = 4294967296;

#[derive(Clone, Copy, PartialEq, Eq)]
pub struct Packed {
    pub w: u64,
    pub z: u64,
    pub c: u64,
}

// A cost and a number of changes. The one that comes first is the less of two.
#[derive(Clone, Copy, PartialEq, Eq, PartialOrd, Ord)]
pub struct Rank {
    pub value: u64,
    pub changes: u64,
}

impl Rank {
    // What is not there.
    pub const NONE: Rank = Rank {
        value: NONE,
        changes: 0,
    };
}

// The two parts of a cost, which is rise less fall.
fn rise(a: u64, c: u64, v: u64) -> u64
    requires { (a ≤ count_limit) × ((c < 2305843009213693952) × (v < 262144)) }
    ensures { (result ≡ a * (v * v) + c) × (result ≤ 2377900603251621888) }
{
    a * (v * v) + c
}

fn fall(z: u64, v: u64) -> u64
    requires { (z ≤ 549755813888) × (v < 262144) }
    ensures { (result ≡ 2 * (z * v)) × (result ≤ 288230376151711744) }
{
    2 * (z * v)
}

// The cost at v, with q's changes.
pub fn eval(q: Packed, v: u64) -> Rank
    requires { Small (quad q) × ((v < 262144) × (down (quad q) v ≤ up (quad q) v)) }
    ensures { ((result.value ≡ cost (quad q) v) × (result.changes ≡ (quad q).k)) × (result.value ≤ 2377900603251621888) }
{
    Rank {
        value: rise(q.w % CHANGE, q.c, v) - fall(q.z, v),
        changes: q.w / CHANGE,
    }
}

// Whether w is at most l at v.
pub fn under(w: Packed, l: Packed, v: u64) -> bool
    requires { Small (quad w) × (Small (quad l) × (v < 262144)) }
    ensures { result ≡ leb (up (quad w) v + down (quad l) v) (up (quad l) v + down (quad w) v) }
{
    rise(w.w % CHANGE, w.c, v) + fall(l.z, v) <= rise(l.w % CHANGE, l.c, v) + fall(w.z, v)
}

// 1 where the first number of changes is more: by so much its cost has to be less to come first.
pub fn more_changes(i: u64, j: u64) -> u64
    ensures { result ≡ late i j }
{
    u64::from(j < i)
}

// a comes before b: it is cheaper, or as cheap with fewer changes. One sum and one comparison are quicker than two comparisons.
pub fn comes_first(a: Rank, b: Rank) -> bool
    requires { (a.changes < unit) × ((b.changes < unit) × (a.value ≤ 4611686018427387904)) }
    ensures { result ≡ ltb (lex a.value a.changes) (lex b.value b.changes) }
{
    a.value + 1 - more_changes(b.changes, a.changes) <= b.value
}

// p less q, signed. The library's differences of u64 are not.
fn less(p: u64, q: u64) -> i64
    requires { (p < 4611686018427387904) × (q < 4611686018427387904) }
    ensures { result ≡ pos p -ℤ pos q }
{
    (p as i64) - (q as i64)
}

// The place of the signed level m in [x, y], whose levels are counted from -163840.
fn place(m: i64, x: u64, y: u64) -> u64
    requires { (x ≤ y) × (y < 262144) }
    ensures { Placed m x y result }
{
    let level = m.clamp(less(x, 163840), less(y, 163840));
    (level + 163840) as u64
}

// (p - q) / d is computed on signed levels and rounded down: its place, or the end of [x, y] that is nearest to it. The division is the
// slowest instruction here and most quotients lie outside [x, y], so that two products find those first.
fn cut(p: u64, q: u64, d: u64, x: u64, y: u64) -> u64
    requires p_bound { ((p < 2305843009213693952) × (q < 2305843009213693952)) × ((0 < d) × (d ≤ 2199023255552)) }
    requires x_le_y { (x ≤ y) × (y < 262144) }
    ensures { Cut p q d x y result }
{
    if p < d * (x + 1) + q {
        return x;
    }
    if d * y + q <= p {
        return y;
    }
    let n = less(p, q + d * 163840);
    let m = integers::floor_div(n, less(d, 0));
    place(m, x, y)
}

// The first place of [x, y] at which e v² - 2 (f - g) v is least: its turning point, rounded, the lower one of two that tie.
fn turning_point(e: u64, f: u64, g: u64, x: u64, y: u64) -> u64
    requires e_nonzero { ((0 < e) × (e ≤ count_limit)) × ((f ≤ 549755813888) × (g ≤ 549755813888)) }
    requires x_le_y { (x ≤ y) × (y < 262144) }
    ensures { Turns e f g x y result }
{
    cut(2 * f + e - 1, 2 * g, 2 * e, x, y)
}

// The lowest level of [x, y] at which q is least.
pub fn lowest_min(q: Packed, x: u64, y: u64) -> u64
    requires { Small (quad q) × ((x ≤ y) × (y < 262144)) }
    ensures { (result ≡ lowest_place (quad q) x (y - x)) × Lowest (quad q) x y result }
{
    let a = q.w % CHANGE;
    if a == 0 {
        if q.z == 0 {
            return x;
        }
        return y;
    }
    turning_point(a, q.z, 0, x, y)
}

// The last place at which w is at most l, where it is so at lo, not so at hi, and changes once between.
fn bisect(w: Packed, l: Packed, lo: u64, hi: u64) -> u64
    requires small { (Small (quad w) × Small (quad l)) × ((lo < hi) × (hi < 262144)) }
    requires under { Under (quad w) (quad l) lo × Over (quad w) (quad l) hi }
    ensures { Halved (quad w) (quad l) lo hi result }
{
    let mut b = lo;
    let mut e = hi;
    // Bisection: a turn moves one end to the middle, and counts nothing.
    while 1 < e - b {
        let m = b + (e - b) / 2;
        if under(w, l, m) {
            b = m;
        } else {
            e = m;
        }
    }
    b
}

// How far from x on w stays at most l: the last place before it is over, or y.
pub fn crossing(w: Packed, l: Packed, x: u64, y: u64) -> u64
    requires small { (Small (quad w) × Small (quad l)) × ((x ≤ y) × (y < 262144)) }
    requires under { Under (quad w) (quad l) x }
    ensures { (result ≡ last_under (quad w) (quad l) x (y - x)) × Stays (quad w) (quad l) x y result }
{
    let a = w.w % CHANGE;
    let b = l.w % CHANGE;
    if a == b {
        if l.z <= w.z {
            return y;
        }
        return cut(l.c, w.c, 2 * (l.z - w.z), x, y);
    }
    if a < b {
        let k = turning_point(b - a, l.z, w.z, x, y);
        if under(w, l, k) {
            return y;
        }
        return bisect(w, l, x, k);
    }
    if under(w, l, y) {
        return y;
    }
    bisect(w, l, x, y)
}

// q with pen more at every level, and ch changes more; none stays none.
pub fn raise(q: Packed, pen: u64, ch: u64) -> Packed
    requires { Small (quad q) × ((pen ≤ 1152921504606846976) × (ch ≤ count_limit)) }
    ensures { quad result ≡ raised pen ch (quad q) }
{
    if q.c == NONE {
        q
    } else {
        Packed {
            w: q.w + CHANGE * ch,
            c: q.c + pen,
            ..q
        }
    }
}

// q with w times the square (u - v)² more: one reading of weight w more; none stays none.
pub fn add_square(q: Packed, u: u64, w: u64) -> Packed
    requires { Small (quad q) × ((u < 262144) × (w < 256)) }
    ensures { quad result ≡ pushed w u (quad q) }
{
    if q.c == NONE {
        q
    } else {
        Packed {
            w: q.w + w,
            z: q.z + w * u,
            c: q.c + w * (u * u),
        }
    }
}

// q with every level moved up by g.
pub fn shift(q: Packed, g: u64) -> Packed
    requires { Small (quad q) × (g < 1024) }
    ensures { quad result ≡ moved g (quad q) }
{
    let a = q.w % CHANGE;
    Packed {
        z: q.z + a * g,
        c: q.c + (2 * (q.z * g) + a * (g * g)),
        ..q
    }
}

// q with each level v at the place of s - v.
pub fn mirror(q: Packed, s: u64) -> Packed
    requires small { Small (quad q) × (s < 524288) }
    requires z_bound { (q.z ≤ (quad q).a * s) × (2 * (q.z * s) ≤ (quad q).a * (s * s) + q.c) }
    ensures { quad result ≡ mirrored s (quad q) }
{
    let a = q.w % CHANGE;
    Packed {
        z: a * s - q.z,
        c: a * (s * s) + q.c - 2 * (q.z * s),
        ..q
    }
}
