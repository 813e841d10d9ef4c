// Signed numbers: division rounded down, levels as places counted from 0, and their bytes.
#![tactic(auto)]

ghost use Rattle.std.specs.Prelude.{◌≡◌, ◌/◌, ◌%◌, ◌≤◌, ◌<◌, pos, ◌+ℤ◌};
ghost use Rattle.integers.specs.Floor.{floor_div};
ghost use Rattle.integers.specs.Bytes.{word, signed16, bits16};

// The place of a level or a reading. Places are counted from -163840, so that levels moved by gaps and mirrored stay above zero.
pub fn bias(x: i16) -> u64
    ensures { (pos result ≡ x +ℤ pos 163840) × ((131072 ≤ result) × (result < 196608)) }
{
    (i64::from(x) + 163840) as u64
}

// n / d rounded down, for every d above zero; 0 for the others.
#[tactic(auto, unfolding(crate::specs::Floor::floor_div))]
pub fn floor_div(n: i64, d: i64) -> i64
    ensures { result ≡ floor_div n d }
{
    if d <= 0 { 0 } else { n.div_euclid(d) }
}

// The signed number of two bytes, the high one first, by arithmetic alone: a test for the sign, as `i16::from_be_bytes` has, is predicted badly on readings around zero. Turned by
// half the range the numbers stand in the order of the signed ones, the lowest at 0; then the half is taken away.
pub fn signed16(high: u8, low: u8) -> i16
    ensures { result ≡ signed16 (word high low) }
{
    let n = (high as u32) * 256 + (low as u32);
    let turned = (n + 32768) % 65536;
    ((turned as i32) - 32768) as i16
}

// The two bytes of a signed number.
#[tactic(auto, using(crate::proofs::Halves::high_is))]
pub fn high16(x: i16) -> u8
    ensures { result ≡ bits16 x / 256 }
{
    let [high, _] = x.to_be_bytes();
    high
}

#[tactic(auto, using(crate::proofs::Halves::low_is))]
pub fn low16(x: i16) -> u8
    ensures { result ≡ bits16 x % 256 }
{
    let [_, low] = x.to_be_bytes();
    low
}
