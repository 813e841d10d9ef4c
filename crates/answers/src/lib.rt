// Reads and writes answer files.
#![tactic(auto)]

ghost use Rattle.std.specs.Prelude.{◌≡◌, true, ◌+◌, ◌-◌, ◌*◌, ◌/◌, ◌≤◌, ◌<◌, ◌++◌, length, drop};
ghost use Rattle.std.proofs.lemmas.List.Edits.{sets};
ghost use Rattle.fields.specs.Fields.{put_at, field, bytes8};
ghost use Rattle.answers.specs.Runs.{is_refusal, run_fits, whole, whole_at, level_fits, last_before, run_ok, runs_ok};
ghost use Rattle.answers.specs.Reader.{body_fits, body_last, runs_from, refusal_read, answer_file, read_answer, run_numbers, runs_of, filled};
ghost use Rattle.answers.specs.Told.{answer_of};
ghost use Rattle.fields.specs.Put.{written_of};
ghost use Rattle.plan.specs.Refusals.{number_of};
ghost use Rattle.answers.specs.Writer.{run_field, runs_bytes, answer_bytes, refusal_bytes, answer_length, answer_number, refusal_number, answer_written, after_answer, refusal_written, after_refusal};

use fields::Field;
use plan::{Plan, Refusal};

// What an answer file holds: a cost and how many runs, or a refusal. An enum and not a Result: both are files that are accepted.
#[derive(Clone, Copy)]
pub enum AnswerFile {
    Runs { cost: u64, count: usize },
    Refusal(Refusal),
}

// The number of the last refusal. It rises with each that joins them, and last_refusal in specs with it.
pub const LAST_REFUSAL: u8 = 20;

// The refusal numbers that an answer file may hold.
#[tactic(auto, unfolding(crate::specs::Runs::is_refusal))]
pub fn is_refusal(n: u8) -> bool
    ensures { result ≡ is_refusal n }
{
    (1..=LAST_REFUSAL).contains(&n)
}

// A run after one that ended at prev, 0 before the first.
#[tactic(auto, unfolding(crate::specs::Runs::run_fits))]
fn run_fits(prev: u32, first: u32, last: u32, state: u32, edge: u32) -> bool
    ensures { result ≡ run_fits prev first last state edge }
{
    let edge_fits = if prev == 0 {
        edge == 255
    } else {
        edge < (Plan::MAX_EDGES as u32)
    };
    first.checked_sub(1) == Some(prev)
        && first <= last
        && last <= (Plan::MAX_READINGS as u32)
        && state < (Plan::MAX_STATES as u32)
        && edge_fits
}

#[tactic(auto, unfolding(crate::specs::Reader::body_fits))]
fn body_fits(prev: u32, b: &[u8]) -> bool
    ensures { result ≡ body_fits prev b.now }
{
    let [
        first_high,
        first_low,
        last_high,
        last_low,
        state,
        _,
        _,
        edge,
    ] = b
    else {
        return false;
    };
    let first = fields::word(*first_high, *first_low);
    let last = fields::word(*last_high, *last_low);
    run_fits(
        prev,
        u32::from(first),
        u32::from(last),
        u32::from(*state),
        u32::from(*edge),
    )
}

#[tactic(auto, unfolding(crate::specs::Reader::body_last))]
fn body_last(b: &[u8]) -> u32
    ensures { result ≡ body_last b.now }
{
    let [_, _, high, low, _, _, _, _] = b else {
        return 0;
    };
    u32::from(fields::word(*high, *low))
}

fn read_runs(s: &[u8], cost: u64, at: usize) -> Result<AnswerFile, Refusal>
    requires { at ≤ length s.now }
    ensures { answer_of result ≡ runs_from (length s.now + 1) s.now cost at 0 0 }
{
    let mut i = at;
    let mut prev: u32 = 0;
    let mut count: usize = 0;
    // a `loop`, since no index is counted: each field says where the next one starts
    loop {
        let f = fields::read_field(s, i, 6);
        let Field::Body { start, len, .. } = f else {
            return Err(f.refusal().unwrap());
        };
        let b = fields::field_body(s, f);
        if !body_fits(prev, b) {
            return Err(Refusal::BadAnswer);
        }
        i = start + len;
        count += 1;
        if i == s.len() {
            return Ok(AnswerFile::Runs { cost, count });
        }
        prev = body_last(b);
    }
}

fn read_refusal(s: &[u8], at: usize, b: &[u8]) -> Result<AnswerFile, Refusal>
    ensures { answer_of result ≡ refusal_read s.now at b.now }
{
    let [number] = b else {
        return Err(Refusal::WrongLength);
    };
    let Ok(held) = Refusal::try_from(*number) else {
        return Err(Refusal::BadAnswer);
    };
    if at == s.len() {
        return Ok(AnswerFile::Refusal(held));
    }
    let f = fields::read_field(s, at, 4);
    let Field::Body { .. } = f else {
        return Err(f.refusal().unwrap());
    };
    // never reached: no tag may stand at stage 4
    Err(Refusal::TagOutOfPlace)
}

// The fields of an answer file to its end.
fn read_file(s: &[u8]) -> Result<AnswerFile, Refusal>
    ensures { answer_of result ≡ answer_file s.now }
{
    let f = fields::read_field(s, 0, 5);
    let Field::Body { tag, start, len } = f else {
        return Err(f.refusal().unwrap());
    };
    let b = fields::field_body(s, f);
    if tag == 0x81 {
        return read_runs(s, fields::number8(b), start + len);
    }
    read_refusal(s, start + len, b)
}

// The five numbers of a run's body.
fn put_run(runs: &mut [i32], at: usize, b: &[u8])
    requires { (length b.now ≡ 8) × (at + 5 ≤ length runs.old) }
    ensures { runs.new ≡ sets runs.old at (run_numbers b.now) }
{
    let first = i32::from(fields::word(b[0], b[1]));
    let last = i32::from(fields::word(b[2], b[3]));
    let level = i32::from(integers::signed16(b[5], b[6]));
    runs[at..at + 5].copy_from_slice(&[first, last, i32::from(b[4]), level, i32::from(b[7])]);
}

// The numbers of as many runs of a file as the list has room for.
fn fill_runs(s: &[u8], runs: &mut [i32])
    requires { 11 + 11 * (length runs.old / 5) ≤ length s.now }
    ensures { runs.new ≡ runs_of s.now (length runs.old / 5) ++ drop (5 * (length runs.old / 5)) runs.old }
{
    // by index: what a list holds after pieces of it were lent by chunks_exact_mut is not known
    for i in 0..runs.len() / 5 {
        put_run(runs, 5 * i, fields::part(s, 14 + 11 * i, 8));
    }
}

// Reads an answer file; the numbers of its runs, five a run, go to the front of runs.
pub fn read_answer(s: &[u8], runs: &mut [i32]) -> Result<AnswerFile, Refusal>
    ensures answer { answer_of result ≡ read_answer s.now (length runs.old) }
    ensures list { runs.new ≡ filled s.now runs.old }
{
    let file = read_file(s)?;
    if let AnswerFile::Runs { count, .. } = file {
        if runs.len() / 5 < count {
            return Err(Refusal::ListTooShort);
        }
        fill_runs(s, &mut runs[..5 * count]);
    }
    Ok(file)
}

// A run number as a natural one; below zero it is none that fits.
#[tactic(auto, unfolding(crate::specs::Runs::whole))]
fn whole(x: i32) -> u32
    ensures { result ≡ whole x }
{
    u32::try_from(x).unwrap_or(65536)
}

// Number k of run i as a natural one.
fn whole_at(runs: &[i32], i: usize, k: usize) -> u32
    requires { 5 * i + k < length runs.now }
    ensures { result ≡ whole_at runs.now i k }
{
    whole(runs[5 * i + k])
}

#[tactic(auto, unfolding(crate::specs::Runs::level_fits))]
fn level_fits(x: i32) -> bool
    ensures { result ≡ level_fits x }
{
    i16::try_from(x).is_ok()
}

// Run i keeps the rules, after one that ended at prev.
#[tactic(auto, unfolding(crate::specs::Runs::run_ok))]
fn run_ok(runs: &[i32], i: usize, prev: u32) -> bool
    requires { (5 * i + 5 ≤ length runs.now) × (prev ≡ last_before runs.now i) }
    ensures { result ≡ run_ok runs.now i }
{
    let first = whole_at(runs, i, 0);
    let last = whole_at(runs, i, 1);
    let state = whole_at(runs, i, 2);
    let edge = whole_at(runs, i, 4);
    run_fits(prev, first, last, state, edge) && level_fits(runs[5 * i + 3])
}

fn runs_ok(runs: &[i32]) -> bool
    ensures { result ≡ runs_ok runs.now (length runs.now / 5) }
{
    let mut prev: u32 = 0;
    // by index: the rules speak of run i of the whole list
    for i in 0..runs.len() / 5 {
        if !run_ok(runs, i, prev) {
            return false;
        }
        prev = whole_at(runs, i, 1);
    }
    true
}

// Refusals 17, 15.
#[tactic(auto, unfolding(crate::specs::Writer::answer_number))]
fn check_answer(runs: &[i32], room: usize) -> Result<(), Refusal>
    ensures { number_of result ≡ answer_number runs.now room }
{
    let numbers = runs.len();
    if numbers == 0 || numbers % 5 != 0 || !runs_ok(runs) {
        return Err(Refusal::BadAnswer);
    }
    if room < 11 + 11 * (numbers / 5) {
        return Err(Refusal::ListTooShort);
    }
    Ok(())
}

#[tactic(auto, unfolding(fields::specs::Fields::bytes8))]
fn put_cost(out: &mut [u8], cost: u64)
    ensures { out.new ≡ put_at out.old 0 (field 0x81 (bytes8 cost)) }
{
    let [a, b, c, d, e, f, g, h] = cost.to_be_bytes();
    fields::put(out, 0, &[0x81, 0, 8, a, b, c, d, e, f, g, h]);
}

fn put_run_field(out: &mut [u8], at: usize, runs: &[i32], i: usize)
    requires { (5 * i + 5 ≤ length runs.now) × (run_ok runs.now i ≡ true) }
    ensures { out.new ≡ put_at out.old at (run_field runs.now i) }
{
    let [first_high, first_low] = (whole_at(runs, i, 0) as u16).to_be_bytes();
    let [last_high, last_low] = (whole_at(runs, i, 1) as u16).to_be_bytes();
    let state = whole_at(runs, i, 2) as u8;
    let level = runs[5 * i + 3] as i16;
    let edge = whole_at(runs, i, 4) as u8;
    let b = [
        0x82,
        0,
        8,
        first_high,
        first_low,
        last_high,
        last_low,
        state,
        integers::high16(level),
        integers::low16(level),
        edge,
    ];
    fields::put(out, at, &b);
}

fn put_runs(out: &mut [u8], runs: &[i32])
    requires { (runs_ok runs.now (length runs.now / 5) ≡ true) × (11 + 11 * (length runs.now / 5) ≤ length out.old) }
    ensures { out.new ≡ put_at out.old 11 (runs_bytes runs.now (length runs.now / 5)) }
{
    // by index: the fields are those of run i of the whole list
    for i in 0..runs.len() / 5 {
        put_run_field(out, 11 + 11 * i, runs, i);
    }
}

// Writes the answer file of a cost with its runs, five numbers a run, to the front of out.
pub fn write_answer(cost: u64, runs: &[i32], out: &mut [u8]) -> Result<usize, Refusal>
    ensures answer { written_of result ≡ answer_written runs.now (length out.old) }
    ensures list { out.new ≡ after_answer cost runs.now out.old }
{
    check_answer(runs, out.len())?;
    put_cost(out, cost);
    put_runs(out, runs);
    Ok(11 + 11 * (runs.len() / 5))
}

// Writes the answer file of a refusal to the front of out. It takes a number and not a Refusal: what it promises speaks of every number, of
// those that it refuses too.
#[tactic(auto, using(fields::proofs::PutLaws::put_front), unfolding(crate::specs::Writer::refusal_number, fields::specs::Put::outcome, fields::specs::Put::written))]
pub fn write_refusal(number: u8, out: &mut [u8]) -> Result<usize, Refusal>
    ensures answer { written_of result ≡ refusal_written number (length out.old) }
    ensures list { out.new ≡ after_refusal number out.old }
{
    if !is_refusal(number) {
        return Err(Refusal::BadAnswer);
    }
    if out.len() < 4 {
        return Err(Refusal::ListTooShort);
    }
    fields::put(out, 0, &[0x83, 0, 1, number]);
    Ok(4)
}
