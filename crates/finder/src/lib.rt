// The calls for programs in C and Rust, over lent lists alone. A plan comes as the bytes of a plan file.
#![tactic(auto)]

ghost use Rattle.std.specs.Prelude.{◌≡◌, ℕ, ◌*◌, ◌≤◌, ◌<◌, length, take};
ghost use Rattle.std.specs.Int.Signed.{mag};
ghost use Rattle.search.specs.Search.{runs_after};
ghost use Rattle.search.specs.Costs.{costs_after};
ghost use Rattle.answers.specs.Reader.{read_answer, filled};
ghost use Rattle.answers.specs.Writer.{answer_written, after_answer, refusal_written, after_refusal};
ghost use Rattle.finder.specs.Finder.{given, refused_with, written_outcome, reply_of, search_outcome, point_outcome, search_file, point_file, file_words, costs_outcome, window_file, window_file_words, table_file, table_file_words, read_outcome, file_readings, rewritten, after_rewriting, file_result, segment_outcome, after_segment, program_bytes, at_front};
ghost use Rattle.plan.specs.Refusals.{refusal_number};
ghost use Rattle.fields.specs.Put.{written_of};
ghost use Rattle.search.specs.Told.{found_told, cost_told};
ghost use Rattle.finder.specs.Parts.{counted_outcome, found_outcome, cost_outcome, runs_in, found_written, after_found};

use answers::AnswerFile;
use plan::{Plan, Refusal};
use search::Segmentation;

// What a call gives to C, so a flat struct of numbers: its refusal, 0 where there is none; a cost; and how many runs, costs, readings or bytes it wrote.
#[repr(C)]
#[derive(Clone, Copy)]
pub struct Outcome {
    pub refusal: u8,
    pub cost: u64,
    pub count: usize,
}

// What reading an answer file gives to C: why it was not read, 0 where it was; the refusal that it holds, 0 for none; or its cost and how many runs.
#[repr(C)]
#[derive(Clone, Copy)]
pub struct Reply {
    pub refusal: u8,
    pub held: u8,
    pub cost: u64,
    pub count: usize,
}

fn refused(refusal: Refusal) -> Outcome
    ensures { result ≡ refused_with (refusal_number refusal) }
{
    Outcome {
        refusal: refusal.number(),
        cost: 0,
        count: 0,
    }
}

// How many readings, costs or bytes there are.
fn counted(answer: Result<usize, Refusal>) -> Outcome
    ensures { result ≡ counted_outcome answer }
{
    match answer {
        Ok(n) => Outcome {
            refusal: 0,
            cost: 0,
            count: n,
        },
        Err(refusal) => refused(refusal),
    }
}

fn found(answer: Result<Segmentation, Refusal>) -> Outcome
    ensures { result ≡ found_outcome (found_told answer) }
{
    match answer {
        Ok(Segmentation { cost, runs }) => Outcome {
            refusal: 0,
            cost,
            count: runs,
        },
        Err(refusal) => refused(refusal),
    }
}

fn least(answer: Result<u64, Refusal>) -> Outcome
    ensures { result ≡ cost_outcome (cost_told answer) }
{
    match answer {
        Ok(n) => Outcome {
            refusal: 0,
            cost: n,
            count: 0,
        },
        Err(refusal) => refused(refusal),
    }
}

// The search of a plan over readings. The readings in the plan file itself are not looked at.
pub fn yeldaski_search(
    file: &[u8],
    readings: &[i16],
    workspace: &mut [u64],
    runs: &mut [i32],
) -> Outcome
    ensures answer { result ≡ search_outcome (search_file file.now readings.now (length workspace.old) (length runs.old)) }
    ensures list { runs.new ≡ runs_after (search_file file.now readings.now (length workspace.old) (length runs.old)) runs.old }
    ensures words { workspace.new ≡ file_words file.now (search_file file.now readings.now (length workspace.old) (length runs.old)) workspace.old }
{
    match files::read_plan(file) {
        Ok(read) => found(search::search(read.plan, readings, workspace, runs)),
        Err(error) => refused(error.refusal),
    }
}

// The least cost of what ends after these readings in the named state at the named level.
pub fn yeldaski_point(
    file: &[u8],
    readings: &[i16],
    state: u8,
    level: i16,
    workspace: &mut [u64],
) -> Outcome
    ensures answer { result ≡ point_outcome (point_file file.now readings.now state level (length workspace.old)) }
    ensures words { workspace.new ≡ file_words file.now (point_file file.now readings.now state level (length workspace.old)) workspace.old }
{
    match files::read_plan(file) {
        Ok(read) => least(search::point(read.plan, readings, state, level, workspace)),
        Err(error) => refused(error.refusal),
    }
}

// The least cost of each part of w readings of a long record, in the order of the start.
pub fn yeldaski_windows(
    file: &[u8],
    record: &[i16],
    w: usize,
    workspace: &mut [u64],
    costs: &mut [u64],
) -> Outcome
    ensures answer { result ≡ costs_outcome (window_file file.now «record».now w (length workspace.old) (length costs.old)) }
    ensures list { costs.new ≡ costs_after (window_file file.now «record».now w (length workspace.old) (length costs.old)) costs.old }
    ensures words { workspace.new ≡ window_file_words file.now (window_file file.now «record».now w (length workspace.old) (length costs.old)) workspace.old }
{
    match files::read_plan(file) {
        Ok(read) => counted(windows::least_costs(read.plan, record, w, workspace, costs)),
        Err(error) => refused(error.refusal),
    }
}

// The least cost for each number of changes from 0 to `most`, in this order.
pub fn yeldaski_table(
    file: &[u8],
    readings: &[i16],
    most: usize,
    workspace: &mut [u64],
    costs: &mut [u64],
) -> Outcome
    ensures answer { result ≡ costs_outcome (table_file file.now readings.now most (length workspace.old) (length costs.old)) }
    ensures list { costs.new ≡ costs_after (table_file file.now readings.now most (length workspace.old) (length costs.old)) costs.old }
    ensures words { workspace.new ≡ table_file_words file.now most (table_file file.now readings.now most (length workspace.old) (length costs.old)) workspace.old }
{
    match files::read_plan(file) {
        Ok(read) => counted(neighbourhood::by_changes(read.plan, readings, most, workspace, costs)),
        Err(error) => refused(error.refusal),
    }
}

// The readings of a plan file, decoded to the front of a list.
pub fn yeldaski_read_plan(file: &[u8], readings: &mut [i16]) -> Outcome
    ensures answer { result ≡ read_outcome file.now (length readings.old) }
    ensures list { readings.new ≡ file_readings file.now readings.old }
{
    let read = match files::read_plan(file) {
        Ok(read) => read,
        Err(error) => return refused(error.refusal),
    };
    let body = files::readings_part(file, read);
    match readings::decode(body, readings) {
        Ok(()) => counted(Ok(body.len() / 2)),
        Err(refusal) => refused(refusal),
    }
}

// The plan of a file with other readings, written as a file.
pub fn yeldaski_write_plan(file: &[u8], readings: &[i16], out: &mut [u8]) -> Outcome
    ensures answer { result ≡ rewritten file.now (length readings.now) (length out.old) }
    ensures list { out.new ≡ after_rewriting file.now readings.now out.old }
{
    match files::read_plan(file) {
        Ok(read) => counted(files::write_plan(read.plan, readings, out)),
        Err(error) => refused(error.refusal),
    }
}

// The cost and the runs of an answer file, or the refusal that it holds.
pub fn yeldaski_read_answer(file: &[u8], runs: &mut [i32]) -> Reply
    ensures answer { result ≡ reply_of (read_answer file.now (length runs.old)) }
    ensures list { runs.new ≡ filled file.now runs.old }
{
    match answers::read_answer(file, runs) {
        Ok(AnswerFile::Runs { cost, count }) => Reply {
            refusal: 0,
            held: 0,
            cost,
            count,
        },
        Ok(AnswerFile::Refusal(refusal)) => Reply {
            refusal: 0,
            held: refusal.number(),
            cost: 0,
            count: 0,
        },
        Err(unread) => Reply {
            refusal: unread.number(),
            held: 0,
            cost: 0,
            count: 0,
        },
    }
}

// A cost with its runs, five numbers a run, written as an answer file.
pub fn yeldaski_write_answer(cost: u64, runs: &[i32], out: &mut [u8]) -> Outcome
    ensures answer { result ≡ written_outcome (answer_written runs.now (length out.old)) }
    ensures list { out.new ≡ after_answer cost runs.now out.old }
{
    counted(answers::write_answer(cost, runs, out))
}

// A refusal, written as an answer file.
pub fn yeldaski_write_refusal(number: u8, out: &mut [u8]) -> Outcome
    ensures answer { result ≡ written_outcome (refusal_written number (length out.old)) }
    ensures list { out.new ≡ after_refusal number out.old }
{
    counted(answers::write_refusal(number, out))
}

// A level is a number of 16 bits. Proofs learn that of a plan where its grid is read, and an answer file needs it of every run.
fn read_grid(plan: Plan)
    ensures { (mag plan.lo < 32768) × (mag plan.hi < 32768) }
{
    let _lo = plan.lo;
}

// What a search gave, its runs at the front of a list, written as an answer file.
fn write_found(
    answer: Result<Segmentation, Refusal>,
    runs: &[i32],
    out: &mut [u8],
) -> Result<usize, Refusal>
    requires { runs_in (found_told answer) ≤ length runs.now }
    ensures answer { written_of result ≡ found_written (found_told answer) runs.now (length out.old) }
    ensures list { out.new ≡ after_found (found_told answer) runs.now out.old }
{
    match answer {
        Ok(Segmentation { cost, runs: count }) => {
            let numbers = 5 * count;
            answers::write_answer(cost, &runs[..numbers], out)
        }
        Err(refusal) => answers::write_refusal(refusal.number(), out),
    }
}

// The answer file of a plan file.
pub fn yeldaski_segment(
    file: &[u8],
    readings: &mut [i16],
    workspace: &mut [u64],
    runs: &mut [i32],
    out: &mut [u8],
) -> Outcome
    ensures answer { result ≡ segment_outcome (file_result file.now (length readings.old) (length workspace.old) (length runs.old)) (length out.old) }
    ensures bytes { out.new ≡ after_segment (file_result file.now (length readings.old) (length workspace.old) (length runs.old)) out.old }
    ensures readings { readings.new ≡ file_readings file.now readings.old }
    ensures list { runs.new ≡ runs_after (file_result file.now (length readings.old) (length workspace.old) (length runs.old)) runs.old }
    ensures words { workspace.new ≡ file_words file.now (file_result file.now (length readings.old) (length workspace.old) (length runs.old)) workspace.old }
{
    let read = match files::read_plan(file) {
        Ok(read) => read,
        Err(error) => return yeldaski_write_refusal(error.refusal.number(), out),
    };
    let body = files::readings_part(file, read);
    if let Err(refusal) = readings::decode(body, readings) {
        return yeldaski_write_refusal(refusal.number(), out);
    }
    let n = body.len() / 2;
    let plan = read.plan;
    read_grid(plan);
    let answer = search::search(plan, &readings[..n], workspace, runs);
    counted(write_found(answer, runs, out))
}

// The answer file of a plan file with what the program `segment` lends; how many bytes it has. The lent bytes are enough for every answer.
pub fn answer_file(file: &[u8], out: &mut [u8; 65536]) -> usize
    ensures answer { result ≡ length (program_bytes file.now) }
    ensures bytes { out.new ≡ at_front (program_bytes file.now) out.old }
{
    let mut readings = [0i16; 4096];
    let mut workspace = [0u64; 7680];
    let mut runs = [0i32; 16000];
    let answer = yeldaski_segment(file, &mut readings, &mut workspace, &mut runs, out);
    answer.count
}
