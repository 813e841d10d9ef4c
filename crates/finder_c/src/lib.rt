// The calls for programs in C and Rust: each is the one of `finder` with its clauses, under the name that C links.
#![tactic(auto)]

ghost use Rattle.std.specs.Prelude.{◌≡◌, length};
ghost use Rattle.search.specs.Search.{runs_after};
ghost use Rattle.search.specs.Costs.{costs_after};
ghost use Rattle.answers.specs.Reader.{read_answer, filled};
ghost use Rattle.answers.specs.Writer.{answer_written, after_answer, refusal_written, after_refusal};
ghost use Rattle.finder.specs.Finder.{written_outcome, reply_of, search_outcome, point_outcome, search_file, point_file, file_words, costs_outcome, window_file, window_file_words, table_file, table_file_words, read_outcome, file_readings, rewritten, after_rewriting, file_result, segment_outcome, after_segment};

use finder::{Outcome, Reply};

#[unsafe(no_mangle)]
pub extern "C" fn yeldaski_search(
    file: &[u8],
    readings: &[i16],
    workspace: &mut [u64],
    runs: &mut [i32],
) -> Outcome
    ensures answer { result ≡ search_outcome (search_file file.now readings.now (length workspace.old) (length runs.old)) }
    ensures list { runs.new ≡ runs_after (search_file file.now readings.now (length workspace.old) (length runs.old)) runs.old }
    ensures words { workspace.new ≡ file_words file.now (search_file file.now readings.now (length workspace.old) (length runs.old)) workspace.old }
{
    finder::yeldaski_search(file, readings, workspace, runs)
}

#[unsafe(no_mangle)]
pub extern "C" fn yeldaski_point(
    file: &[u8],
    readings: &[i16],
    state: u8,
    level: i16,
    workspace: &mut [u64],
) -> Outcome
    ensures answer { result ≡ point_outcome (point_file file.now readings.now state level (length workspace.old)) }
    ensures words { workspace.new ≡ file_words file.now (point_file file.now readings.now state level (length workspace.old)) workspace.old }
{
    finder::yeldaski_point(file, readings, state, level, workspace)
}

#[unsafe(no_mangle)]
pub extern "C" fn yeldaski_windows(
    file: &[u8],
    record: &[i16],
    w: usize,
    workspace: &mut [u64],
    costs: &mut [u64],
) -> Outcome
    ensures answer { result ≡ costs_outcome (window_file file.now «record».now w (length workspace.old) (length costs.old)) }
    ensures list { costs.new ≡ costs_after (window_file file.now «record».now w (length workspace.old) (length costs.old)) costs.old }
    ensures words { workspace.new ≡ window_file_words file.now (window_file file.now «record».now w (length workspace.old) (length costs.old)) workspace.old }
{
    finder::yeldaski_windows(file, record, w, workspace, costs)
}

#[unsafe(no_mangle)]
pub extern "C" fn yeldaski_table(
    file: &[u8],
    readings: &[i16],
    most: usize,
    workspace: &mut [u64],
    costs: &mut [u64],
) -> Outcome
    ensures answer { result ≡ costs_outcome (table_file file.now readings.now most (length workspace.old) (length costs.old)) }
    ensures list { costs.new ≡ costs_after (table_file file.now readings.now most (length workspace.old) (length costs.old)) costs.old }
    ensures words { workspace.new ≡ table_file_words file.now most (table_file file.now readings.now most (length workspace.old) (length costs.old)) workspace.old }
{
    finder::yeldaski_table(file, readings, most, workspace, costs)
}

#[unsafe(no_mangle)]
pub extern "C" fn yeldaski_read_plan(file: &[u8], readings: &mut [i16]) -> Outcome
    ensures answer { result ≡ read_outcome file.now (length readings.old) }
    ensures list { readings.new ≡ file_readings file.now readings.old }
{
    finder::yeldaski_read_plan(file, readings)
}

#[unsafe(no_mangle)]
pub extern "C" fn yeldaski_write_plan(file: &[u8], readings: &[i16], out: &mut [u8]) -> Outcome
    ensures answer { result ≡ rewritten file.now (length readings.now) (length out.old) }
    ensures list { out.new ≡ after_rewriting file.now readings.now out.old }
{
    finder::yeldaski_write_plan(file, readings, out)
}

#[unsafe(no_mangle)]
pub extern "C" fn yeldaski_read_answer(file: &[u8], runs: &mut [i32]) -> Reply
    ensures answer { result ≡ reply_of (read_answer file.now (length runs.old)) }
    ensures list { runs.new ≡ filled file.now runs.old }
{
    finder::yeldaski_read_answer(file, runs)
}

#[unsafe(no_mangle)]
pub extern "C" fn yeldaski_write_answer(cost: u64, runs: &[i32], out: &mut [u8]) -> Outcome
    ensures answer { result ≡ written_outcome (answer_written runs.now (length out.old)) }
    ensures list { out.new ≡ after_answer cost runs.now out.old }
{
    finder::yeldaski_write_answer(cost, runs, out)
}

#[unsafe(no_mangle)]
pub extern "C" fn yeldaski_write_refusal(number: u8, out: &mut [u8]) -> Outcome
    ensures answer { result ≡ written_outcome (refusal_written number (length out.old)) }
    ensures list { out.new ≡ after_refusal number out.old }
{
    finder::yeldaski_write_refusal(number, out)
}

#[unsafe(no_mangle)]
pub extern "C" fn yeldaski_segment(
    file: &[u8],
    readings: &mut [i16],
    workspace: &mut [u64],
    runs: &mut [i32],
    out: &mut [u8],
) -> Outcome
    ensures answer { result ≡ segment_outcome (file_result file.now (length readings.old) (length workspace.old) (length runs.old)) (length out.old) }
    ensures bytes { out.new ≡ after_segment (file_result file.now (length readings.old) (length workspace.old) (length runs.old)) out.old }
    ensures readings { readings.new ≡ file_readings file.now readings.old }
    ensures list { runs.new ≡ runs_after (file_result file.now (length readings.old) (length workspace.old) (length runs.old)) runs.old }
    ensures words { workspace.new ≡ file_words file.now (file_result file.now (length readings.old) (length workspace.old) (length runs.old)) workspace.old }
{
    finder::yeldaski_segment(file, readings, workspace, runs, out)
}
