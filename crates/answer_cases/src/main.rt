// Reads answer files on standard input, each with its length in two bytes in front, and writes a line in hexadecimal for each: the refusal, or
// the file that the cost and the runs, or the refusal, that were read are written as.
#![tactic(auto)]

use answers::AnswerFile;
use plan::Refusal;

// Reads an answer file and writes it to the front of out.
#[tactic(auto, unfolding(answers::specs::Reader::read_answer))]
fn rewrite(s: &[u8], out: &mut [u8]) -> Result<usize, Refusal> {
    let mut runs = [0i32; 16000];
    match answers::read_answer(s, &mut runs)? {
        AnswerFile::Runs { cost, count } => answers::write_answer(cost, &runs[..5 * count], out),
        AnswerFile::Refusal(refusal) => answers::write_refusal(refusal.number(), out),
    }
}

fn show_file(s: &[u8]) {
    let mut out = io::large_buffer();
    let w = rewrite(s, &mut out);
    hexout::show_written(w, &out);
}

fn main() {
    hexout::each_file(show_file);
}
