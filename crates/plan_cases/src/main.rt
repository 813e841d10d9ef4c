// Reads plan files on standard input, each with its length in two bytes in front, and writes a line in hexadecimal for each: the refusal, or
// the file that the plan and the readings that were read are written as.
#![tactic(auto)]

use plan::Refusal;

// Reads a plan file and writes it to the front of out.
#[tactic(auto, unfolding(readings::specs::Codec::decode_number))]
fn rewrite(s: &[u8], out: &mut [u8]) -> Result<usize, Refusal> {
    let file = files::read_plan(s)?;
    let body = files::readings_part(s, file);
    let mut zs = [0i16; 4096];
    readings::decode(body, &mut zs)?;
    files::write_plan(file.plan, &zs[..body.len() / 2], out)
}

fn show_file(s: &[u8]) {
    let mut out = [0u8; 16384];
    let w = rewrite(s, &mut out);
    hexout::show_written(w, &out);
}

fn main() {
    hexout::each_file(show_file);
}
