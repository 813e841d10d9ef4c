// Reads a plan file on standard input and writes its answer file to standard output.
#![tactic(auto)]

fn main() {
    // A reader decides by the first 9,011 bytes of a file, so the rest of a longer one need not be read.
    let mut file = [0u8; 65536];
    let n = io::read_full(0, &mut file);
    let mut out = [0u8; 65536];
    let m = finder::answer_file(&file[..n], &mut out);
    io::write_all(1, &out[..m]);
}
