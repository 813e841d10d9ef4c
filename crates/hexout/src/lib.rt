// Writes results as lines of hexadecimal, and reads files that stand one behind the other on standard input. What is written and which bytes
// come is outside the logic: the functions that show give nothing back and change nothing, so that they have no promise, and the lines are
// compared with stored ones.
#![tactic(auto)]

ghost use Rattle.std.specs.Prelude.{◌≡◌, ◌%◌};
ghost use Rattle.hexout.specs.Digits.{digit_of};
ghost use Rattle.hexout.specs.Input.{FileIn};

use plan::Refusal;

// The digit of the low four bits.
#[tactic(auto, unfolding(crate::specs::Digits::digit_of))]
pub fn digit(b: u8) -> u8
    ensures { result ≡ digit_of (b % 16) }
{
    let n = b % 16;
    if n < 10 { b'0' + n } else { b'a' + (n - 10) }
}

fn show_byte(b: u8) {
    let text = [digit(b / 16), digit(b)];
    io::write_all(1, &text);
}

fn show_bytes(s: &[u8]) {
    for b in s {
        show_byte(*b);
    }
}

fn end_line() {
    io::write_all(1, b"\n");
}

pub fn show_number(n: u8) {
    show_byte(n);
    end_line();
}

pub fn show_written(w: Result<usize, Refusal>, out: &[u8]) {
    match w {
        Ok(n) => {
            if let Some(bytes) = out.get(..n) {
                show_bytes(bytes);
            }
            end_line();
        }
        Err(refusal) => show_number(refusal.number()),
    }
}

// The length of the next file, in two bytes in front of it; none where the input has ended.
fn next_length() -> Option<usize> {
    let mut head = [0u8; 2];
    if io::read_full(0, &mut head) < 2 {
        return None;
    }
    Some(usize::from(u16::from_be_bytes(head)))
}

// Reads the next file to the front of a buffer, and answers its length; none where the input has ended or the file does not fit.
pub fn read_file(buffer: &mut [u8]) -> Option<usize>
    ensures { FileIn result buffer.old buffer.new }
{
    let n = next_length()?;
    if buffer.len() <= n {
        return None;
    }
    Some(io::read_full(0, &mut buffer[..n]))
}

// Gives each file of standard input to a function that shows it, 4,096 files at most.
pub fn each_file<F: Fn(&[u8])>(show: F)
    requires { F.IsAlwaysCallable show }
{
    let mut buffer = [0u8; 65536];
    for _ in 0..4096 {
        let Some(n) = read_file(&mut buffer) else {
            return;
        };
        show(&buffer[..n]);
    }
}
