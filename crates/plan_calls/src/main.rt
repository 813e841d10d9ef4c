// Plays plan calls from standard input and writes what each answers. A call is eleven bytes: its code, then five numbers of two bytes, the
// high byte first. Code 0 begins a new script, 1 opens, 2 adds an edge, 3 adds a label, 4 seals.
#![tactic(auto)]

use plan::{Plan, PlanError};

fn byte(n: u16) -> u8 {
    (n % 256) as u8
}

fn play(p: Plan, call: [u8; 11]) -> Result<Plan, PlanError> {
    let a = u16::from_be_bytes([call[1], call[2]]);
    let b = u16::from_be_bytes([call[3], call[4]]);
    let c = u16::from_be_bytes([call[5], call[6]]);
    let d = u16::from_be_bytes([call[7], call[8]]);
    let e = u16::from_be_bytes([call[9], call[10]]);
    match call[0] {
        1 => {
            let lo = integers::signed16(call[1], call[2]);
            let hi = integers::signed16(call[3], call[4]);
            Plan::open(lo, hi, byte(c), byte(d), byte(e))
        }
        2 => p.add_edge(byte(a), byte(b), byte(c), d, byte(e)),
        3 => p.add_label(a, b, byte(c)),
        4 => p.seal(),
        _ => Plan::open(0, 0, 0, 0, 0),
    }
}

fn write_answer(answer: Result<Plan, PlanError>) {
    match answer {
        Ok(_) => {
            io::write_all(1, b"ok\n");
        }
        Err(e) => {
            io::write_all(1, b"refusal ");
            io::print_decimal(1, e.refusal.number() as u64);
            io::write_all(1, b"\n");
        }
    }
}

fn main() {
    let mut plan = Plan::blank(0, 0, 0, 0, 0);
    let mut call = [0u8; 11];
    for _ in 0..100000usize {
        if io::read_full(0, &mut call) < 11 {
            return;
        }
        let answer = play(plan, call);
        plan = match answer {
            Ok(next) => next,
            Err(e) => e.plan,
        };
        if call[0] != 0 {
            write_answer(answer);
        }
    }
}
