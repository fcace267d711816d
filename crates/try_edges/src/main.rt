// Edge cases of cells and graph: limits, one short of each size, empty slices, huge numbers. stdin has them, a line each; README.md says how.
#![tactic(auto)]

mod lists;
mod numbers;

use std::io;
use try_cases::read_full;
use try_cases::text::{each_line, number, piece};

fn main(rt: HostRuntime) -> io::Result<()> {
    let mut text = [0u8; 65536];
    let n = read_full(&mut rt.reader(), &mut text)?;
    each_line(&text[..n], |line| case(&rt, line))
}

// A line's pieces: a name, + where the next line's answers go on behind these, numbers, lists.
fn case(rt: &impl Print, line: &[u8]) -> io::Result<()> {
    rt.write_all(piece(line, b';', 0))?;
    let numbers = piece(line, b';', 2);
    let function = number(numbers, 0);
    if function < 8 {
        numbers::call(rt, function, numbers)?;
    } else {
        lists::call(rt, function, numbers, line)?;
    }
    if number(piece(line, b';', 1), 0) == 0 {
        rt.write_all(b"\n")?;
    }
    Ok(())
}
