// What the test programs share: reading, the numbers of their inputs, parts of slices, and what they print.
#![tactic(auto)]

pub mod text;

ghost use Rattle.std.specs.Prelude.{◌<◌, ◌≤◌, IfOk, length};

use std::io;
use std::io::Read;

// Reads until the buffer is full or the input ends. Returns how many bytes stand at its start.
pub fn read_full<R: Read>(from: &mut R, buf: &mut [u8]) -> io::Result<usize>
    ensures { IfOk result (λ n. n ≤ length buf.new) }
{
    let mut done = 0;
    // A read may give fewer bytes than it is asked for.
    while done < buf.len() {
        let n = from.read(&mut buf[done..])?;
        if n == 0 {
            break;
        }
        done += n;
    }
    Ok(done)
}

// Item i; 0 behind the last.
pub fn item<T: Copy + Default>(xs: &[T], i: usize) -> T {
    xs.get(i).copied().unwrap_or_default()
}

pub fn set<T: Copy>(xs: &mut [T], i: usize, x: T) {
    if i < xs.len() {
        xs[i] = x;
    }
}

// Number i of a tally becomes more.
pub fn add(tally: &mut [usize], i: usize, by: usize) {
    if i < tally.len() {
        tally[i] = tally[i].wrapping_add(by);
    }
}

// n items from an index on; none where there are fewer.
pub fn part<T>(xs: &[T], from: usize, n: usize) -> &[T] {
    match xs.get(from..) {
        Some(rest) => rest.get(..n).unwrap_or(&[]),
        None => &[],
    }
}

// The first n items, to be written; all where there are fewer.
pub fn front<T>(xs: &mut [T], n: usize) -> &mut [T] {
    if n <= xs.len() { &mut xs[..n] } else { xs }
}

// Number i of bytes that hold two for each, the lower one first; 0 behind the last.
pub fn number(bytes: &[u8], i: usize) -> usize
    ensures { result < 65536 }
{
    if i < bytes.len() / 2 {
        usize::from(u16::from_le_bytes([bytes[2 * i], bytes[2 * i + 1]]))
    } else {
        0
    }
}

// The same as 32 bits.
pub fn narrow(bytes: &[u8], i: usize) -> u32 {
    number(bytes, i) as u32
}

// Prints a text with the tally's numbers for its capitals, A for the first.
pub fn tell(rt: &impl Print, text: &[u8], tally: &[usize]) -> io::Result<()> {
    for byte in text {
        match *byte {
            b'A'..=b'Z' => rt.print(item(tally, usize::from(*byte - b'A')))?,
            _ => rt.write_all(&[*byte])?,
        }
    }
    Ok(())
}
