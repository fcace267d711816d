// Texts of numbers: pieces between separators, and decimal numbers.
use std::io;

// What a word that is no number, or too long a one, counts as.
const NONE: usize = 4294967295;

// Piece k of those that a separator parts; behind the last, the last.
pub fn piece(text: &[u8], separator: u8, k: usize) -> &[u8] {
    let mut last = text;
    for (i, piece) in text.split(|b| *b == separator).enumerate() {
        last = piece;
        if i == k {
            break;
        }
    }
    last
}

// A number with a digit behind it.
fn with_digit(x: usize, b: u8) -> usize {
    if b < b'0' || x > usize::MAX / 10 {
        return NONE;
    }
    (10 * x).wrapping_add(usize::from(b - b'0'))
}

// A decimal number; - is 2^32 - 1, and nothing is 0.
pub fn decimal(word: &[u8]) -> usize {
    word.iter().fold(0, |x, b| with_digit(x, *b))
}

// Number i of a line.
pub fn number(line: &[u8], i: usize) -> usize {
    decimal(piece(line, b' ', i))
}

// Its lower 32 bits.
pub fn narrow(line: &[u8], i: usize) -> u32 {
    (number(line, i) % 4294967296) as u32
}

// The numbers of a line, as many as there is room for. Behind the last, the last.
pub fn put(line: &[u8], xs: &mut [u32]) {
    for (i, x) in xs.iter_mut().enumerate() {
        *x = narrow(line, i);
    }
}

// Runs each of the lines behind the first, which says how many they are.
pub fn each_line<F: FnMut(&[u8]) -> io::Result<()>>(text: &[u8], mut run: F) -> io::Result<()>
    requires { F.IsAlwaysCallable run }
{
    for k in 0..number(piece(text, b'\n', 0), 0) {
        run(piece(text, b'\n', k + 1))?;
    }
    Ok(())
}
