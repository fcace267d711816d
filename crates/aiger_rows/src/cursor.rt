// Lines, words and numbers behind a cursor.
ghost use Rattle.std.specs.Prelude.{◌≡◌, true, false, ◌+◌, ◌-◌, ◌≤◌, length, drop, set, MatchOption, IfSome};
ghost use Rattle.aiger_form.specs.Text.{is_digit, number, more_digits, numbers_of, no_numbers, words};
ghost use Rattle.aiger_rows.specs.Cursor.{until, capped_found, numeral, Got, Figured, Worded, Tripled};

// The place of the next byte e from `at` on, or the length.
pub fn until(bytes: &[u8], at: usize, e: u8) -> usize
    ensures { result ≡ at + until e (drop at bytes.now) }
{
    for i in at..bytes.len() {
        if bytes[i] == e {
            return i;
        }
    }
    at.max(bytes.len())
}

#[tactic(auto, using(std::proofs::lemmas::Bool::Decides::nat_tests), unfolding(aiger_form::specs::Text::is_digit))]
fn digit(b: u8) -> Option<usize>
    ensures { MatchOption result (is_digit b ≡ false) (λ d. (is_digit b ≡ true) × (d ≡ b - 48)) }
{
    match b {
        b'0'..=b'9' => Some(usize::from(b - b'0')),
        _ => None,
    }
}

// A word that is a number: decimal, no sign, no leading zero. A number past the largest `usize` stops there.
pub fn number(word: &[u8]) -> Option<usize>
    ensures { numeral result ≡ capped_found (number word.now) }
{
    if word.len() == 0 {
        return None;
    }
    if 1 < word.len() && word[0] == b'0' {
        return None;
    }
    digits(word)
}

fn digits(word: &[u8]) -> Option<usize>
    ensures { numeral result ≡ capped_found (more_digits 0 word.now) }
{
    let mut v: usize = 0;
    for b in word {
        let d = digit(*b)?;
        v = v.saturating_mul(10).saturating_add(d);
    }
    Some(v)
}

// How many numbers a line has, and the first five.
#[derive(Clone, Copy)]
pub struct Listed {
    pub count: usize,
    pub values: [usize; 5],
}

fn store(values: &mut [usize; 5], i: usize, x: usize)
    requires { length values.old ≡ 5 }
    ensures { values.new ≡ set values.old i x }
{
    if i < 5 {
        values[i] = x;
    }
}

// The numbers of a line, one space between two.
pub fn numbers(line: &[u8]) -> Option<Listed>
    ensures { MatchOption result (numbers_of (words line.now) ≡ no_numbers) (λ n. Got (numbers_of (words line.now)) n.count n.values) }
{
    let mut values = [0; 5];
    let mut count = 0;
    let mut at = 0;
    // A walk by the size that it reads: a word, and the space behind it.
    loop {
        let e = until(line, at, b' ');
        let x = number(&line[at..e])?;
        store(&mut values, count, x);
        count += 1;
        if e == line.len() {
            return Some(Listed { count, values });
        }
        at = e + 1;
    }
}

// Digits, as a number, and where they end.
#[derive(Clone, Copy)]
struct Run {
    value: usize,
    end: usize,
}

// The digits from a place on, as long as their number is small.
fn figures(bytes: &[u8], at: usize) -> Run
    requires { at ≤ length bytes.now }
    ensures { Figured bytes.now at result.end result.value }
{
    let mut v = 0;
    for i in at..bytes.len() {
        match digit(bytes[i]) {
            Some(d) if v <= 429496729 => v = 10 * v + d,
            _ => return Run { value: v, end: i },
        }
    }
    Run {
        value: v,
        end: bytes.len(),
    }
}

// The number that starts at a place and that byte e ends, where it is small and starts with no 0: the usual case.
fn word(bytes: &[u8], at: usize, e: u8) -> Option<Run>
    requires { at ≤ length bytes.now }
    ensures { IfSome result (λ f. Worded bytes.now at e f.end f.value) }
{
    let f = figures(bytes, at);
    if f.end < bytes.len() && bytes[f.end] == e && f.end != at && bytes[at] != b'0' {
        Some(f)
    } else {
        None
    }
}

// Three numbers and the end of their line.
#[derive(Clone, Copy)]
pub struct Three {
    pub a: usize,
    pub b: usize,
    pub c: usize,
    pub end: usize,
}

// The numbers of the line that starts at a place, where they are three and as `word` takes them: so a gate's line is read in one go.
pub fn triple(bytes: &[u8], at: usize) -> Option<Three>
    requires { at ≤ length bytes.now }
    ensures { IfSome result (λ t. Tripled bytes.now at t.end t.a t.b t.c) }
{
    let x = word(bytes, at, b' ')?;
    let y = word(bytes, x.end + 1, b' ')?;
    let z = word(bytes, y.end + 1, b'\n')?;
    Some(Three {
        a: x.value,
        b: y.value,
        c: z.value,
        end: z.end,
    })
}
