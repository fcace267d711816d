// Text into a lent area, byte after byte. The cursor `at` stops at `limit`, and what lies past the area's end is not written, so an
// area of no use measures a text.
ghost use Rattle.std.specs.Prelude.{◌≡◌, [], ◌∷◌, ◌+◌, ◌<◌, set};
ghost use Rattle.rules.specs.Listing.{decimal};
ghost use Rattle.listing_lines.specs.Laid.{step, Laid};

fn store(out: &mut [u8], at: usize, b: u8)
    ensures { out.new ≡ set out.old at b }
{
    if at < out.len() {
        out[at] = b;
    }
}

fn next(limit: usize, at: usize) -> usize
    ensures { result ≡ step limit at }
{
    if at < limit { at + 1 } else { at }
}

pub fn put(out: &mut [u8], limit: usize, at: usize, b: u8) -> usize
    ensures { Laid limit at (b ∷ []) out.old result out.new }
{
    store(out, at, b);
    next(limit, at)
}

pub fn put_text(out: &mut [u8], limit: usize, at: usize, text: &[u8]) -> usize
    ensures { Laid limit at text.now out.old result out.new }
{
    let mut now = at;
    for b in text {
        now = put(out, limit, now, *b);
    }
    now
}

fn digit(n: usize) -> u8
    requires { n < 10 }
    ensures { result ≡ 48 + n }
{
    48 + n as u8
}

// The last digit behind those before it.
pub fn put_decimal(out: &mut [u8], limit: usize, at: usize, n: usize) -> usize
    ensures { Laid limit at (decimal n) out.old result out.new }
{
    if n < 10 {
        return put(out, limit, at, digit(n));
    }
    let behind = put_decimal(out, limit, at, n / 10);
    put(out, limit, behind, digit(n % 10))
}
