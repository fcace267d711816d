// Positions: row, level, cell and lower cells, for any numbers. Where there is no such cell, the answer is 0.
#![tactic(auto)]

ghost use Rattle.std.specs.Prelude.{◌≡◌};
ghost use Rattle.rules.specs.Cells.{log2, row_start, level_of, cell_of, first_lower, second_lower};

use cells::wide;

// How many doublings lead from 1 to the start of the row of position p. (The definitions give position 0 the row of position 1.)
fn log2(p: u32) -> u32
    ensures { result ≡ log2 p }
{
    if p == 0 {
        return 0;
    }
    31 - u32::leading_zeros(p)
}

// Where the row of position p begins: the greatest power of two not above p.
pub fn row_start(p: u32) -> u32
    ensures { result ≡ row_start p }
{
    1u32 << log2(p)
}

// The level of position p.
pub fn level_of(height: u32, p: u32) -> u32
    ensures { result ≡ level_of height p }
{
    let log = log2(p);
    if height < log {
        return 0;
    }
    height - log
}

// The cell of its level that stands at position p.
pub fn cell_of(p: u32) -> u32
    ensures { result ≡ cell_of p }
{
    if p == 0 {
        return 0;
    }
    p - row_start(p)
}

// The two lower cells of position p.
pub fn first_lower(p: u32) -> usize
    ensures { result ≡ first_lower p }
{
    wide(p) + wide(row_start(p))
}

pub fn second_lower(p: u32) -> usize
    ensures { result ≡ second_lower p }
{
    wide(p) + 2 * wide(row_start(p))
}
