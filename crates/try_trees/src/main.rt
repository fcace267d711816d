// Places a pin with what it pulls in in an empty tree of height 6, 10 and 13, lists the filled cells and the three counts, takes the pin
// back and lists again.
#![tactic(auto)]

ghost use Rattle.std.specs.Prelude.{◌≡◌, ◌≤◌, length};
ghost use Rattle.columns.specs.Area.{Room};
ghost use Rattle.rules.specs.Inside.Some.{Some};
ghost use Rattle.try_trees.specs.Example.{Trial, Same, SizedFor, begun};

use cells::{Height, is_height};
use columns::{FILLED, LEVEL, ONES, PINS, set_field, tail_get};
use graph::{EMPTY, Pin};
use stage_tree::{first_empty, place_pin, take_back};
use std::io;

// The positions of the filled cells, with their pins.
fn list_cells(rt: &impl Print, stage: &[u32]) -> io::Result<()> {
    for (c, v) in stage.iter().enumerate() {
        if *v != EMPTY {
            println!(rt; "{c} {v}")?;
        }
    }
    Ok(())
}

fn list_counts(rt: &impl Print, work: &[u32], m: usize) -> io::Result<()>
    requires { Room m work.now }
{
    let ones = tail_get(work, m, ONES);
    let pins = tail_get(work, m, PINS);
    let filled = tail_get(work, m, FILLED);
    println!(rt; "level 1 {ones} pins {pins} cells {filled}")
}

fn list(rt: &impl Print, stage: &[u32], work: &[u32], m: usize) -> io::Result<()>
    requires { Room m work.now }
{
    list_cells(rt, stage)?;
    list_counts(rt, work, m)
}

// Pin p of level h into the lowest empty cell of its level, and back, also where nothing can be printed.
fn there_and_back(
    rt: &impl Print,
    gates: &[u32],
    stage: &mut [u32],
    work: &mut [u32],
    m: usize,
    h: usize,
    w: usize,
    p: Pin,
) -> io::Result<()>
    requires { Some (λ C. Trial C m h w p.0 gates.now stage.old work.old) }
    ensures { Same stage.old work.old stage.new work.new }
{
    let end = 2 * w;
    let c = first_empty(stage, w, end);
    if c >= end {
        return Ok(());
    }
    place_pin(gates, stage, work, m, h, w, c, p);
    let listed = list(rt, stage, work, m);
    take_back(stage, work, m, h, w, c);
    listed?;
    list(rt, stage, work, m)
}

// The graph's levels by pin, in an area of zeros.
fn begin(work: &mut [u32])
    requires { 640 ≤ length work.old }
    ensures { work.new ≡ begun (length work.old) }
{
    work.fill(0);
    set_field(work, 8, Pin(5), LEVEL, 1);
    set_field(work, 8, Pin(6), LEVEL, 1);
    set_field(work, 8, Pin(7), LEVEL, 2);
}

// Pins 1 to 4 are leaves, 5 = (2, 4), 6 = (6, 9), 7 = (10, 12).
fn try_example(
    rt: &impl Print,
    stage: &mut [u32],
    work: &mut [u32],
    height: Height,
) -> io::Result<()>
    requires { SizedFor height.0 stage.old work.old }
{
    let gates = [
        EMPTY, EMPTY, EMPTY, EMPTY, EMPTY, EMPTY, EMPTY, EMPTY, EMPTY, EMPTY, 2, 4, 6, 9, 10, 12,
    ];
    stage.fill(EMPTY);
    begin(work);
    let w = height.row_at(2);
    there_and_back(rt, &gates, stage, work, 8, 2, w, Pin(7))
}

// For a stage of any height.
fn largest() -> [u32; 16384]
    ensures { 16384 ≡ length result }
{
    [0; 16384]
}

fn show(rt: &impl Print, k: u32) -> io::Result<()> {
    if is_height(k) {
        let mut room = largest();
        let mut work = [0u32; 640];
        let height = Height(k);
        let size = height.stage_size();
        println!(rt; "height {k}")?;
        try_example(rt, &mut room[0..size], &mut work, height)?;
    }
    Ok(())
}

fn main(rt: HostRuntime) -> io::Result<()> {
    show(&rt, 6)?;
    show(&rt, 10)?;
    show(&rt, 13)
}
