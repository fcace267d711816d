// The slot that each pin is read from: that of the first place that writes it. Stages, words and positions are gone through from the last down, so
// that the first is written last. A pin that no word holds keeps what stands.
ghost use Rattle.std.specs.Prelude.{◌≡◌, ◌≤◌, length, set};
ghost use Rattle.replay_run.specs.Slots.{WordRead, WordsRead, PlanAt, PlanRead};

use cell::Cell;
use graph::wide;

// Item n, if there is one, becomes v.
pub fn put_inside<T: Copy>(list: &mut [T], n: usize, v: T)
    ensures { list.new ≡ set list.old n v }
{
    if n < list.len() {
        list[n] = v;
    }
}

// The positions of word w, by the pins of their cells.
fn read_word(cells: &[u32], slots: &[u32], w: u32, reads: &mut [u32])
    requires { length cells.now ≤ length slots.now }
    ensures { WordRead cells.now slots.now w reads.old reads.new }
{
    let at = 32 * wide(w);
    for p in (at..cells.len().min(at + 32)).rev() {
        put_inside(reads, Cell(cells[p]).pin().index(), slots[p]);
    }
}

// The words of a stage.
fn read_words(cells: &[u32], slots: &[u32], words: &[u32], reads: &mut [u32])
    requires { length cells.now ≤ length slots.now }
    ensures { WordsRead cells.now slots.now words.now reads.old reads.new }
{
    for i in (0..words.len()).rev() {
        read_word(cells, slots, words[i], reads);
    }
}

// All stages of `size` cells each, `counts` the numbers of their words.
pub fn read_plan(
    size: usize,
    plan: &[u32],
    slots: &[u32],
    words: &[u32],
    counts: &[u32],
    total: usize,
    reads: &mut [u32],
)
    requires { PlanAt size plan.now slots.now words.now counts.now total }
    ensures { PlanRead size plan.now slots.now words.now counts.now reads.old reads.new }
{
    let mut at = size * counts.len();
    let mut stop = total;
    for k in (0..counts.len()).rev() {
        let end = at;
        let last = stop;
        at = end - size;
        stop = last - wide(counts[k]);
        read_words(&plan[at..end], &slots[at..], &words[stop..last], reads);
    }
}
