// A recorded build.
use crate::areas::{
    EMPTY, HEIGHT, LIMIT, NUMBER, OLD, PLAN, ROOMS, STAGES, WORDS, WORK, answered, behind, cleared,
    gates, given, holds, open, put_input, records, rest, take_cells,
};
use placer::{Built, Refused, build};
use std::io;
use try_cases::{add, front, narrow, number, tell};

// How the head's own part goes on: where the word rules part in a stage, that stage, and where the plan's cells behind it begin.
const CELLS: usize = 8;

const PARTED: usize = 9;

const BEHIND: usize = 10;

// Where the tally has how much of the plans is compared.
const WHOLE: usize = 1;

const WHOLE_STAGES: usize = 2;

const IN_PART: usize = 3;

const WITH_CELLS: usize = 4;

const WITH_WORDS: usize = 5;

fn recorded_build(
    head: &[u8],
    input: &[u32],
    plan: &mut [u32],
    words: &mut [u32],
    counts: &mut [u32],
    work: &mut [u32],
) -> Result<Built, Refused> {
    build(
        narrow(head, HEIGHT),
        gates(head, input),
        given(head, input),
        records(head, input),
        plan,
        words,
        counts,
        work,
    )
}

fn parts(own: &[u8]) -> bool {
    number(own, PARTED) > 0
}

// Stages whose words are recorded: those before the one where the word rules part.
fn worded(own: &[u8]) -> usize {
    let parted = number(own, PARTED);
    if parted > 0 {
        parted - 1
    } else {
        number(own, STAGES)
    }
}

fn answer_agrees(own: &[u8], a: Result<Built, Refused>) -> bool {
    match a {
        Ok(b) if parts(own) => goes_on(own, b),
        Ok(b) => answered(own, 0, b.stages, b.words, 0) && b.cells == number(own, CELLS),
        Err(e) => !parts(own)
            && answered(own, e.why.number(), 0, 0, e.stage)
            && number(own, CELLS) == 0,
    }
}

// Whether a plan has at least what is recorded up to the stage where the word rules part, and no more stages than the Rust's.
fn goes_on(own: &[u8], b: Built) -> bool {
    b.stages >= number(own, PARTED)
        && b.stages <= number(own, STAGES)
        && b.words >= number(own, WORDS)
        && b.words <= number(own, LIMIT)
        && b.cells >= number(own, CELLS)
}

fn words_agree(rt: &impl Print, own: &[u8], rest: &[u8], words: &[u32]) -> io::Result<bool> {
    holds(
        rt,
        words,
        rest,
        number(own, WORDS),
        EMPTY,
        number(own, LIMIT),
        LIMIT,
    )
}

fn counts_agree(rt: &impl Print, own: &[u8], counted: &[u8], counts: &[u32]) -> io::Result<bool> {
    holds(
        rt,
        counts,
        counted,
        worded(own),
        0,
        number(own, ROOMS),
        ROOMS,
    )
}

fn plan_agrees(rt: &impl Print, own: &[u8], cells: &[u8], plan: &mut [u32]) -> io::Result<bool> {
    Ok(take_cells(cells, number(own, CELLS), plan) && cleared(rt, plan, own, PLAN, EMPTY)?)
}

fn areas_agree(
    rt: &impl Print,
    own: &[u8],
    rest: &[u8],
    plan: &mut [u32],
    words: &[u32],
    counts: &[u32],
    work: &[u32],
) -> io::Result<bool> {
    let counted = behind(rest, number(own, WORDS));
    Ok(
        plan_agrees(rt, own, behind(counted, worded(own)), plan)?
            && words_agree(rt, own, rest, words)?
            && counts_agree(rt, own, counted, counts)?
            && cleared(rt, work, own, WORK, 0)?,
    )
}

// How many numbers of the plan are not compared: those of the stage behind the one where the word rules part, if there is one. Its size is that of each
// stage before it.
fn loose(own: &[u8], stages: usize) -> usize {
    let parted = number(own, PARTED);
    if parted > 0 && stages > parted {
        number(own, BEHIND) / parted
    } else {
        0
    }
}

// Where the word rules part, clears what the Rust doesn't decide, as far as the answer says that something stands there: the words from that stage on,
// and the cells behind it. The rest is then compared as ever.
fn clear_loose(own: &[u8], b: Built, plan: &mut [u32], words: &mut [u32], counts: &mut [u32]) {
    if parts(own) {
        let from = number(own, BEHIND);
        open(plan, from, from.saturating_add(loose(own, b.stages)), EMPTY);
        open(words, number(own, WORDS), b.words, EMPTY);
        open(counts, worded(own), b.stages, 0);
    }
}

// Whether the library leaves what the Rust answers.
pub fn agrees(rt: &impl Print, head: &[u8], body: &[u8]) -> io::Result<bool> {
    let mut input = [0u32; 3072];
    put_input(head, body, &mut input);
    built(rt, head, behind(head, 5), rest(head, body), &input)
}

fn built(rt: &impl Print, head: &[u8], own: &[u8], rest: &[u8], input: &[u32]) -> io::Result<bool> {
    let mut plan = [OLD; 23568];
    let mut words = [OLD; 32];
    let mut counts = [OLD; 40];
    let mut work = [OLD; 16032];
    let a = recorded_build(
        head,
        input,
        front(&mut plan, number(own, PLAN)),
        &mut words,
        &mut counts,
        &mut work,
    );
    if !answer_agrees(own, a) {
        return Ok(false);
    }
    if let Ok(b) = a {
        clear_loose(own, b, &mut plan, &mut words, &mut counts);
    }
    areas_agree(rt, own, rest, &mut plan, &words, &counts, &work)
}

// Counts how much of a plan is compared.
pub fn add_depth(own: &[u8], tally: &mut [usize]) {
    if number(own, NUMBER) != 0 {
        return;
    }
    if parts(own) {
        add(tally, IN_PART, 1);
        add(tally, WITH_CELLS, number(own, PARTED));
        add(tally, WITH_WORDS, worded(own));
    } else {
        add(tally, WHOLE, 1);
        add(tally, WHOLE_STAGES, number(own, STAGES));
    }
}

// A capital stands for a number of the tally.
pub fn tell_all(rt: &impl Print, tally: &[usize; 24]) -> io::Result<()> {
    tell(
        rt,
        b"the whole plan compared: B builds, C stages\nup to the stage where the word rules part: D builds, cells of E stages, words of F\nrefused with 6: G\nrefused with 7: H\nrefused with 8: I\nrefused with 9: J\npins taken back K\na word twice in a stage L\nseveral stages M\ngiven pins N\nwith outputs O\nwith flip-flops P\nwith memories Q\nwith staged pins R\nheight 6: S\nheight 7: T\nheight 8: U\nheight 9: V\nW builds agree, X differ\n",
        tally,
    )
}
