// A recorded merge.
use crate::areas::{
    EMPTY, HEIGHT, LIMIT, NUMBER, OLD, PLAN, ROOMS, WORK, answered, behind, cleared, gates, given,
    holds, put, put_input, records, rest,
};
use merge::{Merged, Refused, merge};
use std::io;
use try_cases::{front, narrow, number, tell};

// How the head goes on: the group list.
const INDICES: usize = 5;

const PARTITIONS: usize = 6;

const EXTRA: usize = 7;

// How its own part goes on.
const LEFT: usize = 8;

const TRIALS: usize = 9;

const REFUSED: usize = 10;

fn own(head: &[u8]) -> &[u8] {
    behind(head, 8)
}

fn recorded_merge(
    head: &[u8],
    input: &[u32],
    indices: &mut [u32],
    lengths: &mut [u32],
    stages: &mut [u32],
    plan: &mut [u32],
    words: &mut [u32],
    counts: &mut [u32],
    work: &mut [u32],
) -> Result<Merged, Refused> {
    merge(
        narrow(head, HEIGHT),
        gates(head, input),
        given(head, input),
        records(head, input),
        indices,
        lengths,
        stages,
        number(head, EXTRA),
        plan,
        words,
        counts,
        work,
    )
}

fn counted(own: &[u8], partitions: usize, trials: usize, refused: usize) -> bool {
    partitions == number(own, LEFT)
        && trials == number(own, TRIALS)
        && refused == number(own, REFUSED)
}

fn answer_agrees(own: &[u8], a: Result<Merged, Refused>) -> bool {
    match a {
        Ok(m) => answered(own, 0, m.stages, m.words, 0) && counted(own, m.partitions, m.trials, 0),
        Err(e) => answered(own, e.why.number(), 0, 0, e.stage) && counted(own, 0, 0, e.part),
    }
}

// The body behind the group list.
fn left<'a>(head: &[u8], rest: &'a [u8]) -> &'a [u8] {
    behind(rest, number(head, INDICES) + number(head, PARTITIONS))
}

// Whether the group list is as it is left, or, if the merge is refused, as it was.
fn list_right(
    rt: &impl Print,
    head: &[u8],
    rest: &[u8],
    indices: &[u32],
    lengths: &[u32],
    stages: &[u32],
) -> io::Result<bool> {
    if number(own(head), NUMBER) == 0 {
        list_left(rt, head, left(head, rest), indices, lengths, stages)
    } else {
        list_stands(rt, head, rest, indices, lengths, stages)
    }
}

fn list_left(
    rt: &impl Print,
    head: &[u8],
    left: &[u8],
    indices: &[u32],
    lengths: &[u32],
    stages: &[u32],
) -> io::Result<bool> {
    let n = number(head, INDICES);
    let filled = number(own(head), LEFT);
    let size = number(head, PARTITIONS);
    let counted = behind(left, n);
    Ok(
        holds(rt, indices, left, n, 0, n, INDICES)?
            && holds(rt, lengths, counted, filled, 0, size, PARTITIONS)?
            && holds(rt, stages, behind(counted, filled), filled, 0, size, EXTRA)?,
    )
}

fn list_stands(
    rt: &impl Print,
    head: &[u8],
    rest: &[u8],
    indices: &[u32],
    lengths: &[u32],
    stages: &[u32],
) -> io::Result<bool> {
    let n = number(head, INDICES);
    Ok(
        holds(rt, indices, rest, n, 0, n, INDICES)?
            && holds(
                rt,
                lengths,
                behind(rest, n),
                number(head, PARTITIONS),
                0,
                0,
                PARTITIONS,
            )?
            && holds(rt, stages, rest, 0, 0, 0, EXTRA)?,
    )
}

fn areas_agree(
    rt: &impl Print,
    own: &[u8],
    plan: &[u32],
    words: &[u32],
    counts: &[u32],
    work: &[u32],
) -> io::Result<bool> {
    Ok(
        cleared(rt, plan, own, PLAN, EMPTY)?
            && cleared(rt, words, own, LIMIT, EMPTY)?
            && cleared(rt, counts, own, ROOMS, 0)?
            && cleared(rt, work, own, WORK, 0)?,
    )
}

// Whether the library leaves what the Rust answers.
pub fn agrees(rt: &impl Print, head: &[u8], body: &[u8]) -> io::Result<bool> {
    let mut input = [0u32; 3072];
    put_input(head, body, &mut input);
    listed(rt, head, rest(head, body), &input)
}

fn listed(rt: &impl Print, head: &[u8], rest: &[u8], input: &[u32]) -> io::Result<bool> {
    let mut indices = [OLD; 1024];
    let mut lengths = [OLD; 64];
    let mut stages = [OLD; 64];
    let n = number(head, PARTITIONS);
    merged(
        rt,
        head,
        rest,
        input,
        front(&mut indices, number(head, INDICES)),
        front(&mut lengths, n),
        front(&mut stages, n),
    )
}

fn merged(
    rt: &impl Print,
    head: &[u8],
    rest: &[u8],
    input: &[u32],
    indices: &mut [u32],
    lengths: &mut [u32],
    stages: &mut [u32],
) -> io::Result<bool> {
    put(rest, indices);
    put(behind(rest, number(head, INDICES)), lengths);
    Ok(
        lent(rt, head, own(head), input, indices, lengths, stages)?
            && list_right(rt, head, rest, indices, lengths, stages)?,
    )
}

// Whether all but the group list agrees.
fn lent(
    rt: &impl Print,
    head: &[u8],
    own: &[u8],
    input: &[u32],
    indices: &mut [u32],
    lengths: &mut [u32],
    stages: &mut [u32],
) -> io::Result<bool> {
    let mut plan = [OLD; 16400];
    let mut words = [OLD; 32];
    let mut counts = [OLD; 40];
    let mut work = [OLD; 11000];
    let a = recorded_merge(
        head,
        input,
        indices,
        lengths,
        stages,
        front(&mut plan, number(own, PLAN)),
        &mut words,
        &mut counts,
        &mut work,
    );
    Ok(answer_agrees(own, a) && areas_agree(rt, own, &plan, &words, &counts, &work)?)
}

// A capital stands for a number of the tally.
pub fn tell_all(rt: &impl Print, tally: &[usize; 24]) -> io::Result<()> {
    tell(
        rt,
        b"merged A\nrefused with 6: G\nrefused with 7: H\nrefused with 8: I\nunions that fail K\na block not begun L\nover 30 partitions M\nmore stages than before N\nno extra stages allowed O\na group twice P\nan empty partition Q\ngiven pins R\nheight 6: S\nheight 7: T\nheight 8: U\nheight 9: V\nW merges agree, X differ\n",
        tally,
    )
}
