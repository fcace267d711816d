// What is counted of the builds or the merges: by number from 0 on, of the builds 1 to 5 how much is compared, then the marks, the heights (6 at
// 18), those that agree and those that differ.
use crate::areas::{HEIGHT, NUMBER, behind};
use crate::builds::add_depth;
use std::io;
use try_cases::{add, number, tell};

const MARKED: usize = 10;

const OF_HEIGHT: usize = 12;

const AGREE: usize = 22;

const DIFFER: usize = 23;

// What is recorded.
#[derive(Clone, Copy)]
pub enum Kind {
    Build,
    Merge,
}

impl Kind {
    // How many bytes a head has.
    pub fn head_size(self) -> usize {
        match self {
            Kind::Build => 34,
            Kind::Merge => 40,
        }
    }

    // How many of its numbers come before its own part.
    fn shared(self) -> usize {
        match self {
            Kind::Build => 5,
            Kind::Merge => 8,
        }
    }
}

fn add_marks(tally: &mut [usize], marks: usize) {
    let mut rest = marks;
    for i in 0..8 {
        add(tally, MARKED + i, rest % 2);
        rest /= 2;
    }
}

pub fn agreed(kind: Kind, head: &[u8], tally: &mut [usize; 24]) {
    let own = behind(head, kind.shared());
    add(tally, AGREE, 1);
    add(tally, number(own, NUMBER), 1);
    add(tally, OF_HEIGHT + number(head, HEIGHT), 1);
    add_marks(tally, number(own, 11));
    if let Kind::Build = kind {
        add_depth(own, tally);
    }
}

pub fn differed(rt: &impl Print, tally: &mut [usize; 24]) -> io::Result<()> {
    tell(
        rt,
        b"one differs, behind W that agree and X that differ\n",
        tally,
    )?;
    add(tally, DIFFER, 1);
    Ok(())
}
