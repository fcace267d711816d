// The refusals of the scope document and of the requests after it.
#![tactic(auto)]

ghost use Rattle.std.specs.Prelude.{◌≡◌};
ghost use Rattle.refusals.specs.Numbers.{number_of, pin_of};

use graph::Pin;

// They stand in the order of their numbers.
#[derive(Clone, Copy)]
pub enum Refusal {
    // 1: a height outside 6..13.
    NoHeight,
    // 2: a lent area has the wrong size.
    WrongSize,
    // 3: the number of pins or a gate breaks the input rules.
    WrongGraph,
    // 4: a record is unknown, cut, over size, or names a pin above N.
    WrongRecord,
    // 5: a given pin is above N.
    WrongGiven,
    // 6: the reservation is over.
    OverReserved,
    // 7: the written words exceed those that are not reserved.
    OverWords,
    // 8: level 1 has no cell for a needed pin, or none stays empty.
    NoCell,
    // 9: pins wait, and no room is left.
    NoRoom,
    // 10: a merge's partitions, group indices or allowed extra stages.
    WrongGroups,
    // 11: a file that is no job, or a job that no file holds.
    NoJob,
    // 12: an AIGER file that is malformed or cut.
    Malformed,
    // 13: a latch's reset value other than 0.
    BadReset,
    // 14: a job that no AIGER file holds.
    NoFile,
    // 15: a file that is no plan sheet, or a plan that no sheet holds.
    NoSheet,
    // 16: a plan sheet of an unknown number.
    UnknownSheet,
    // 17: the area for what comes out is too short.
    TooShort,
    // 18: a replay with a memory or a given pin.
    NotPlain,
    // 19: a driven pin that isn't a leaf, or is driven twice.
    NotDriven,
    // 20: driven pins, starting bits or recording are not of the length stated.
    WrongLength,
    // 21: the list for the lines of an explanation is too short.
    ShortLines,
    // 22: a plan made elsewhere has a fault.
    WrongPlan,
    // 23: a loop of gates, with the smallest pin on any.
    Loop(Pin),
    // 24: the list of changes is too short.
    ShortList,
    // 25: the old word rule, which nobody builds with now.
    OldRule,
}

impl Refusal {
    pub fn number(self) -> u32
        ensures { result ≡ number_of self }
    {
        match self {
            Refusal::NoHeight => 1,
            Refusal::WrongSize => 2,
            Refusal::WrongGraph => 3,
            Refusal::WrongRecord => 4,
            Refusal::WrongGiven => 5,
            Refusal::OverReserved => 6,
            Refusal::OverWords => 7,
            Refusal::NoCell => 8,
            Refusal::NoRoom => 9,
            Refusal::WrongGroups => 10,
            Refusal::NoJob => 11,
            Refusal::Malformed => 12,
            Refusal::BadReset => 13,
            Refusal::NoFile => 14,
            Refusal::NoSheet => 15,
            Refusal::UnknownSheet => 16,
            Refusal::TooShort => 17,
            Refusal::NotPlain => 18,
            Refusal::NotDriven => 19,
            Refusal::WrongLength => 20,
            Refusal::ShortLines => 21,
            Refusal::WrongPlan => 22,
            Refusal::Loop(_) => 23,
            Refusal::ShortList => 24,
            Refusal::OldRule => 25,
        }
    }

    // The smallest pin on any loop of gates, else pin 0.
    pub fn pin(self) -> Pin
        ensures { result.0 ≡ pin_of self }
    {
        match self {
            Refusal::Loop(pin) => pin,
            _ => Pin(0),
        }
    }
}
