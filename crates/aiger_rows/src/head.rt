// What the header says.
ghost use Rattle.std.specs.Prelude.{◌≤◌};
ghost use Rattle.aiger_form.specs.Aag.{most_variables};

// The five numbers of a header that is right.
#[derive(Clone, Copy)]
pub struct Head {
    pub variables: usize,
    pub inputs: usize,
    pub latches: usize,
    pub outputs: usize,
    pub gates: usize,
    pub ghost few: { variables ≤ most_variables },
}
