// A tally of words: those spent, those reserved and the limit.
#![tactic(auto)]

ghost use Rattle.std.specs.Prelude.{◌≡◌, ◌+◌, ◌-◌, ◌<◌, ◌≤◌, ◌^◌, ltb};
ghost use Rattle.stage_tally.specs.Spending.{spending, bound, room, Counted};

#[derive(Clone, Copy)]
pub struct Tally {
    pub spent: usize,
    pub reserved: usize,
    pub limit: usize,
}

// How many words may still be written.
pub fn left(t: Tally) -> usize
    requires { Counted t }
    ensures { result ≡ room t }
{
    t.limit - t.reserved - t.spent
}

// The tally with n words more spent.
pub fn spend(t: Tally, n: usize) -> Tally
    requires { t.spent + n < 2 ^ 64 }
    ensures { result ≡ spending t n }
{
    Tally {
        spent: t.spent + n,
        ..t
    }
}

// Test 7: is more spent than the reservation leaves?
pub fn is_over(t: Tally) -> bool
    requires { t.reserved ≤ t.limit }
    ensures { result ≡ ltb (bound t) t.spent }
{
    t.spent > t.limit - t.reserved
}
