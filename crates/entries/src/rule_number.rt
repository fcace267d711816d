// The word rules, by the numbers that other languages ask for them with.
ghost use Rattle.std.specs.Prelude.{◌≡◌};
ghost use Rattle.refusals.specs.Numbers.{number_said};
ghost use Rattle.entries.specs.Rule.{rule_for, refusal_of};

use refusals::Refusal;

// The old rule is refused by name, so that who asks for it is told; a number that names no rule as a wrong size is.
pub fn rule_refusal(rule: u32) -> Result<(), Refusal>
    ensures { number_said result ≡ refusal_of (rule_for rule) }
{
    match rule {
        0 => Ok(()),
        1 => Err(Refusal::OldRule),
        _ => Err(Refusal::WrongSize),
    }
}
