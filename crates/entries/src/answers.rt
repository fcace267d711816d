// An answer for other languages: its numbers in a lent slice.
ghost use Rattle.std.specs.Prelude.{◌≡◌, ◌∷◌, []};
ghost use Rattle.refusals.specs.Numbers.{number_said};
ghost use Rattle.placer.specs.Answers.{told};
ghost use Rattle.plan_check.specs.Answers.{outcome};
ghost use Rattle.entries.specs.Entry.{written, length_said};
ghost use Rattle.entries.specs.Build.{rest};
ghost use Rattle.entries.specs.Plans.{place};

use columns::wide;
use placer::Built;
use refusals::Refusal;

// The number of `Refusal::WrongSize`, which an entry returns where `answer` is too short: C reads numbers.
pub const WRONG_SIZE: u32 = 2;

// The numbers over the front of `answer`, which stays as it is where it is shorter.
pub fn tell(numbers: &[usize], answer: &mut [usize])
    ensures { answer.new ≡ written numbers.now answer.old }
{
    let n = numbers.len();
    if answer.len() < n {
        return;
    }
    for i in 0..n {
        answer[i] = numbers[i];
    }
}

// The number and length of a file that was written, or of one that was refused. Returns the number.
pub fn tell_length(size: Result<usize, Refusal>, answer: &mut [usize]) -> u32
    ensures number { result ≡ number_said size }
    ensures told { answer.new ≡ written (number_said size ∷ length_said size ∷ []) answer.old }
{
    match size {
        Ok(length) => {
            tell(&[0, length], answer);
            0
        }
        Err(why) => {
            let number = why.number();
            tell(&[wide(number), 0], answer);
            number
        }
    }
}

// What was built, or why nothing was. Returns the number.
pub fn tell_built(built: Result<Built, placer::Refused>, answer: &mut [usize]) -> u32
    ensures number { result ≡ (told built).number }
    ensures told { answer.new ≡ written ((told built).number ∷ rest (told built)) answer.old }
{
    match built {
        Ok(b) => {
            tell(&[0, b.stages, b.words, 0, 0, b.cells], answer);
            0
        }
        Err(r) => {
            let number = r.why.number();
            tell(
                &[wide(number), 0, 0, r.stage, r.why.pin().index(), 0],
                answer,
            );
            number
        }
    }
}

// Whether a plan made elsewhere is right, or why it is refused. Returns the number.
pub fn tell_checked(checked: Result<(), plan_check::Refused>, answer: &mut [usize]) -> u32
    ensures number { result ≡ (outcome checked).number }
    ensures told { answer.new ≡ written ((outcome checked).number ∷ place (outcome checked)) answer.old }
{
    match checked {
        Ok(()) => {
            tell(&[0, 0, 0, 0], answer);
            0
        }
        Err(r) => {
            let number = r.why.number();
            tell(
                &[wide(number), r.stage, r.position, r.why.pin().index()],
                answer,
            );
            number
        }
    }
}
