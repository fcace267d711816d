// The line of a reservation that is over: all memories and duplicates are counted, though the build stops counting at its limit.
ghost use Rattle.std.specs.Prelude.{◌≡◌};
ghost use Rattle.explain_lines.specs.Lines.{six};
ghost use Rattle.explain_build.specs.Six.{SixAt, six_of, TellAt, Told};

use explain_lines::{Line, put_line};
use placer_start::reservation::Count;
use plan_check::room::counted;
use refusals::Refusal;

fn six_line(limit: usize, c: Count) -> Line
    requires { SixAt limit c }
    ensures { six result ≡ six_of limit c.memories c.duplicates }
{
    let number = Refusal::OverReserved.number();
    let memories = c.memories;
    let duplicates = c.duplicates;
    let reserved = memories + (duplicates + 31) / 32;
    if reserved < limit {
        let count = 4 * memories + duplicates;
        return Line(
            number,
            0,
            limit as u32,
            count as u32,
            memories as u32,
            duplicates as u32,
        );
    }
    let most = limit - 1;
    Line(
        number,
        0,
        most as u32,
        reserved as u32,
        memories as u32,
        duplicates as u32,
    )
}

// As the only line of the list.
pub fn tell_six(gates: &[u32], records: &[u32], limit: usize, list: &mut [u32])
    requires { TellAt limit gates.now records.now }
    ensures { Told limit records.now list.old list.new }
{
    let c = counted(gates, records);
    put_line(list, 0, six_line(limit, c));
}
