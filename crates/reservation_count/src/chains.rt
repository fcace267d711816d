// Each pin's activations in a chain, the newest first.
ghost use Rattle.std.specs.Prelude.{◌≡◌};
ghost use Rattle.placer_start.specs.Reservation.{WholeAt};
ghost use Rattle.reservation_count.specs.Chains.{code_at, LinkAt, Linked, ChainsAt, Chained};

use placer_start::reservation::{Added, adds};
use records::starts;

// The activation of the whole record at an index; 0 for a memory, which has none.
pub fn code_at(records: &[u32], at: usize) -> usize
    requires { WholeAt at records.now }
    ensures { result ≡ code_at records.now at }
{
    match adds(records, at) {
        Added::Memory => 0,
        Added::Code(_, code) => code,
    }
}

// The whole record at an index goes before its pin's chain. Returns 1 for a memory, else 0.
fn chain_record(records: &[u32], heads: &mut [u32], links: &mut [u32], at: usize) -> usize
    requires { LinkAt records.now at heads.old links.old }
    ensures { Linked records.now at heads.old links.old heads.new links.new result }
{
    match adds(records, at) {
        Added::Memory => 1,
        Added::Code(p, _) => {
            let i = p.index();
            links[at] = heads[i];
            heads[i] = (at + 1) as u32;
            0
        }
    }
}

// Every record, where no pin has a chain yet. Returns the memories.
pub fn chain_all(records: &[u32], heads: &mut [u32], links: &mut [u32]) -> usize
    requires { ChainsAt records.now heads.old links.old }
    ensures { Chained records.now heads.old links.old heads.new links.new result }
{
    let mut memories = 0;
    for at in starts(records) {
        memories += chain_record(records, heads, links, at);
    }
    memories
}
