// Which jobs a file can hold: every number fits its field, and the sizes are the program's.
ghost use Rattle.std.specs.Prelude.{◌≡◌, ◌^◌, ◌<◌, ltb, length};
ghost use Rattle.std.specs.List.{list_all};
ghost use Rattle.rules.specs.Graph.{node_of, graph_of};
ghost use Rattle.rules.specs.Records.{read};
ghost use Rattle.rules.specs.Job.{node_fits, nodes_fit, gates_fit, number_width};
ghost use Rattle.job_write.specs.Answers.{job_of};
ghost use Rattle.job_write.specs.Fits.{counted, RecordIs, Judged};

use graph::EMPTY;
use records::size_at;

fn numbers_fit(numbers: &[u32], limit: u32) -> bool
    ensures { result ≡ list_all (λ x. ltb x limit) numbers.now }
{
    numbers.iter().all(|x| *x < limit)
}

// Two empty marks, or two literals of 17 bits.
fn node_fits(a: u32, b: u32) -> bool
    ensures { result ≡ node_fits (node_of a b) }
{
    if a == EMPTY {
        return b == EMPTY;
    }
    if 131072 <= a {
        return false;
    }
    b < 131072
}

fn nodes_fit(gates: &[u32]) -> bool
    ensures { result ≡ nodes_fit (graph_of gates.now) }
{
    let n = gates.len() / 2;
    for i in 0..n {
        if !node_fits(gates[2 * i], gates[2 * i + 1]) {
            return false;
        }
    }
    true
}

fn gates_fit(gates: &[u32]) -> bool
    ensures { result ≡ gates_fit gates.now }
{
    if gates.len() % 2 == 1 || gates.len() < 2 {
        return false;
    }
    if gates[0] != EMPTY || gates[1] != EMPTY {
        return false;
    }
    nodes_fit(gates)
}

// What the numbers behind a kind are below.
fn limit(kind: u32) -> u32
    ensures { result ≡ 2 ^ number_width kind }
{
    if kind == 4 { 65536 } else { 131072 }
}

// How many numbers the record at an index has, its kind among them; none if it is not whole or does not fit.
fn record_fits(records: &[u32], at: usize) -> Option<usize>
    requires { at < length records.now }
    ensures { RecordIs records.now at result }
{
    let size = size_at(records, at);
    if size == 0 || !numbers_fit(&records[at + 1..at + 1 + size], limit(records[at])) {
        return None;
    }
    Some(1 + size)
}

// How many records there are, if each fits.
fn count_groups(records: &[u32]) -> Option<usize>
    ensures { result ≡ counted (read records.now) }
{
    let mut i = 0;
    let mut count = 0;
    // No `starts`: it ends at a record that is not whole, and does not say so.
    while i < records.len() {
        i += record_fits(records, i)?;
        count += 1;
    }
    Some(count)
}

// How many records the job has, if everything fits.
pub fn judge(height: u32, gates: &[u32], given: &[u32], records: &[u32]) -> Option<usize>
    ensures { Judged (job_of height gates.now given.now records.now) result }
{
    if 10 < height || 501 < gates.len() / 2 || 512 < records.len() || 65536 <= given.len() {
        return None;
    }
    if !gates_fit(gates) || !numbers_fit(given, 65536) {
        return None;
    }
    count_groups(records)
}
