// The job program: prints the listing of a job file, or its refusal. The file is the one that its argument names, or standard input.
#![tactic(auto)]

ghost use Rattle.std.specs.Prelude.{◌≤◌, length};

use program::job_text;
use std::fs::File;
use std::io::Read;
use std::rt::Files;
use std::{env, io};

// One byte more than a file may have, so that a longer one is seen.
const BYTES: usize = 8193;

// More than any listing of four stages of height 10 has.
const TEXT: usize = 98304;

fn main(rt: HostRuntime) -> io::Result<()> {
    let mut args = env::args(&rt)?;
    match args.nth(1) {
        None => print(&rt, &mut rt.reader()),
        Some(path) => print_file(&rt, path.as_str()),
    }
}

fn print_file(rt: &(impl Files + Print + Eprint + Alloc), path: &str) -> io::Result<()> {
    match File::open(rt, path) {
        Ok(mut file) => print(rt, &mut file),
        Err(error) => fail(rt, path, error),
    }
}

// Writes a line to standard error: what failed, and the system's text, without the number that std puts behind it.
fn fail(rt: &(impl Eprint + Alloc), what: &str, error: io::Error) -> io::Result<()> {
    let said = format!(in rt.alloc(); "{error}")?;
    match said.as_str().split_once(" (os error ") {
        None => eprintln!(rt; "{what}: {said}"),
        Some((why, _)) => eprintln!(rt; "{what}: {why}"),
    }
}

// Reads until the buffer is full, the input ends or a read fails. Returns how many bytes stand at its start.
fn read_full<R: Read>(from: &mut R, buf: &mut [u8]) -> usize
    ensures { result ≤ length buf.new }
{
    let mut done = 0;
    // A read may give fewer bytes than it is asked for.
    while done < buf.len() {
        let n = from.read(&mut buf[done..]).unwrap_or(0);
        if n == 0 {
            break;
        }
        done += n;
    }
    done
}

fn print<R: Read>(rt: &(impl Print + Eprint), from: &mut R) -> io::Result<()> {
    let mut bytes: [u8; BYTES] = [0; BYTES];
    let n = read_full(from, &mut bytes);
    if n == BYTES {
        eprintln!(rt; "plan: the file is longer than 8192 bytes")?;
    }
    let mut text: [u8; TEXT] = [0; TEXT];
    match job_text(&bytes[..n], &mut text) {
        Ok(length) => show(rt, &text, length),
        Err(_) => eprintln!(rt; "plan: the listing is longer than 98304 bytes"),
    }
}

// The first n bytes.
fn show(rt: &impl Print, text: &[u8], n: usize) -> io::Result<()> {
    if n > text.len() {
        return Ok(());
    }
    rt.write_all(&text[0..n])
}
