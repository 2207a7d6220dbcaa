// Answers lines of questions about the layout library: `size ..`, `split ..` and `axis ..`, one answer to a line.
#![tactic(auto)]

mod fault;
mod ranged;
mod sizes;
mod splits;
mod words;

use fault::{Fault, Unread};
use std::alloc::{AllocError, Global};
use std::io;
use std::io::{BufRead, BufReader};
use words::Words;

// The answer to one line, by the kind that its first word names. The allocator is passed on beside the words, as the language has it.
fn answer(heap: Global, line: &str) -> Result<String, Fault> {
    let all: Vec<&str> = line.split_whitespace().collect(heap)?;
    let mut words = Words::new(all.as_slice());
    match words.next()? {
        "axis" => ranged::answer(heap, &mut words),
        "size" => sizes::answer(heap, &mut words),
        "split" => splits::answer(heap, &mut words),
        _ => Err(Fault::Unread),
    }
}

// Prints the answer to a line that is neither blank nor a comment.
fn reply(rt: &HostRuntime, line: &str) -> io::Result<()> {
    if line.trim().is_empty() || line.starts_with('#') {
        return Ok(());
    }
    match answer(rt.alloc(), line) {
        Ok(text) => println!(rt; "{text}"),
        Err(Fault::Memory) => Err(AllocError.into()),
        Err(fault) => println!(rt; "{fault}"),
    }
}

// A line that is no text is no question either.
fn main(rt: HostRuntime) -> io::Result<()> {
    for line in BufReader::new(rt.alloc(), rt.stdin())?.lines(rt.alloc()) {
        match line {
            Err(e) if e.kind() == io::ErrorKind::InvalidData => println!(rt; "{}", Unread)?,
            line => reply(&rt, line?.as_str())?,
        }
    }
    Ok(())
}
