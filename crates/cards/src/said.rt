// What is printed: what a card asks, then the paper's output.
use cells::Span;
use std::io;
use tables::Refusal;

pub fn asked(rt: &HostRuntime, asks: &str) -> io::Result<()> {
    println!(rt; "card {asks}")
}

// What could not be opened, and why, on standard error.
pub fn unopened(rt: &HostRuntime, path: &str, why: io::Error) -> io::Result<()> {
    eprintln!(rt; "{path}: {why}")
}

// `ok` with one `n` line a function, or one `no` line. Each piece is tried, whatever became of those before.
pub fn answered(
    rt: &HostRuntime,
    answer: Result<u64, Refusal>,
    numbers: &[u64],
    lengths: &[u64],
) -> io::Result<()> {
    match answer {
        Ok(count) => {
            let ok = println!(rt; "ok");
            let lines = functions(rt, numbers, lengths, count);
            ok.and(lines)
        }
        Err(why) => {
            let n = tables::numbers_of(why);
            println!(rt; "no\t{}\t{}\t{}", n.code, n.id, n.detail)
        }
    }
}

// A length above the count of all numbers is one that was not written: there are no more functions.
fn functions(rt: &HostRuntime, numbers: &[u64], lengths: &[u64], count: u64) -> io::Result<()> {
    let mut said = Ok(());
    let mut start: u64 = 0;
    for (position, &len) in lengths.iter().enumerate() {
        if count < len {
            break;
        }
        let begun = print!(rt; "n\t{position}\t");
        let listed = list(rt, cells::entries(numbers, Span { start, len }));
        said = said.and(begun).and(listed);
        start = start.wrapping_add(len);
    }
    said
}

fn list(rt: &HostRuntime, numbers: &[u64]) -> io::Result<()> {
    let mut said = Ok(());
    for (i, number) in numbers.iter().enumerate() {
        if i > 0 {
            said = said.and(print!(rt; ","));
        }
        said = said.and(print!(rt; "{number}"));
    }
    let ended = println!(rt;);
    said.and(ended)
}
