// What the command writes: answers on standard output, what to do about a wrong word or file on standard error.
use std::io;
use std::io::Write;
use tables::{Answer, Refusal};

// One `no` line.
pub fn refusal(rt: &HostRuntime, why: Refusal) -> io::Result<()> {
    let mut out = [0u8; 128];
    let length = printing::no_line(tables::numbers_of(why), &mut out);
    rt.stdout().write_all(&out[..length])
}

// `ok` alone, or the refusal.
pub fn answer(rt: &HostRuntime, answer: Answer) -> io::Result<()> {
    match answer {
        Ok(()) => println!(rt; "ok"),
        Err(why) => refusal(rt, why),
    }
}

// `ok` and the `n` lines, or the refusal.
pub fn numbered(
    rt: &HostRuntime,
    answer: Result<u64, Refusal>,
    numbers: &[u64],
    lengths: &[u64],
) -> io::Result<()> {
    match answer {
        Ok(_) => {
            let mut out = [0u8; 65536];
            let length = printing::number_lines(numbers, lengths, &mut out);
            rt.stdout().write_all(&out[..length])
        }
        Err(why) => refusal(rt, why),
    }
}

// `ok` and the `p` lines.
pub fn placed(rt: &HostRuntime, places: &[u64], lengths: &[u64]) -> io::Result<()> {
    let mut out = [0u8; 131072];
    let length = printing::place_lines(places, lengths, &mut out);
    rt.stdout().write_all(&out[..length])
}

pub fn usage(rt: &HostRuntime) -> io::Result<()> {
    eprintln!(rt;
        "lavrindes: these words are not understood; `lavrindes help` lists those that are"
    )
}

// A path is bytes, so it is written as it stands. Each part is tried, whatever became of the one before.
pub fn unreadable(rt: &HostRuntime, path: &[u8]) -> io::Result<()> {
    let begun = eprint!(rt; "lavrindes: cannot read ");
    let named = rt.stderr().write_all(path);
    let ended = eprintln!(rt;
        "; name a file that is there and may be read, or - for standard input"
    );
    begun.and(named).and(ended)
}

// Each line is tried, whatever became of those before.
pub fn help(rt: &HostRuntime) -> io::Result<()> {
    let check = println!(rt;
        "lavrindes check MODULE SHEET        ok and the numbers of each function's operands, or the first refusal"
    );
    let part = println!(rt;
        "lavrindes part NAME MODULE SHEET    one part alone: tables, dominance, numbering, requirements or rules"
    );
    let places = println!(rt;
        "lavrindes places MODULE NUMBERS     numbers read back: kind, id and index of each operand's place"
    );
    let others = println!(rt; "lavrindes help | version");
    let files = println!(rt;
        "A file named - is standard input. The first line is ok or no with code, id and detail."
    );
    check.and(part).and(places).and(others).and(files)
}

pub fn version(rt: &HostRuntime) -> io::Result<()> {
    println!(rt; "lavrindes 0.1.0, a port of checks of cutile-ir 0.4.0")
}
