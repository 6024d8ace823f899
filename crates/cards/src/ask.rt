// One card: its two texts are read, and the check over texts is asked.
ghost use Rattle.std.specs.Prelude.{◌≤◌, length};

use crate::said;
use std::fs::File;
use std::io::Read;
use std::{fs, io};

// As many bytes of a text as are read.
const MOST_TEXT: usize = 65536;

// What stands where no length is written: no function has so many operands.
const NO_LENGTH: u64 = u64::MAX;

// A file that cannot be opened is told on standard error, and the card has no answer. What cannot be printed is passed over.
pub fn card(rt: &HostRuntime, asks: &str, module: &str, sheet: &str) -> io::Result<()> {
    let _ = said::asked(rt, asks);
    let mut sheet_text = [0u8; MOST_TEXT];
    let sheet_length = match fs::open(rt, sheet) {
        Ok(file) => read_full(file, &mut sheet_text),
        Err(why) => return said::unopened(rt, sheet, why),
    };
    let mut text = [0u8; MOST_TEXT];
    let length = match fs::open(rt, module) {
        Ok(file) => read_full(file, &mut text),
        Err(why) => return said::unopened(rt, module, why),
    };
    let _ = with_texts(rt, &sheet_text[..sheet_length], &text[..length]);
    Ok(())
}

// Reads until the text is full, the file ends or a read fails; how many bytes it put at the start of the text.
fn read_full(mut file: File, text: &mut [u8]) -> usize
    ensures { result ≤ length text.new }
{
    let mut done = 0;
    while done < text.len() {
        match file.read(&mut text[done..]) {
            Ok(n) if n > 0 => done += n,
            _ => break,
        }
    }
    done
}

// Tables of full size, as the paper has them.
fn with_texts(rt: &HostRuntime, sheet_text: &[u8], text: &[u8]) -> io::Result<()> {
    let mut t = [0u64; 16384];
    let mut v = [0u64; 16384];
    let mut o = [0u32; 32768];
    let mut a = [0u32; 32768];
    let mut b = [0u32; 2048];
    let mut r = [0u32; 1024];
    let mut f = [0u32; 64];
    let mut l = [0u64; 8192];
    let mut sheet = [0u64; 320];
    let mut numbers = [0u64; 8192];
    let mut lengths = [NO_LENGTH; 64];
    let answer = text_check::check_texts(
        sheet_text,
        text,
        &mut t,
        &mut v,
        &mut o,
        &mut a,
        &mut b,
        &mut r,
        &mut f,
        &mut l,
        &mut sheet,
        &mut numbers,
        &mut lengths,
    );
    said::answered(rt, answer, &numbers, &lengths)
}
