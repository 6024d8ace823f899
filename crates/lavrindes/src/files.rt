// The command's words, and the files that they name; `-` is standard input.
ghost use Rattle.std.specs.Prelude.{◌≤◌, length, IfOk};

use crate::said;
use std::env::{Env, FillError};
use std::io::{Input, Read};
use std::{fs, io};

// As many bytes of a word as are read, which hold any path.
const MOST_WORD: usize = 4096;

pub fn word_room() -> [u8; MOST_WORD] {
    [0; MOST_WORD]
}

// The word at a position, as many bytes as it has; none where there is no such word or it is too long.
pub fn word_at<'a>(rt: &HostRuntime, word: usize, room: &'a mut [u8]) -> &'a [u8]
    ensures { length result.now ≤ length room.old }
{
    let length = rt.arg(word, room).unwrap_or(0);
    &room[..length]
}

// There is a word at a position.
fn stands(rt: &HostRuntime, word: usize) -> bool {
    let mut room = word_room();
    !matches!(rt.arg(word, &mut room), Err(FillError::NotPresent))
}

// There are so many words, the program's own name among them; there is always one.
pub fn has_words(rt: &HostRuntime, count: usize) -> bool {
    count > 0 && stands(rt, count - 1) && !stands(rt, count)
}

// The word at a position is `-`.
pub fn is_input(rt: &HostRuntime, word: usize) -> bool {
    let mut room = word_room();
    is_dash(word_at(rt, word, &mut room))
}

fn is_dash(path: &[u8]) -> bool {
    path == b"-".as_slice()
}

// The file that a word names, as far as there is room; one that cannot be read is told.
pub fn read<'a>(rt: &HostRuntime, word: usize, text: &'a mut [u8]) -> io::Result<Option<&'a [u8]>> {
    let mut room = word_room();
    let path = word_at(rt, word, &mut room);
    match read_path(rt, path, text) {
        Ok(length) => Ok(Some(&text[..length])),
        Err(_) => {
            said::unreadable(rt, path)?;
            Ok(None)
        }
    }
}

// std takes a path as text, so one that is no UTF-8 cannot be opened.
fn read_path(rt: &HostRuntime, path: &[u8], text: &mut [u8]) -> io::Result<usize>
    ensures { IfOk result (λ n. n ≤ length text.new) }
{
    if is_dash(path) {
        return read_to_end(rt.reader(), text);
    }
    match str::from_utf8(path) {
        Ok(name) => read_to_end(fs::open(rt, name)?, text),
        Err(_) => Err(io::Error::from(io::ErrorKind::InvalidInput)),
    }
}

// How many bytes a reader gave up to its end, as far as there is room.
fn read_to_end<R: Read + Drop>(mut reader: R, text: &mut [u8]) -> io::Result<usize>
    ensures { IfOk result (λ n. n ≤ length text.new) }
{
    let mut done = 0;
    while done < text.len() {
        let count = reader.read(&mut text[done..])?;
        if count == 0 {
            return Ok(done);
        }
        done += count;
    }
    Ok(done)
}
