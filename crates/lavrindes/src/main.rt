// The command: its words, and what each of them reads and prints.
#![tactic(auto)]

mod asked;
mod files;
mod module;
mod said;

use std::io;

// What the first word asks for.
#[derive(Clone, Copy)]
enum Word {
    Check,
    Part,
    Places,
    Help,
    Version,
}

const WORD: usize = 1;

// What cannot be written is passed over: nobody is left to tell.
fn main(rt: HostRuntime) {
    let _ = command(&rt);
}

fn command(rt: &HostRuntime) -> io::Result<()> {
    let mut room = files::word_room();
    let Some(word) = word_of(files::word_at(rt, WORD, &mut room)) else {
        return said::usage(rt);
    };
    if !files::has_words(rt, words_of(word)) {
        return said::usage(rt);
    }
    match word {
        Word::Check => check(rt, 2, 3),
        Word::Part => part(rt, 2, 3, 4),
        Word::Places => places(rt, 2, 3),
        Word::Help => said::help(rt),
        Word::Version => said::version(rt),
    }
}

// How many words there are then, the program's own name among them.
fn words_of(word: Word) -> usize {
    match word {
        Word::Check | Word::Places => 4,
        Word::Part => 5,
        Word::Help | Word::Version => 2,
    }
}

// The bytes that are enough for a text's verdict: one past its limit.
const MOST_TEXT: usize = 65537;

const MOST_LIST: usize = 262145;

// Standard input can be read once.
fn same_input(rt: &HostRuntime, one: usize, other: usize) -> bool {
    files::is_input(rt, one) && files::is_input(rt, other)
}

fn check(rt: &HostRuntime, module: usize, sheet: usize) -> io::Result<()> {
    if same_input(rt, module, sheet) {
        return said::usage(rt);
    }
    let mut room = [0u8; MOST_TEXT];
    let Some(text) = files::read(rt, module, &mut room)? else {
        return Ok(());
    };
    let mut sheet_room = [0u8; MOST_TEXT];
    let Some(sheet_text) = files::read(rt, sheet, &mut sheet_room)? else {
        return Ok(());
    };
    asked::whole(rt, sheet_text, text)
}

fn part(rt: &HostRuntime, name: usize, module: usize, sheet: usize) -> io::Result<()> {
    let mut name_room = files::word_room();
    let Some(part) = asked::part_of(files::word_at(rt, name, &mut name_room)) else {
        return said::usage(rt);
    };
    if same_input(rt, module, sheet) {
        return said::usage(rt);
    }
    let mut room = [0u8; MOST_TEXT];
    let Some(text) = files::read(rt, module, &mut room)? else {
        return Ok(());
    };
    let mut sheet_room = [0u8; MOST_TEXT];
    let Some(sheet_text) = files::read(rt, sheet, &mut sheet_room)? else {
        return Ok(());
    };
    asked::alone(rt, part, sheet_text, text)
}

fn places(rt: &HostRuntime, module: usize, numbers: usize) -> io::Result<()> {
    if same_input(rt, module, numbers) {
        return said::usage(rt);
    }
    let mut room = [0u8; MOST_TEXT];
    let Some(text) = files::read(rt, module, &mut room)? else {
        return Ok(());
    };
    let mut list_room = [0u8; MOST_LIST];
    let Some(list) = files::read(rt, numbers, &mut list_room)? else {
        return Ok(());
    };
    asked::read_back(rt, text, list)
}

fn word_of(word: &[u8]) -> Option<Word> {
    match word {
        b"check" => Some(Word::Check),
        b"part" => Some(Word::Part),
        b"places" => Some(Word::Places),
        b"help" => Some(Word::Help),
        b"version" => Some(Word::Version),
        _ => None,
    }
}
