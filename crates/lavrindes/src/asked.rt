// What the command asks of the texts it has read.
use crate::module::Module;
use crate::said;
use cells::Span;
use std::io;
use tables::{Answer, Refusal, Tables, Target};

// A part of the check that can be asked alone.
#[derive(Clone, Copy)]
pub enum Part {
    Tables,
    Dominance,
    Numbering,
    Requirements,
    Rules,
}

pub fn part_of(name: &[u8]) -> Option<Part> {
    match name {
        b"tables" => Some(Part::Tables),
        b"dominance" => Some(Part::Dominance),
        b"numbering" => Some(Part::Numbering),
        b"requirements" => Some(Part::Requirements),
        b"rules" => Some(Part::Rules),
        _ => None,
    }
}

// Numbering and the rules ask the sheet.
fn takes_sheet(part: Part) -> bool {
    matches!(part, Part::Numbering | Part::Rules)
}

// No function has so many operands: what stands where no length was written.
const NO_LENGTH: u64 = u64::MAX;

// The lengths that were written, before the first that was not.
fn written(lengths: &[u64]) -> &[u64] {
    match lengths.iter().position(|&length| length == NO_LENGTH) {
        Some(count) => &lengths[..count],
        None => lengths,
    }
}

// So many entries of a list, as far as it goes.
fn first(list: &[u64], len: u64) -> &[u64] {
    cells::entries(list, Span { start: 0, len })
}

// The check that runs all.
pub fn whole(rt: &HostRuntime, sheet_text: &[u8], text: &[u8]) -> io::Result<()> {
    let mut m = Module::new();
    let mut sheet = [0u64; 320];
    let mut numbers = [0u64; 8192];
    let mut lengths = [NO_LENGTH; 64];
    let answer = text_check::check_texts(
        sheet_text,
        text,
        &mut m.types,
        &mut m.values,
        &mut m.operations,
        &mut m.attributes,
        &mut m.blocks,
        &mut m.regions,
        &mut m.functions,
        &mut m.entries,
        &mut sheet,
        &mut numbers,
        &mut lengths,
    );
    said::numbered(rt, answer, &numbers, written(&lengths))
}

// One part alone: the sheet is read first where the part asks it, then the module.
pub fn alone(rt: &HostRuntime, part: Part, sheet_text: &[u8], text: &[u8]) -> io::Result<()> {
    let mut sheet = [0u64; 320];
    if takes_sheet(part) {
        if let Err(why) = text_check::read_sheet(sheet_text, &mut sheet) {
            return said::refusal(rt, why);
        }
    }
    let mut m = Module::new();
    let s = m.read(text);
    let read = s.answer;
    if let Err(why) = read {
        return said::refusal(rt, why);
    }
    let g = Target {
        version: s.version,
        sm: s.sm,
    };
    let x = m.tables(s.counts);
    match part {
        Part::Tables => said::answer(rt, tables_alone(g, &x)),
        Part::Dominance => said::answer(rt, dominance::dominance(&x)),
        Part::Numbering => numbering_alone(rt, &x, &sheet),
        Part::Requirements => said::answer(rt, capability_check::check_alone(g, &x)),
        Part::Rules => said::answer(rt, rule_check::check_alone(g, &x, &sheet)),
    }
}

// 16, then 1 to 4.
fn tables_alone(g: Target, x: &Tables<'_, '_, '_>) -> Answer {
    table_checks::check_target(g)?;
    // Neither the walk order nor the claims are asked for.
    table_checks::check_tables(x, &mut [], &mut [], &mut [])?;
    Ok(())
}

fn numbering_alone(rt: &HostRuntime, x: &Tables<'_, '_, '_>, sheet: &[u64]) -> io::Result<()> {
    let mut numbers = [0u64; 8192];
    let mut lengths = [0u64; 64];
    let answer = numbering::numbering(x, sheet, &mut numbers, &mut lengths);
    said::numbered(rt, answer, &numbers, first(&lengths, x.counts().functions))
}

// A number list read back: the module's nesting, then the list, then its places.
pub fn read_back(rt: &HostRuntime, text: &[u8], list: &[u8]) -> io::Result<()> {
    let mut m = Module::new();
    let s = m.read(text);
    let read = s.answer;
    if let Err(why) = read {
        return said::refusal(rt, why);
    }
    let mut numbers = [0u64; 8192];
    let mut lengths = [0u64; 64];
    match number_text::read_numbers(list, &mut numbers, &mut lengths) {
        Err(why) => said::refusal(rt, why),
        Ok(lists) => of_lists(
            rt,
            &m.tables(s.counts),
            first(&numbers, lists.count),
            first(&lengths, lists.functions),
        ),
    }
}

fn of_lists(
    rt: &HostRuntime,
    x: &Tables<'_, '_, '_>,
    numbers: &[u64],
    lengths: &[u64],
) -> io::Result<()> {
    let mut places = [0u64; 24576];
    let answer = number_lists::read_lists(
        x.operation_cells(),
        x.block_cells(),
        x.region_cells(),
        x.function_cells(),
        x.entries(),
        x.counts(),
        numbers,
        lengths,
        &mut places,
    );
    match answer {
        Err(why) => said::refusal(rt, why),
        Ok(()) => said::placed(rt, &places, lengths),
    }
}
