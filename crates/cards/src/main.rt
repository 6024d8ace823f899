// Prints the paper's twelve cards: the number of each, what it asks, and what the bench answers. The texts are files beside the program.
#![tactic(auto)]

mod ask;
mod said;

use std::io;

fn main(rt: HostRuntime) -> io::Result<()> {
    scope_cards(&rt)?;
    assume_cards(&rt)?;
    target_and_depth_cards(&rt)?;
    shape_cards(&rt)?;
    Ok(())
}

// Cards 1 to 6: what an operand may use, and its number.
fn scope_cards(rt: &HostRuntime) -> io::Result<()> {
    plain(rt, "1: M", "01.module")?;
    plain(rt, "2: operation 4 uses value 3", "02.module")?;
    plain(rt, "3: operation 1 uses its own result first", "03.module")?;
    plain(
        rt,
        "4: operation 2 declares a result, value 4 claims it, operation 3 uses 4 and 0",
        "04.module",
    )?;
    plain(rt, "5: no functions", "05.module")?;
    plain(rt, "6: value 0 listed twice", "06.module")?;
    Ok(())
}

// Cards 7 and 8: Assume.
fn assume_cards(rt: &HostRuntime) -> io::Result<()> {
    with_widths(rt, "7: bounded on I1, -1 to 0", "07-1.module")?;
    with_widths(rt, "7: bounded on I1, 0 to 1", "07-2.module")?;
    with_widths(rt, "7: bounded on I64, its full range", "07-3.module")?;
    plain(rt, "8: div_by 2^62", "08-1.module")?;
    plain(rt, "8: div_by 0", "08-2.module")?;
    plain(rt, "8: div_by 2^63", "08-3.module")?;
    plain(rt, "8: div_by with every, without along", "08-4.module")?;
    Ok(())
}

// Cards 9 and 10.
fn target_and_depth_cards(rt: &HostRuntime) -> io::Result<()> {
    plain(rt, "9: sm_90 under 13.2", "09-1.module")?;
    plain(rt, "9: sm_90 under 13.3", "09-2.module")?;
    plain(rt, "10: depth 32", "10-1.module")?;
    plain(rt, "10: depth 33", "10-2.module")?;
    Ok(())
}

// Cards 11 and 12.
fn shape_cards(rt: &HostRuntime) -> io::Result<()> {
    with_widths(rt, "11: pack 8 I4 into 4 I8", "11-1.module")?;
    with_widths(rt, "11: pack 4 I1 into 1 I4", "11-2.module")?;
    with_widths(rt, "12: reshape of 2^31 by 2^31", "12-1.module")?;
    with_widths(rt, "12: reshape of 2^32 by 2^31", "12-2.module")?;
    Ok(())
}

// A card whose sheet says nothing.
fn plain(rt: &HostRuntime, asks: &str, module: &str) -> io::Result<()> {
    ask::card(rt, asks, module, "plain.sheet")
}

// A card with the widths of I8 and I64.
fn with_widths(rt: &HostRuntime, asks: &str, module: &str) -> io::Result<()> {
    ask::card(rt, asks, module, "widths.sheet")
}
