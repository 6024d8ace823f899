// What C and Rust link: numbers and slices only.
#![tactic(auto)]

ghost use Rattle.std.specs.Prelude.{◌≡◌};
ghost use Rattle.tables.specs.Tables.{lent, nest};
ghost use Rattle.table_checks.specs.Checks.{table_checks};
ghost use Rattle.dominance.specs.Alone.{dominance_alone};
ghost use Rattle.capability_check.specs.Alone.{capabilities_alone};
ghost use Rattle.rule_check.specs.Alone.{rules_alone};
ghost use Rattle.numbering.specs.Alone.{numbering_alone};
ghost use Rattle.read_back.specs.Alone.{read_back_alone};
ghost use Rattle.sheet.specs.Sheet.{read_sheet};
ghost use Rattle.house.specs.House.{no_counts};
ghost use Rattle.module_text.specs.Whole.{house};
ghost use Rattle.full_check.specs.Full.{full_check};
ghost use Rattle.text_check.specs.Texts.{texts_check};
ghost use Rattle.answers.specs.Noted.{counts_of, target_of, told, noted, header_noted, counts_noted};

use tables::{Tables, Target};

// Codes 1 to 4 over tables; the answer's code, id and detail, 0 0 0 where nothing is refused.
#[unsafe(no_mangle)]
pub extern "C" fn lavrindes_check_tables(
    t: &[u64],
    v: &[u64],
    o: &[u32],
    a: &[u32],
    b: &[u32],
    r: &[u32],
    f: &[u32],
    l: &[u64],
    counts: &[u64],
    answer: &mut [u64],
)
    ensures { answer.new ≡ noted (told (table_checks (lent t.now v.now o.now a.now b.now r.now f.now l.now (counts_of counts.now)))) answer.old }
{
    let x = Tables::new(t, v, o, a, b, r, f, l, answers::counts_of(counts));
    // Neither the walk order nor the claims are asked for.
    let said = table_checks::check_tables(&x, &mut [], &mut [], &mut []);
    answers::note_answer(said, answer);
}

// Codes 1 to 4 and 5 over tables.
#[unsafe(no_mangle)]
pub extern "C" fn lavrindes_check_dominance(
    t: &[u64],
    v: &[u64],
    o: &[u32],
    a: &[u32],
    b: &[u32],
    r: &[u32],
    f: &[u32],
    l: &[u64],
    counts: &[u64],
    answer: &mut [u64],
)
    ensures { answer.new ≡ noted (told (dominance_alone (lent t.now v.now o.now a.now b.now r.now f.now l.now (counts_of counts.now)))) answer.old }
{
    let x = Tables::new(t, v, o, a, b, r, f, l, answers::counts_of(counts));
    let said = dominance::dominance(&x);
    answers::note_answer(said, answer);
}

// Codes 16, 1 to 4, 9 and 10 over tables and a target: the minor version and the sm number.
#[unsafe(no_mangle)]
pub extern "C" fn lavrindes_check_requirements(
    version: u64,
    sm: u64,
    t: &[u64],
    v: &[u64],
    o: &[u32],
    a: &[u32],
    b: &[u32],
    r: &[u32],
    f: &[u32],
    l: &[u64],
    counts: &[u64],
    answer: &mut [u64],
)
    ensures { answer.new ≡ noted (told (capabilities_alone (target_of version sm) (lent t.now v.now o.now a.now b.now r.now f.now l.now (counts_of counts.now)))) answer.old }
{
    let x = Tables::new(t, v, o, a, b, r, f, l, answers::counts_of(counts));
    let said = capability_check::check_alone(Target { version, sm }, &x);
    answers::note_answer(said, answer);
}

// Codes 16, 1 to 4, 11 and 12 over tables, a target and a rule sheet.
#[unsafe(no_mangle)]
pub extern "C" fn lavrindes_check_rules(
    version: u64,
    sm: u64,
    t: &[u64],
    v: &[u64],
    o: &[u32],
    a: &[u32],
    b: &[u32],
    r: &[u32],
    f: &[u32],
    l: &[u64],
    counts: &[u64],
    sheet: &[u64],
    answer: &mut [u64],
)
    ensures { answer.new ≡ noted (told (rules_alone (target_of version sm) sheet.now (lent t.now v.now o.now a.now b.now r.now f.now l.now (counts_of counts.now)))) answer.old }
{
    let x = Tables::new(t, v, o, a, b, r, f, l, answers::counts_of(counts));
    let said = rule_check::check_alone(Target { version, sm }, &x, sheet);
    answers::note_answer(said, answer);
}

// Codes 1 to 4 with the sheet, 8, 6, 7 and 13: the operand numbers, and how many of them each function has.
#[unsafe(no_mangle)]
pub extern "C" fn lavrindes_check_numbering(
    t: &[u64],
    v: &[u64],
    o: &[u32],
    a: &[u32],
    b: &[u32],
    r: &[u32],
    f: &[u32],
    l: &[u64],
    counts: &[u64],
    sheet: &[u64],
    numbers: &mut [u64],
    lengths: &mut [u64],
    answer: &mut [u64],
)
    ensures numbers { numbers.new ≡ (numbering_alone sheet.now (lent t.now v.now o.now a.now b.now r.now f.now l.now (counts_of counts.now)) numbers.old lengths.old).numbers }
    ensures lengths { lengths.new ≡ (numbering_alone sheet.now (lent t.now v.now o.now a.now b.now r.now f.now l.now (counts_of counts.now)) numbers.old lengths.old).lengths }
    ensures answer { answer.new ≡ noted (told (numbering_alone sheet.now (lent t.now v.now o.now a.now b.now r.now f.now l.now (counts_of counts.now)) numbers.old lengths.old).answer) answer.old }
{
    let x = Tables::new(t, v, o, a, b, r, f, l, answers::counts_of(counts));
    let said = numbering::numbering(&x, sheet, numbers, lengths);
    answers::note_answer(said, answer);
}

// Codes 1 to 3 of the nesting, 14 and 13: the place that each number names, three entries a place.
#[unsafe(no_mangle)]
pub extern "C" fn lavrindes_read_back(
    o: &[u32],
    b: &[u32],
    r: &[u32],
    f: &[u32],
    l: &[u64],
    counts: &[u64],
    numbers: &[u64],
    places: &mut [u64],
    answer: &mut [u64],
)
    ensures places { places.new ≡ (read_back_alone (nest o.now b.now r.now f.now l.now (counts_of counts.now)) numbers.now places.old).list }
    ensures answer { answer.new ≡ noted (told (read_back_alone (nest o.now b.now r.now f.now l.now (counts_of counts.now)) numbers.now places.old).answer) answer.old }
{
    let n = answers::counts_of(counts);
    let said = read_back::read_back(o, b, r, f, l, n, numbers, places);
    answers::note_answer(said, answer);
}

// Codes 13, 1 and 15 of a rule sheet's text; a refusal leaves the sheet all zero.
#[unsafe(no_mangle)]
pub extern "C" fn lavrindes_read_sheet(text: &[u8], sheet: &mut [u64], answer: &mut [u64])
    ensures sheet { sheet.new ≡ (read_sheet text.now sheet.old).entries }
    ensures answer { answer.new ≡ noted (told (read_sheet text.now sheet.old).answer) answer.old }
{
    let said = sheet::read_sheet(text, sheet);
    answers::note_answer(said, answer);
}

// Codes 13, 1 and 15 of a module's text: its tables, header and counts. A refusal leaves the tables all zero, and zeros for header and counts.
#[unsafe(no_mangle)]
pub extern "C" fn lavrindes_read_module(
    text: &[u8],
    t: &mut [u64],
    v: &mut [u64],
    o: &mut [u32],
    a: &mut [u32],
    b: &mut [u32],
    r: &mut [u32],
    f: &mut [u32],
    l: &mut [u64],
    header: &mut [u64],
    counts: &mut [u64],
    answer: &mut [u64],
)
    ensures tables { let s = house text.now (lent t.old v.old o.old a.old b.old r.old f.old l.old no_counts) in lent t.new v.new o.new a.new b.new r.new f.new l.new s.tables.counts ≡ s.tables }
    ensures header { let s = house text.now (lent t.old v.old o.old a.old b.old r.old f.old l.old no_counts) in header.new ≡ header_noted s.version s.sm header.old }
    ensures counts { let s = house text.now (lent t.old v.old o.old a.old b.old r.old f.old l.old no_counts) in counts.new ≡ counts_noted s.tables.counts counts.old }
    ensures answer { let s = house text.now (lent t.old v.old o.old a.old b.old r.old f.old l.old no_counts) in answer.new ≡ noted (told s.answer) answer.old }
{
    let s = module_text::read_module(text, t, v, o, a, b, r, f, l);
    answers::note_reading(s, header, counts, answer);
}

// The full check over tables, a target and a rule sheet: the first refusal, which changes no lent byte but the answer, or the operand numbers
// and how many of them each function has.
#[unsafe(no_mangle)]
pub extern "C" fn lavrindes_check_all(
    version: u64,
    sm: u64,
    t: &[u64],
    v: &[u64],
    o: &[u32],
    a: &[u32],
    b: &[u32],
    r: &[u32],
    f: &[u32],
    l: &[u64],
    counts: &[u64],
    sheet: &[u64],
    numbers: &mut [u64],
    lengths: &mut [u64],
    answer: &mut [u64],
)
    ensures numbers { numbers.new ≡ (full_check (target_of version sm) sheet.now (lent t.now v.now o.now a.now b.now r.now f.now l.now (counts_of counts.now)) numbers.old lengths.old).numbers }
    ensures lengths { lengths.new ≡ (full_check (target_of version sm) sheet.now (lent t.now v.now o.now a.now b.now r.now f.now l.now (counts_of counts.now)) numbers.old lengths.old).lengths }
    ensures answer { answer.new ≡ noted (told (full_check (target_of version sm) sheet.now (lent t.now v.now o.now a.now b.now r.now f.now l.now (counts_of counts.now)) numbers.old lengths.old).answer) answer.old }
{
    let x = Tables::new(t, v, o, a, b, r, f, l, answers::counts_of(counts));
    let said = full_check::check(Target { version, sm }, &x, sheet, numbers, lengths);
    answers::note_answer(said, answer);
}

// The check over texts, read into the lent tables and sheet: the sheet's refusal, the module's, or what the full check answers.
#[unsafe(no_mangle)]
pub extern "C" fn lavrindes_check_texts(
    sheet_text: &[u8],
    text: &[u8],
    t: &mut [u64],
    v: &mut [u64],
    o: &mut [u32],
    a: &mut [u32],
    b: &mut [u32],
    r: &mut [u32],
    f: &mut [u32],
    l: &mut [u64],
    sheet: &mut [u64],
    numbers: &mut [u64],
    lengths: &mut [u64],
    answer: &mut [u64],
)
    ensures tables { lent t.new v.new o.new a.new b.new r.new f.new l.new no_counts ≡ (texts_check sheet_text.now text.now (lent t.old v.old o.old a.old b.old r.old f.old l.old no_counts) sheet.old numbers.old lengths.old).tables }
    ensures sheet { sheet.new ≡ (texts_check sheet_text.now text.now (lent t.old v.old o.old a.old b.old r.old f.old l.old no_counts) sheet.old numbers.old lengths.old).sheet }
    ensures numbers { numbers.new ≡ (texts_check sheet_text.now text.now (lent t.old v.old o.old a.old b.old r.old f.old l.old no_counts) sheet.old numbers.old lengths.old).said.numbers }
    ensures lengths { lengths.new ≡ (texts_check sheet_text.now text.now (lent t.old v.old o.old a.old b.old r.old f.old l.old no_counts) sheet.old numbers.old lengths.old).said.lengths }
    ensures answer { answer.new ≡ noted (told (texts_check sheet_text.now text.now (lent t.old v.old o.old a.old b.old r.old f.old l.old no_counts) sheet.old numbers.old lengths.old).said.answer) answer.old }
{
    let said = text_check::check_texts(
        sheet_text, text, t, v, o, a, b, r, f, l, sheet, numbers, lengths,
    );
    answers::note_answer(said, answer);
}
