// The check over texts: the sheet is read, then the module, then its tables are asked.
#![tactic(auto)]

ghost use Rattle.std.specs.Prelude.{◌≡◌, ◌≤◌};
ghost use Rattle.tables.specs.Tables.{lent};
ghost use Rattle.tables.specs.Answer.{numbers_of};
ghost use Rattle.house.specs.House.{no_counts};
ghost use Rattle.sheet.specs.Sheet.{read_sheet};
ghost use Rattle.numbering.specs.Alone.{outcome};
ghost use Rattle.text_check.specs.Texts.{in_sheet, sheet_said, texts, texts_check};

use tables::{Answer, Refusal, Tables, Target};

// A refusal of the sheet: a field of its text is told by 100 more. Its lines have three fields at most.
fn in_sheet(why: Refusal) -> Refusal
    requires { (numbers_of why).code ≡ 15 → (numbers_of why).detail ≤ 3 }
    ensures { result ≡ in_sheet why }
{
    match why {
        Refusal::NotInForm { line, field } => Refusal::NotInForm {
            line,
            field: field + 100,
        },
        _ => why,
    }
}

// The sheet's text, read as a program tells it.
pub fn read_sheet(text: &[u8], sheet: &mut [u64]) -> Answer
    ensures said { result ≡ sheet_said (read_sheet text.now sheet.old).answer }
    ensures entries { sheet.new ≡ (read_sheet text.now sheet.old).entries }
{
    match sheet::read_sheet(text, sheet) {
        Ok(()) => Ok(()),
        Err(why) => Err(in_sheet(why)),
    }
}

// The sheet's text and the module's, read into the lent tables, and their check: the first refusal, or how many numbers are written, with how
// many each function has. A module that was refused is not asked.
pub fn check_texts(
    sheet_text: &[u8],
    text: &[u8],
    t: &mut [u64],
    v: &mut [u64],
    o: &mut [u32],
    a: &mut [u32],
    b: &mut [u32],
    r: &mut [u32],
    f: &mut [u32],
    l: &mut [u64],
    sheet: &mut [u64],
    numbers: &mut [u64],
    lengths: &mut [u64],
) -> Result<u64, Refusal>
    ensures { texts (outcome result numbers.new lengths.new) (lent t.new v.new o.new a.new b.new r.new f.new l.new no_counts) sheet.new ≡ texts_check sheet_text.now text.now (lent t.old v.old o.old a.old b.old r.old f.old l.old no_counts) sheet.old numbers.old lengths.old }
{
    read_sheet(sheet_text, sheet)?;
    let s = module_text::read_module(text, t, v, o, a, b, r, f, l);
    let answer = s.answer;
    answer?;
    let g = Target {
        version: s.version,
        sm: s.sm,
    };
    let x = Tables::new(t, v, o, a, b, r, f, l, s.counts);
    full_check::check(g, &x, sheet, numbers, lengths)
}
