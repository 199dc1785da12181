// The text of a sheet: five lines, each a label and a number.
ghost use Rattle.std.specs.Prelude.{◌≡◌, ◌≤◌, ◌++◌, cond, leb, length, take, Some, None};
ghost use Rattle.buffer.specs.Buffer.{copied};
ghost use Rattle.benchfile.specs.Sheet.{sheet_line, sheet_text, longest_sheet};

use buffer::Text;

// The five numbers of a sheet.
#[derive(Clone, Copy, Debug, PartialEq, Eq)]
pub struct Sheet {
    // Kept: a number: it is printed as a reader has it.
    pub format: u32,
    pub frames: u32,
    pub framed: u32,
    pub skipped: u32,
    pub pending: u32,
}

// The longest sheet: labels of 32 letters, five spaces and line ends, and five numbers of ten digits.
pub const LONGEST_SHEET: usize = 92;

// Pushes a line.
fn push_line<const N: usize>(label: &[u8], n: u32, text: &mut Text<N>)
    ensures { text.new ≡ take N (text.old ++ sheet_line label.now n) }
{
    text.push(label);
    text.push(b" ");
    decimal::push(u64::from(n), text);
    text.push(b"\n");
}

// Pushes the five lines of a sheet.
pub fn push_sheet<const N: usize>(sheet: Sheet, text: &mut Text<N>)
    ensures pushed { text.new ≡ take N (text.old ++ sheet_text sheet) }
    ensures short { length (sheet_text sheet) ≤ longest_sheet }
{
    push_line(b"format", sheet.format, text);
    push_line(b"frames", sheet.frames, text);
    push_line(b"framed", sheet.framed, text);
    push_line(b"skipped", sheet.skipped, text);
    push_line(b"pending", sheet.pending, text);
}

// Writes a sheet to the start of a buffer, and answers its length; where it doesn't fit, nothing is written.
pub fn write_sheet(sheet: Sheet, out: &mut [u8]) -> Option<usize>
    ensures length { result ≡ cond (leb (length (sheet_text sheet)) (length out.old)) (Some (length (sheet_text sheet))) None }
    ensures after { out.new ≡ copied (sheet_text sheet) out.old 0 }
{
    let mut text = Text::<LONGEST_SHEET>::new();
    push_sheet(sheet, &mut text);
    text.write(out)
}
