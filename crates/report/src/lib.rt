// A bench file read by read, in constant memory, and what is printed of it.
#![tactic(auto)]

ghost use Rattle.std.specs.Prelude.{◌≡◌, cond, ◌≤◌, leb, ltb, length, take, Some, None};
ghost use mathlib.Core.List.{flat_map};
ghost use Rattle.benchfile.specs.Sheet.{sheet_text};
ghost use Rattle.benchfile.specs.Toc.{longest_toc};
ghost use Rattle.buffer.specs.Buffer.{copied};
ghost use Rattle.report.specs.Printed.{longest_file};
ghost use Rattle.report.specs.Sheets.{longest_text};
ghost use Rattle.report.specs.Step.{add_piece, final_sheet, fresh_report, left_at, open_entry, keep_sheet, close_finished, open_first, take_toc, take_piece, take_bytes, is_done, is_refused, printed};

use benchfile::LONGEST_TOC;
use benchfile::sheet::Sheet;
use buffer::Text;
use reader::Reader;
use tally::Tally;

// The most bytes that are printed of a file.
pub const LONGEST_TEXT: usize = benchfile::MOST_ENTRIES * benchfile::sheet::LONGEST_SHEET;

// The longest whole file.
const LONGEST_FILE: u64 = LONGEST_TOC as u64 + benchfile::MOST_ENTRIES as u64 * Reader::MOST_BYTES;

// Whether a file of so many bytes is longer than every whole file. Its report is refused by then (`long-refused`).
pub fn is_too_long(length: u64) -> bool
    ensures { result ≡ ltb longest_file length }
{
    LONGEST_FILE < length
}

#[derive(Clone, Copy, Debug, PartialEq, Eq)]
pub struct Report {
    // The length that the table of contents gives to the file, once the table is whole.
    pub length: Option<u64>,
    // Whether more bytes came.
    // Kept: no enum of states: take_next, close_finished, is_done, is_refused (Step.antt) read 2 or 3 of length, excess, entry, left.
    pub excess: bool,
    // The table of contents, and how many bytes of it came.
    // Kept: an array with its count beside it: `take_bytes` speaks of every count, and a Report is Copy.
    pub count: usize,
    pub toc: [u8; LONGEST_TOC],
    // The entry that is open, from 0, how many bytes of its capture are to come, and its tally.
    pub entry: u8,
    pub left: u32,
    pub tally: Tally,
    // The sheets of the entries before it.
    // Kept: an array beside its count, since `entry` also says which entry is open, and `printed` (Step.antt) reads both.
    pub sheets: [Sheet; benchfile::MOST_ENTRIES],
}

// Reads a piece of a capture. What the output holds then does not matter.
fn add_piece(tally: &mut Tally, bytes: &[u8], out: &mut [u8; Tally::MAX_OUTPUT])
    ensures { tally.new ≡ add_piece tally.old bytes.now }
{
    tally.piece(bytes, out);
}

// The sheet of a capture that ends here.
fn final_sheet(mut tally: Tally, out: &mut [u8; Tally::MAX_OUTPUT]) -> Sheet
    ensures { result ≡ final_sheet tally }
{
    tally.close(out);
    tally.sheet()
}

// How many bytes the capture of entry i has; past the last entry none.
fn left_at(s: &[u8], i: u8) -> u32
    ensures { result ≡ left_at s.now i }
{
    if i < numbers::byte_at(s, 0, 0) {
        return benchfile::entry_at(s, i).length;
    }
    0
}

impl Report {
    // Nothing has come yet.
    pub fn fresh() -> Report
        ensures { result ≡ fresh_report }
    {
        let nothing = Sheet {
            format: 0,
            frames: 0,
            framed: 0,
            skipped: 0,
            pending: 0,
        };
        Report {
            length: None,
            excess: false,
            count: 0,
            toc: [0; LONGEST_TOC],
            entry: 0,
            left: 0,
            tally: Tally::fresh(0),
            sheets: [nothing; benchfile::MOST_ENTRIES],
        }
    }

    // Opens entry i.
    fn open_entry(&mut self, i: u8)
        ensures { self.new ≡ open_entry self.old i }
    {
        let entry = benchfile::entry_at(&self.toc, i);
        self.entry = i;
        self.left = left_at(&self.toc, i);
        self.tally = Tally::fresh(u32::from(entry.format));
    }

    // Ends the capture of the open entry, and keeps its sheet.
    fn keep_sheet(&mut self, out: &mut [u8; Tally::MAX_OUTPUT])
        ensures { self.new ≡ keep_sheet self.old }
    {
        let i = usize::from(self.entry);
        if i < benchfile::MOST_ENTRIES {
            self.sheets[i] = final_sheet(self.tally, out);
        }
    }

    // Closes the entries of which nothing is to come.
    fn close_finished(&mut self, out: &mut [u8; Tally::MAX_OUTPUT])
        ensures { self.new ≡ close_finished self.old }
    {
        let n = numbers::byte_at(&self.toc, 0, 0);
        for i in self.entry..n {
            if self.left != 0 {
                return;
            }
            self.keep_sheet(out);
            self.open_entry(i + 1);
        }
    }

    // Opens the first entry, where the table of contents is whole.
    fn open_first(&mut self, out: &mut [u8; Tally::MAX_OUTPUT])
        requires { self.old.count ≤ longest_toc }
        ensures { self.new ≡ open_first self.old }
    {
        if let Ok(length) = benchfile::read_length(&self.toc[..self.count]) {
            self.length = Some(length);
            self.open_entry(0);
            self.close_finished(out);
        }
    }

    // Takes one byte of the table of contents.
    fn take_toc(&mut self, b: u8, out: &mut [u8; Tally::MAX_OUTPUT])
        ensures { self.new ≡ take_toc self.old b }
    {
        if self.count < LONGEST_TOC {
            self.toc[self.count] = b;
            self.count += 1;
            self.open_first(out);
        }
    }

    // Takes a piece of the open entry's capture.
    fn take_piece(&mut self, bytes: &[u8], out: &mut [u8; Tally::MAX_OUTPUT])
        requires { length bytes.now ≤ self.old.left }
        ensures { self.new ≡ take_piece self.old bytes.now }
    {
        let left = self.left;
        self.left = left - bytes.len() as u32;
        add_piece(&mut self.tally, bytes, out);
    }

    // Takes the bytes of a read, however many.
    pub fn take(&mut self, bytes: &[u8])
        ensures { self.new ≡ take_bytes self.old bytes.now }
    {
        let mut out = [0u8; Tally::MAX_OUTPUT];
        let mut rest = bytes;
        // Kept: a `while`: how long a piece is shows when the one before is taken, so no `chunks` and no count gives the turns.
        while let Some((first, later)) = rest.split_first() {
            if self.length.is_none() {
                self.take_toc(*first, &mut out);
                rest = later;
            } else {
                if self.left == 0 {
                    self.excess = true;
                    return;
                }
                let n = rest
                    .len()
                    .min(self.left as usize)
                    .min(Reader::LONGEST_PIECE);
                let (piece, behind) = rest.split_at(n);
                self.take_piece(piece, &mut out);
                self.close_finished(&mut out);
                rest = behind;
            }
        }
    }

    // Whether the file ended where its table of contents says.
    fn is_done(&self) -> bool
        ensures { result ≡ is_done self.now }
    {
        self.length.is_some() && !self.excess && self.entry == numbers::byte_at(&self.toc, 0, 0)
    }

    // Whether the file is broken, whatever comes.
    pub fn is_refused(&self) -> bool
        ensures { result ≡ is_refused self.now }
    {
        if self.length.is_none() {
            return LONGEST_TOC <= self.count;
        }
        self.excess
    }

    // The texts of the sheets that are kept, one after the other.
    fn sheets_text(&self) -> Text<LONGEST_TEXT>
        ensures text { result ≡ flat_map sheet_text (take self.now.entry self.now.sheets) }
        ensures short { length result ≤ longest_text }
    {
        let mut text = Text::new();
        let n = usize::from(self.entry).min(benchfile::MOST_ENTRIES);
        for sheet in &self.sheets[..n] {
            benchfile::sheet::push_sheet(*sheet, &mut text);
        }
        text
    }

    // What is printed of a file that ends here.
    pub fn text(&self) -> Text<LONGEST_TEXT>
        ensures text { result ≡ printed self.now }
        ensures short { length (printed self.now) ≤ longest_text }
    {
        if self.is_done() {
            return self.sheets_text();
        }
        let mut text = Text::new();
        text.push(b"refused 10\n");
        text
    }

    // Writes what is printed of a file that ends here, and answers its length; where it doesn't fit, nothing is written.
    // Kept: a public function that docs/PROMISES.md names, for a caller with a buffer of its own; the program prints `text`.
    pub fn write(&self, out: &mut [u8]) -> Option<usize>
        ensures length { result ≡ cond (leb (length (printed self.now)) (length out.old)) (Some (length (printed self.now))) None }
        ensures after { out.new ≡ copied (printed self.now) out.old 0 }
        ensures short { length (printed self.now) ≤ longest_text }
    {
        self.text().write(out)
    }
}
