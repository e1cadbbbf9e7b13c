// The published jis0208 index, read in pieces: the presence table that it makes, or the first line at fault, and the text that
// the program presence_table prints of either. Public: index_reader, read_index, index_words, write_words and write_message, which
// ask nothing of their caller.
#![tactic(auto)]

ghost use Rattle.std.specs.Prelude.{◌≡◌, ◌+◌, ◌≤◌, cond, length};
ghost use Rattle.vmd_bytes.specs.Slices.{splice};
ghost use Rattle.vmd_bytes.specs.Written.{Wrote};
ghost use Rattle.vmd_text.specs.Text.{number_lines};
ghost use Rattle.vmd_index.specs.Index.{blank, digit, hexadecimal, judged, capped};
ghost use Rattle.vmd_index.specs.Steps.{with_digit, after_blanks, after_digits, after_code_point, next_phase, phase_end, marked, first_reader, reader_at, after_line, step, fed, ended};
ghost use Rattle.vmd_index.specs.Output.{reason, message};

// Why there is no table for a line.
#[derive(Clone, Copy, Debug, PartialEq, Eq)]
pub enum Cause {
    NoEntry,
    TooLarge,
    NotAbove,
}

// What the bytes of a line are so far. The number is the pointer, or 11,280 for any that is no less: the definition `with_digit`
// has it so.
#[derive(Clone, Copy, Debug, PartialEq, Eq)]
pub enum Phase {
    // Blanks only; these and a carriage return.
    Blank,
    BlankReturn,
    Comment,
    // Digits; a tab after them; then 0; then 0x.
    Pointer(u32),
    Tab(u32),
    Zero(u32),
    Prefix(u32),
    // Then hexadecimal digits; a carriage return after them; or another tab, and anything.
    CodePoint(u32),
    Return(u32),
    Past(u32),
    NoEntry,
    // This line, or one before it, is at fault: nothing changes any more.
    Faulty(Cause),
}

// The table of the lines before, the number of the line, the smallest pointer that may come next, and the line so far.
#[derive(Clone, Copy, Debug, PartialEq, Eq)]
pub struct IndexReader {
    pub words: [u32; vmd_presence::WORDS],
    pub line: u64,
    pub least: u32,
    pub phase: Phase,
}

// The first line at fault: its number, and why.
#[derive(Clone, Copy, Debug, PartialEq, Eq)]
pub struct Fault {
    pub line: u64,
    pub cause: Cause,
}

// What the whole index makes: the table, where no line is at fault. The words stand beside the outcome, since `ended`, which
// index_words promises, says what they are in either case.
#[derive(Clone, Copy, Debug, PartialEq, Eq)]
pub struct IndexRead {
    pub words: [u32; vmd_presence::WORDS],
    pub outcome: Result<(), Fault>,
}

const POINTERS: u32 = 11280;

// Room for the text of any table, and of any message.
const TABLE_SIZE: usize = 4096;

const MESSAGE_SIZE: usize = 128;

// ---- bytes

#[tactic(auto, unfolding(crate::specs::Index::blank))]
fn is_blank(b: u8) -> bool
    ensures { result ≡ blank b }
{
    b == b' ' || b == b'\t'
}

#[tactic(auto, unfolding(crate::specs::Index::digit))]
fn is_digit(b: u8) -> bool
    ensures { result ≡ digit b }
{
    vmd_bytes::between(b'0', b'9', b)
}

#[tactic(auto, unfolding(crate::specs::Index::hexadecimal))]
fn is_hexadecimal(b: u8) -> bool
    ensures { result ≡ hexadecimal b }
{
    is_digit(b) || vmd_bytes::between(b'A', b'F', b) || vmd_bytes::between(b'a', b'f', b)
}

// ---- one byte of a line

// The pointer with a digit more.
#[tactic(auto, unfolding(crate::specs::Steps::with_digit))]
fn with_digit(p: u32, b: u8) -> u32
    requires { (48 ≤ b) × (b ≤ 57) }
    ensures { result ≡ with_digit p b }
{
    if p < POINTERS / 10 {
        10 * p + u32::from(b - b'0')
    } else {
        POINTERS
    }
}

// The phase, where the byte is what it has to be.
fn only(holds: bool, then: Phase) -> Phase
    ensures { result ≡ cond holds then Phase.NoEntry }
{
    if holds { then } else { Phase::NoEntry }
}

#[tactic(auto, using(crate::proofs::Laws::digit_range), unfolding(crate::specs::Steps::after_blanks))]
fn after_blanks(b: u8) -> Phase
    ensures { result ≡ after_blanks b }
{
    if is_blank(b) {
        return Phase::Blank;
    }
    if is_digit(b) {
        return Phase::Pointer(with_digit(0, b));
    }
    if b == b'#' {
        return Phase::Comment;
    }
    only(b == b'\r', Phase::BlankReturn)
}

#[tactic(auto, using(crate::proofs::Laws::digit_range), unfolding(crate::specs::Steps::after_digits))]
fn after_digits(p: u32, b: u8) -> Phase
    ensures { result ≡ after_digits p b }
{
    if is_digit(b) {
        return Phase::Pointer(with_digit(p, b));
    }
    only(b == b'\t', Phase::Tab(p))
}

#[tactic(auto, unfolding(crate::specs::Steps::after_code_point))]
fn after_code_point(p: u32, b: u8) -> Phase
    ensures { result ≡ after_code_point p b }
{
    if is_hexadecimal(b) {
        return Phase::CodePoint(p);
    }
    if b == b'\t' {
        return Phase::Past(p);
    }
    only(b == b'\r', Phase::Return(p))
}

fn next_phase(phase: Phase, b: u8) -> Phase
    ensures { result ≡ next_phase phase b }
{
    match phase {
        Phase::Blank => after_blanks(b),
        Phase::BlankReturn => Phase::NoEntry,
        Phase::Comment => Phase::Comment,
        Phase::Pointer(p) => after_digits(p, b),
        Phase::Tab(p) => only(b == b'0', Phase::Zero(p)),
        Phase::Zero(p) => only(b == b'x', Phase::Prefix(p)),
        Phase::Prefix(p) => only(is_hexadecimal(b), Phase::CodePoint(p)),
        Phase::CodePoint(p) => after_code_point(p, b),
        Phase::Return(_) => Phase::NoEntry,
        Phase::Past(p) => Phase::Past(p),
        Phase::NoEntry => Phase::NoEntry,
        Phase::Faulty(cause) => Phase::Faulty(cause),
    }
}

// ---- the end of a line

// The pointer of an entry, where it may stand there.
#[tactic(auto, unfolding(crate::specs::Index::judged))]
fn judged(least: u32, p: u32) -> Result<Option<u32>, Cause>
    ensures { result ≡ judged least p }
{
    if POINTERS <= p {
        return Err(Cause::TooLarge);
    }
    if p < least {
        return Err(Cause::NotAbove);
    }
    Ok(Some(p))
}

// The pointer of the line's entry, where it has one, or why the line is at fault.
fn phase_end(least: u32, phase: Phase) -> Result<Option<u32>, Cause>
    ensures { result ≡ phase_end least phase }
{
    match phase {
        Phase::Blank | Phase::BlankReturn | Phase::Comment => Ok(None),
        Phase::Pointer(_) | Phase::Tab(_) | Phase::Zero(_) | Phase::Prefix(_) => {
            Err(Cause::NoEntry)
        }
        Phase::CodePoint(p) | Phase::Return(p) | Phase::Past(p) => judged(least, p),
        Phase::NoEntry => Err(Cause::NoEntry),
        Phase::Faulty(cause) => Err(cause),
    }
}

// Sets a pointer's bit, where there is such a pointer.
#[tactic(auto, unfolding(crate::specs::Steps::marked))]
fn mark(words: &mut [u32; vmd_presence::WORDS], p: u32)
    ensures { words.new ≡ marked words.old p }
{
    if p < POINTERS {
        let i = (p / 32) as usize;
        words[i] = words[i].wrapping_add(1 << (p % 32));
    }
}

// ---- the reader

// The line that is being read, apart from the table: what each byte changes is held where no table stands, and so in registers.
#[derive(Clone, Copy, Debug, PartialEq, Eq)]
struct IndexLine {
    line: u64,
    least: u32,
    phase: Phase,
}

impl IndexLine {
    // The next line begins. Line numbers stop at the largest.
    #[tactic(auto, unfolding(crate::specs::Index::capped))]
    fn begin_line(&mut self)
        ensures { self.new ≡ record { line = capped (self.old.line + 1); least = self.old.least; phase = Phase.Blank } }
    {
        self.line = self.line.saturating_add(1);
        self.phase = Phase::Blank;
    }

    // The line ends: its pointer is set. A line at fault keeps its number, and stays at fault.
    #[tactic(auto, unfolding(crate::specs::Steps::after_line, crate::specs::Steps::marked))]
    fn end_line(&mut self, words: &mut [u32; vmd_presence::WORDS])
        ensures { reader_at words.new self.new ≡ after_line (phase_end self.old.least self.old.phase) (reader_at words.old self.old) }
    {
        match phase_end(self.least, self.phase) {
            Ok(None) => self.begin_line(),
            Ok(Some(p)) => {
                mark(words, p);
                self.least = p.min(POINTERS - 1) + 1;
                self.begin_line();
            }
            Err(cause) => self.phase = Phase::Faulty(cause),
        }
    }

    // Reads a byte.
    #[tactic(auto, unfolding(crate::specs::Steps::step, crate::specs::Steps::in_line))]
    fn step(&mut self, b: u8, words: &mut [u32; vmd_presence::WORDS])
        ensures { reader_at words.new self.new ≡ step (reader_at words.old self.old) b }
    {
        if b == b'\n' {
            self.end_line(words);
        } else {
            self.phase = next_phase(self.phase, b);
        }
    }
}

// A reader that has read nothing.
#[tactic(auto, unfolding(crate::specs::Steps::first_reader))]
pub fn index_reader() -> IndexReader
    ensures { result ≡ first_reader }
{
    IndexReader {
        words: [0; vmd_presence::WORDS],
        line: 1,
        least: 0,
        phase: Phase::Blank,
    }
}

// Reads a piece more of the index.
pub fn read_index(reader: IndexReader, piece: &[u8]) -> IndexReader
    ensures { result ≡ fed reader piece.now }
{
    let mut words = reader.words;
    let mut at = IndexLine {
        line: reader.line,
        least: reader.least,
        phase: reader.phase,
    };
    for &b in piece {
        at.step(b, &mut words);
    }
    IndexReader {
        words,
        line: at.line,
        least: at.least,
        phase: at.phase,
    }
}

// What the index makes, once all of it is read: the end of the input ends the last line.
#[tactic(auto, unfolding(crate::specs::Steps::ended, crate::specs::Steps::marked))]
pub fn index_words(reader: IndexReader) -> IndexRead
    ensures { result ≡ ended reader }
{
    let mut words = reader.words;
    match phase_end(reader.least, reader.phase) {
        Ok(None) => IndexRead {
            words,
            outcome: Ok(()),
        },
        Ok(Some(p)) => {
            mark(&mut words, p);
            IndexRead {
                words,
                outcome: Ok(()),
            }
        }
        Err(cause) => IndexRead {
            words,
            outcome: Err(Fault {
                line: reader.line,
                cause,
            }),
        },
    }
}

// ---- what is printed

// The table's text: a word has ten digits at most, and a line feed.
pub fn write_words(words: &[u32; vmd_presence::WORDS], out: &mut [u8; TABLE_SIZE]) -> usize
    ensures out_after { out.new ≡ splice out.old 0 (number_lines words.now) }
    ensures value { result ≡ length (number_lines words.now) }
{
    vmd_text::write_lines(out, words)
}

impl Cause {
    // What is printed of it, to the end of the line.
    #[tactic(auto, unfolding(crate::specs::Output::reason, vmd_text::specs::Text::text))]
    fn reason(self) -> &'static [u8]
        ensures { result.now ≡ reason self }
    {
        match self {
            Cause::NoEntry => b": this is no entry of the index\n",
            Cause::TooLarge => b": the pointer is 11280 or more\n",
            Cause::NotAbove => b": the pointer is not above the one before\n",
        }
    }
}

fn write_fault(out: &mut [u8], line: u64, cause: Cause) -> usize
    requires { length out.old ≡ 128 }
    ensures { Wrote out.old 0 (message line cause) out.new result }
{
    let at = vmd_text::write_text(out, 0, b"presence-table: line ");
    let end = vmd_text::write_decimal(out, at, line);
    vmd_text::write_text(out, end, cause.reason())
}

// The message for a line at fault.
pub fn write_message(line: u64, cause: Cause, out: &mut [u8; MESSAGE_SIZE]) -> usize
    ensures out_after { out.new ≡ splice out.old 0 (message line cause) }
    ensures value { result ≡ length (message line cause) }
{
    write_fault(out, line, cause)
}
