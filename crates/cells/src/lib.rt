// The text of a result: the cells of a record, each decided here once and set in a line or in columns, and text given in a lent buffer.
#![tactic(auto)]

ghost use Rattle.std.specs.Prelude.{◌≡◌, ◌+◌, ◌≤◌, ◌<◌, length, eqb, []};
ghost use Rattle.history.specs.Terms.{record_length, number_at};
ghost use Rattle.cells.specs.Text.{digit, decimal, spaces};
ghost use Rattle.cells.specs.Laid.{Laid};
ghost use Rattle.cells.specs.Cells.{word_text, cell_text, ret_of, answer_word, mark_word, value_cell, or_hyphen, state_word, byte_at, record_cells};
ghost use Rattle.cells.specs.Rows.{gap, in_column, row_text};
ghost use Rattle.cells.specs.Promise.{as_printed, Gives, refusal_line};

use object::Answer;
use refusal::Refusal;
use std::marker::Model;

// The words of a result.
#[derive(Clone, Copy)]
pub enum Word {
    Queue,
    Stack,
    Counter,
    Done,
    Value,
    Empty,
    Full,
    NoAnswer,
    Hyphen,
    Returned,
    Open,
    Cc,
    Dsm,
}

impl Word {
    // How it is written.
    fn text(self) -> &'static [u8]
        ensures { result.now ≡ word_text self }
    {
        match self {
            Word::Queue => b"queue",
            Word::Stack => b"stack",
            Word::Counter => b"counter",
            Word::Done => b"done",
            Word::Value => b"value",
            Word::Empty => b"empty",
            Word::Full => b"full",
            Word::NoAnswer => b"none",
            Word::Hyphen => b"-",
            Word::Returned => b"returned",
            Word::Open => b"open",
            Word::Cc => b"cc",
            Word::Dsm => b"dsm",
        }
    }
}

// What stands in one place of a line or of a row.
#[derive(Clone, Copy)]
pub enum Cell {
    Number(u32),
    Says(Word),
}

// The response that a record's mark and value stand for: numbers, since a record is bytes.
fn ret_of(mark: u8, value: u32) -> Option<Answer>
    ensures { result ≡ ret_of mark value }
{
    match mark {
        0 => Some(Answer::Done(value)),
        1 => Some(Answer::Value(value)),
        2 => Some(Answer::Empty),
        3 => Some(Answer::Full),
        _ => None,
    }
}

fn answer_word(answer: Answer) -> Word
    ensures { result ≡ answer_word answer }
{
    match answer {
        Answer::Done(_) => Word::Done,
        Answer::Value(_) => Word::Value,
        Answer::Empty => Word::Empty,
        Answer::Full => Word::Full,
    }
}

fn mark_word(ret: Option<Answer>) -> Word
    ensures { result ≡ mark_word ret }
{
    match ret {
        None => Word::NoAnswer,
        Some(answer) => answer_word(answer),
    }
}

// The count of a done put or the value of a response, a hyphen where it is neither: by `let .. else`, as document 01 names the form.
fn value_cell(ret: Option<Answer>) -> Cell
    ensures { result ≡ value_cell ret }
{
    let Some(answer) = ret else {
        return Cell::Says(Word::Hyphen);
    };
    if let Answer::Done(count) = answer {
        return Cell::Number(count);
    }
    let Answer::Value(v) = answer else {
        return Cell::Says(Word::Hyphen);
    };
    Cell::Number(v)
}

// A number, a hyphen where it is that of none.
fn or_hyphen(none: u32, number: u32) -> Cell
    ensures { result ≡ or_hyphen none number }
{
    if number == none {
        Cell::Says(Word::Hyphen)
    } else {
        Cell::Number(number)
    }
}

fn state_word(over: u8) -> Word
    ensures { result ≡ state_word (eqb over 1) }
{
    if over == 1 {
        Word::Returned
    } else {
        Word::Open
    }
}

// A byte of a record, 0 past its end, and the numbers of two and of four bytes, the lowest first.
fn byte(bytes: &[u8], i: usize) -> u8
    ensures { result ≡ byte_at bytes.now i }
{
    bytes.get(i).copied().unwrap_or(0)
}

fn number2(bytes: &[u8], i: usize) -> u32
    requires { i + 2 ≤ record_length }
    ensures { result ≡ number_at bytes.now i 2 }
{
    u16::from_le_bytes([byte(bytes, i), byte(bytes, i + 1)]) as u32
}

fn number4(bytes: &[u8], i: usize) -> u32
    requires { i + 4 ≤ record_length }
    ensures { result ≡ number_at bytes.now i 4 }
{
    u32::from_le_bytes([
        byte(bytes, i),
        byte(bytes, i + 1),
        byte(bytes, i + 2),
        byte(bytes, i + 3),
    ])
}

// The cells of a record, from its order and its bytes.
fn record_cells(order: u32, bytes: &[u8]) -> [Cell; 11]
    ensures { result ≡ record_cells order bytes.now }
{
    let ret = ret_of(byte(bytes, 2), number4(bytes, 4));
    let mark = mark_word(ret);
    let value = value_cell(ret);
    let server = or_hyphen(kept::NO_THREAD as u32, byte(bytes, 3) as u32);
    let turn = or_hyphen(kept::NO_TURN as u32, number2(bytes, 13));
    let state = state_word(byte(bytes, 12));
    let returned = or_hyphen(kept::NO_ENTRY, number4(bytes, 20));
    [
        Cell::Number(order),
        Cell::Number(byte(bytes, 0) as u32),
        Cell::Number(byte(bytes, 1) as u32),
        Cell::Says(mark),
        value,
        server,
        turn,
        Cell::Number(number4(bytes, 8)),
        Cell::Says(state),
        Cell::Number(number4(bytes, 16)),
        returned,
    ]
}

// A text of at most N bytes. What is laid goes behind what stands there. By methods of its own and not by `write!`: every byte is promised, and a text too long is
// cut without an error.
#[derive(Drop)]
pub struct Text<const N: usize> {
    bytes: [u8; N],
    length: usize,
}

// Clauses see its bytes.
impl<const N: usize> Model for Text<N> {
    ghost use Rattle.std.specs.Prelude.{ℕ, ◌≤◌, List, take};

    ghost Value = { List ℕ };

    ghost view = { λ text. take text.length text.bytes };

    ghost invariant = { λ text. text.length ≤ N };
}

impl<const N: usize> Text<N> {
    // An empty text.
    pub fn new() -> Self
        ensures { result ≡ [] }
    {
        Text {
            bytes: [0; N],
            length: 0,
        }
    }

    pub fn bytes(&self) -> &[u8]
        ensures { result.now ≡ self.now }
    {
        &self.bytes[..self.length]
    }

    // Each function that lays something lays as much of it as there is room for.
    pub fn text(&mut self, words: &[u8])
        ensures { Laid N self.old words.now self.new }
    {
        let fits = words.len().min(N - self.length);
        let end = self.length + fits;
        let bytes = &mut self.bytes[..];
        bytes[self.length..end].copy_from_slice(&words[..fits]);
        self.length = end;
    }

    fn digit(&mut self, d: u32)
        requires { d < 10 }
        ensures { Laid N self.old (digit d) self.new }
    {
        self.text(&[b'0' + d as u8]);
    }

    // A number, its highest digit first.
    pub fn number(&mut self, number: u32)
        ensures { Laid N self.old (decimal number) self.new }
    {
        if number < 10 {
            self.digit(number);
            return;
        }
        self.number(number / 10);
        self.digit(number % 10);
    }

    pub fn word(&mut self, word: Word)
        ensures { Laid N self.old (word_text word) self.new }
    {
        self.text(word.text());
    }

    // A cell without its column.
    pub fn cell(&mut self, cell: Cell)
        ensures { Laid N self.old (cell_text cell) self.new }
    {
        match cell {
            Cell::Number(number) => self.number(number),
            Cell::Says(word) => self.word(word),
        }
    }

    fn spaces(&mut self, count: usize)
        requires { count ≤ 255 }
        ensures { Laid N self.old (spaces count) self.new }
    {
        let blank = [b' '; 255];
        self.text(&blank[..count]);
    }

    // A cell in its column: a number right, a word left.
    fn column(&mut self, width: u8, cell: Cell)
        ensures { Laid N self.old (in_column width cell) self.new }
    {
        let mut words: Text<10> = Text::new();
        words.cell(cell);
        let lack = (width as usize).saturating_sub(words.bytes().len());
        let (before, behind) = match cell {
            Cell::Number(_) => (lack, 0),
            Cell::Says(_) => (0, lack),
        };
        self.spaces(before);
        self.text(words.bytes());
        self.spaces(behind);
    }

    // One space in front of every column but the first.
    fn gap(&mut self, i: usize)
        ensures { Laid N self.old (gap i) self.new }
    {
        self.text(if i == 0 { b"" } else { b" " });
    }

    // A row of cells, as many as there are widths.
    fn row(&mut self, widths: &[u8], cells: &[Cell])
        ensures { Laid N self.old (row_text widths.now cells.now) self.new }
    {
        for (i, (width, cell)) in widths.iter().zip(cells).enumerate() {
            self.gap(i);
            self.column(*width, *cell);
        }
        self.text(b"\n");
    }

    // The row of a record, from its order and its bytes, in columns of such widths; width 0 takes no more than the cell.
    pub fn record(&mut self, widths: &[u8], order: u32, bytes: &[u8])
        ensures { Laid N self.old (row_text widths.now (record_cells order bytes.now)) self.new }
    {
        self.row(widths, &record_cells(order, bytes));
    }
}

// Gives a text in a lent buffer, and its length, or refuses with 13.
pub fn give(text: &[u8], out: &mut [u8]) -> Result<usize, Refusal>
    ensures { Gives text.now out.old out.new (as_printed result) }
{
    if out.len() < text.len() {
        return Err(Refusal::Buffer);
    }
    out[..text.len()].copy_from_slice(text);
    Ok(text.len())
}

// Gives the line `refused N` in a lent buffer, or refuses with 13. It has 8 bytes, at most ten digits and a newline. The number may be any.
pub fn give_refusal(number: u8, out: &mut [u8]) -> Result<usize, Refusal>
    ensures { Gives (refusal_line number) out.old out.new (as_printed result) }
{
    let mut line: Text<19> = Text::new();
    line.text(b"refused ");
    line.number(number as u32);
    line.text(b"\n");
    give(line.bytes(), out)
}
