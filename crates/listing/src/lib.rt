// The listing of a file's run, as text.
#![tactic(auto)]

ghost use Rattle.std.specs.Prelude.{◌≡◌, cond, [], ◌++◌, ◌*◌, ◌≤◌, ◌<◌, length, eqb};
ghost use Rattle.machine.specs.Sizes.{most_calls};
ghost use Rattle.history.specs.Terms.{record_length};
ghost use Rattle.bench.specs.Run.{records_laid};
ghost use Rattle.cells.specs.Text.{text, decimal, line_end, numbered};
ghost use Rattle.cells.specs.Cells.{word_text};
ghost use Rattle.cells.specs.Laid.{Laid};
ghost use Rattle.cells.specs.Promise.{as_printed, Gives};
ghost use Rattle.listing.specs.Listing.{kind_word, method_word, count_words, head_line, record_line};
ghost use Rattle.listing.specs.Promise.{enough_bytes, Lists};

use bench_file::Head;
use cells::{Text, Word};
use machine::Method;
use object::Kind;
use refusal::Refusal;
use state::Counts;

// So many bytes hold every listing: a head line of at most 129, and a line of at most 114 for each call.
pub const ENOUGH: usize = 129 + machine::CALLS * 114;

// These two are no `From`, which would stand with `Word` in `cells`: their definitions are the listing's own.
fn kind_word(kind: Kind) -> Word
    ensures { result ≡ kind_word kind }
{
    match kind {
        Kind::Queue => Word::Queue,
        Kind::Stack => Word::Stack,
        Kind::Counter => Word::Counter,
    }
}

fn method_word(method: Method) -> Word
    ensures { result ≡ method_word method }
{
    match method {
        Method::CcSynch => Word::Cc,
        Method::DsmSynch => Word::Dsm,
    }
}

// A number behind a name.
fn named(listing: &mut Text<ENOUGH>, name: &[u8], number: u32)
    ensures { Laid enough_bytes listing.old (name.now ++ decimal number) listing.new }
{
    listing.text(name);
    listing.number(number);
}

// The head line from the counts on.
fn counts_end(listing: &mut Text<ENOUGH>, counts: Counts)
    ensures { Laid enough_bytes listing.old (line_end (count_words counts)) listing.new }
{
    named(listing, b" calls=", counts.records);
    named(listing, b" turns=", counts.turns);
    named(listing, b" blank=", counts.blanks);
    named(listing, b" spin=", counts.spins);
    named(listing, b" remote=", counts.remote);
    listing.text(b"\n");
}

// The method's word behind a space; version 1 shows none.
fn method_behind(listing: &mut Text<ENOUGH>, version: u16, method: Method)
    ensures { Laid enough_bytes listing.old (cond (eqb version 1) [] (text " " ++ word_text (method_word method))) listing.new }
{
    if version == 1 {
        return;
    }
    listing.text(b" ");
    listing.word(method_word(method));
}

fn head_line(listing: &mut Text<ENOUGH>, head: Head, counts: Counts)
    ensures { Laid enough_bytes listing.old (head_line head counts) listing.new }
{
    named(listing, b"CCS ", head.version as u32);
    method_behind(listing, head.version, head.method);
    listing.text(b" ");
    listing.word(kind_word(head.object));
    named(listing, b" n=", head.n as u32);
    named(listing, b" h=", head.h as u32);
    counts_end(listing, counts);
}

// The lines of so many records: rows of 11 cells, in columns without a width of their own. The loop is the pages' without head rows: one function for both would
// take these as a parameter that is nothing here. It goes by the index, since the library has no law of what `chunks_exact` gives a `for`.
fn record_lines(listing: &mut Text<ENOUGH>, records: &[u8], count: usize)
    requires { (record_length * count ≤ length records.now) × (count ≤ most_calls) }
    ensures { Laid enough_bytes listing.old (numbered record_line 0 (records_laid count records.now)) listing.new }
{
    for i in 0..count {
        let from = kept::RECORD_LENGTH * i;
        listing.record(
            &[0; 11],
            i as u32,
            &records[from..from + kept::RECORD_LENGTH],
        );
    }
}

// Lists a run of so many records.
fn list_run(
    head: Head,
    counts: Counts,
    records: &[u8],
    count: usize,
    out: &mut [u8],
) -> Result<usize, Refusal>
    requires { (record_length * count ≤ length records.now) × (count ≤ most_calls) × (head.version < 10) }
    ensures { Gives (head_line head counts ++ numbered record_line 0 (records_laid count records.now)) out.old out.new (as_printed result) }
{
    let mut listing: Text<ENOUGH> = Text::new();
    head_line(&mut listing, head, counts);
    record_lines(&mut listing, records, count);
    cells::give(listing.bytes(), out)
}

// Lists any bytes as a bench file: its refusal, or its run with a line for each record; a run that meets null has the line of 14.
pub fn list(file: &[u8], out: &mut [u8]) -> Result<usize, Refusal>
    ensures { Lists file.now out.old out.new (as_printed result) }
{
    match bench_file::judge(file) {
        Ok(judged) => {
            let mut records = [0u8; bench::ENOUGH_FOR_RECORDS];
            match bench::run(file, &mut records) {
                Ok(counts) => list_run(judged.head, counts, &records, counts.records as usize, out),
                Err(of_run) => cells::give_refusal(of_run.number(), out),
            }
        }
        Err(refusal) => cells::give_refusal(refusal.number(), out),
    }
}
