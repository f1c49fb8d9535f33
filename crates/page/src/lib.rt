// The pages of a file's run: a table in a fixed pitch.
#![tactic(auto)]

ghost use Rattle.std.specs.Prelude.{cond, [], ◌*◌, ◌≤◌, length};
ghost use Rattle.machine.specs.Sizes.{most_calls};
ghost use Rattle.history.specs.Terms.{record_length};
ghost use Rattle.bench.specs.Run.{records_laid};
ghost use Rattle.cells.specs.Laid.{Laid};
ghost use Rattle.cells.specs.Promise.{as_printed, Gives};
ghost use Rattle.page.specs.Pages.{head_row, pages_text, rows_in};
ghost use Rattle.page.specs.Promise.{enough_for_pages, Prints};

use cells::Text;
use refusal::Refusal;

// The bytes of a row, 55 columns and a newline, and how many records a page has at most.
pub const ROW_LENGTH: usize = 56;

pub const PAGE_RECORDS: usize = 58;

// The widths of the columns.
const WIDTHS: [u8; 9] = [3, 2, 2, 5, 10, 2, 5, 10, 8];

// So many bytes hold every file's pages: a row for each record, and five head rows.
pub const ENOUGH: usize = ROW_LENGTH * (machine::CALLS + 5);

// The head row, where one stands.
fn head_row(pages: &mut Text<ENOUGH>, there: bool)
    ensures { Laid enough_for_pages pages.old (cond there head_row []) pages.new }
{
    if there {
        pages.text(b"no  th rq ans   value      by turn  remote     state   \n");
    }
}

// The pages of so many records: a head row in front of the first of each page, or alone where there are none. By the index, as the listing's lines.
fn record_pages(pages: &mut Text<ENOUGH>, records: &[u8], count: usize)
    requires { (record_length * count ≤ length records.now) × (count ≤ most_calls) }
    ensures { Laid enough_for_pages pages.old (pages_text (rows_in (records_laid count records.now))) pages.new }
{
    for i in 0..count {
        let from = kept::RECORD_LENGTH * i;
        head_row(pages, i % PAGE_RECORDS == 0);
        pages.record(
            &WIDTHS,
            i as u32,
            &records[from..from + kept::RECORD_LENGTH],
        );
    }
    head_row(pages, count == 0);
}

// Prints a run of so many records.
fn print_run(records: &[u8], count: usize, out: &mut [u8]) -> Result<usize, Refusal>
    requires count_in_bounds { (record_length * count ≤ length records.now) × (count ≤ most_calls) }
    requires records_len_bound { length (pages_text (rows_in (records_laid count records.now))) ≤ enough_for_pages }
    ensures { Gives (pages_text (rows_in (records_laid count records.now))) out.old out.new (as_printed result) }
{
    let mut pages: Text<ENOUGH> = Text::new();
    record_pages(&mut pages, records, count);
    cells::give(pages.bytes(), out)
}

// Prints the pages of any bytes as a bench file, under the file's own refusals, then 14 where its run meets null, and 13 where the buffer is too short for the
// rows of this run. Its own buffer is enough for the records of every file, so that 13 is by the rows alone.
pub fn page(file: &[u8], out: &mut [u8]) -> Result<usize, Refusal>
    ensures { Prints file.now out.old out.new (as_printed result) }
{
    let mut records = [0u8; bench::ENOUGH_FOR_RECORDS];
    let counts = bench::run(file, &mut records)?;
    print_run(&records, counts.records as usize, out)
}
