// The services for programs in other languages: judge, run, write, convert, list and page, on numbers and byte slices, as the C interface has them: a refusal is
// its number here, 0 for none.
#![tactic(auto)]

ghost use Rattle.std.specs.Prelude.{◌≡◌};
ghost use Rattle.refusal.specs.Numbers.{by_number};
ghost use Rattle.bench_file.specs.Promise.{judged_refusal};
ghost use Rattle.bench_writer.specs.Writer.{given_by, as_written, WritesAs};
ghost use Rattle.bench.specs.Promise.{Runs};
ghost use Rattle.cells.specs.Promise.{as_printed};
ghost use Rattle.listing.specs.Promise.{Lists};
ghost use Rattle.page.specs.Promise.{Prints};
ghost use Rattle.ccs.specs.Numbers.{judged_numbers, JudgedIn, answer_in, written_in, ConvertsAlike, printed_in};

use bench_file::Judged;
use bench_writer::Given;
use refusal::Refusal;

// A judgement's number, 0 for an accepted file.
fn judged_refusal(judged: Result<Judged, Refusal>) -> u8
    ensures { result ≡ judged_refusal (by_number judged) }
{
    match judged {
        Ok(_) => 0,
        Err(refusal) => refusal.number(),
    }
}

// Version, object, n, h, capacity, method, requests in all and schedule entries of an accepted file; all 0 of a refused one.
fn judged_numbers(judged: Result<Judged, Refusal>) -> [usize; 8]
    ensures { result ≡ judged_numbers (by_number judged) }
{
    match judged {
        Ok(
            Judged {
                head,
                requests,
                entries,
            },
        ) => {
            let object = head.object;
            let number = u8::from(object);
            let method = head.method;
            let by = u8::from(method);
            [
                head.version as usize,
                number as usize,
                head.n as usize,
                head.h as usize,
                head.capacity as usize,
                by as usize,
                requests,
                entries,
            ]
        }
        Err(_) => [0usize; 8],
    }
}

// Judges any bytes as a bench file, and tells its numbers.
#[unsafe(no_mangle)]
pub extern "C" fn ccs_judge(file: &[u8], numbers: &mut [usize; 8]) -> u8
    ensures { JudgedIn file.now numbers.new result }
{
    let judged = bench_file::judge(file);
    *numbers = judged_numbers(judged);
    judged_refusal(judged)
}

// Runs any bytes as a bench file, its records into a lent buffer. The numbers are the counts of records, turns begun, blanks, spins and remote
// references; those of a refusal are 0: of 13 where too few bytes are lent, then of 14 where a line would follow null or put it into tmpNode.
#[unsafe(no_mangle)]
pub extern "C" fn ccs_run(file: &[u8], out: &mut [u8], numbers: &mut [u32; 5]) -> u8
    ensures { Runs file.now out.old out.new (answer_in result numbers.new) }
{
    match bench::run(file, out) {
        Ok(counts) => {
            *numbers = [
                counts.records,
                counts.turns,
                counts.blanks,
                counts.spins,
                counts.remote,
            ];
            0
        }
        Err(refusal) => {
            *numbers = [0u32; 5];
            refusal.number()
        }
    }
}

// Refusal 0 and the length written; or a refusal's number, and length 0.
fn length_or_refusal(answer: Result<usize, Refusal>, length: &mut usize) -> u8
    ensures written { written_in result length.new ≡ as_written answer }
    ensures printed { printed_in result length.new ≡ as_printed answer }
{
    match answer {
        Ok(count) => {
            *length = count;
            0
        }
        Err(refusal) => {
            *length = 0;
            refusal.number()
        }
    }
}

// Writes the bench file of given fields, in version 1 or 2, into a lent buffer, and its length; the length of a refusal is 0, of 15 for a method that there is not
// or that version 1 has not.
#[unsafe(no_mangle)]
pub extern "C" fn ccs_write(
    version: u16,
    object: u8,
    n: u8,
    h: u8,
    capacity: u8,
    method: u8,
    counts: &[u8],
    requests: &[u8],
    schedule: &[u8],
    out: &mut [u8],
    length: &mut usize,
) -> u8
    ensures { WritesAs (given_by version object n h capacity method counts.now requests.now schedule.now) (written_in result length.new) out.old out.new }
{
    let given = Given {
        version,
        object,
        n,
        h,
        capacity,
        method,
        counts,
        requests,
        schedule,
    };
    length_or_refusal(bench_writer::write(given, out), length)
}

// Judges any bytes as a bench file and writes it in the wanted version into a lent buffer, and its length; the length of a refusal is 0: of 3 where the version is
// neither 1 nor 2, the file's own, 16 for a DSM-Synch file where version 1 is wanted, then 13.
#[unsafe(no_mangle)]
pub extern "C" fn ccs_convert(file: &[u8], wanted: u16, out: &mut [u8], length: &mut usize) -> u8
    ensures { ConvertsAlike file.now wanted (written_in result length.new) out.old out.new }
{
    length_or_refusal(bench_writer::convert(file, wanted, out), length)
}

// Lists any bytes as a bench file: its listing into a lent buffer, and the length; the length of a refusal, which is 13 alone, is 0.
#[unsafe(no_mangle)]
pub extern "C" fn ccs_list(file: &[u8], out: &mut [u8], length: &mut usize) -> u8
    ensures { Lists file.now out.old out.new (printed_in result length.new) }
{
    length_or_refusal(listing::list(file, out), length)
}

// Prints the pages of any bytes as a bench file into a lent buffer, and their length; the length of a refusal, the file's own, 14 or 13, is 0.
#[unsafe(no_mangle)]
pub extern "C" fn ccs_page(file: &[u8], out: &mut [u8], length: &mut usize) -> u8
    ensures { Prints file.now out.old out.new (printed_in result length.new) }
{
    length_or_refusal(page::page(file, out), length)
}
