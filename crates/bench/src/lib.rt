// Runs a bench file: its counts and the records of its calls, in Swap order, in a lent buffer.
#![tactic(auto)]

ghost use Rattle.std.specs.Prelude.{ℕ, ◌*◌, ◌≤◌, ◌<◌, ◌≡◌, length, get_or};
ghost use Rattle.machine.specs.Sizes.{most_calls};
ghost use Rattle.history.specs.Terms.{record_length};
ghost use Rattle.kept.specs.Kept.{call_at};
ghost use Rattle.bench.specs.Answer.{as_run};
ghost use Rattle.bench.specs.Promise.{Runs};
ghost use Rattle.bench.specs.Records.{kept_record, records_in};
ghost use Rattle.bench.specs.Run.{written};

use kept::Kept;
use refusal::Refusal;
use runner::Played;
use state::Counts;

// So many bytes hold the records of every file.
pub const ENOUGH_FOR_RECORDS: usize = kept::RECORD_LENGTH * machine::CALLS;

// The record of the call that has a place.
fn record_bytes(place: u16, kept: Kept) -> [u8; kept::RECORD_LENGTH]
    requires { place < most_calls }
    ensures { result ≡ kept_record (call_at place) kept }
{
    let mut record = [0u8; kept::RECORD_LENGTH];
    record[0] = (place / 16) as u8;
    record[1] = (place % 16) as u8;
    record[2] = kept.mark;
    record[3] = kept.server;
    record[4..8].copy_from_slice(&kept.value.to_le_bytes());
    record[8..12].copy_from_slice(&kept.remote.to_le_bytes());
    record[12] = u8::from(kept.returned != kept::NO_ENTRY);
    record[13..15].copy_from_slice(&kept.turn.to_le_bytes());
    record[16..20].copy_from_slice(&kept.began.to_le_bytes());
    record[20..24].copy_from_slice(&kept.returned.to_le_bytes());
    record
}

// The records of a run, in Swap order, from the buffer's first byte on.
fn put_records(out: &mut [u8], played: &Played)
    requires count_le_most_calls { (played.now.counts.records ≤ most_calls) × (record_length * played.now.counts.records ≤ length out.old) }
    requires by_index { (i : ℕ) → i < played.now.counts.records → get_or played.now.order i 0 < most_calls }
    ensures { out.new ≡ written out.old (records_in played.now.counts.records played.now.kept played.now.order) }
{
    for i in 0..played.counts.records as usize {
        let place = played.order[i];
        let record = record_bytes(place, played.kept[place as usize]);
        let at = kept::RECORD_LENGTH * i;
        out[at..at + kept::RECORD_LENGTH].copy_from_slice(&record);
    }
}

// Runs any bytes as a bench file; 13 where fewer bytes are lent than a record for each request in the file takes, and then 14 where an entry would follow null or
// put it into tmpNode. The records stand in Swap order from the buffer's first byte on; a refusal has none.
pub fn run(file: &[u8], out: &mut [u8]) -> Result<Counts, Refusal>
    ensures { Runs file.now out.old out.new (as_run result) }
{
    let played = runner::play(file, out.len())?;
    put_records(out, &played);
    Ok(played.counts)
}
