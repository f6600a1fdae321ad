// The claim of a recorded session on the drive of this model.
#![tactic(auto)]

ghost use Rattle.std.specs.Prelude.{◌≡◌, [], ◌∷◌, ◌+◌, ◌*◌, ◌≤◌, ◌<◌, ◌^◌, length};
ghost use Rattle.text.specs.Puts.{Put};
ghost use Rattle.text_code.specs.Telling.{text_of};
ghost use Rattle.sizes_16.specs.Sizes.{nexus_count, place_count};
ghost use Rattle.recording.specs.Entries.{calls};
ghost use Rattle.session_16.specs.Sessions.{start};
ghost use Rattle.claim.specs.Writes.{writes_from};
ghost use Rattle.claim.specs.Rows.{rows_of, plus, one, totals, writes_in};
ghost use Rattle.claim.specs.Making.{wrote_as, noted_each, line_most};
ghost use Rattle.claim.specs.Lines.{row_lines, claim_lines};
ghost use Rattle.claim.specs.Files.{Claims};

use calls::Asked;
use claim::{RATE_MOST, Row};
use drive::Decision;
use recording::{ENTRY_SIZE, Verdict};
use sizes_16::NEXUSES;
use text_code::Lines;

// A row for each nexus, and one for those above.
pub const ROWS: usize = NEXUSES + 1;

// The most bytes of a text: 23 a row, 44 of the totals (claim/proofs/Long).
pub const TEXT_MOST: usize = 23 * ROWS + 44;

// One write more.
fn count(row: Row, decision: Decision) -> Row
    requires { writes_in row + 1 < 2 ^ 64 }
    ensures { result ≡ plus row (one decision) }
{
    let mut more = row;
    match decision {
        Decision::Refused => more.refused = row.refused + 1,
        Decision::Clear => more.clear = row.clear + 1,
        Decision::External => more.external = row.external + 1,
        Decision::Encrypted => more.encrypted = row.encrypted + 1,
    }
    more
}

// One write more in its own row.
fn count_at(rows: [Row; ROWS], n: u8, decision: Decision) -> [Row; ROWS]
    requires { writes_in (totals rows) + 1 < 2 ^ 64 }
    ensures { result ≡ noted_each nexus_count (record { nexus = n; decision = decision } ∷ []) rows }
{
    let at = claim_code::row_of_nexus(NEXUSES, n);
    let mut more = rows;
    let row = more[at];
    more[at] = count(row, decision);
    more
}

// A call is a write or none.
fn note(rows: [Row; ROWS], asked: Asked, decision: Decision) -> [Row; ROWS]
    requires { writes_in (totals rows) + 1 < 2 ^ 64 }
    ensures { result ≡ noted_each nexus_count (wrote_as asked decision) rows }
{
    match asked {
        Asked::Write(n, _) => count_at(rows, n, decision),
        // The writes before a power-on stay counted.
        Asked::PowerOn => rows,
        _ => rows,
    }
}

// The rows of a session, from power-on: since then the record is well formed, so check 1 isn't made.
pub fn tally(events: &[u8], pages: &[u8]) -> [Row; ROWS]
    ensures { result ≡ rows_of nexus_count (writes_from start (calls events.now pages.now)) }
{
    let mut after = words_16::power_on();
    let mut rows = [Row::NONE; ROWS];
    for event in events.chunks_exact(ENTRY_SIZE) {
        let e = recording_code::entry_of(event);
        let asked = recording_code::asked_of(e);
        let sight = calls_16::look(after.device, calls_code::sender_number(asked));
        let quiet = calls_code::quietly(true, NEXUSES, sight.nexus, sight.set, asked);
        let answer = quiet.answer;
        let noted = note(rows, asked, claim_code::became(answer, sight.set));
        rows = noted;
        if !quiet.quiet {
            let outcome = calls_16::perform(after, true, asked, recording_code::page_of(e, pages));
            after = outcome.after;
        }
    }
    rows
}

// Two rows, column by column. Not an `Add`: a row is of another crate, and its counts must not overflow.
fn add(a: Row, b: Row) -> Row
    requires { writes_in (plus a b) < 2 ^ 64 }
    ensures { result ≡ plus a b }
{
    Row {
        encrypted: a.encrypted + b.encrypted,
        external: a.external + b.external,
        clear: a.clear + b.clear,
        refused: a.refused + b.refused,
    }
}

// The sums of the columns.
fn sum(rows: [Row; ROWS]) -> Row
    requires { writes_in (totals rows) < 2 ^ 64 }
    ensures { result ≡ totals rows }
{
    let mut total = Row::NONE;
    for row in &rows {
        total = add(total, *row);
    }
    total
}

// Puts a line, and tells the index after it.
fn put_line(out: &mut [u8], at: usize, line: Lines) -> usize
    requires { (at ≤ line_most * 64) × (line.length ≤ line_most) }
    ensures { Put out.old at (text_of line) result out.new }
{
    let text = line.text();
    wire_code::put(out, at, text);
    at + text.len()
}

// Puts the lines of all rows.
fn put_rows(out: &mut [u8], rows: [Row; ROWS]) -> usize
    ensures { Put out.old 0 (row_lines 0 rows) result out.new × (result ≤ line_most * 17) }
{
    let mut at = 0;
    for (k, row) in rows.iter().enumerate() {
        at = put_line(out, at, claim_code::row_line(k as u64, *row));
    }
    at
}

// Puts the whole text.
fn put_claim(out: &mut [u8], rows: [Row; ROWS], rate: u64) -> usize
    requires { (writes_in (totals rows) < 2 ^ 64) × ((totals rows).encrypted * rate < 2 ^ 64) }
    ensures { Put out.old 0 (claim_lines rate rows) result out.new }
{
    let at = put_rows(out, rows);
    let total = sum(rows);
    let amount = total.encrypted * rate;
    put_line(out, at, claim_code::total_line(total, amount))
}

// The claim of a recorded file, at a rate in pence: the length of its text.
pub fn claim(file: &[u8], rate: u64, out: &mut [u8]) -> Result<usize, Verdict>
    ensures { Claims nexus_count place_count rate file.now out.old result out.new }
{
    if !recording_code::is_sound_file(file) {
        return Err(Verdict::RecordingWrong);
    }
    if RATE_MOST < rate {
        return Err(Verdict::RateAbove);
    }
    let rows = tally(
        recording_code::events_of(file),
        recording_code::pages_of(file),
    );
    Ok(put_claim(out, rows, rate))
}
