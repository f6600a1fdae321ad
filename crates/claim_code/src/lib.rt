// The lines of a claim, and what became of a write.
#![tactic(auto)]

ghost use Rattle.std.specs.Prelude.{◌≡◌, ◌≤◌};
ghost use Rattle.text_code.specs.Telling.{and_text, told_lines};
ghost use Rattle.claim.specs.Rows.{row_of_nexus};
ghost use Rattle.claim.specs.Making.{became_by, line_most};
ghost use Rattle.claim.specs.Lines.{spaced, columns, row_line, total_line};

use answer::Answer;
use claim::Row;
use device::Set;
use drive::Decision;
use text_code::Lines;

// What became of a write with that answer, under the set that its nexus uses.
pub fn became(answer: Answer, set: Set) -> Decision
    ensures { result ≡ became_by answer set.fields.encryption }
{
    if !answer_code::is_done(answer) {
        return Decision::Refused;
    }
    drive_code::decide(set.fields.encryption)
}

// A write's row, where there are that many nexuses.
pub fn row_of_nexus(nexuses: usize, n: u8) -> usize
    ensures { result ≡ row_of_nexus nexuses n }
{
    let at = n as usize;
    if at < nexuses { at } else { nexuses }
}

// Puts a number after a space.
fn put_spaced(lines: &mut Lines, n: u64)
    ensures { lines.new ≡ and_text lines.old (spaced n) }
{
    lines.put_words(b" ");
    lines.put_number(n);
}

// Puts the four columns of a row.
fn put_columns(lines: &mut Lines, row: Row)
    ensures { lines.new ≡ and_text lines.old (columns row) }
{
    put_spaced(lines, row.encrypted);
    put_spaced(lines, row.external);
    put_spaced(lines, row.clear);
    put_spaced(lines, row.refused);
}

// The line of row k.
pub fn row_line(k: u64, row: Row) -> Lines
    ensures { (result ≡ told_lines (row_line k row)) × (result.length ≤ line_most) }
{
    let mut line = Lines::NONE;
    line.put_number(k);
    put_columns(&mut line, row);
    line.put_words(b"\n");
    line
}

// The line of totals, with the amount.
pub fn total_line(total: Row, amount: u64) -> Lines
    ensures { (result ≡ told_lines (total_line total amount)) × (result.length ≤ line_most) }
{
    let mut line = Lines::NONE;
    line.put_words(b"total");
    put_columns(&mut line, total);
    line.put_words(b" amount");
    put_spaced(&mut line, amount);
    line.put_words(b"\n");
    line
}
