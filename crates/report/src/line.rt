// The line of a row, written from its end to its front, as the kit writes digits. It is no `Display`: no clause of `write!` says that it succeeds where there is room, and it takes more than twice as long.
ghost use Rattle.std.specs.Prelude.{◌≡◌, ◌+◌, ◌≤◌, ◌++◌, length, drop};
ghost use Rattle.report.specs.Listing.{number_field, signed_field, state_letter, row_text};

use itoa::write_digits;
use ledger::row::{Row, State};

// Each `put` writes a text that ends at `end`, and answers where it starts.
pub(crate) fn put_line(row: &Row, out: &mut [u8], end: usize) -> usize
    requires { (length (row_text row.now) ≤ end) × (end ≤ length out.old) }
    ensures starts_a_line_before_the_end { result + length (row_text row.now) ≡ end }
    ensures writes_the_line { drop result out.new ≡ row_text row.now ++ drop end out.old }
{
    out[end - 1] = b'\n';
    out[end - 2] = letter(row.state);
    let cost = put_signed_field(row.cost, out, end - 2);
    let megawatts = put_field(row.megawatts, out, cost);
    let down = put_field(u32::from(row.down), out, megawatts);
    let up = put_field(u32::from(row.up), out, down);
    let unit = put_field(u32::from(row.unit), out, up);
    let market = put_field(u32::from(u16::from(row.market)), out, unit);
    put_field(u32::from(row.selection), out, market)
}

// Inlined, so that a number of few bits is written with few tests.
#[inline(always)]
fn put_field(n: u32, out: &mut [u8], end: usize) -> usize
    requires { (length (number_field n) ≤ end) × (end ≤ length out.old) }
    ensures starts_a_field_before_the_end { result + length (number_field n) ≡ end }
    ensures writes_the_number_and_a_comma { drop result out.new ≡ number_field n ++ drop end out.old }
{
    out[end - 1] = b',';
    // a market, an up and a down pair have one digit, which is quicker by itself; `u8::try_from` would test it twice
    if n < 10 {
        out[end - 2] = b'0' + n as u8;
        return end - 2;
    }
    write_digits(u64::from(n), out, end - 1)
}

fn put_signed_field(n: i32, out: &mut [u8], end: usize) -> usize
    requires { (length (signed_field n) ≤ end) × (end ≤ length out.old) }
    ensures starts_a_field_before_the_end { result + length (signed_field n) ≡ end }
    ensures writes_the_number_and_a_comma { drop result out.new ≡ signed_field n ++ drop end out.old }
{
    let start = put_field(n.unsigned_abs(), out, end);
    if n >= 0 {
        return start;
    }
    out[start - 1] = b'-';
    start - 1
}

// No `Display`, as with the line.
fn letter(state: State) -> u8
    ensures is_the_letter_of_the_state { result ≡ state_letter state }
{
    match state {
        State::Open => b'O',
        State::Confirmed => b'C',
    }
}
