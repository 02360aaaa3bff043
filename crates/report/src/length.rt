// How long a line is, without writing it.
ghost use Rattle.std.specs.Prelude.{◌≡◌, ◌≤◌, length, decimal};
ghost use Rattle.std.specs.Fmt.{signed_decimal};
ghost use Rattle.report.specs.Listing.{row_text};

use ledger::row::Row;

// The least numbers of two digits to ten.
const POWERS_OF_TEN: [u32; 9] = [
    10,
    100,
    1_000,
    10_000,
    100_000,
    1_000_000,
    10_000_000,
    100_000_000,
    1_000_000_000,
];

// How many digits n has. Inlined, so that a number of few bits is compared with few powers.
#[inline(always)]
fn width(n: u32) -> usize
    ensures is_the_number_of_digits { result ≡ length (decimal n) }
    ensures is_at_most_ten { result ≤ 10 }
{
    1 + POWERS_OF_TEN
        .iter()
        .take_while(|&&power| power <= n)
        .count()
}

// How many bytes a number that may be below 0 takes.
fn signed_width(n: i32) -> usize
    ensures is_the_length_of_its_text { result ≡ length (signed_decimal n) }
    ensures is_at_most_eleven { result ≤ 11 }
{
    width(n.unsigned_abs()) + usize::from(n < 0)
}

// How long the line of a row is.
pub(crate) fn line_length(row: &Row) -> usize
    ensures is_the_length_of_the_line { result ≡ length (row_text row.now) }
{
    let numbers = width(u32::from(row.selection))
        + width(u32::from(row.unit))
        + width(u32::from(row.up))
        + width(u32::from(row.down))
        + width(row.megawatts)
        + signed_width(row.cost);
    // and the market's one digit, seven commas, the letter of the state and the end of the line
    numbers + 10
}
