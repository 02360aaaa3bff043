// The listing of rows as text, in a lent buffer.
#![tactic(auto)]

ghost use Rattle.std.specs.Prelude.{◌≡◌, ◌+◌, ◌≤◌, ◌++◌, length, drop, IfOk, IfSome, IsSome, IsTrue, ◌↔◌, if◌then◌else◌, Ok, Err, nat_le};
ghost use Rattle.units.specs.declared.refusal.Refusal.TheVariants.{ListingTooLong};
ghost use Rattle.report.specs.Listing.{listing};
ghost use Rattle.report.specs.Bounds.{ListingBounded};

use crate::length::line_length;
use crate::line::put_line;
use ledger::row::Row;
use units::refusal::Refusal;

mod length;
mod line;

const HEADER: &[u8] = b"selection,market,unit,up,down,megawatts,cost,state\n";

// Writes the listing of the rows to the front of `out`, and answers its length. A listing that does not fit is refused, and then nothing is written.
#[tactic(auto, using(crate::proofs::Lines::listing_steps))]
pub fn list(rows: &[Row], out: &mut [u8]) -> Result<usize, Refusal>
    ensures answers_its_length_or_refuses_what_does_not_fit { result ≡ (if nat_le (length (listing rows.now)) (length out.old) then Ok (length (listing rows.now)) else Err ListingTooLong) }
    ensures writes_the_listing_in_front_or_nothing { out.new ≡ (if nat_le (length (listing rows.now)) (length out.old) then listing rows.now ++ drop (length (listing rows.now)) out.old else out.old) }
    ensures length_is_within_the_buffer { IfOk result (λ n. n ≤ length out.old) }
{
    let left = room_after(rows, out.len()).ok_or(Refusal::ListingTooLong)?;
    let length = out.len() - left;
    // from the last line to the first, each from its end to its front, so that no text is copied
    let mut at = length;
    for row in rows.iter().rev() {
        at = put_line(row, out, at);
    }
    out[..at].copy_from_slice(HEADER);
    Ok(length)
}

// How many of `room` bytes the listing of the rows leaves.
#[tactic(auto, using(crate::proofs::Lines::listing_steps))]
fn room_after(rows: &[Row], room: usize) -> Option<usize>
    ensures is_some_where_the_listing_fits { IsSome result ↔ (length (listing rows.now) ≤ room) }
    ensures is_what_the_listing_leaves { IfSome result (λ left. left + length (listing rows.now) ≡ room) }
{
    let mut left = room.checked_sub(HEADER.len())?;
    for row in rows {
        left = left.checked_sub(line_length(row))?;
    }
    Some(left)
}

// States how large a buffer always suffices. A function for its contract alone, which the check asks for.
pub fn listing_length_is_bounded() -> u8
    ensures a_listing_takes_at_most_51_bytes_and_47_for_each_row { ListingBounded }
{
    0
}

#[cfg(test)]
mod tests {
    use super::list;
    use ledger::row::{Row, State};
    use std::process::Abort;
    use units::refusal::Refusal;
    use units::side::MarketNumber;

    fn row(unit: u16, megawatts: u32, cost: i32, state: State) -> Row {
        Row {
            selection: 1,
            market: MarketNumber::FastUp,
            unit,
            up: 2,
            down: 0,
            megawatts,
            cost,
            state,
        }
    }

    fn leaves(
        rt: &impl Abort,
        rows: &[Row],
        out: &mut [u8],
        answer: Result<usize, Refusal>,
        text: &[u8],
    ) {
        assert_eq!(rt; list(rows, out), answer);
        assert!(rt; &*out == text);
    }

    #[test]
    fn listings(rt: HostRuntime) {
        let header = b"selection,market,unit,up,down,megawatts,cost,state\n";
        leaves(&rt, &[], &mut [b'.'; 51], Ok(51), header);
        leaves(
            &rt,
            &[],
            &mut [b'.'; 50],
            Err(Refusal::ListingTooLong),
            &[b'.'; 50],
        );
        leaves(
            &rt,
            &[
                row(202, 30, 35000, State::Confirmed),
                row(101, 20, 40000, State::Confirmed),
            ],
            &mut [b'.'; 99],
            Ok(97),
            b"selection,market,unit,up,down,megawatts,cost,state\n1,2,202,2,0,30,35000,C\n1,2,101,2,0,20,40000,C\n..",
        );
        leaves(
            &rt,
            &[row(65535, 4294967295, i32::MIN, State::Open)],
            &mut [b'.'; 90],
            Ok(90),
            b"selection,market,unit,up,down,megawatts,cost,state\n1,2,65535,2,0,4294967295,-2147483648,O\n",
        );
    }
}
