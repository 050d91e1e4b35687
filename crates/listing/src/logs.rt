// The listing of a log.
ghost use Rattle.std.specs.Prelude.{◌≡◌, ◌+◌, ◌<◌, length, MatchOption};
ghost use Rattle.listing.specs.Listings.{listing, Listed};

use crate::records::{line_len, put_line};
use crate::write_item::WriteItem;
use refusal::Refusal;
use stepping::Record;

// How much of this room a listing leaves, if it fits. The lengths of its lines are counted, and no line is made for it. No `try_fold`:
// tried, and what it says of a fold that broke off did not close.
fn room_left<T: WriteItem>(log: &[Record<T>], room: usize) -> Option<usize>
    ensures { let n = length (listing T.WriteItem.text log.now) in MatchOption result (room < n) (λ left. n + left ≡ room) }
{
    let mut left = room;
    for entry in log {
        left = left.checked_sub(line_len(entry))?;
    }
    Some(left)
}

// Writes the listing of a log at the beginning of the output, and answers its length. The output is the caller's, so that no memory
// can lack. A listing that is too long is refused before anything is written.
pub fn list<T: WriteItem>(log: &[Record<T>], output: &mut [u8]) -> Result<usize, Refusal>
    ensures { Listed (listing T.WriteItem.text log.now) output.old output.new result }
{
    room_left(log, output.len()).ok_or(Refusal::ListingTooLong)?;
    let mut at = 0;
    for entry in log {
        at = put_line(entry, output, at);
    }
    Ok(at)
}
