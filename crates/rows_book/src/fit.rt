//! Whether bids are as the checker of bookings takes them.
ghost use Rattle.std.specs.Prelude.{ℕ, ◌≡◌, ◌<◌, ◌≤◌, ◌^◌, length, sum_by, IsTrue, All};

use contact_alloc::Bid;

/// Whether each contact ends after it begins, and the values have a sum of 64 bits.
pub fn are_fit(bids: &[Bid]) -> bool
    ensures forward { IsTrue result → All (λ bid. bid.contact.from < bid.contact.to) bids.now }
    ensures few { IsTrue result → length bids.now ≤ 65536 }
    ensures fits { IsTrue result → sum_by (λ bid. bid.value) bids.now < 2 ^ 64 }
{
    let mut sum: u64 = 0;
    for bid in bids {
        if bid.contact.from >= bid.contact.to {
            return false;
        }
        let Some(more) = sum.checked_add(bid.value) else {
            return false;
        };
        sum = more;
    }
    bids.len() <= 65_536
}
