// Counting the points of rectangles.

ghost use Rattle.std.specs.Prelude.{◌≡◌, ◌≤◌, All, sum_by, length};
ghost use Rattle.ti_base.specs.Rects.{IsRect, points_of};
ghost use Rattle.ti_base.specs.Rects as rects;
ghost use Rattle.ti_domain.specs.Pieces.{IsShape, point_count, total_count};

use ti_base::Rect;
use ti_rect::{rect_meet, rect_size};

/// The maximal number of points of a domain.
pub const MAX_POINTS: u64 = 1_048_576;

/// The number of points of a rectangle, which has few enough for a domain.
pub fn size(rect: &Rect) -> u64
    requires form { IsRect rect.now }
    requires small { point_count rect.now ≤ 1048576 }
    ensures { result ≡ point_count rect.now }
{
    match rect_size(rect) {
        Ok(count) => count as u64,
        Err(_) => unreachable!(),
    }
}

/// The total number of points of the rectangles.
pub fn total(pieces: &[Rect]) -> u64
    requires form { All IsRect pieces.now }
    requires small { total_count pieces.now ≤ 1048576 }
    ensures { result ≡ total_count pieces.now }
{
    let mut total = 0;
    for r in pieces {
        total += size(r);
    }
    total
}

/// The total number of points that `rect` has in common with each of the others.
fn common_with(rect: &Rect, others: &[Rect]) -> u64
    requires form { IsRect rect.now }
    requires others { All (IsShape rect.now.dim) others.now }
    requires small { sum_by (λ s. point_count (rects.meet rect.now s)) others.now ≤ 1048576 }
    ensures { result ≡ sum_by (λ s. point_count (rects.meet rect.now s)) others.now }
{
    let mut total = 0;
    for other in others {
        total += size(&rect_meet(rect, other));
    }
    total
}

/// The total number of points that each of the rectangles has in common with each of the others. `dim` is for the prover: the dimension
/// of all of them.
pub fn common_count(dim: u8, pieces: &[Rect], others: &[Rect]) -> u64
    requires pieces { All (IsShape dim) pieces.now }
    requires others { All (IsShape dim) others.now }
    requires small { sum_by (λ r. sum_by (λ s. point_count (rects.meet r s)) others.now) pieces.now ≤ 1048576 }
    ensures { result ≡ sum_by (λ r. sum_by (λ s. point_count (rects.meet r s)) others.now) pieces.now }
{
    let _ = dim;
    let mut total = 0;
    for r in pieces {
        total += common_with(r, others);
    }
    total
}
