// Which ranges of the list of reasons have been ruled out already, so that constraints that conclude the same range process it once.
ghost use Rattle.std.specs.Prelude.{◌≡◌, true, ℕ, ◌<◌, ◌≤◌, IsTrue, length, get_or, slice_index, IfOk};
ghost use Rattle.ti_blame.specs.Mirrors.Propagation.{MoreDone};

use std::alloc::Global;
use ti_base::Memory;

/// Whether the range from index `from` to index `to` (exclusive) is known to be ruled out.
pub fn is_done(done: &[usize], from: usize, to: usize) -> bool
    ensures within { result ≡ true → from < length done.now }
    ensures far { result ≡ true → to ≤ slice_index done.now from }
{
    from < done.len() && to <= done[from]
}

/// Records that the range from index `from` to index `to` (exclusive) has been ruled out. Does nothing if `from` is out of bounds.
pub fn now_done(done: &mut Vec<usize>, from: usize, to: usize)
    ensures { MoreDone from to done.old.items done.new.items }
{
    if from < done.len() {
        done[from] = to;
    }
}

/// A table for `count` reasons of which none has been ruled out. Errors only if it runs out of memory.
pub fn none_done(alloc: Global, count: usize) -> Result<Vec<usize>, Memory>
    ensures { IfOk result (λ v. (i : ℕ) → slice_index v.items i ≡ 0) }
{
    let mut done = Vec::new(alloc);
    for _ in 0..count {
        done.push(0)?;
    }
    Ok(done)
}
