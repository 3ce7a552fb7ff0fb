// Parts of slices.

ghost use Rattle.std.specs.Prelude.{◌≡◌, drop, slice_index_or};

/// The first element, or a default if there is none.
pub fn first_or<T: Copy>(items: &[T], default: T) -> T
    ensures { result ≡ slice_index_or items.now 0 default }
{
    match items {
        [first, ..] => *first,
        [] => default,
    }
}

/// The elements after the first `count`.
pub fn skipped<T>(items: &[T], count: usize) -> &[T]
    ensures { result.now ≡ drop count items.now }
{
    if count < items.len() {
        &items[count..]
    } else {
        &[]
    }
}
