// Names that are spelled nearly the same: at most two letters are put in, left out or replaced.
ghost use Rattle.std.specs.Prelude.{◌≡◌, drop, bytes_eq};
ghost use Rattle.ti_explain.specs.NearSpelling.{letter_pair, differing, passes_edited, within_one, within_two, is_near};
ghost use Rattle.ti_explain.specs.Mirrors.Names.{letters_of};

/// Two lists of letters.
#[derive(Clone, Copy)]
struct LettersPair<'a> {
    left: &'a [u8],
    right: &'a [u8],
}

/// Whether the names are the same.
pub fn same_name(name: &[u8], other: &[u8]) -> bool
    ensures { result ≡ bytes_eq name.now other.now }
{
    name == other
}

fn behind_first(name: &[u8]) -> &[u8]
    ensures { result.now ≡ drop 1 name.now }
{
    if name.is_empty() { name } else { &name[1..] }
}

// The letters from this index on; none if there are fewer.
fn letters_from(name: &[u8], index: usize) -> &[u8]
    ensures { result.now ≡ drop index name.now }
{
    if index < name.len() {
        &name[index..]
    } else {
        &[]
    }
}

// The letters of the two from this index on.
fn rests<'a>(one: &'a [u8], other: &'a [u8], index: usize) -> LettersPair<'a>
    ensures { letters_of result ≡ letter_pair (drop index one.now) (drop index other.now) }
{
    LettersPair {
        left: letters_from(one, index),
        right: letters_from(other, index),
    }
}

// What is left of the two behind the letters with which both begin.
fn differing<'a>(one: &'a [u8], other: &'a [u8]) -> LettersPair<'a>
    ensures { letters_of result ≡ differing one.now other.now }
{
    for i in 0..one.len() {
        if i >= other.len() {
            return rests(one, other, i);
        }
        if one[i] != other[i] {
            return rests(one, other, i);
        }
    }
    rests(one, other, one.len())
}

// Whether they are equal but for at most one letter.
fn within_one(one: &[u8], other: &[u8]) -> bool
    ensures { result ≡ within_one one.now other.now }
{
    let rest = differing(one, other);
    let replaced = same_name(behind_first(rest.left), behind_first(rest.right));
    let added = same_name(rest.left, behind_first(rest.right));
    let removed = same_name(behind_first(rest.left), rest.right);
    replaced || (added || removed)
}

// Whether they are equal but for at most two letters.
fn within_two(one: &[u8], other: &[u8]) -> bool
    ensures { result ≡ within_two one.now other.now }
{
    let rest = differing(one, other);
    let replaced = within_one(behind_first(rest.left), behind_first(rest.right));
    let added = within_one(rest.left, behind_first(rest.right));
    let removed = within_one(behind_first(rest.left), rest.right);
    replaced || (added || removed)
}

/// Whether the names are equal but for one letter, or for two if that is looked for, and that is less than half of this one.
pub fn is_near(two: bool, name: &[u8], other: &[u8]) -> bool
    ensures { result ≡ is_near two name.now other.now }
{
    if two {
        let long = name.len() > 4;
        let within = within_two(name, other);
        long && within
    } else {
        let long = name.len() > 2;
        let within = within_one(name, other);
        long && within
    }
}
