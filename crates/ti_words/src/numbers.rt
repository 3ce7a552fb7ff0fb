// Numbers on the command line.
ghost use Rattle.std.specs.Prelude.{◌≡◌, ◌≤◌, IfSome, option_map};
ghost use Rattle.std.specs.Char.{is_ascii_digit};
ghost use Rattle.std.specs.List.{list_all};
ghost use Rattle.ti_words.specs.Job.{is_number_word, number_in, number_within};

// The maximum number of digits, enough for each `u32`.
const MOST_DIGITS: usize = 10;

// Whether each byte of an argument is a decimal digit.
fn has_digits_alone(word: &str) -> bool
    ensures { result ≡ list_all is_ascii_digit word.now }
{
    word.bytes().all(|byte| byte.is_ascii_digit())
}

// Whether an argument is a number: 1 to `MOST_DIGITS` decimal digits and nothing else.
fn is_number_word(word: &str) -> bool
    ensures { result ≡ is_number_word word.now }
{
    if word.is_empty() || word.len() > MOST_DIGITS {
        return false;
    }
    has_digits_alone(word)
}

// The number that an argument represents, if it is one from `least` to `most`.
fn number_in(least: u32, most: u32, word: &str) -> Option<u32>
    ensures { result ≡ number_in least most word.now }
{
    if !is_number_word(word) {
        return None;
    }
    let Ok(number) = word.parse::<u32>() else {
        return None;
    };
    if number >= least && number <= most {
        Some(number)
    } else {
        None
    }
}

/// The number that an argument represents, if it is one from `least` to `most`; the default if there is no argument.
pub fn number_within(least: u32, most: u32, default: u32, word: Option<&str>) -> Option<u32>
    requires { default ≤ most }
    ensures value { result ≡ number_within least most default (option_map (λ s. s.now) word.entry) }
    ensures most { IfSome result (λ number. number ≤ most) }
{
    match word {
        None => Some(default),
        Some(word) => number_in(least, most, word),
    }
}
