// Checks each argument by itself before `clap` matches them: it isn't empty, and if it begins with `-`, it is one of the options.
ghost use Rattle.std.specs.Prelude.{◌≡◌, map, option_map, string_bytes};
ghost use Rattle.ti_words.specs.Uses.{strip_front, dashed_piece, piece_of};
ghost use Rattle.ti_words.specs.Mirrors.Command.{all_stand, can_stand, is_setting};

// What follows a prefix in an argument, if it has the prefix.
fn strip_front<'a>(front: &str, word: &'a str) -> Option<&'a [u8]>
    ensures { option_map (λ s. s.now) result ≡ strip_front front.now word.now }
{
    word.as_bytes().strip_prefix(front.as_bytes())
}

// Whether an argument is this option, or begins with `front` and has a non-empty value after it.
fn is_setting(word: &str, flag: &str, front: &str) -> bool
    ensures { result ≡ is_setting flag.now front.now word.now }
{
    if word == flag {
        return true;
    }
    match strip_front(front, word) {
        Some([_, ..]) => true,
        _ => false,
    }
}

// Whether an argument that begins with `-` is one of the options.
fn is_argument(word: &str) -> bool
    ensures { result ≡ can_stand (dashed_piece word.now) }
{
    is_setting(word, "--mode", "--mode=")
        || is_setting(word, "--procs", "--procs=")
        || is_setting(word, "--workers", "--workers=")
        || is_setting(word, "--fuel", "--fuel=")
        || is_setting(word, "--seed", "--seed=")
        || is_setting(word, "--against", "--against=")
        || word == "--trace"
        || word == "--stats"
        || word == "--races"
}

// Whether an argument can occur on the command line: it isn't empty, and if it begins with `-`, it is one of the options.
fn can_stand(word: &str) -> bool
    ensures { result ≡ can_stand (piece_of word.now) }
{
    match word.as_bytes() {
        [] => false,
        [b'-', ..] => is_argument(word),
        _ => true,
    }
}

/// Whether each argument can occur on the command line.
pub fn all_stand(words: &[String]) -> bool
    ensures { result ≡ all_stand (map string_bytes words.now) }
{
    words.iter().all(|word| can_stand(word.as_str()))
}
