ghost use Rattle.std.specs.Prelude.{◌≡◌, ◌≤◌, length};
ghost use Rattle.words.specs.Lengths.{ends_line, ends_word, line_length, word_length};
ghost use Rattle.words.specs.Numbers.{has_plain_front, number_of, with_digit};

// Whether a word ends before this byte.
fn ends_word(b: u8) -> bool
    ensures { result ≡ ends_word b }
{
    b == b' ' || b == b'\n'
}

// Whether a line ends before this byte.
fn ends_line(b: u8) -> bool
    ensures { result ≡ ends_line b }
{
    b == b'\n'
}

// How many bytes a word has that begins where `text` does: those before a space, a line feed or the end.
pub fn word_length(text: &[u8]) -> usize
    ensures value { result ≡ word_length text.now }
    ensures bound { result ≤ length text.now }
{
    text.iter().take_while(|b| !ends_word(**b)).count()
}

// How many bytes a line has that begins where `text` does: those before a line feed or the end.
pub fn line_length(text: &[u8]) -> usize
    ensures value { result ≡ line_length text.now }
    ensures bound { result ≤ length text.now }
{
    text.iter().take_while(|b| !ends_line(**b)).count()
}

// Whether a word may be a number by its front: it has a byte, and no zero that others follow.
fn has_plain_front(word: &[u8]) -> bool
    ensures { result ≡ has_plain_front word.now }
{
    !matches!(word, [] | [b'0', _, ..])
}

// The number that has one digit more, where that is one from 0 to 4294967295.
fn with_digit(value: u32, digit: u8) -> Option<u32>
    ensures { result ≡ with_digit value digit }
{
    let digit = char::from(digit).to_digit(10)?;
    value.checked_mul(10)?.checked_add(digit)
}

// The number that a word writes in decimal, with no zero in front, where it is one from 0 to 4294967295.
pub fn number(word: &[u8]) -> Option<u32>
    ensures { result ≡ number_of word.now }
{
    if !has_plain_front(word) {
        return None;
    }
    word.iter().try_fold(0, |value, b| with_digit(value, *b))
}
