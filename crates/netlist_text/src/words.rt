// The words of a line, found without memory.
ghost use Rattle.std.specs.Prelude.{◌≡◌, [], true, MatchOption, length};
ghost use Rattle.std.specs.List.{list_all};
ghost use Rattle.netlist_text.specs.Words.{words_of, first, rest, word_at, is_blank, is_printable, is_digit, is_number, number_of};
ghost use Rattle.netlist_text.specs.Scanning.{SkipsBlanks, EndsWord, FindsWord};

/// The most digits of a number.
const MOST_DIGITS: usize = 10;

fn is_blank(b: u8) -> bool
    ensures { result ≡ is_blank b }
{
    b == b' ' || b == b'\t' || b == b'\r'
}

fn is_printable(b: u8) -> bool
    ensures { result ≡ is_printable b }
{
    b == b'\t' || b == b'\r' || (b >= b' ' && b <= b'~')
}

/// Whether the line has only bytes that a line may have.
pub fn has_only_printable(line: &[u8]) -> bool
    ensures { result ≡ list_all is_printable line.now }
{
    line.iter().all(|b| is_printable(*b))
}

// The bytes from the first that is no blank on.
fn skip_blanks(bytes: &[u8]) -> &[u8]
    ensures { SkipsBlanks bytes.now result.now }
{
    for (i, b) in bytes.iter().enumerate() {
        if !is_blank(*b) {
            return &bytes[i..];
        }
    }
    &bytes[bytes.len()..]
}

// The length of the word at the front.
fn word_len(bytes: &[u8]) -> usize
    ensures { EndsWord bytes.now result }
{
    for (i, b) in bytes.iter().enumerate() {
        if is_blank(*b) {
            return i;
        }
    }
    bytes.len()
}

/// The first word, and what follows it.
pub fn next_word(line: &[u8]) -> Option<(&[u8], &[u8])>
    ensures { MatchOption result (words_of line.now ≡ [])
        (λ found. FindsWord line.now found.0.now found.1.now) }
{
    let front = skip_blanks(line);
    let len = word_len(front);
    if len == 0 {
        return None;
    }
    Some((&front[..len], &front[len..]))
}

/// The first word, and what follows it; nothing, where there is no word.
pub fn first_word(line: &[u8]) -> (&[u8], &[u8])
    ensures word { result.0.now ≡ first (words_of line.now) }
    ensures rest { words_of result.1.now ≡ rest (words_of line.now) }
{
    match next_word(line) {
        Some(found) => found,
        None => (b"", b""),
    }
}

/// The word with so many before it; no byte, where there is none. A line is short, so it is gone through again.
pub fn word_at(line: &[u8], place: usize) -> &[u8]
    ensures { result.now ≡ word_at (words_of line.now) place }
{
    let mut left = line;
    let mut before = place;
    while before > 0 {
        let (_, rest) = first_word(left);
        left = rest;
        before -= 1;
    }
    first_word(left).0
}

/// How many words there are.
pub fn count_words(line: &[u8]) -> usize
    ensures { result ≡ length (words_of line.now) }
{
    let mut count = 0;
    let mut left = line;
    while let Some((_, rest)) = next_word(left) {
        count += 1;
        left = rest;
    }
    count
}

fn is_digit(b: u8) -> bool
    ensures { result ≡ is_digit b }
{
    b.is_ascii_digit()
}

fn are_digits(word: &[u8]) -> bool
    ensures { result ≡ list_all is_digit word.now }
{
    word.iter().all(|b| is_digit(*b))
}

/// Whether the word is a number: 1 to 10 decimal digits.
pub fn is_number(word: &[u8]) -> bool
    ensures { result ≡ is_number word.now }
{
    !word.is_empty() && word.len() <= MOST_DIGITS && are_digits(word)
}

/// The number that the digits stand for.
pub fn number_of(word: &[u8]) -> u64
    requires { is_number word.now ≡ true }
    ensures { result ≡ number_of word.now }
{
    let mut number: u64 = 0;
    for b in word {
        number = 10 * number + (*b - b'0') as u64;
    }
    number
}
