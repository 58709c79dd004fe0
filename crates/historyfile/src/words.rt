//! Words: which bytes are of one, and what it says in its column.
ghost use mathlib.Core.{Bool.true, Path.◌≡◌};
ghost use Rattle.std.specs.{Char.is_ascii_digit, List.list_all};
ghost use Rattle.historyfile.specs.Text.{is_blank, of_word};
ghost use Rattle.historyfile.specs.Words as meaning;

/// What a word says.
#[derive(Clone, Copy)]
pub enum Meaning {
    Number(u64),
    /// `-` in the place of a label.
    NoLabel,
    /// The order begins.
    Order,
}

/// Why a text cannot be read.
#[derive(Clone, Copy, PartialEq, Eq)]
pub enum Fault {
    /// No word of its column.
    Unknown,
    /// A number above 18,446,744,073,709,551,615.
    Large,
    /// A call of fewer or more than seven words.
    Seven,
    /// `-` with another answer than *empty*.
    Unlabelled,
}

fn is_blank(b: u8) -> bool
    ensures { result ≡ is_blank b }
{
    matches!(b, b' ' | b'\t' | b'\r')
}

/// Whether a byte is one of a word.
pub(crate) fn of_word(comment: bool, b: u8) -> bool
    ensures { result ≡ of_word comment b }
{
    !(comment || is_blank(b) || matches!(b, b'#' | b'\n'))
}

fn all_digits(word: &[u8]) -> bool
    ensures { result ≡ list_all is_ascii_digit word.now }
{
    word.iter().all(u8::is_ascii_digit)
}

// A word of digits.
fn number(column: u64, word: &[u8]) -> Result<Meaning, Fault>
    requires { list_all is_ascii_digit word.now ≡ true }
    ensures { result ≡ meaning.number column word.now }
{
    let mut n: u64 = 0;
    for b in word {
        let tens = n.checked_mul(10).ok_or(Fault::Large)?;
        n = tens.checked_add(u64::from(*b - b'0')).ok_or(Fault::Large)?;
    }
    if column == 7 {
        return Err(Fault::Seven);
    }
    Ok(Meaning::Number(n))
}

// Each of these: a word of one column.
fn first(word: &[u8]) -> Result<Meaning, Fault>
    ensures { result ≡ meaning.first word.now }
{
    match word {
        b"order" => Ok(Meaning::Order),
        _ => Err(Fault::Unknown),
    }
}

// Kinds, sides and answers stay numbers, since a history may name them by any number, and `audit::audit_words` judges the
// numbers that it is lent.
fn kind(word: &[u8]) -> Result<Meaning, Fault>
    ensures { result ≡ meaning.kind word.now }
{
    match word {
        b"push" => Ok(Meaning::Number(0)),
        b"pop" => Ok(Meaning::Number(1)),
        _ => Err(Fault::Unknown),
    }
}

fn side(word: &[u8]) -> Result<Meaning, Fault>
    ensures { result ≡ meaning.side word.now }
{
    match word {
        b"left" => Ok(Meaning::Number(0)),
        b"right" => Ok(Meaning::Number(1)),
        _ => Err(Fault::Unknown),
    }
}

fn label(word: &[u8]) -> Result<Meaning, Fault>
    ensures { result ≡ meaning.label word.now }
{
    match word {
        b"-" => Ok(Meaning::NoLabel),
        _ => Err(Fault::Unknown),
    }
}

fn answer(word: &[u8]) -> Result<Meaning, Fault>
    ensures { result ≡ meaning.answer word.now }
{
    match word {
        b"pushed" => Ok(Meaning::Number(2)),
        b"empty" => Ok(Meaning::Number(3)),
        b"popped" => Ok(Meaning::Number(4)),
        _ => Err(Fault::Unknown),
    }
}

// A word that is no number.
fn name(column: u64, word: &[u8]) -> Result<Meaning, Fault>
    ensures { result ≡ meaning.name column word.now }
{
    match column {
        0 => first(word),
        1 => kind(word),
        2 => side(word),
        3 => label(word),
        4 => answer(word),
        _ => Err(Fault::Unknown),
    }
}

/// What a word says in its column.
pub fn says(column: u64, word: &[u8]) -> Result<Meaning, Fault>
    ensures { result ≡ meaning.says column word.now }
{
    if all_digits(word) {
        return number(column, word);
    }
    if column == 7 {
        return Err(Fault::Seven);
    }
    name(column, word)
}
