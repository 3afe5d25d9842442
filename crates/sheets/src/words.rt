//! The words of a sheet: the longest runs of bytes other than space and line end.
ghost use Rattle.std.specs.Prelude.{◌≡◌, drop, fold, if◌then◌else◌, Some, None, nat_le, slice_index};
ghost use Rattle.std.specs.List.{list_all};
ghost use Rattle.sheets.specs.Words.{text_at, within, is_name, is_number, is_instruction, is_keyword, kind_of, read_on, digit_on};
ghost use Rattle.sheets.specs.Words.{solid as solid_byte};
ghost use Rattle.sheets.specs.Programs.{sign as sign_code};
ghost use Rattle.sheets.specs.Reads.{word_in};

pub(crate) const SPACE: u8 = b' ';

pub(crate) const LINE_END: u8 = b'\n';

// No name has more letters.
const LONGEST_NAME: usize = 8;

pub(crate) const DOCKET: &[u8] = b"docket";

pub(crate) const HANDSHAKE: &[u8] = b"handshake";

pub(crate) const ORIGINAL: &[u8] = b"original";

pub(crate) const LOWE: &[u8] = b"lowe";

pub(crate) const TOKENS: &[u8] = b"tokens";

pub(crate) const AGENT: &[u8] = b"agent";

pub(crate) const BREACH: &[u8] = b"breach";

const KEYWORDS: [&[u8]; 7] = [DOCKET, HANDSHAKE, ORIGINAL, LOWE, TOKENS, AGENT, BREACH];

/// A word by its kind, with its part of the sheet.
#[derive(Clone, Copy, Debug, PartialEq, Eq)]
pub enum Word<'a> {
    Keyword(&'a [u8]),
    Number(&'a [u8]),
    Instruction(&'a [u8]),
    Name(&'a [u8]),
}

/// A word and the place of its first byte.
#[derive(Clone, Copy, Debug, PartialEq, Eq)]
pub struct Placed<'a> {
    pub word: Word<'a>,
    pub at: usize,
}

// Neither space nor line end.
fn solid(b: u8) -> bool
    ensures { result ≡ solid_byte b }
{
    b != SPACE && b != LINE_END
}

// The word that begins at a place; it is empty where none does.
pub(crate) fn text_at<'a>(sheet: &'a [u8], at: usize) -> &'a [u8]
    ensures { result.now ≡ text_at sheet.now at }
{
    let Some(rest) = sheet.get(at..) else {
        return b"";
    };
    let end = rest.iter().take_while(|b| solid(**b)).count();
    &rest[..end]
}

fn is_keyword(text: &[u8]) -> bool
    ensures { result ≡ is_keyword text.now }
{
    KEYWORDS.iter().any(|keyword| text == *keyword)
}

fn all_within(text: &[u8], low: u8, high: u8) -> bool
    ensures { result ≡ list_all (within low high) text.now }
{
    text.iter().all(|b| (low..=high).contains(b))
}

fn is_name(text: &[u8]) -> bool
    ensures { result ≡ is_name text.now }
{
    (1..=LONGEST_NAME).contains(&text.len()) && all_within(text, b'a', b'z')
}

fn is_number(text: &[u8]) -> bool
    ensures { result ≡ is_number text.now }
{
    !text.is_empty() && all_within(text, b'0', b'9') && (text[0] != b'0' || text.len() == 1)
}

fn is_sign(sign: char) -> bool
    ensures { result ≡ sign_code sign }
{
    matches!(sign, '+' | '-' | '?' | '!')
}

fn is_instruction(text: &[u8]) -> bool
    ensures { result ≡ is_instruction text.now }
{
    match text {
        [sign, name @ ..] => is_sign(char::from(*sign)) && is_name(name),
        [] => false,
    }
}

pub(crate) fn classed<'a>(text: &'a [u8]) -> Option<Word<'a>>
    ensures { word_in result ≡ kind_of text.now }
{
    if is_number(text) {
        Some(Word::Number(text))
    } else if is_instruction(text) {
        Some(Word::Instruction(text))
    } else if is_keyword(text) {
        Some(Word::Keyword(text))
    } else if is_name(text) {
        Some(Word::Name(text))
    } else {
        None
    }
}

// The sign of an instruction. An empty text is none; its 0 is what the sheet's meaning says there, which an option would
// only hand to the caller.
pub(crate) fn sign_of(text: &[u8]) -> char
    ensures { result ≡ slice_index text.now 0 }
{
    match text {
        [sign, ..] => char::from(*sign),
        [] => '\0',
    }
}

// The name after an instruction's sign.
pub(crate) fn name_of<'a>(text: &'a [u8]) -> &'a [u8]
    ensures { result.now ≡ drop 1 text.now }
{
    match text {
        [_, name @ ..] => name,
        [] => text,
    }
}

// The number that digits write, or the greatest of its type.
fn value(text: &[u8]) -> u32
    ensures { result ≡ fold digit_on 0 text.now }
{
    text.iter().fold(0u32, |number, digit| {
        number
            .saturating_mul(10)
            .saturating_add(u32::from(digit.saturating_sub(b'0')))
    })
}

// The number that digits write, if it is at most `high`. The cast fits, which the check proves.
pub(crate) fn value_up_to(text: &[u8], high: u16) -> Option<u16>
    ensures { result ≡ (if nat_le (read_on 0 text.now) high then Some (read_on 0 text.now) else None) }
{
    let value = value(text);
    if value <= u32::from(high) {
        Some(value as u16)
    } else {
        None
    }
}
