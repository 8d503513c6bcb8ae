//! Names that are printed: no name drives a terminal or forges a line.
ghost use Rattle.std.specs.Prelude.{◌≡◌, ◌<◌, ◌++◌, IfOk, OnOk, length, take, drop, string_bytes};
ghost use Rattle.bstr.specs.Utf8.{decoded};
ghost use Rattle.texts.specs.Names.{is_from_to as is_from_to_of, is_hidden as is_hidden_of, escaped, character_text, printable as printable_of};

use bstr::decode_utf8;
use std::alloc::{AllocError, Global};

/// How many characters of a name are printed.
pub const MOST_OF_NAME: usize = 80;

/// How many characters of the name of a file are printed: PATH_MAX of Linux.
pub const MOST_OF_PATH: usize = 4096;

/// Whether a character is one of these, both ends included.
fn is_from_to(first: char, last: char, c: char) -> bool
    ensures { result ≡ is_from_to_of first last c }
{
    first <= c && c <= last
}

/// Whether a character directs the terminal or the order of a text: a control character (general category Cc), a line
/// or paragraph separator (Zl, Zp), or one of Bidi_Control.
#[tactic(auto, unfolding(crate::specs::Names::is_hidden))]
fn is_hidden(c: char) -> bool
    ensures { result ≡ is_hidden_of c }
{
    is_from_to('\0', '\x1f', c)
        || is_from_to('\x7f', '\u{9f}', c)
        || c == '\u{61c}'
        || is_from_to('\u{200e}', '\u{200f}', c)
        || is_from_to('\u{2028}', '\u{202e}', c)
        || is_from_to('\u{2066}', '\u{2069}', c)
}

/// Appends each byte as `\x` and two digits.
fn push_escaped(alloc: Global, text: &mut String, bytes: &[u8]) -> Result<(), AllocError>
    ensures { OnOk result (string_bytes text.new ≡ string_bytes text.old ++ escaped bytes.now) }
{
    for byte in bytes {
        let digits = format!(in alloc; "\\x{byte:02x}")?;
        text.push_str(&digits)?;
    }
    Ok(())
}

/// Appends a character, or its bytes where it is none that may be printed.
fn push_character(
    alloc: Global,
    text: &mut String,
    character: Option<char>,
    bytes: &[u8],
) -> Result<(), AllocError>
    ensures { OnOk result (string_bytes text.new ≡ string_bytes text.old ++ character_text character bytes.now) }
{
    match character {
        Some(c) if !is_hidden(c) => text.push(c),
        _ => push_escaped(alloc, text, bytes),
    }
}

/// The first character of a name with its bytes, and the rest. If no character begins the name, its bytes are the
/// longest front that could begin one.
#[tactic(auto, using(crate::proofs::Cut::size_fits))]
fn first_character(name: &[u8]) -> (Option<char>, &[u8], &[u8])
    requires { 0 < length name.now }
    ensures char { result.0 ≡ (decoded name.now).char }
    ensures front { result.1.now ≡ take (decoded name.now).size name.now }
    ensures rest { result.2.now ≡ drop (decoded name.now).size name.now }
{
    let (character, size) = decode_utf8(name);
    let (front, rest) = name.split_at(size);
    (character, front, rest)
}

/// The first `most` characters of a name, as a text that may be printed: control characters, and bytes that are not
/// UTF-8, are escaped as `\x1b`. `...` stands behind a name that is cut.
pub fn printable(alloc: Global, name: &[u8], most: usize) -> Result<String, AllocError>
    ensures { IfOk result (λ text. string_bytes text ≡ printable_of most name.now) }
{
    let mut text = String::new(alloc);
    let mut rest = name;
    for _ in 0..most {
        if rest.is_empty() {
            return Ok(text);
        }
        let (character, front, behind) = first_character(rest);
        push_character(alloc, &mut text, character, front)?;
        rest = behind;
    }
    if rest.is_empty() {
        return Ok(text);
    }
    text.push_str("...")?;
    Ok(text)
}
