//! Lines and their parts.
ghost use Rattle.std.specs.Prelude.{◌≡◌, ◌≤◌, MatchOption, None, Some, unwrap_or, [], length};
ghost use Rattle.std.specs.List.{list_all};
ghost use Rattle.rv_asm.specs.Lines.{trim_start as trim_start_of, trim_end as trim_end_of, trim as trim_of, statement as statement_of};
ghost use Rattle.rv_asm.specs.Lines.{is_blank as is_blank_of, word_end as word_end_of, leading_word, rest_in, continues_name, is_name as is_name_of};
ghost use Rattle.rv_asm.specs.Lines.{label_in as label_in_of, pair_in as pair_in_of, triple_in as triple_in_of, bracketed_in as bracketed_in_of};
ghost use Rattle.rv_asm.specs.Heads.{head_of};

use crate::heads::{Head, recognize};
use texts::split_once;

/// Whether a byte is a space or a tab.
fn is_blank(byte: u8) -> bool
    ensures { result ≡ is_blank_of byte }
{
    byte == b' ' || byte == b'\t'
}

/// A text without the blanks in front.
#[tactic(auto, unfolding(crate::specs::Lines::trim_start))]
fn trim_start(text: &[u8]) -> &[u8]
    ensures { result.now ≡ trim_start_of text.now }
{
    let mut start = 0;
    while start < text.len() && is_blank(text[start]) {
        start += 1;
    }
    text.split_at(start).1
}

/// A text without the blanks at the end.
#[tactic(auto, unfolding(crate::specs::Lines::trim_end))]
fn trim_end(text: &[u8]) -> &[u8]
    ensures { result.now ≡ trim_end_of text.now }
{
    let mut end = text.len();
    while end > 0 && is_blank(text[end - 1]) {
        end -= 1;
    }
    text.split_at(end).0
}

/// A text without the blanks around it.
#[tactic(auto, unfolding(crate::specs::Lines::trim))]
pub fn trim(text: &[u8]) -> &[u8]
    ensures { result.now ≡ trim_of text.now }
{
    trim_end(trim_start(text))
}

/// What a line says, without its comment and the blanks around it.
#[tactic(auto, unfolding(crate::specs::Lines::statement))]
fn statement(line: &[u8]) -> &[u8]
    ensures { result.now ≡ statement_of line.now }
{
    match split_once(line, b'#') {
        Some((front, _)) => trim(front),
        None => trim(line),
    }
}

/// Where the first word ends: before the first blank or behind the first `:`, whichever comes first.
fn word_end(text: &[u8]) -> usize
    ensures end { result ≡ word_end_of text.now }
    ensures bound { result ≤ length text.now }
{
    for place in 0..text.len() {
        if is_blank(text[place]) {
            return place;
        }
        if text[place] == b':' {
            return place + 1;
        }
    }
    text.len()
}

/// The first word of a line, and what follows it.
#[derive(Clone, Copy)]
pub struct Line<'a> {
    pub head: Head,
    pub word: &'a [u8],
    pub rest: &'a [u8],
}

/// The parts of a line.
#[tactic(auto, unfolding(crate::specs::Lines::leading_word, crate::specs::Lines::rest_in))]
pub fn parts(line: &[u8]) -> Line<'_>
    ensures head { result.head ≡ head_of (leading_word line.now) }
    ensures word { result.word.now ≡ leading_word line.now }
    ensures rest { result.rest.now ≡ rest_in line.now }
{
    let said = statement(line);
    let (word, rest) = said.split_at(word_end(said));
    Line {
        head: recognize(word),
        word,
        rest: trim(rest),
    }
}

/// Whether all bytes are letters, digits or `_`.
fn are_name_bytes(text: &[u8]) -> bool
    ensures { result ≡ list_all continues_name text.now }
{
    text.iter()
        .all(|&byte| byte.is_ascii_alphanumeric() || byte == b'_')
}

/// Whether a text is the name of a label: a letter or `_`, then letters, digits or `_`.
#[tactic(auto, unfolding(crate::specs::Lines::is_name))]
pub fn is_name(text: &[u8]) -> bool
    ensures { result ≡ is_name_of text.now }
{
    match text {
        [] => false,
        [first, rest @ ..] => {
            (first.is_ascii_alphabetic() || *first == b'_') && are_name_bytes(rest)
        }
    }
}

/// The name of the label that a first word defines: `NAME:`.
#[tactic(auto, unfolding(crate::specs::Lines::label_in))]
pub fn label_in(word: &[u8]) -> Option<&[u8]>
    ensures { MatchOption result (label_in_of word.now ≡ None) (λ name. label_in_of word.now ≡ Some name.now) }
{
    let (name, rest) = split_once(word, b':')?;
    (is_name(name) && rest.is_empty()).then_some(name)
}

/// The name of the label that a first word defines, or an empty one.
pub fn label_name(word: &[u8]) -> &[u8]
    ensures { result.now ≡ unwrap_or (label_in_of word.now) [] }
{
    match label_in(word) {
        Some(name) => name,
        None => &[],
    }
}

/// The parts before and behind the first comma.
#[tactic(auto, unfolding(crate::specs::Lines::pair_in))]
pub fn pair_in(text: &[u8]) -> Option<(&[u8], &[u8])>
    ensures { MatchOption result (pair_in_of text.now ≡ None) (λ parts. pair_in_of text.now ≡ Some (parts.0.now, parts.1.now)) }
{
    let (front, back) = split_once(text, b',')?;
    Some((trim(front), trim(back)))
}

/// Three parts, around the first two commas.
#[tactic(auto, unfolding(crate::specs::Lines::triple_in))]
pub fn triple_in(text: &[u8]) -> Option<(&[u8], &[u8], &[u8])>
    ensures { MatchOption result (triple_in_of text.now ≡ None) (λ parts. triple_in_of text.now ≡ Some (parts.0.now, parts.1.now, parts.2.now)) }
{
    let (first, rest) = split_once(text, b',')?;
    let (second, third) = pair_in(rest)?;
    Some((trim(first), second, third))
}

/// The part before `(`, and that between it and a `)` at the end.
#[tactic(auto, unfolding(crate::specs::Lines::bracketed_in))]
pub fn bracketed_in(text: &[u8]) -> Option<(&[u8], &[u8])>
    ensures { MatchOption result (bracketed_in_of text.now ≡ None) (λ parts. bracketed_in_of text.now ≡ Some (parts.0.now, parts.1.now)) }
{
    let (front, rest) = split_once(text, b'(')?;
    let (inner, behind) = split_once(rest, b')')?;
    behind.is_empty().then_some((trim(front), trim(inner)))
}
