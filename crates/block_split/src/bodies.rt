//! How far the body of a block goes.
ghost use Rattle.std.specs.Prelude.{◌≡◌, ◌≤◌, length};
ghost use Rattle.machine.specs.Numbers.{is_at};
ghost use Rattle.block_split.specs.Bodies.{is_behind, ends, size_behind, end_behind, body_size, body_end};

use flow_recovery::is_end;
use qed_model::CodeWord;
use rv_isa::Ins;

/// How many words a body has, and the instruction behind them that ends the block.
#[derive(Clone, Copy)]
pub struct Body {
    pub size: usize,
    pub end: Option<Ins>,
}

/// Whether the word is an instruction that ends a block.
pub fn ends(word: &CodeWord) -> bool
    ensures { result ≡ ends word.now }
{
    is_end(word.ins.class())
}

/// Whether `found` is this address.
pub fn is_at(found: Option<u64>, address: u64) -> bool
    ensures { result ≡ is_at found address }
{
    match found {
        Some(it) => it == address,
        None => false,
    }
}

/// Whether the word stands right behind the one at `previous`, and is not at the next leader.
fn is_behind(previous: u64, word: &CodeWord, next: Option<u64>) -> bool
    ensures { result ≡ is_behind (is_at next) previous word.now }
{
    u128::from(word.at) == u128::from(previous) + 4 && !is_at(next, word.at)
}

/// How many of the words that follow the one at `start` belong to its body, and the ending instruction, before `next`.
fn body_behind(start: u64, words: &[CodeWord], next: Option<u64>) -> Body
    ensures size { result.size ≡ size_behind (is_at next) start words.now }
    ensures within { result.size ≤ length words.now }
    ensures end { result.end ≡ end_behind (is_at next) start words.now }
{
    let mut previous = start;
    let mut size = 0;
    for word in words {
        if !is_behind(previous, word, next) {
            return Body { size, end: None };
        }
        if ends(word) {
            let end = Some(word.ins);
            return Body { size, end };
        }
        previous = word.at;
        size += 1;
    }
    Body { size, end: None }
}

/// The body of the block that begins with the first of these words; `next` is the first leader behind it.
pub fn first_body(words: &[CodeWord], next: Option<u64>) -> Body
    requires { 1 ≤ length words.now }
    ensures size { result.size ≡ body_size (is_at next) words.now }
    ensures within { result.size ≤ length words.now }
    ensures end { result.end ≡ body_end (is_at next) words.now }
{
    let first = words[0];
    if ends(&first) {
        let end = Some(first.ins);
        return Body { size: 0, end };
    }
    let more = body_behind(first.at, &words[1..], next);
    Body {
        size: more.size + 1,
        end: more.end,
    }
}
