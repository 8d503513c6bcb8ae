//! The shapes of faults, slips and dumps.
ghost use Rattle.std.specs.Prelude.{◌≡◌};
ghost use Rattle.qed_words.specs.Words.{parsed_place as place_of, fault as fault_of, plain_slip as plain_slip_of, valued_slip as valued_slip_of};
ghost use Rattle.qed_words.specs.Words.{way as way_of, slip as slip_of, dump as dump_of};

use qed_model::{Change, Place};
use rv_step::{Slip, SlipAt};
use texts::{number, register, split_once};

/// A register, or the address of an aligned word.
#[tactic(auto, unfolding(crate::specs::Words::parsed_place))]
fn place(text: &[u8]) -> Option<Place>
    ensures { result ≡ place_of text.now }
{
    match text {
        [] => None,
        [b'x', register_text @ ..] => Some(Place::Reg(register(register_text)?)),
        _ => {
            let address = number(text)?;
            (address % 8 == 0).then_some(Place::Word(address))
        }
    }
}

/// The change that a fault asks for: `STEP:PLACE=V`.
#[tactic(auto, unfolding(crate::specs::Words::fault))]
pub fn fault(text: &[u8]) -> Option<Change>
    ensures { result ≡ fault_of text.now }
{
    let (step, rest) = split_once(text, b':')?;
    let (spot, value) = split_once(rest, b'=')?;
    Some(Change {
        step: number(step)?,
        place: place(spot)?,
        value: number(value)?,
    })
}

/// The way that needs no number.
fn plain_slip(text: &[u8]) -> Option<Slip>
    ensures { result ≡ plain_slip_of text.now }
{
    if text == "skip".as_bytes() {
        return Some(Slip::Skip);
    }
    (text == "branch".as_bytes()).then_some(Slip::Branch)
}

/// The way with a name and a number.
fn valued_slip(name: &[u8], value: u64) -> Option<Slip>
    ensures { result ≡ valued_slip_of name.now value }
{
    if name == "result".as_bytes() {
        return Some(Slip::Result(value));
    }
    if name == "store".as_bytes() {
        return Some(Slip::Store(value));
    }
    (name == "place".as_bytes()).then_some(Slip::Place(value))
}

/// How an instruction goes wrong: `skip`, `branch`, `result=V`, `store=V` or `place=A`.
#[tactic(auto, unfolding(crate::specs::Words::way))]
fn way(text: &[u8]) -> Option<Slip>
    ensures { result ≡ way_of text.now }
{
    match split_once(text, b'=') {
        None => plain_slip(text),
        Some((name, value)) => valued_slip(name, number(value)?),
    }
}

/// The instruction that goes wrong, and how: `STEP:WAY`.
#[tactic(auto, unfolding(crate::specs::Words::slip))]
pub fn slip(text: &[u8]) -> Option<SlipAt>
    ensures { result ≡ slip_of text.now }
{
    let (step, rest) = split_once(text, b':')?;
    Some(SlipAt {
        step: number(step)?,
        slip: way(rest)?,
    })
}

/// The address and the length of a dump: `ADDR:LEN`.
#[tactic(auto, unfolding(crate::specs::Words::dump))]
pub fn dump(text: &[u8]) -> Option<(u64, u64)>
    ensures { result ≡ dump_of text.now }
{
    let (front, back) = split_once(text, b':')?;
    let (address, size) = (number(front)?, number(back)?);
    if size < 1 || size > 65_536 {
        return None;
    }
    // The last byte has an address; the end may be 2^64.
    address.checked_add(size - 1)?;
    Some((address, size))
}
