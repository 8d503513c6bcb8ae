//! Strikes that are drawn at random.
ghost use Rattle.std.specs.Prelude.{◌≡◌, ◌+◌, ◌*◌, ◌%◌, ◌<◌, true, All, IfOk, OnOk, map};
ghost use Rattle.rv_isa.specs.declared.profile.TheConstants.{ORIGINALS};
ghost use Rattle.tests.specs.Admission.DataRanges.{range_of, word_address as word_address_of};
ghost use Rattle.test_gen.specs.Random.{after};
ghost use Rattle.campaign.specs.Draw.{numbered_place as place_of_number, has_place as has_place_of, drawn_place as drawn_place_of, window as window_of};
ghost use Rattle.campaign.specs.Draw.{drawn_change as drawn_change_of, drawn_strike as drawn_strike_of, strike_count as strike_count_of};
ghost use Rattle.campaign.specs.Draw.{drawn_strikes as drawn_strikes_of, HasWords};
ghost use Rattle.campaign.specs.Struck.{IsStrike};

use qed_model::{Aim, Change, Changes, Draws, Place, Places, Plan, Range, add_change};
use rand_pcg::Pcg64;
use rv_isa::Reg;
use rv_isa::profile::ORIGINALS;
use std::alloc::{AllocError, Global};
use test_gen::{drawn, seeded};

/// The address of data word `number`, from 0, of ranges that ascend; 0 behind the last.
pub fn word_address(ranges: &[Range], number: u64) -> u64
    ensures { result ≡ word_address_of (map range_of ranges.now) number }
{
    let mut left = number;
    for range in ranges {
        let words = range.end.saturating_sub(range.start) / 8;
        if left < words {
            return range.start + 8 * left;
        }
        left -= words;
    }
    0
}

/// Register x1 to x13, by its number from 0.
pub fn register(number: u64) -> Reg
    requires { number < ORIGINALS }
    ensures { result ≡ number + 1 }
{
    rv_isa::register(number as u8 + 1)
}

/// Place `number` of the originals: x1 to x13, then the data words.
#[tactic(auto, unfolding(crate::specs::Draw::numbered_place))]
fn place_of(ranges: &[Range], number: u64) -> Place
    ensures { result ≡ place_of_number (map range_of ranges.now) number }
{
    if number < u64::from(ORIGINALS) {
        Place::Reg(register(number))
    } else {
        Place::Word(word_address(ranges, number - u64::from(ORIGINALS)))
    }
}

/// The remainder by the number of x1 to x13 and the data words.
fn place_number(word: u64, words: u64) -> u64
    ensures { result ≡ word % (ORIGINALS + words) }
{
    (u128::from(word) % (u128::from(ORIGINALS) + u128::from(words))) as u64
}

/// The place that a random word gives.
#[tactic(auto, unfolding(crate::specs::Draw::drawn_place))]
fn drawn_place(plan: &Plan, only: Option<Places>, word: u64) -> Place
    requires words { HasWords plan.now }
    requires place { has_place_of only plan.now.words ≡ true }
    ensures { result ≡ drawn_place_of only (map range_of plan.now.span) word }
{
    let ranges = plan.span.as_slice();
    match only {
        None => place_of(ranges, place_number(word, plan.words)),
        Some(Places::Registers) => Place::Reg(register(word % u64::from(ORIGINALS))),
        Some(Places::Words) => Place::Word(word_address(ranges, word % plan.words)),
    }
}

/// The step that a random word gives.
pub(crate) fn drawn_step(aim: Aim, reach: u64, word: u64) -> u64
    ensures { result ≡ aim.from + word % window_of aim reach }
{
    let window = aim.to.unwrap_or(reach).saturating_sub(aim.from).max(1);
    aim.from + word % window
}

/// The change that the next three random words make.
#[tactic(auto, unfolding(crate::specs::Draw::drawn_change))]
fn drawn_change(rng: &mut Pcg64, plan: &Plan, reach: u64, aim: Aim) -> Change
    requires words { HasWords plan.now }
    requires place { has_place_of aim.only plan.now.words ≡ true }
    ensures change { result ≡ drawn_change_of (map range_of plan.now.span) reach aim rng.old }
    ensures rng { rng.new ≡ after 3 rng.old }
{
    let step = drawn_step(aim, reach, drawn(rng));
    let place = drawn_place(plan, aim.only, drawn(rng));
    let value = drawn(rng);
    Change { step, place, value }
}

/// A strike, of the next random words.
#[tactic(auto, unfolding(crate::specs::Draw::drawn_strike))]
fn drawn_strike(
    alloc: Global,
    rng: &mut Pcg64,
    plan: &Plan,
    reach: u64,
    draws: &Draws,
) -> Result<Changes, AllocError>
    requires words { HasWords plan.now }
    requires place { has_place_of draws.now.aim.only plan.now.words ≡ true }
    ensures strike { IfOk result (λ strike. strike ≡ drawn_strike_of (map range_of plan.now.span) reach draws.now.aim draws.now.changes rng.old) }
    ensures rng { OnOk result (rng.new ≡ after (3 * draws.now.changes) rng.old) }
{
    let mut made = Vec::new(alloc);
    for _ in 0..draws.changes {
        let change = drawn_change(rng, plan, reach, draws.aim);
        add_change(&mut made, change)?;
    }
    Ok(Changes::of(made))
}

/// Whether there is a place to strike.
fn has_place(only: Option<Places>, words: u64) -> bool
    ensures { result ≡ has_place_of only words }
{
    match only {
        Some(Places::Words) => 0 < words,
        _ => true,
    }
}

/// How many strikes are drawn: none without a place.
fn strike_count(draws: &Draws, words: u64) -> u64
    ensures { result ≡ strike_count_of draws.now words }
{
    if has_place(draws.aim.only, words) {
        draws.count
    } else {
        0
    }
}

/// The strikes that the random words of a seed make, for an output with this plan that stops after
/// `reach` steps. The steps of a strike's changes do not fall.
pub fn drawn_strikes(
    alloc: Global,
    plan: &Plan,
    reach: u64,
    draws: &Draws,
) -> Result<Vec<Changes>, AllocError>
    requires { HasWords plan.now }
    ensures drawn { IfOk result (λ strikes. strikes.items ≡ drawn_strikes_of (map range_of plan.now.span) reach draws.now) }
    ensures fit { IfOk result (λ strikes. All (IsStrike plan.now.bounds) strikes.items) }
{
    let mut rng = seeded(draws.seed);
    let mut strikes = Vec::new(alloc);
    for _ in 0..strike_count(draws, plan.words) {
        let strike = drawn_strike(alloc, &mut rng, plan, reach, draws)?;
        strikes.push(strike)?;
    }
    Ok(strikes)
}
