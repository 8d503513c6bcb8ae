//! Texts in two parts.
ghost use Rattle.std.specs.Prelude.{◌≡◌, ◌<◌, ◌==◌, MatchOption, IfSome, length, Some, None};
ghost use Rattle.std.specs.List.{position_from};
ghost use Rattle.texts.specs.Read.{parted};

/// The first place of the byte `at`.
fn place_of(text: &[u8], at: u8) -> Option<usize>
    ensures first { result ≡ position_from (λ b. b == at) 0 text.now }
    ensures inside { IfSome result (λ i. i < length text.now) }
{
    text.iter().position(|&byte| byte == at)
}

/// The texts before and behind the first byte `at`, None where there is none.
#[tactic(auto, unfolding(crate::specs::Read::parted))]
pub fn split_once(text: &[u8], at: u8) -> Option<(&[u8], &[u8])>
    ensures { MatchOption result (parted at text.now ≡ None) (λ parts. parted at text.now ≡ Some (parts.0.now, parts.1.now)) }
{
    let place = place_of(text, at)?;
    Some((text.split_at(place).0, text.split_at(place + 1).1))
}
