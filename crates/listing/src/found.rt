//! What checks have found if they fire.
ghost use Rattle.std.specs.Prelude.{◌≡◌, Some};
ghost use Rattle.listing.specs.Roles.{pair_found, found_by, found_text};

use qed_model::Role;
use rv_isa::Reg;
use rv_isa::profile::PAIR_DISTANCE;
use rv_text::Address;
use std::fmt;

/// What a check has found if it fires.
#[derive(Clone, Copy)]
pub enum Found {
    /// Two registers differ, by their numbers.
    Differ(u8, u8),
    /// The signature is not this input address.
    Signature(u64),
    /// A branch or a jump goes elsewhere by the originals than by the pairs.
    Ways,
    /// The check of the lean form was called from a block other than the signature's.
    Caller,
    /// Two look-ups of one entry differ.
    LookUps,
    /// A visited data word and its duplicate differ.
    Word,
}

impl Found {
    /// A register and its pair differ; the pair of x14 is x30.
    pub fn pair(r: Reg) -> Found
        ensures { result ≡ pair_found r }
    {
        match r.number() {
            0 => Found::Differ(0, 0),
            number => Found::Differ(number, number + PAIR_DISTANCE),
        }
    }

    /// What a check of a role has found; None if no check has the role.
    pub fn by(role: Role) -> Option<Found>
        ensures { result ≡ found_by role }
    {
        match role {
            Role::Guard(r, _) | Role::LeaveGuard(r, _) | Role::Compare(r, _, _) => Some(Found::pair(
                r,
            )),
            Role::End(r) | Role::CheckCompare(r) => Some(Found::pair(r)),
            Role::Entry(at) | Role::Sign(at) => Some(Found::Signature(at)),
            Role::Leave(_) => Some(Found::Ways),
            Role::Check => Some(Found::Caller),
            Role::LookUp => Some(Found::LookUps),
            Role::Visit(_, _) | Role::Sweep | Role::CheckVisit => Some(Found::Word),
            _ => None,
        }
    }
}

impl fmt::Display for Found {
    ghost output = { λ f. Some (found_text f) };

    fn fmt<W: fmt::Write>(&self, f: &mut fmt::Formatter<W>) -> fmt::Result {
        match self {
            Found::Differ(one, other) => write!(f, "x{one} and x{other} differ"),
            Found::Signature(at) => write!(f, "the signature is not that of {}", Address(*at)),
            Found::Ways => write!(f, "the originals and the pairs lead to different places"),
            Found::Caller => {
                write!(
                    f,
                    "the check was called from another block than that of the signature"
                )
            }
            Found::LookUps => write!(f, "two look-ups of the entry of the signature differ"),
            Found::Word => write!(
                f,
                "a data word and its duplicate differ, its address is in x15"
            ),
        }
    }
}
