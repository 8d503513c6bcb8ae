//! A piece, composed of passes: all original parts, all mirror parts, the comparison and the visits.
ghost use Rattle.std.specs.Prelude.{◌≡◌, ◌+◌, ◌*◌, ◌^◌, ◌<◌, [], IfOk, length};
ghost use Rattle.weave_core.specs.Blocks.{AllFit};
ghost use Rattle.plc_rounds.specs.Spans.{spans_of};
ghost use Rattle.qed_model.specs.Weave.Bounds.{cost_of};
ghost use Rattle.qed_model.specs.Weave.Forms.{mirror_of};
ghost use Rattle.qed_model.specs.Weave.Sequences.{Form, piece as piece_of};
ghost use Rattle.passes.specs.Pass.{Honest, Lockstep};
ghost use Rattle.weave.specs.Piece.{any, passes_items, PieceLeads};

use eddi_dup::{CompareAll, Original};
use guard_insert::Guarded;
use mirror_forms::Mirror;
use passes::{Each, Emit, Once, Then, emitted};
use plc_rounds::Visit;
use qed_model::Ranges;
use rv_isa::Ins;
use std::alloc::{AllocError, Global};

/// The passes of a piece.
pub type Piece = Then<Each<Guarded<Original>>, Then<Each<Mirror>, Once<Then<CompareAll, Visit>>>>;

/// The passes of a piece, whose mirror parts may be of other kinds; behind it `round` data words are visited.
pub fn piece(diverse: bool, round: u64, span: Ranges) -> Piece
    ensures diverse { result.second.first.pass.diverse ≡ diverse }
    ensures round { result.second.second.pass.second.round ≡ round }
    ensures span { result.second.second.pass.second.span ≡ span }
{
    Then {
        first: Each {
            pass: Guarded { pass: Original },
        },
        second: Then {
            first: Each {
                pass: Mirror { diverse },
            },
            second: Once {
                pass: Then {
                    first: CompareAll,
                    second: Visit { round, span },
                },
            },
        },
    }
}

/// The items of a piece whose first instruction stands at `first`.
pub fn woven_piece(
    alloc: Global,
    passes: &Piece,
    list: &[Ins],
    first: u64,
) -> Result<Emit, AllocError>
    requires fits { AllFit list.now }
    requires low { first + 4 * length list.now < 2 ^ 64 }
    ensures items { IfOk result (λ out. out ≡ passes_items (mirror_of passes.now.second.first.pass.diverse)
        passes.now.second.second.pass.second.round (spans_of passes.now.second.second.pass.second.span) list.now first) }
    ensures woven { IfOk result (λ out. (form : Form) → form.mirror ≡ mirror_of passes.now.second.first.pass.diverse
        → form.round ≡ passes.now.second.second.pass.second.round
        → form.spans ≡ spans_of passes.now.second.second.pass.second.span → out ≡ piece_of form list.now first) }
    ensures leads { IfOk result (λ out. PieceLeads (cost_of passes.now.second.first.pass.diverse)
        passes.now.second.second.pass.second.round (spans_of passes.now.second.second.pass.second.span) out list.now first) }
    ensures honest { IfOk result (λ out. Honest any out) }
    ensures lockstep { IfOk result (λ out. Lockstep any [] out) }
{
    let out = emitted(passes, alloc, list, first)?;
    Ok(out)
}
