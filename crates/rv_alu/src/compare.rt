//! Comparisons ("Conditional Branches" of the RISC-V unprivileged manual).
ghost use Rattle.std.specs.Prelude.{◌≡◌, ◌==◌, not, int_lt, nat_lt};
ghost use Rattle.machine.specs.Values.{s64};

/// Whether both are equal.
pub(crate) fn equal(a: u64, b: u64) -> bool
    ensures { result ≡ (a == b) }
{
    a == b
}

/// Whether both differ.
pub(crate) fn unequal(a: u64, b: u64) -> bool
    ensures { result ≡ not (a == b) }
{
    a != b
}

/// Whether a is less than b, both read as signed.
pub(crate) fn less(a: u64, b: u64) -> bool
    ensures { result ≡ int_lt (s64 a) (s64 b) }
{
    a.cast_signed() < b.cast_signed()
}

/// Whether a is at least b, both read as signed.
pub(crate) fn not_less(a: u64, b: u64) -> bool
    ensures { result ≡ not (int_lt (s64 a) (s64 b)) }
{
    !less(a, b)
}

/// Whether a is less than b.
pub(crate) fn below(a: u64, b: u64) -> bool
    ensures { result ≡ nat_lt a b }
{
    a < b
}

/// Whether a is at least b.
pub(crate) fn not_below(a: u64, b: u64) -> bool
    ensures { result ≡ not (nat_lt a b) }
{
    a >= b
}
