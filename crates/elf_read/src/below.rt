//! The numbers below a bound, as those of the records of a table.
ghost use Rattle.std.specs.Prelude.{◌≡◌, ◌<◌, ◌≤◌, ◌*◌, ◌^◌, ℕ, Bool, true, IfSome, IfOk};
ghost use Rattle.machine.specs.Below.{first_below, sum_below, each};

use std::alloc::{AllocError, Global};

/// The first number below n that passes a test.
pub fn first_of<F: Fn(u64) -> bool>(n: u64, test: &F) -> Option<u64>
    requires { (i : ℕ) → i < n → F.pre test.now i }
    ensures below { IfSome result (λ i. i < n) }
    ensures passes { IfSome result (λ i. F.post test.now i true) }
    ensures first { (p : ℕ → Bool) → ((i : ℕ) (b : Bool) → i < n → F.post test.now i b → b ≡ p i) → result ≡ first_below n p }
{
    for i in 0..n {
        if test(i) {
            return Some(i);
        }
    }
    None
}

/// The sum of what a function gives at each number below n.
pub fn sum_of<F: Fn(u64) -> u64>(n: u64, f: &F) -> u128
    requires { (i : ℕ) → i < n → F.pre f.now i }
    ensures below { result ≤ n * 2 ^ 64 }
    ensures sum { (g : ℕ → ℕ) → ((i x : ℕ) → i < n → F.post f.now i x → x ≡ g i) → result ≡ sum_below n g }
{
    let mut sum: u128 = 0;
    for i in 0..n {
        sum += u128::from(f(i));
    }
    sum
}

/// What is made at each number below n, in order.
#[tactic(auto, using(machine::proofs::BelowLaws::each_none, machine::proofs::BelowLaws::push_each))]
pub fn list_of<T: Drop, F: Fn(u64) -> Result<T, AllocError>>(
    alloc: Global,
    n: u64,
    make: &F,
) -> Result<Vec<T>, AllocError>
    requires { (i : ℕ) → i < n → F.pre make.now i }
    ensures { (g : ℕ → T) → ((i : ℕ) (r : _) → i < n → F.post make.now i r → IfOk r (λ x. x ≡ g i)) → IfOk result (λ v. v.items ≡ each n g) }
{
    let mut items = Vec::new(alloc);
    for i in 0..n {
        items.push(make(i)?)?;
    }
    Ok(items)
}
