//! A window on the code, in which words are found at once.
ghost use Rattle.std.specs.Prelude.{◌≡◌, ℕ, ◌%◌, ◌≤◌, true, IfNone, IfSome};
ghost use Rattle.machine.specs.Step.{State};
ghost use Rattle.mem_image.specs.Fixed.{IsFixedCode};
ghost use Rattle.mem_image.specs.Segments.{has_all};
ghost use Rattle.rv_step.specs.Known.{state_word};
ghost use Rattle.rv_step.specs.Reached.{IsRunOfWords};
ghost use Rattle.rv_step.specs.Windows.{WindowHasWords, IsIn, IsWindow, StandsFixed};

use mem_image::Code;

/// Words of one code range and one page, which no store changes. There may be none.
#[derive(Drop)]
pub struct Window {
    /// The first address of a word,
    first: u64,
    /// and how many addresses there are from it on.
    count: u64,
    /// The page, where there are any.
    code: Option<Code>,
}

impl Window {
    /// A window without words.
    pub fn none() -> Window
        ensures { (s : State) → IsWindow s result }
    {
        Window {
            first: 0,
            count: 0,
            code: None,
        }
    }

    /// The words of a page that begin from one address on, up to another.
    pub fn of(code: Code, first: u64, last: u64) -> Window
        ensures window { (s : State) → s.pc % 4 ≡ 0 → IsFixedCode s.memory code → IsRunOfWords s.ranges first last → IsWindow s result }
        ensures all { (a : ℕ) → first ≤ a → a ≤ last → has_all code a 4 ≡ true → IsIn result a }
    {
        if code.size() < 4 {
            return Window::none();
        }
        let first = first.max(code.start());
        let last = last.min(code.start().saturating_add(code.size() - 4));
        if last < first {
            return Window::none();
        }
        Window {
            first,
            count: last - first + 1,
            code: Some(code),
        }
    }

    /// The word at an address, where it is one of those.
    #[inline(always)]
    #[tactic(auto, using(crate::proofs::WindowLaws::window_word, crate::proofs::WindowLaws::window_fixed))]
    pub fn word(&self, address: u64) -> Option<u32>
        requires { WindowHasWords self.now }
        ensures word { IfSome result (λ word. (s : State) → IsWindow s self.now → address ≡ s.pc → state_word s address ≡ Some word) }
        ensures fixed { IfSome result (λ word. (s : State) → IsWindow s self.now → StandsFixed s address word) }
        ensures none { IfNone result (¬ (IsIn self.now address)) }
    {
        if address.wrapping_sub(self.first) >= self.count {
            return None;
        }
        let code = self.code.as_ref()?;
        Some(code.word(address))
    }
}
