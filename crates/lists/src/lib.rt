// Lists of calls, each on the state that the call before left (specs/History.antt), items of a list that pass a test,
// and tables of codes; and in code the count of consecutive items, from the first, that pass a test.
#![tactic(auto)]

ghost use Rattle.std.specs.Prelude.{ℕ, Bool, ◌≡◌};
ghost use Rattle.lists.specs.Leading.{leading};

mod closures;

pub use closures::first_failing;

// A test of items by their index.
pub trait Test {
    // Whether the item passes.
    ghost passes: { Self → ℕ → Bool };

    fn passes(&self, i: u16) -> bool
        ensures { result ≡ passes self.now i };
}

// The first of n items that fails a test, n where all items pass.
pub fn count_leading<T: Test>(n: u16, test: &T) -> u16
    ensures { result ≡ leading (T.passes test.now) n }
{
    for i in 0..n {
        if !test.passes(i) {
            return i;
        }
    }
    n
}
