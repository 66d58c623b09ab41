// The count of consecutive items, from the first, that pass a closure's test.
ghost use Rattle.std.specs.Prelude.{ℕ, true, false, ◌≤◌, ◌<◌};

// The first of n items that fails a test, n where all items pass. A closure may answer the same item in two ways, so it need not
// be a `Test`; it is called once for each item up to the first that fails.
pub fn first_failing<F: Fn(u16) -> bool>(n: u16, passes: F) -> u16
    requires { (i : ℕ) → i < n → F.pre passes i }
    ensures within { result ≤ n }
    ensures passing { (i : ℕ) → i < result → F.post passes i true }
    ensures failing { result < n → F.post passes result false }
{
    for i in 0..n {
        if !passes(i) {
            return i;
        }
    }
    n
}

#[cfg(test)]
mod tests {
    use super::*;
    use std::test::Fail;

    #[test]
    fn stops_at_the_first_that_fails() -> Result<(), Fail> {
        let numbers = [3u8, 5, 8, 9, 6];
        for (n, wanted) in [(5, 2), (3, 2), (2, 2), (1, 1), (0, 0)] {
            let found = first_failing(n, |i| numbers[i as usize] % 2 == 1);
            (found == wanted)
                .then_some(())
                .ok_or("the first even number")?;
        }
        Ok(())
    }
}
