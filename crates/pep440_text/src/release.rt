//! The release numbers of versions.
//!
//! A list of candidates is mostly versions, nearly all of which have at most three release numbers. The
//! smallest heap block for two or three numbers is 32 bytes, so `Release` has a variant for each of these
//! lengths and one for longer releases: such a version is 120 bytes and allocates nothing.

ghost use Rattle.std.specs.Prelude.{◌≡◌, ◌<◌, length, take, IfOk, IfSome};
ghost use Rattle.std.specs.Option.{option_map};
ghost use Rattle.pep440_text.specs.Releases.{numbers_of, raised, last_raised};

use std::alloc::{AllocError, Global};

/// Release numbers: up to three inline, as most releases have, and more in memory of their own.
#[derive(Drop)]
pub enum Release {
    One([u64; 1]),
    Two([u64; 2]),
    Three([u64; 3]),
    More(Vec<u64>),
}

/// Returns the numbers inline, where they are one, two or three.
fn few(numbers: &[u64]) -> Option<Release>
    ensures { IfSome result (λ release. numbers_of release ≡ numbers.now) }
{
    match numbers {
        [a] => Some(Release::One([*a])),
        [a, b] => Some(Release::Two([*a, *b])),
        [a, b, c] => Some(Release::Three([*a, *b, *c])),
        _ => None,
    }
}

impl Release {
    /// Returns a release of these numbers. Takes memory for more than three.
    ///
    /// # Errors
    ///
    /// `AllocError` when memory runs out.
    pub fn from_slice(alloc: Global, numbers: &[u64]) -> Result<Release, AllocError>
        ensures { IfOk result (λ release. numbers_of release ≡ numbers.now) }
    {
        match few(numbers) {
            Some(release) => Ok(release),
            None => Ok(Release::More(Vec::from_slice(alloc, numbers)?)),
        }
    }

    /// Returns a release of these numbers, whose memory is freed where they are at most three.
    pub fn from_vec(numbers: Vec<u64>) -> Release
        ensures { numbers_of result ≡ numbers.items }
    {
        match few(&numbers) {
            Some(release) => release,
            None => Release::More(numbers),
        }
    }

    /// Returns the release numbers.
    pub fn numbers(&self) -> &[u64]
        ensures { result.now ≡ numbers_of self.now }
    {
        match self {
            Release::One(numbers) => numbers,
            Release::Two(numbers) => numbers,
            Release::Three(numbers) => numbers,
            Release::More(numbers) => numbers,
        }
    }

    /// Returns the release with its first `count` numbers, or all of them where there are fewer.
    pub fn truncated(self, count: usize) -> Release
        requires { 0 < count }
        ensures { numbers_of result ≡ take count (numbers_of self) }
    {
        match self {
            Release::One(numbers) => Release::One(numbers),
            Release::Two(numbers) => {
                let [a, b] = numbers;
                match count {
                    1 => Release::One([a]),
                    _ => Release::Two([a, b]),
                }
            }
            Release::Three(numbers) => {
                let [a, b, c] = numbers;
                match count {
                    1 => Release::One([a]),
                    2 => Release::Two([a, b]),
                    _ => Release::Three([a, b, c]),
                }
            }
            Release::More(mut numbers) => {
                numbers.truncate(count);
                Release::from_vec(numbers)
            }
        }
    }

    /// Returns the release with its last number raised by one; `None` where that exceeds 64 bits.
    pub fn with_last_raised(self) -> Option<Release>
        ensures raised { option_map numbers_of result ≡ last_raised (numbers_of self) }
        ensures some { IfSome result (λ release. 0 < length (numbers_of release)) }
    {
        match self {
            Release::One(numbers) => {
                let [a] = numbers;
                Some(Release::One([raised(a)?]))
            }
            Release::Two(numbers) => {
                let [a, b] = numbers;
                Some(Release::Two([a, raised(b)?]))
            }
            Release::Three(numbers) => {
                let [a, b, c] = numbers;
                Some(Release::Three([a, b, raised(c)?]))
            }
            Release::More(numbers) => Some(Release::More(with_last_raised(numbers)?)),
        }
    }
}

/// Returns the number plus one; `None` where that exceeds 64 bits.
pub fn raised(number: u64) -> Option<u64>
    ensures { result ≡ raised number }
{
    number.checked_add(1)
}

/// Returns the numbers with the last raised by one; `None` where that exceeds 64 bits.
pub fn with_last_raised(mut numbers: Vec<u64>) -> Option<Vec<u64>>
    ensures raised { option_map (λ raised. raised.items) result ≡ last_raised numbers.items }
    ensures some { IfSome result (λ raised. 0 < length raised.items) }
{
    let last = numbers.pop()?;
    let next = raised(last)?;
    match numbers.push(next) {
        Ok(()) => Some(numbers),
        Err(_) => unreachable!(),
    }
}
