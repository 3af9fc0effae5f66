//! The inputs of a program's harts.
ghost use Rattle.std.specs.Prelude.{◌≡◌, ◌<◌, ◌^◌, All, IfOk, MatchResult, length};
ghost use Rattle.machine.specs.Start.{IsStartable, RefusesStart};

use hart_reservations::MAX_HARTS;
use std::marker::Model;
use thiserror::Error;

/// The reason why no machine can start with some inputs.
#[derive(Clone, Copy, Debug, PartialEq, Eq, Error)]
pub enum StartFault {
    /// There is no input, so there would be no hart.
    #[error("start fault 1 NoHarts")]
    NoHarts,
    /// There are more than `MAX_HARTS` inputs.
    #[error("start fault 2 TooManyHarts")]
    TooManyHarts,
}

/// The inputs of a program's harts, one word each: 1 to `MAX_HARTS` words.
#[derive(Drop)]
pub struct Inputs {
    words: [u32; MAX_HARTS],
    count: usize,
}

impl Model for Inputs {
    ghost use Rattle.std.specs.Prelude.{ℕ, ◌<◌, ◌≤◌, ◌^◌, All, List, take};

    ghost Value = { List ℕ };

    ghost view = { λ i. take i.count i.words };

    ghost invariant = { λ i. (0 < i.count) × (i.count ≤ 32) × All (λ x. x < 2 ^ 32) (take i.count i.words) };
}

impl Inputs {
    /// The inputs of these words; a fault if there are none or more than `MAX_HARTS`.
    pub fn new(words: &[u32]) -> Result<Inputs, StartFault>
        ensures same { MatchResult result
            (λ inputs. (inputs ≡ words.now) × IsStartable words.now)
            (λ fault. RefusesStart words.now fault) }
        ensures words { IfOk result (λ _. All (λ x. x < 2 ^ 32) words.now) }
    {
        if words.is_empty() {
            return Err(StartFault::NoHarts);
        }
        if words.len() > MAX_HARTS {
            return Err(StartFault::TooManyHarts);
        }
        see_words(words);
        let mut kept = [0; MAX_HARTS];
        kept[..words.len()].copy_from_slice(words);
        Ok(Inputs {
            words: kept,
            count: words.len(),
        })
    }

    /// The input of each hart, in the order of their numbers.
    pub fn words(&self) -> &[u32]
        ensures same { result.now ≡ self.now }
        ensures startable { IsStartable self.now }
        ensures words { All (λ x. x < 2 ^ 32) self.now }
    {
        &self.words[..self.count]
    }

    /// The number of harts: 1 to `MAX_HARTS`.
    pub fn harts(&self) -> u32
        ensures harts { result ≡ length self.now }
        ensures startable { IsStartable self.now }
    {
        self.count as u32
    }
}

/// Reads each word; the proofs then have that it is below 2^32.
pub fn see_words(words: &[u32])
    ensures { All (λ x. x < 2 ^ 32) words.now }
{
    'words: for word in words {
        let _word = *word;
    }
}
