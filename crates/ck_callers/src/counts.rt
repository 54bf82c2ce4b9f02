ghost use Rattle.std.specs.Prelude.{◌≡◌, ◌==◌};
ghost use Rattle.std.specs.List.{list_any};
ghost use Rattle.ck_callers.specs.Callers.{are_all};

use crate::callers::Caller;
use crate::identity::TokenId;
use std::marker::{Model, PhantomData};

/// How many callers a token has. A type of its own, so that its invariant ties the number to `K`.
#[derive(Drop)]
pub struct CallerCount<K: TokenId> {
    count: u32,
    of: PhantomData<K>,
}

impl<K: TokenId> Model for CallerCount<K> {
    ghost use Rattle.std.specs.Prelude.{ℕ, ◌≡◌};

    ghost Value = { ℕ };

    ghost view = { λ c. c.count };

    ghost invariant = { λ c. c.count ≡ K.callers };
}

impl<K: TokenId> CallerCount<K> {
    ghost use Rattle.std.specs.Prelude.{◌≡◌};
    ghost use Rattle.ck_callers.specs.Callers.{are_all};

    /// This number of callers.
    pub fn new(count: u32) -> CallerCount<K>
        requires { count ≡ K.callers }
        ensures { result ≡ count }
    {
        CallerCount {
            count,
            of: PhantomData,
        }
    }

    /// Whether each of the token's callers is one of these.
    pub fn are_all(&self, callers: &[Caller<K>]) -> bool
        ensures { result ≡ are_all K.callers callers.now }
    {
        covers_all(self.count, callers)
    }
}

/// Whether one of the callers has the number.
fn has_caller<K: TokenId>(number: u32, callers: &[Caller<K>]) -> bool
    ensures { result ≡ list_any (λ caller. caller.number == number) callers.now }
{
    callers.iter().any(|caller| caller.number() == number)
}

/// Whether each of the numbers 1 to `most` is that of one of the callers.
// By recursion, as the definition goes, so that no proof by hand is needed.
fn covers_all<K: TokenId>(most: u32, callers: &[Caller<K>]) -> bool
    ensures { result ≡ are_all most callers.now }
{
    most == 0 || (has_caller(most, callers) && covers_all(most - 1, callers))
}
