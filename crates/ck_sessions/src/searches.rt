ghost use Rattle.std.specs.Prelude.{◌≡◌, filter, nat_lt};
ghost use Rattle.std.specs.List.Sorted.{IsNonDecreasingBy};
ghost use Rattle.ck_sessions.specs.Rows.{new_search};

use ck_types::Sequence;

/// An active search for objects (PKCS #11 Base 3.0, Object management functions).
#[derive(Drop)]
pub(crate) struct Search {
    /// The numbers of the objects that it found when it started, in ascending order.
    found: Sequence<u64>,
    /// The number of the object that it returned last; 0 where it has returned none.
    pub(crate) last: u64,
}

impl Search {
    /// A search that found the objects of these numbers.
    pub(crate) fn new(found: Sequence<u64>) -> Search
        ensures { result ≡ new_search found }
    {
        Search { found, last: 0 }
    }

    /// The numbers that it found and that come after the one that it returned last. Where they
    /// begin is found by a binary search.
    pub(crate) fn remaining(&self) -> &[u64]
        ensures { IsNonDecreasingBy (λ n. n) self.now.found
            → result.now ≡ filter (λ n. nat_lt self.now.last n) self.now.found }
    {
        let found = self.found.as_slice();
        let start = found.partition_point(|number| *number <= self.last);
        &found[start..]
    }
}
