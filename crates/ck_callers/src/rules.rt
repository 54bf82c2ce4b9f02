use ck_journal::Entry;
use logbook::{Gain, Plain, Play, Rule};

/// The rule of the one word that threads share: it is the length of the log.
pub(crate) struct LengthOfLog;

impl Rule<Entry, u64> for LengthOfLog {
    ghost use Rattle.std.specs.Prelude.{[]};
    ghost use base.Fml.{ftrue};
    ghost use Rattle.ck_callers.specs.Rules.{HoldsLength};

    ghost holds = { λ cells log. HoldsLength cells log };

    ghost first = { [] };

    ghost hinted = { λ n log. Unit {0} };

    ghost shows = { λ log. [] };

    ghost keeps = { λ names log. ftrue };

    ghost moves = { λ ask before after answer. Unit {0} };
}

/// What a caller gains by an addition besides the entry: nothing.
pub(crate) struct Nothing;

impl Gain<Entry, u64> for Nothing {
    ghost use base.Fml.{ftrue};

    ghost after = { λ names about answer. ftrue };
}

/// The addition of an entry.
pub(crate) struct Add;

impl Play<Entry, u64> for Add {
    ghost use Rattle.ck_callers.specs.Rules.{Adds};

    ghost then = { Adds };
}

/// What the addition asks for: the entry.
impl Plain<Entry, Entry, u64> for Add {
    ghost use Rattle.std.specs.Prelude.{None};

    ghost ask = { λ entry. entry };

    ghost state = { λ entry. None };
}
