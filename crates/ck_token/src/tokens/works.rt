use super::Token;
use ck_journal::{Call, Work, is_too_long};
use ck_mac::RunningTag;
use ck_operations::Operation;

/// Whether the call takes in a long message: it isn't refused for its length or for an earlier
/// update, and its reply isn't only a length. A wrong answer would only cost time, since the call
/// makes its checks itself.
fn takes_long_message(call: &Call, operation: &Operation) -> bool {
    if !call.brings_long_message() || is_too_long(call.taken_bytes()) {
        return false;
    }
    match call {
        Call::Digest { room, .. } | Call::Sign { room, .. } => {
            room.is_some_and(|room| operation.tag_len() <= room) && !operation.is_updated()
        }
        Call::Verify { .. } => !operation.is_updated(),
        Call::DigestUpdate { .. } | Call::SignUpdate { .. } | Call::VerifyUpdate { .. } => true,
        // No other call brings bytes of a message.
        _ => false,
    }
}

/// Long messages, which may be taken in before their call is made.
impl Token {
    ghost use Rattle.std.specs.Prelude.{IfSome};
    ghost use Rattle.std.specs.Option.{option_copied};
    ghost use Rattle.ck_journal.specs.Works.{IsBegun, IsAhead, HoldsAfter};

    /// Begins the work on a long message that the call brings, so that its bytes can be taken in
    /// before the call is made. It takes no memory. `None` where there is nothing to take in: fewer
    /// than 4,096 bytes or more than a call may bring, no operation that takes them in, or a reply
    /// that is only a length.
    pub fn work(&self, call: &Call) -> Option<Work>
        ensures { IfSome result (IsBegun self.now.history call.now) }
    {
        let (kind, session) = call.operation()?;
        let operation = self.parts.operations.get(kind, session)?;
        if !takes_long_message(call, operation) {
            return None;
        }
        Some(Work {
            entries: self.journal.len(),
            running: operation.running().duplicate(),
        })
    }

    /// The running tag of the work, where the call's operation was last changed before the work was
    /// begun.
    // Inlined: a short call has no work, and then this is one test.
    #[inline(always)]
    pub(super) fn ready_tag<'a>(
        &self,
        call: &Call,
        work: Option<&'a Work>,
    ) -> Option<&'a RunningTag>
        requires { IfSome (option_copied work) (IsAhead self.now.history call.now) }
        ensures { IfSome (option_copied result) (HoldsAfter self.now.history call.now) }
    {
        let work = work?;
        let (kind, session) = call.operation()?;
        let current = self.parts.operations.get(kind, session)?;
        // No `then_some`, so that the proof has the two cases apart.
        if current.last_change() < work.entries {
            Some(&work.running)
        } else {
            None
        }
    }
}
