use crate::calls::Call;
use ck_mac::RunningTag;

/// Work on the message of a call that is done before the call is made. It needs no token, so others
/// may call the token while the bytes of a long message are taken in. The token begins it
/// (`JournaledToken::work`), `finish` does it, and `JournaledToken::call_after` makes the call with
/// it.
#[derive(Drop)]
pub struct Work {
    /// How many entries the journal had when the work was begun.
    pub entries: u64,
    /// The running tag of the operation's message as it was then; once the work is done, of that
    /// message followed by the bytes of the call.
    pub running: RunningTag,
}

impl Work {
    ghost use Rattle.ck_journal.specs.Histories.{History};
    ghost use Rattle.ck_journal.specs.Works.{IsBegun, IsDone};

    /// Does the work that was begun for this call, once: takes in the bytes of the call. It takes
    /// no memory.
    pub fn finish(&mut self, call: &Call)
        ensures { (h : History) → IsBegun h call.now self.old → IsDone h call.now self.new }
    {
        self.running.update(call.taken_bytes());
    }
}
