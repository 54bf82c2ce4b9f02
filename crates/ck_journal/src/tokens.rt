use crate::bases::Base;
use crate::boards::TokenBoard;
use crate::calls::Call;
use crate::journals::Journal;
use crate::replies::Reply;
use crate::works::Work;
use ck_types::{Limits, NoMemory};
use std::alloc::Global;

/// What answers calls and enters each in a journal: a token. The crates that share a token among
/// threads, audit a journal and play a script need nothing else of a token.
pub trait JournaledToken: Drop {
    ghost use Rattle.std.specs.Prelude.{◌≡◌, IfOk, IfSome, OnErr};
    ghost use Rattle.std.specs.Option.{option_copied};
    ghost use Rattle.ck_journal.specs.Answers.{IsLegal};
    ghost use Rattle.ck_journal.specs.Bases.{empty_base, IsSound};
    ghost use Rattle.ck_journal.specs.Boards.{board_of};
    ghost use Rattle.ck_journal.specs.Histories.{start};
    ghost use Rattle.ck_journal.specs.MemoryNeeds.{FindsMemory};
    ghost use Rattle.ck_journal.specs.TokenStates.{TokenState, IsAnswered, IsUnchanged};
    ghost use Rattle.ck_journal.specs.Works.{IsBegun, IsAhead};

    // the token's limits, its history, and for how many more entries its journal has room
    ghost state: { Self → TokenState };

    /// A token that has answered no call, which takes no memory.
    fn new(alloc: Global, limits: Limits) -> Self
        ensures limits { (state result).limits ≡ limits }
        ensures history { (state result).history ≡ start empty_base };

    /// A token that starts from a base and has answered no call since.
    fn from_base(alloc: Global, limits: Limits, base: Base) -> Result<Self, NoMemory>
        requires { IsSound base }
        ensures limits { IfOk result (λ token. (state token).limits ≡ limits) }
        ensures history { IfOk result (λ token. (state token).history ≡ start base) };

    /// Answers a call and enters it in the journal. `caller` is a number of the application's
    /// choice. It stands in the entry, and no reply depends on it. Where there is no memory for the
    /// call, it isn't in the journal, and the limits and the history are as they were. Where the
    /// journal has room, only a call for which `may_run_out` is true can be without memory.
    fn call(&mut self, alloc: Global, caller: u32, call: Call) -> Result<Reply, NoMemory>
        ensures answered { IfOk result (λ reply.
            IsAnswered (state self.old) (state self.new) caller call reply) }
        ensures unchanged { OnErr result (IsUnchanged (state self.old) (state self.new)) }
        ensures legal { IsLegal (state self.new).limits (state self.new).history }
        ensures memory { FindsMemory (state self.old) (state self.new) call result };

    /// Begins the work on a message that the call brings, so that its bytes can be taken in before
    /// the call is made. The token may give `None` for any call; then there is no work to do.
    fn work(&self, call: &Call) -> Option<Work>
        ensures { IfSome result (IsBegun (state self.now).history call.now) };

    /// As `call`, with work that was begun for this call and is done. With or without work, the
    /// reply and the entry are those of `call`. Work is of no use where its operation has ended,
    /// was started again or got a piece since the work was begun.
    fn call_after(
        &mut self,
        alloc: Global,
        caller: u32,
        call: Call,
        work: Option<&Work>,
    ) -> Result<Reply, NoMemory>
        requires { IfSome (option_copied work) (IsAhead (state self.old).history call) }
        ensures answered { IfOk result (λ reply.
            IsAnswered (state self.old) (state self.new) caller call reply) }
        ensures unchanged { OnErr result (IsUnchanged (state self.old) (state self.new)) }
        ensures legal { IsLegal (state self.new).limits (state self.new).history }
        ensures memory { FindsMemory (state self.old) (state self.new) call result };

    /// The base that the token started from, and all calls that it has answered since.
    fn journal(&self) -> &Journal
        ensures history { result.now.history ≡ (state self.now).history }
        ensures legal { IsLegal (state self.now).limits (state self.now).history };

    /// How many sessions may be open at once, and how many openings of sessions, creations of
    /// objects and logins of the normal user there may be in all.
    fn limits(&self) -> Limits
        ensures { result ≡ (state self.now).limits };

    /// What C_GetSessionInfo and C_GetTokenInfo read of the token.
    fn board(&self) -> TokenBoard
        ensures { result ≡ board_of (state self.now).limits (state self.now).history };
}
