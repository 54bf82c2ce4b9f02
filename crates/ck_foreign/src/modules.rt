ghost use Rattle.std.specs.Option.{option_copied};
ghost use Rattle.std.specs.Prelude.{◌≡◌, ◌<◌, OnOk, IfSome, false};
ghost use Rattle.ck_journal.specs.Works.{IsAhead};
ghost use Rattle.ck_script.specs.Replies.{reply_line};
ghost use Rattle.ck_foreign.specs.Calls.{IsCalled, IsLine, IsText};
ghost use Rattle.ck_foreign.specs.Lives.{IsNew, IsModuleCut};
ghost use Rattle.ck_foreign.specs.declared.outcomes.Outcome.TheVariants as outcome;
ghost use Rattle.ck_journal.specs.MemoryNeeds.{may_run_out};

use crate::outcomes::Outcome;
use ck_script::{Line, LineError, push_line};
use ck_token::{Body, Call, Limits, NoMemory, Reply, Rv, Token, Uncut, Work};
use std::alloc::Global;

/// A token, the reply to the last call that it answered, and the text that was last made of one.
#[derive(Drop)]
pub struct Module {
    pub token: Token,
    pub reply: Reply,
    pub text: Vec<u8>,
}

/// Writes the text of a reply, without a line end, in place of what stood there.
fn write_reply(text: &mut Vec<u8>, reply: &Reply) -> Result<(), NoMemory>
    ensures { OnOk result (text.new.items ≡ reply_line reply.now) }
{
    text.clear();
    push_line(text, reply)
}

impl Module {
    /// A new token of the largest limits, which takes no memory. It has the reply CKR_OK.
    pub fn new(alloc: Global) -> Module
        ensures { IsNew result }
    {
        Module {
            token: Token::new(alloc, Limits::largest()),
            reply: Reply {
                rv: Rv::Ok,
                body: Body::Empty,
            },
            text: Vec::new(alloc),
        }
    }

    /// Makes a call, and keeps its reply.
    pub fn call(&mut self, alloc: Global, caller: u32, call: Call) -> Outcome
        ensures called { IsCalled caller call result self.old self.new }
        ensures succeeds { 0 < self.old.token.spare
            → may_run_out self.old.token.limits self.old.token.history call ≡ false
            → result ≡ outcome.Answered }
    {
        self.call_after(alloc, caller, call, None)
    }

    /// As `call`, with the work on the call's message where it is done.
    pub fn call_after(
        &mut self,
        alloc: Global,
        caller: u32,
        call: Call,
        work: Option<&Work>,
    ) -> Outcome
        requires { IfSome (option_copied work) (IsAhead self.old.token.history call) }
        ensures called { IsCalled caller call result self.old self.new }
        ensures succeeds { 0 < self.old.token.spare
            → may_run_out self.old.token.limits self.old.token.history call ≡ false
            → result ≡ outcome.Answered }
    {
        match self.token.call_after(alloc, caller, call, work) {
            Ok(reply) => {
                self.reply = reply;
                Outcome::Answered
            }
            Err(NoMemory) => Outcome::NoMemory,
        }
    }

    /// Makes the call of a line of a script, and keeps its reply.
    pub fn line(&mut self, alloc: Global, line: &[u8]) -> Outcome
        ensures { IsLine line.now result self.old self.new }
    {
        match Line::parse(alloc, line) {
            Ok(Line::Called { caller, call }) => self.call(alloc, caller, call),
            Ok(Line::Skipped) | Err(LineError::Bad(_)) => Outcome::NoCall,
            Err(LineError::Memory) => Outcome::NoMemory,
        }
    }

    /// Makes the text of the reply, without a line end.
    pub fn write_text(&mut self) -> Outcome
        ensures { IsText result self.old self.new }
    {
        match write_reply(&mut self.text, &self.reply) {
            Ok(()) => Outcome::Answered,
            Err(NoMemory) => Outcome::NoMemory,
        }
    }

    /// Cuts the journal.
    pub fn cut(&mut self, alloc: Global) -> Result<(), Uncut>
        ensures { IsModuleCut result self.old self.new }
    {
        self.token.cut(alloc)?;
        Ok(())
    }
}
