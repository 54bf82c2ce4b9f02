ghost use Rattle.std.specs.Prelude.{◌≡◌, ◌<◌};
ghost use Rattle.ck_foreign.specs.MessageCalls.{IsBegin, IsMadeBy, IsTakenIn, IsWorkOf};
ghost use Rattle.ck_foreign.specs.MessageCalls.{NeedsOnlyRoom, given_call, has_begun};
ghost use Rattle.ck_foreign.specs.declared.message_calls.MessageCall.TheVariants as variant;
ghost use Rattle.ck_foreign.specs.declared.outcomes.Outcome.TheVariants as outcome;

use crate::modules::Module;
use crate::outcomes::Outcome;
use ck_token::{Call, Token, Work};
use std::alloc::Global;
use std::mem;

/// A call that brings a message, and the work on the message where it is long. It lies in C's
/// memory, so that others can call the token while the bytes are taken in.
#[derive(Drop)]
pub enum MessageCall {
    /// There is no call.
    Empty,
    /// No work has begun, or there is none to be done before the call.
    Given(Call),
    /// The token has begun the work.
    Begun(Call, Work),
    /// The bytes are taken in.
    Done(Call, Work),
}

impl MessageCall {
    /// No call. A function, since the proof of ospreyrack_message_make goes by its contract.
    pub fn new() -> MessageCall
        ensures { result ≡ variant.Empty }
    {
        MessageCall::Empty
    }

    /// Puts a call in the place of what was there.
    pub fn set(&mut self, call: MessageCall)
        ensures { self.new ≡ call }
    {
        *self = call;
    }

    /// Takes the call out.
    pub fn take(&mut self) -> MessageCall
        ensures taken { result ≡ self.old }
        ensures empty { self.new ≡ variant.Empty }
    {
        mem::replace(self, MessageCall::Empty)
    }

    /// Begins the work on the message of the call, and says whether there is work to be done.
    pub fn begin(&mut self, token: &Token) -> bool
        ensures begun { IsBegin token.now.history self.old self.new }
        ensures told { result ≡ has_begun self.new }
    {
        let call = match self.take() {
            MessageCall::Given(call) => match token.work(&call) {
                Some(work) => MessageCall::Begun(call, work),
                None => MessageCall::Given(call),
            },
            other => other,
        };
        self.set(call);
        matches!(self, MessageCall::Begun(_, _))
    }

    /// Takes in the bytes of a message whose work has begun.
    pub fn take_in(&mut self)
        ensures { IsTakenIn self.old self.new }
    {
        let call = match self.take() {
            MessageCall::Begun(call, mut work) => {
                work.finish(&call);
                MessageCall::Done(call, work)
            }
            other => other,
        };
        self.set(call);
    }
}

impl Module {
    /// Makes a call with a message, by the work where that is done, and keeps its reply.
    pub fn message_call(&mut self, alloc: Global, caller: u32, message: MessageCall) -> Outcome
        requires { IsWorkOf self.old.token.history message }
        ensures made { IsMadeBy caller (given_call message) result self.old self.new }
        ensures succeeds { 0 < self.old.token.spare
            → NeedsOnlyRoom self.old.token.limits self.old.token.history (given_call message)
            → result ≡ outcome.Answered }
    {
        match message {
            MessageCall::Empty => Outcome::NoCall,
            MessageCall::Given(call) => self.call(alloc, caller, call),
            MessageCall::Begun(call, _) => self.call(alloc, caller, call),
            MessageCall::Done(call, work) => self.call_after(alloc, caller, call, Some(&work)),
        }
    }
}
