ghost use Rattle.std.specs.Prelude.{◌≡◌, IfOk, OnErr, true, false};
ghost use Rattle.std.specs.Borrow.{sem};
ghost use Rattle.ck_foreign.specs.declared.message_calls.MessageCall.{MessageCall};
ghost use Rattle.ck_foreign.specs.declared.modules.Module.{Module};
ghost use Rattle.ck_foreign.specs.contracts.message_calls.MessageCall.{the_row as message_call_row};
ghost use Rattle.ck_foreign.specs.contracts.modules.Module.{the_row as module_row};

use ck_foreign::{MessageCall, Module, Outcome};
use ck_token::{Call, NoMemory};
use std::alloc::Global;
use std::marker::Model;

/// What C holds of a token: where it lies (a place in C's memory, and no `Place` of ck_store).
/// Contracts see the token that lies there.
#[repr(C)]
pub struct TokenPlace {
    at: *mut u8,
    pub ghost value: { Module } by { module_row.coded },
}

impl Model for TokenPlace {
    ghost use Rattle.std.specs.Borrow.{full_share};
    ghost use Rattle.std.specs.Ptr.{lies_at};
    ghost use Rattle.ck_foreign.specs.contracts.modules.Module.{the_row};

    ghost also_owns = { λ h. lies_at the_row full_share h.at h.value };
}

impl TokenPlace {
    ghost use Rattle.std.specs.Borrow.{Lends};
    ghost use Rattle.ck_journal.specs.declared.calls.Call.{Call};
    ghost use Rattle.ck_foreign.specs.Calls.{IsCalledBy};
    ghost use Rattle.ck_module.specs.Calls.{IsCalledWithoutLists};
    ghost use Rattle.ck_module.specs.contracts.places.TokenPlace.{the_row};

    /// Lends the token. When the loan ends, what was written is the token that lies there.
    pub(crate) fn as_mut(&mut self) -> &mut Module
        ensures* writes_back { sem 𝓛 (Lends the_row module_row self.entry result
            (λ w. record self.old { value = w })) }
        ensures value { result.now ≡ self.old.value }
    {
        // SAFETY: a token lies there, which nobody else uses (`also_owns`).
        unsafe { &mut *(self.at as *mut Module) }
    }

    /// Makes a call, where there was memory for its lists, and gives the number of what came of it.
    pub(crate) fn call_with_lists(
        &mut self,
        alloc: Global,
        caller: u32,
        call: Result<Call, NoMemory>,
    ) -> u32
        ensures { (c : Call) → IfOk call (λ made. made ≡ c)
            → IsCalledBy caller c result self.old.value self.new.value }
    {
        match call {
            Ok(call) => self.call(alloc, caller, call),
            Err(NoMemory) => Outcome::NoMemory.number(),
        }
    }

    /// Makes a call, and gives the number of what came of it.
    pub(crate) fn call(&mut self, alloc: Global, caller: u32, call: Call) -> u32
        ensures { IsCalledWithoutLists caller call result self.old.value self.new.value }
    {
        self.as_mut().call(alloc, caller, call).number()
    }
}

// SAFETY: a place may go to another thread, as the token that lies there may.
unsafe impl Send for TokenPlace {}

/// What C holds of a call with a message: where it lies. Contracts see the call that lies there.
#[repr(C)]
pub struct MessagePlace {
    at: *mut u8,
    pub ghost value: { MessageCall } by { message_call_row.coded },
}

impl Model for MessagePlace {
    ghost use Rattle.std.specs.Borrow.{full_share};
    ghost use Rattle.std.specs.Ptr.{lies_at};
    ghost use Rattle.ck_foreign.specs.contracts.message_calls.MessageCall.{the_row};

    ghost also_owns = { λ h. lies_at the_row full_share h.at h.value };
}

impl MessagePlace {
    ghost use Rattle.std.specs.Borrow.{Lends};
    ghost use Rattle.ck_module.specs.contracts.places.MessagePlace.{the_row};
    ghost use Rattle.ck_foreign.specs.declared.message_calls.MessageCall.TheVariants as variant;

    /// Gives a call where there was memory for its lists, and says whether there was.
    pub(crate) fn give(&mut self, call: Result<Call, NoMemory>) -> bool
        ensures given { IfOk call (λ c. (result ≡ true) × (self.new.value ≡ variant.Given c)) }
        ensures unchanged { OnErr call ((result ≡ false) × (self.new.value ≡ self.old.value)) }
    {
        match call {
            Ok(call) => {
                self.as_mut().set(MessageCall::Given(call));
                true
            }
            Err(NoMemory) => false,
        }
    }

    /// Lends the call. When the loan ends, what was written is the call that lies there.
    pub(crate) fn as_mut(&mut self) -> &mut MessageCall
        ensures* writes_back { sem 𝓛 (Lends the_row message_call_row self.entry result
            (λ w. record self.old { value = w })) }
        ensures value { result.now ≡ self.old.value }
    {
        // SAFETY: a call lies there, which nobody else uses (`also_owns`).
        unsafe { &mut *(self.at as *mut MessageCall) }
    }
}

// SAFETY: a place may go to another thread, as the call that lies there may.
unsafe impl Send for MessagePlace {}
