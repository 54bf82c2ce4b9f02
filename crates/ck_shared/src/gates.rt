use crate::shared::SharedToken;
use ck_callers::{Caller, Gate, TokenId};
use ck_journal::{Call, JournaledToken, Reply};
use ck_types::NoMemory;
use std::alloc::Global;
use std::sync::Wait;

/// A shared token answers each call of a caller under its lock, and each question without it.
impl<K: TokenId, T: JournaledToken, R: Wait + Drop> Gate<K> for SharedToken<K, T, R> {
    // Inlined, since a function that only hands a call on would copy it.
    #[inline(always)]
    fn call<W: Wait>(
        &self,
        rt: &W,
        alloc: Global,
        caller: &mut Caller<K>,
        call: Call,
    ) -> Result<Reply, NoMemory> {
        SharedToken::call(self, rt, alloc, caller, call)
    }
}
