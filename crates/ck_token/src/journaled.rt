use crate::tokens::Token;
use ck_journal::{Base, Call, Journal, JournaledToken, Reply, TokenBoard, Work};
use ck_types::{Limits, NoMemory};
use std::alloc::Global;

impl JournaledToken for Token {
    ghost state = { λ token. token };

    fn new(alloc: Global, limits: Limits) -> Token {
        Token::new(alloc, limits)
    }

    fn from_base(alloc: Global, limits: Limits, base: Base) -> Result<Token, NoMemory> {
        Token::from_base(alloc, limits, base)
    }

    // Inlined, as those below: a function that only hands on a call or a board would copy it.
    #[inline(always)]
    fn call(&mut self, alloc: Global, caller: u32, call: Call) -> Result<Reply, NoMemory> {
        Token::call(self, alloc, caller, call)
    }

    fn work(&self, call: &Call) -> Option<Work> {
        Token::work(self, call)
    }

    #[inline(always)]
    fn call_after(
        &mut self,
        alloc: Global,
        caller: u32,
        call: Call,
        work: Option<&Work>,
    ) -> Result<Reply, NoMemory> {
        Token::call_after(self, alloc, caller, call, work)
    }

    #[inline(always)]
    fn journal(&self) -> &Journal {
        Token::journal(self)
    }

    fn limits(&self) -> Limits {
        Token::limits(self)
    }

    #[inline(always)]
    fn board(&self) -> TokenBoard {
        Token::board(self)
    }
}
