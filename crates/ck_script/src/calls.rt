ghost use Rattle.std.specs.Prelude.{◌≡◌, ◌⊎◌, ◌||◌, true, Some, None, Err};
ghost use Rattle.std.specs.Prelude.{IsSome, IsSomeAnd, IfOk, IfErr};
ghost use Rattle.ck_journal.specs.declared.calls.Call.{Call};
ghost use Rattle.ck_journal.specs.Calls.{brings_list};
ghost use Rattle.ck_script.specs.Splits.{with_none, with_one};
ghost use Rattle.ck_script.specs.Arguments.{two_in};
ghost use Rattle.ck_script.specs.Calls.{three_in, four_in, call_of, call_in, has_pin};

use crate::arguments::{Argument, CodeNumber, both, pair_in, two_in};
use crate::call_names::{Arity, CallName, Function};
use crate::line_errors::{BadLine, LineError};
use crate::similar_names::similar_name;
use crate::splits::Split;
use ck_journal::Call;
use std::alloc::Global;

/// The arguments of a call in a line. A method takes as many as a call has and makes the call of
/// them, so `call_of` has one line for each call.
#[derive(Drop)]
struct Arguments<'a> {
    alloc: Global,
    name: CallName,
    words: Split<'a>,
}

impl<'a> Arguments<'a> {
    /// The call that is made of no argument.
    fn none<F: FnOnce() -> Call>(self, make: F) -> Result<Call, LineError>
        requires { F.IsAlwaysCallable make }
        ensures call { IfOk result (λ call.
            (with_none call self.entry.words ≡ Some call) × F.post make call) }
        ensures bad { IfErr result (λ e. (e ≡ LineError.Memory)
            ⊎ ((call : Call) → with_none call self.entry.words ≡ None)) }
        ensures memory { result ≡ Err LineError.Memory → ⊥ }
    {
        if self.words.is_empty() {
            Ok(make())
        } else {
            Err(LineError::Bad(BadLine::ArgumentCount(self.name, Arity::None)))
        }
    }

    /// The call that is made of the value of the only argument.
    fn one<A: Argument, F: FnOnce(A) -> Call>(self, make: F) -> Result<Call, LineError>
        requires { F.IsAlwaysCallable make }
        ensures call { IfOk result (λ call. (a : _)
            × (with_one A.value_in self.entry.words ≡ Some a) × F.post make a call) }
        ensures bad { IfErr result (λ e. (e ≡ LineError.Memory)
            ⊎ (with_one A.value_in self.entry.words ≡ None)) }
        ensures memory { result ≡ Err LineError.Memory → (A.parsing_takes_memory ≡ true)
            × IsSome (with_one A.value_in self.entry.words) }
    {
        let count = BadLine::ArgumentCount(self.name, Arity::One);
        let first = self.words.one().ok_or(count)?;
        let first = A::value_in(self.alloc, first)?;
        Ok(make(first))
    }

    /// The call that is made of the values of two arguments.
    fn two<A, B, F>(self, make: F) -> Result<Call, LineError>
    where
        A: Argument + Drop,
        B: Argument + Drop,
        F: FnOnce(A, B) -> Call,
        requires { F.IsAlwaysCallable make }
        ensures call { IfOk result (λ call. (a : _) × (b : _)
            × (two_in A.value_in B.value_in self.entry.words ≡ Some (a, b))
            × F.post make a b call) }
        ensures bad { IfErr result (λ e. (e ≡ LineError.Memory)
            ⊎ (two_in A.value_in B.value_in self.entry.words ≡ None)) }
        ensures memory { result ≡ Err LineError.Memory
            → (A.parsing_takes_memory || B.parsing_takes_memory ≡ true)
            × IsSome (two_in A.value_in B.value_in self.entry.words) }
    {
        let count = BadLine::ArgumentCount(self.name, Arity::Two);
        let (first, second) = two_in(self.alloc, self.words, count)?;
        Ok(make(first, second))
    }

    /// The call that is made of the values of three arguments.
    fn three<A, B, C, F>(self, make: F) -> Result<Call, LineError>
    where
        A: Argument + Drop,
        B: Argument + Drop,
        C: Argument + Drop,
        F: FnOnce(A, B, C) -> Call,
        requires { F.IsAlwaysCallable make }
        ensures call { IfOk result (λ call. (a : _) × (b : _) × (c : _)
            × (three_in A.value_in B.value_in C.value_in self.entry.words ≡ Some (a, b, c))
            × F.post make a b c call) }
        ensures bad { IfErr result (λ e. (e ≡ LineError.Memory)
            ⊎ (three_in A.value_in B.value_in C.value_in self.entry.words ≡ None)) }
        ensures memory { result ≡ Err LineError.Memory
            → (A.parsing_takes_memory || B.parsing_takes_memory || C.parsing_takes_memory ≡ true)
            × IsSome (three_in A.value_in B.value_in C.value_in self.entry.words) }
    {
        let count = BadLine::ArgumentCount(self.name, Arity::Three);
        let (first, second, third) = self.words.three().ok_or(count)?;
        let first_two = pair_in(self.alloc, first, second);
        let third = C::value_in(self.alloc, third);
        let ((first, second), third) = both(first_two, third)?;
        Ok(make(first, second, third))
    }

    /// The call that is made of the values of four arguments.
    // Only C_GenerateKey has four, and its lists may take memory in any case.
    fn four<A, B, C, D, F>(self, make: F) -> Result<Call, LineError>
    where
        A: Argument + Drop,
        B: Argument + Drop,
        C: Argument + Drop,
        D: Argument + Drop,
        F: FnOnce(A, B, C, D) -> Call,
        requires { F.IsAlwaysCallable make }
        ensures call { IfOk result (λ call. (a : _) × (b : _) × (c : _) × (d : _)
            × (four_in A.value_in B.value_in C.value_in D.value_in self.entry.words
            ≡ Some (a, b, c, d))
            × F.post make a b c d call) }
        ensures bad { IfErr result (λ e. (e ≡ LineError.Memory)
            ⊎ (four_in A.value_in B.value_in C.value_in D.value_in self.entry.words ≡ None)) }
        ensures memory { result ≡ Err LineError.Memory
            → IsSome (four_in A.value_in B.value_in C.value_in D.value_in self.entry.words) }
    {
        let count = BadLine::ArgumentCount(self.name, Arity::Four);
        let (first, second, third, fourth) = self.words.four().ok_or(count)?;
        let first_two = pair_in(self.alloc, first, second);
        let last_two = pair_in(self.alloc, third, fourth);
        let ((first, second), (third, fourth)) = both(first_two, last_two)?;
        Ok(make(first, second, third, fourth))
    }
}

/// The call of these arguments.
fn call_of(arguments: Arguments) -> Result<Call, LineError>
    ensures call { IfOk result (λ call.
        call_of arguments.entry.name.0 arguments.entry.words ≡ Some call) }
    ensures bad { IfErr result (λ e. (e ≡ LineError.Memory)
        ⊎ (call_of arguments.entry.name.0 arguments.entry.words ≡ None)) }
    ensures memory { result ≡ Err LineError.Memory
        → IsSomeAnd (call_of arguments.entry.name.0 arguments.entry.words)
        (λ call. has_pin call || brings_list call ≡ true) }
{
    match arguments.name.0 {
        Function::InitToken => arguments.one(|pin| Call::InitToken { pin }),
        Function::InitPin => arguments.two(|session, pin| Call::InitPin { session, pin }),
        Function::SetPin => arguments.three(|session, old, new| Call::SetPin { session, old, new }),
        Function::GetTokenInfo => arguments.none(|| Call::GetTokenInfo),
        Function::GetMechanismList => arguments.none(|| Call::GetMechanismList),
        Function::OpenSession => arguments.one(|CodeNumber(flags)| Call::OpenSession { flags }),
        Function::CloseSession => arguments.one(|session| Call::CloseSession { session }),
        Function::CloseAllSessions => arguments.none(|| Call::CloseAllSessions),
        Function::GetSessionInfo => arguments.one(|session| Call::GetSessionInfo { session }),
        Function::SessionCancel => arguments.two(|session, CodeNumber(flags)| Call::SessionCancel {
            session,
            flags,
        }),
        Function::Login => arguments.three(|session, user, pin| Call::Login { session, user, pin }),
        Function::Logout => arguments.one(|session| Call::Logout { session }),
        Function::CreateObject => arguments.two(|session, template| Call::CreateObject {
            session,
            template,
        }),
        Function::CopyObject => arguments.three(|session, object, template| Call::CopyObject {
            session,
            object,
            template,
        }),
        Function::DestroyObject => arguments.two(|session, object| Call::DestroyObject {
            session,
            object,
        }),
        Function::GetAttributeValue => arguments.three(
            |session, object, queries| Call::GetAttributeValue {
                session,
                object,
                queries,
            },
        ),
        Function::SetAttributeValue => arguments.three(
            |session, object, template| Call::SetAttributeValue {
                session,
                object,
                template,
            },
        ),
        Function::FindObjectsInit => arguments.two(|session, template| Call::FindObjectsInit {
            session,
            template,
        }),
        Function::FindObjects => arguments.two(|session, max| Call::FindObjects { session, max }),
        Function::FindObjectsFinal => arguments.one(|session| Call::FindObjectsFinal { session }),
        Function::DigestInit => arguments.two(|session, mechanism| Call::DigestInit {
            session,
            mechanism,
        }),
        Function::Digest => arguments.three(|session, bytes, room| Call::Digest {
            session,
            bytes,
            room,
        }),
        Function::DigestUpdate => arguments.two(|session, bytes| Call::DigestUpdate {
            session,
            bytes,
        }),
        Function::DigestFinal => arguments.two(|session, room| Call::DigestFinal { session, room }),
        Function::SignInit => arguments.three(|session, mechanism, key| Call::SignInit {
            session,
            mechanism,
            key,
        }),
        Function::Sign => arguments.three(|session, bytes, room| Call::Sign {
            session,
            bytes,
            room,
        }),
        Function::SignUpdate => arguments.two(|session, bytes| Call::SignUpdate { session, bytes }),
        Function::SignFinal => arguments.two(|session, room| Call::SignFinal { session, room }),
        Function::VerifyInit => arguments.three(|session, mechanism, key| Call::VerifyInit {
            session,
            mechanism,
            key,
        }),
        Function::Verify => arguments.three(|session, bytes, signature| Call::Verify {
            session,
            bytes,
            signature,
        }),
        Function::VerifyUpdate => arguments.two(|session, bytes| Call::VerifyUpdate {
            session,
            bytes,
        }),
        Function::VerifyFinal => arguments.two(|session, signature| Call::VerifyFinal {
            session,
            signature,
        }),
        Function::GenerateKey => arguments.four(
            |session, mechanism, template, random| Call::GenerateKey {
                session,
                mechanism,
                template,
                random,
            },
        ),
        Function::SetKeyState => arguments.three(|session, key, state| Call::SetKeyState {
            session,
            key,
            state,
        }),
    }
}

/// The reason of a call of a name that no call has. Where there is no memory to look for a similar
/// name, none is named.
fn unknown_call(alloc: Global, name: &[u8]) -> BadLine {
    match similar_name(alloc, name) {
        Ok(Some(name)) => BadLine::MisspelledCall(name),
        _ => BadLine::UnknownCall,
    }
}

/// The call of this name with these arguments.
pub(crate) fn call_in(alloc: Global, name: &[u8], arguments: Split) -> Result<Call, LineError>
    ensures call { IfOk result (λ call. call_in name.now arguments.entry ≡ Some call) }
    ensures bad { IfErr result (λ e. (e ≡ LineError.Memory)
        ⊎ (call_in name.now arguments.entry ≡ None)) }
    ensures memory { result ≡ Err LineError.Memory
        → IsSomeAnd (call_in name.now arguments.entry)
        (λ call. has_pin call || brings_list call ≡ true) }
{
    match CallName::of(name) {
        Some(name) => call_of(Arguments {
            alloc,
            name,
            words: arguments,
        }),
        None => Err(LineError::Bad(unknown_call(alloc, name))),
    }
}
