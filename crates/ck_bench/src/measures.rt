//! The sections of a script, whose calls are made of a token that isn't shared, or by its one
//! caller under the lock, and whose messages are also hashed alone.
use crate::sections::Section;
use crate::times::Times;
use anyhow::Result;
use ck_audit::{Verdict, audit_token};
use ck_shared::{Caller, CallerWork, Gate, Runtime, TokenId, share};
use ck_token::{Body, Bytes, Call, Limits, NoMemory, Reply, Rv, Token};
use sha2::{Digest, Sha256};
use std::alloc::Global;
use std::sync::Wait;
use std::time::CpuClock;

/// What answers calls.
trait Target {
    /// Answers a call.
    fn call(&mut self, alloc: Global, call: Call) -> Result<Reply, NoMemory>;
}

impl Target for Token {
    fn call(&mut self, alloc: Global, call: Call) -> Result<Reply, NoMemory> {
        Token::call(self, alloc, 1, call)
    }
}

/// A caller of a shared token.
#[derive(Drop)]
struct CallerTarget<'a, 'c, K: TokenId, G, R> {
    rt: &'a R,
    gate: &'a G,
    caller: &'c mut Caller<K>,
}

impl<'a, 'c, K: TokenId, G: Gate<K>, R: Wait> Target for CallerTarget<'a, 'c, K, G, R> {
    fn call(&mut self, alloc: Global, call: Call) -> Result<Reply, NoMemory> {
        self.gate.call(self.rt, alloc, self.caller, call)
    }
}

/// Answers each call with the SHA-256 digest of the message that it brings.
#[derive(Drop)]
struct Hasher;

impl Target for Hasher {
    fn call(&mut self, alloc: Global, call: Call) -> Result<Reply, NoMemory> {
        let digest = Sha256::digest(call.taken_bytes());
        Ok(Reply {
            rv: Rv::Ok,
            body: Body::Bytes(Bytes::from_slice(alloc, &digest)?),
        })
    }
}

/// Makes copies of the calls, and says how many were not answered CKR_OK.
fn make_calls<T: Target>(target: &mut T, alloc: Global, calls: &[Call]) -> Result<u64, NoMemory> {
    let mut refused = 0u64;
    for call in calls {
        let reply = target.call(alloc, call.clone()?)?;
        if reply.rv != Rv::Ok {
            refused = refused.saturating_add(1);
        }
    }
    Ok(refused)
}

/// Makes these calls, and writes under the name how many they are, how many were refused and, where
/// times are written, the processor time that they took.
fn measure_calls<R: CpuClock + Print, T: Target>(
    rt: &R,
    alloc: Global,
    target: &mut T,
    name: &str,
    calls: &[Call],
    times: Times,
) -> Result<()> {
    let before = rt.process_cpu_time()?;
    let refused = make_calls(target, alloc, calls)?;
    let time = rt.process_cpu_time()?.saturating_sub(before);
    println!(rt; "{name}: {} calls, {refused} refused", calls.len())?;
    Ok(times.write(rt, name, time)?)
}

/// Measures each section, one after the other.
fn measure_all<R: CpuClock + Print, T: Target>(
    rt: &R,
    alloc: Global,
    target: &mut T,
    sections: &[Section],
    times: Times,
) -> Result<()> {
    for section in sections {
        measure_calls(rt, alloc, target, section.name, &section.calls, times)?;
    }
    Ok(())
}

/// Audits the journal, and writes how many entries it has and, where times are written, the
/// processor time that it took.
fn audit<R: CpuClock + Print>(rt: &R, alloc: Global, token: &Token, times: Times) -> Result<()> {
    let before = rt.process_cpu_time()?;
    let is_legal = audit_token(alloc, token)? == Verdict::Legal;
    let time = rt.process_cpu_time()?.saturating_sub(before);
    println!(rt; "audit of {} entries: {is_legal}", token.journal().len())?;
    Ok(times.write(rt, "audit", time)?)
}

/// Measures the sections on a new token, whose journal is audited then.
pub(crate) fn measure_unshared<R: CpuClock + Print>(
    rt: &R,
    alloc: Global,
    sections: &[Section],
    times: Times,
) -> Result<()> {
    let mut token = Token::new(alloc, Limits::largest());
    measure_all(rt, alloc, &mut token, sections, times)?;
    audit(rt, alloc, &token, times)
}

/// Measures the sections on a new token, and behind each one how long its messages take that are
/// only hashed. So both are measured while the processor has the same speed.
pub(crate) fn measure_hashed<R: CpuClock + Print>(
    rt: &R,
    alloc: Global,
    sections: &[Section],
    times: Times,
) -> Result<()> {
    let mut token = Token::new(alloc, Limits::largest());
    for Section { name, calls } in sections {
        measure_calls(rt, alloc, &mut token, name, calls, times)?;
        let name = format!(in alloc; "{name}, only hashed")?;
        measure_calls(rt, alloc, &mut Hasher, name.as_str(), calls, times)?;
    }
    Ok(())
}

/// What the one caller of a shared token does.
#[derive(Drop)]
struct AllSections<'a> {
    sections: &'a [Section<'a>],
    times: Times,
}

impl<'a, R: Wait + CpuClock + Print + AllocGlobal> CallerWork<R> for AllSections<'a> {
    ghost use Rattle.std.specs.Prelude.{⊤};

    type Output = Result<()>;

    ghost holds = { λ work before after done. ⊤ };

    fn act<K: TokenId, G: Gate<K>>(&self, rt: &R, gate: &G, caller: &mut Caller<K>) -> Result<()> {
        let mut target = CallerTarget { rt, gate, caller };
        measure_all(rt, rt.alloc(), &mut target, self.sections, self.times)
    }
}

/// Measures the sections by one caller of a shared token.
pub(crate) fn measure_locked<R: CpuClock + Print + Runtime>(
    rt: R,
    alloc: Global,
    sections: &[Section],
    times: Times,
) -> Result<()> {
    let mut token = Token::new(alloc, Limits::largest());
    let work = AllSections { sections, times };
    for done in share(rt, alloc, &mut token, 1, &work)? {
        done?;
    }
    Ok(())
}
