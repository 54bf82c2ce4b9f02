//! A long message is taken in before its call where an operation takes it, and else not; and while
//! it is, the lock is free.
use crate::shared_work::{Shared, SharedWork, share_audited};
use anyhow::{Context, ensure};
use ck_shared::{Caller, Runtime, TokenId};
use ck_token::{Bytes, Call, Limits, Mechanism, NoMemory, Pin, READ_WRITE, SHA256, Token};

/// From how many bytes on a message is long.
const LONG: usize = 4096;

impl<'a, K: TokenId, R: Runtime> Shared<'a, K, R> {
    /// Whether these bytes are taken in before they are added to the digest of session 1.
    fn is_taken_in(&self, bytes: &[u8]) -> Result<bool, NoMemory> {
        let bytes = Bytes::from_slice(self.rt.alloc(), bytes)?;
        let call = Call::DigestUpdate { session: 1, bytes };
        Ok(self.token.take_in(self.rt, &call).is_some())
    }

    /// A caller begins a digest. Before, no message is taken in; then a long one is, and a shorter
    /// one isn't.
    fn take_in_messages(&self, callers: &mut [Caller<K>]) -> anyhow::Result<()> {
        let (pin, flags) = (Pin::of(b"1234"), READ_WRITE);
        let mechanism = Mechanism::new(self.rt.alloc(), SHA256);
        let caller = callers.first_mut().context("a caller is missing")?;
        self.make_call(caller, Call::InitToken { pin })?;
        self.make_call(caller, Call::OpenSession { flags })?;
        ensure!(
            !self.is_taken_in(&[97; LONG])?,
            "a message is taken in before its operation is begun",
        );
        let session = 1;
        self.make_call(caller, Call::DigestInit { session, mechanism })?;
        ensure!(
            self.is_taken_in(&[97; LONG])?,
            "a long message isn't taken in"
        );
        ensure!(
            !self.is_taken_in(&[97; LONG - 1])?,
            "a short message is taken in",
        );
        Ok(())
    }

    /// Behind short calls a caller begins a digest, and adds long messages to it.
    pub(crate) fn add_long_messages(&self, callers: &mut Vec<Caller<K>>) -> anyhow::Result<()>
    where
        K: Send + Sync,
    {
        self.make_short_calls(callers)?;
        self.take_in_messages(callers)?;
        self.add_messages(callers)?;
        self.add_taken_messages(callers)
    }
}

/// Makes the calls on a new token. Says how many there are.
pub(crate) fn run_long_messages<R: Runtime>(rt: R) -> anyhow::Result<u64> {
    let alloc = rt.alloc();
    let token = Token::new(alloc, Limits::largest());
    let (_outcome, entries) = share_audited(rt, token, 2, &SharedWork::LongMessages)?;
    Ok(entries)
}
