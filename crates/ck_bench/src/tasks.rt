//! What a caller of a shared token does while it is measured.
use anyhow::{Context, bail, ensure};
use ck_shared::{Ask, Caller, CallerWork, Gate, Status, TokenId};
use ck_token::{
    Attribute, AttributeQuery, Body, Bytes, Call, Class, Mechanism, NoMemory, READ_WRITE, Reply,
    Rv, SHA256, Sequence, Template,
};
use std::alloc::Global;
use std::sync::Wait;
use std::sync::atomic::{AtomicBool, Ordering};
use std::time::{Clock, Duration, Instant};

/// The bytes of the message that is digested, 1 MiB.
const MESSAGE_LENGTH: usize = 1 << 20;

/// What a caller does in one round.
#[derive(Clone, Copy, PartialEq)]
pub(crate) enum Round {
    /// Asks for the state of its session, without the lock.
    Ask,
    /// Creates an object, reads its label and destroys it.
    Change,
    /// Digests the long message.
    Digest,
    /// Asks for the state of its session by the lock.
    Wait,
    /// Reads the clock twice, and makes no call.
    Pause,
}

/// What a caller does: rounds of one kind.
#[derive(Clone, Copy)]
pub(crate) struct Task {
    round: Round,
    /// How many there are. Without a number they go on until another caller is done.
    rounds: Option<u64>,
}

impl Task {
    /// Makes this many rounds.
    pub(crate) fn new(round: Round, rounds: u64) -> Task {
        let rounds = Some(rounds);
        Task { round, rounds }
    }

    /// Goes on until another caller is done.
    pub(crate) fn beside(round: Round) -> Task {
        Task {
            round,
            rounds: None,
        }
    }
}

/// The tasks of callers, in the order of their numbers.
#[derive(Drop)]
pub(crate) struct Tasks<'a> {
    tasks: &'a [Task],
    message: Bytes,
    /// Whether any caller is done.
    is_done: AtomicBool,
}

/// A caller of the shared token, with what its calls need.
#[derive(Drop)]
struct Client<'a, K: TokenId, G: Gate<K>, R: Wait + Clock> {
    rt: &'a R,
    alloc: Global,
    gate: &'a G,
    caller: &'a mut Caller<K>,
}

/// Whether what was asked says that a read/write session is open.
fn is_open(status: Option<Status>) -> bool {
    matches!(
        status,
        Some(Status::Reply(Reply { rv: Rv::Ok, body: Body::Session { flags, .. } }))
            if flags == READ_WRITE
    )
}

/// The creation of a data object with a label of 8 bytes.
fn creation(alloc: Global, session: u64) -> Result<Call, NoMemory> {
    let template = Template::new(alloc)
        .class(Class::Data)?
        .bytes(Attribute::Label, b"a label ")?;
    Ok(Call::CreateObject { session, template })
}

/// The reading of a label.
fn reading(alloc: Global, session: u64, object: u64) -> Result<Call, NoMemory> {
    let kind = Attribute::Label.number();
    let room = Some(8);
    let queries = Sequence::from_vec(vec![in alloc; AttributeQuery { kind, room }]?);
    Ok(Call::GetAttributeValue {
        session,
        object,
        queries,
    })
}

impl<'a, K: TokenId, G: Gate<K>, R: Wait + Clock> Client<'a, K, G, R> {
    /// Makes a call, which must be answered CKR_OK, and gives its body.
    fn call(&mut self, call: Call) -> anyhow::Result<Body> {
        let reply = self.gate.call(self.rt, self.alloc, self.caller, call)?;
        Ok(reply.ok()?)
    }

    /// Makes a call that gives a handle.
    fn handle_of(&mut self, call: Call) -> anyhow::Result<u64> {
        self.call(call)?.handle().context("a call gives no handle")
    }

    /// Asks for the state of a session without the lock, and says whether it is open. (An error
    /// has room for its text, which would be copied for each question.)
    fn ask(&mut self, session: u64) -> bool {
        is_open(self.caller.status(Ask::Session(session)))
    }

    /// Creates an object, reads its label and destroys it.
    fn change(&mut self, session: u64) -> anyhow::Result<()> {
        let object = self.handle_of(creation(self.alloc, session)?)?;
        self.call(reading(self.alloc, session, object)?)?;
        self.call(Call::DestroyObject { session, object })?;
        Ok(())
    }

    /// Digests a message in one call.
    fn digest(&mut self, session: u64, message: &Bytes) -> anyhow::Result<()> {
        let mechanism = Mechanism::new(self.alloc, SHA256);
        self.call(Call::DigestInit { session, mechanism })?;
        let bytes = message.clone()?;
        let room = Some(32);
        self.call(Call::Digest {
            session,
            bytes,
            room,
        })?;
        Ok(())
    }

    /// Asks for the state of a session by the lock, and gives the time that it took.
    fn wait(&mut self, session: u64) -> anyhow::Result<Duration> {
        let before = Instant::now(self.rt)?;
        self.call(Call::GetSessionInfo { session })?;
        Ok(before.elapsed(self.rt)?)
    }
}

/// The time between two readings of the clock.
fn pause<R: Clock>(rt: &R) -> anyhow::Result<Duration> {
    let before = Instant::now(rt)?;
    Ok(before.elapsed(rt)?)
}

impl<'a> Tasks<'a> {
    /// The tasks of callers, of which none is done.
    pub(crate) fn new(alloc: Global, tasks: &'a [Task]) -> Result<Tasks<'a>, NoMemory> {
        let message = Bytes::from_vec(vec![in alloc; 0u8; MESSAGE_LENGTH]?);
        let is_done = AtomicBool::new(false);
        Ok(Tasks {
            tasks,
            message,
            is_done,
        })
    }

    /// Does a caller's task in a session. Gives the time that it takes; of rounds that wait or
    /// pause that of the longest, and zero of a task that goes on beside another.
    fn do_task<K: TokenId, G: Gate<K>, R: Wait + Clock>(
        &self,
        client: &mut Client<K, G, R>,
        session: u64,
        task: Task,
    ) -> anyhow::Result<Duration> {
        let before = Instant::now(client.rt)?;
        let mut longest = Duration::ZERO;
        // Each loop must be seen to end.
        for _ in 0..task.rounds.unwrap_or(u64::MAX) {
            if task.rounds.is_none() && self.is_done.load(Ordering::SeqCst) {
                break;
            }
            match task.round {
                Round::Ask => ensure!(client.ask(session), "a session isn't open"),
                Round::Change => client.change(session)?,
                Round::Digest => client.digest(session, &self.message)?,
                Round::Wait => longest = client.wait(session)?.max(longest),
                Round::Pause => longest = pause(client.rt)?.max(longest),
            }
        }
        match task {
            Task { rounds: None, .. } => Ok(Duration::ZERO),
            Task {
                round: Round::Wait | Round::Pause,
                ..
            } => Ok(longest),
            _ => Ok(before.elapsed(client.rt)?),
        }
    }
}

impl<'a, R: Wait + Clock + AllocGlobal> CallerWork<R> for Tasks<'a> {
    ghost use Rattle.std.specs.Prelude.{⊤};

    /// The time of the caller's task.
    type Output = anyhow::Result<Duration>;

    ghost holds = { λ work before after time. ⊤ };

    /// Opens a session, and does the caller's task in it. Then the caller asks once more, since the
    /// history may have grown long.
    fn act<K: TokenId, G: Gate<K>>(
        &self,
        rt: &R,
        gate: &G,
        caller: &mut Caller<K>,
    ) -> Self::Output {
        let index = (caller.number() as usize).saturating_sub(1);
        let Some(task) = self.tasks.get(index) else {
            bail!("a caller has no task");
        };
        let mut client = Client {
            rt,
            alloc: rt.alloc(),
            gate,
            caller,
        };
        let flags = READ_WRITE;
        let session = client.handle_of(Call::OpenSession { flags })?;
        let done = self.do_task(&mut client, session, *task);
        self.is_done.store(true, Ordering::SeqCst);
        self.do_task(&mut client, session, Task::new(Round::Ask, 1))?;
        done
    }
}
