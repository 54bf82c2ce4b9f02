//! Which messages are taken in before their calls, and that the calls then don't take them in once
//! more. No contract says so, since no reply depends on it.
use ck_token::{
    Attribute, Bytes, Call, JournaledToken, Limits, Mechanism, NoMemory, Pin, READ_WRITE, SHA224,
    SHA224_HMAC, SHA256, SHA256_HMAC, SHA384, SHA384_HMAC, SHA384_HMAC_GENERAL, SHA512,
    SHA512_HMAC, Template, Token,
};
use std::alloc::Global;
use std::process::Abort;
use std::test::Fail;
use std::time::{CpuClock, Duration};

/// From how many bytes on a message is long.
const LONG: usize = 4_096;

/// How many bytes a message has whose times are compared, too.
const SHORTER: usize = 1 << 14;

/// The most bytes that a call brings.
const LONGEST: usize = 1 << 20;

/// The length of the digests and of the signatures by SHA-256.
const ROOM: Option<u64> = Some(32);

/// The length of the longest digests and signatures.
const MOST_ROOM: Option<u64> = Some(64);

/// The types of the mechanisms of a digest, and of a signature and its verification.
#[derive(Clone, Copy)]
struct Mechanisms {
    digest: u64,
    hmac: u64,
}

const BY_SHA256: Mechanisms = Mechanisms {
    digest: SHA256,
    hmac: SHA256_HMAC,
};

#[rattlefmt::skip]
const OTHER_MECHANISMS: [Mechanisms; 4] = [
    Mechanisms { digest: SHA224, hmac: SHA224_HMAC },
    Mechanisms { digest: SHA384, hmac: SHA384_HMAC },
    Mechanisms { digest: SHA512, hmac: SHA512_HMAC },
    Mechanisms { digest: SHA224, hmac: SHA384_HMAC_GENERAL },
];

/// The parameter of a general HMAC: the length of its signatures.
const TAG_LENGTH: u64 = 8;

/// How many calls a token has answered before the others.
const EARLIER_CALLS: u32 = 20_000;

/// The length of messages, the room for what they give, and how many of three single-part messages
/// and of three pieces are taken in.
type Row = (usize, Option<u64>, (usize, usize));

const WITHOUT_OPERATIONS: [Row; 1] = [(LONG, ROOM, (0, 0))];

const WITHOUT_PIECES: [Row; 6] = [
    (LONG, ROOM, (3, 3)),
    (LONGEST, ROOM, (3, 3)),
    (LONG - 1, ROOM, (0, 0)),
    (LONGEST + 1, ROOM, (0, 0)),
    (LONG, None, (1, 3)),
    (LONG, Some(31), (1, 3)),
];

const AFTER_PIECES: [Row; 1] = [(LONG, ROOM, (0, 3))];

const BY_OTHER_MECHANISMS: [Row; 2] = [(LONG, MOST_ROOM, (3, 3)), (LONG, Some(7), (1, 3))];

/// How many times the call is timed.
const TRIES: u32 = 5;

fn message_of(alloc: Global, count: usize) -> Result<Bytes, NoMemory> {
    Ok(Bytes::from_vec(vec![in alloc; b'a'; count]?))
}

/// The calls of session 1 that bring a single-part message of this length.
fn single_part_calls(
    alloc: Global,
    count: usize,
    room: Option<u64>,
) -> Result<Vec<Call>, NoMemory> {
    let session = 1;
    let digested = message_of(alloc, count)?;
    let signed = message_of(alloc, count)?;
    let verified = message_of(alloc, count)?;
    let signature = Bytes::new(alloc);
    Ok(vec![in alloc;
        Call::Digest {
            session,
            bytes: digested,
            room
        },
        Call::Sign {
            session,
            bytes: signed,
            room
        },
        Call::Verify {
            session,
            bytes: verified,
            signature
        },
    ]?)
}

/// The calls of session 1 that bring a piece of this length.
fn piece_calls(alloc: Global, count: usize) -> Result<Vec<Call>, NoMemory> {
    let session = 1;
    let mut calls = Vec::new(alloc);
    let bytes = message_of(alloc, count)?;
    calls.push(Call::DigestUpdate { session, bytes })?;
    let bytes = message_of(alloc, count)?;
    calls.push(Call::SignUpdate { session, bytes })?;
    let bytes = message_of(alloc, count)?;
    calls.push(Call::VerifyUpdate { session, bytes })?;
    Ok(calls)
}

/// How many of the calls have messages that are taken in before.
// By the trait, here and below, as a shared token does it: so what hands it on is tested, too.
fn count_in(token: &Token, calls: &[Call]) -> usize {
    calls
        .iter()
        .filter(|call| JournaledToken::work(token, call).is_some())
        .count()
}

/// How many of the three calls with a single-part message, and of the three with a piece, have
/// messages that are taken in before.
fn count_taken_in(
    alloc: Global,
    token: &Token,
    count: usize,
    room: Option<u64>,
) -> Result<(usize, usize), NoMemory> {
    let single_part = single_part_calls(alloc, count, room)?;
    let pieces = piece_calls(alloc, count)?;
    Ok((count_in(token, &single_part), count_in(token, &pieces)))
}

fn new_token(alloc: Global) -> Token {
    Token::new(alloc, Limits::largest())
}

/// Opens session 1 of a new token, creates a key that anybody may use, and makes many calls. Gives
/// the key's handle.
fn create_key(alloc: Global, token: &mut Token) -> Result<u64, Fail> {
    let (session, pin) = (1, Pin::of(b"1234"));
    token.try_call(alloc, 1, Call::InitToken { pin })?;
    token.try_call(alloc, 1, Call::OpenSession { flags: READ_WRITE })?;
    let template = Template::secret_key(alloc, b"Jefe")?.flag(Attribute::Private, false)?;
    let created = token.try_call(alloc, 1, Call::CreateObject { session, template })?;
    for _ in 0..EARLIER_CALLS {
        token.try_call(alloc, 1, Call::GetTokenInfo)?;
    }
    Ok(created.handle().ok_or("no key")?)
}

/// The mechanism of this type, with its parameter where it has one.
fn mechanism_of(alloc: Global, kind: u64) -> Result<Mechanism, NoMemory> {
    match kind {
        SHA384_HMAC_GENERAL => Mechanism::with_length(alloc, kind, TAG_LENGTH),
        _ => Ok(Mechanism::new(alloc, kind)),
    }
}

/// The calls that begin a digest, a signature and a verification in session 1.
fn beginnings(alloc: Global, key: u64, mechanisms: Mechanisms) -> Result<Vec<Call>, NoMemory> {
    let session = 1;
    let mut calls = Vec::new(alloc);
    let mechanism = mechanism_of(alloc, mechanisms.digest)?;
    calls.push(Call::DigestInit { session, mechanism })?;
    let mechanism = mechanism_of(alloc, mechanisms.hmac)?;
    calls.push(Call::sign_init(session, mechanism, key))?;
    let mechanism = mechanism_of(alloc, mechanisms.hmac)?;
    calls.push(Call::VerifyInit {
        session,
        mechanism,
        key,
    })?;
    Ok(calls)
}

/// Makes these calls, each of which is answered CKR_OK.
fn make_calls(alloc: Global, token: &mut Token, calls: Vec<Call>) -> Result<(), Fail> {
    for call in calls {
        token.try_call(alloc, 1, call)?;
    }
    Ok(())
}

/// Begins a digest, a signature and a verification in session 1 of a new token with a key.
fn begin_all(alloc: Global, token: &mut Token, mechanisms: Mechanisms) -> Result<(), Fail> {
    let key = create_key(alloc, token)?;
    make_calls(alloc, token, beginnings(alloc, key, mechanisms)?)
}

/// Fails where other messages than those of the rows are taken in.
fn check_rows(rt: &impl Abort, alloc: Global, token: &Token, rows: &[Row]) -> Result<(), Fail> {
    for (count, room, wanted) in rows {
        let taken_in = count_taken_in(alloc, token, *count, *room)?;
        assert!(rt; taken_in == *wanted);
    }
    Ok(())
}

/// Long messages are taken in before their calls, but not before an operation is active, where they
/// are too long, where only a length is answered, and after a piece where they are single-part.
fn check_messages(rt: &impl Abort, alloc: Global, token: &mut Token) -> Result<(), Fail> {
    check_rows(rt, alloc, token, &WITHOUT_OPERATIONS)?;
    begin_all(alloc, token, BY_SHA256)?;
    check_rows(rt, alloc, token, &WITHOUT_PIECES)?;
    make_calls(alloc, token, piece_calls(alloc, 1)?)?;
    check_rows(rt, alloc, token, &AFTER_PIECES)
}

#[test]
fn messages_are_taken_in_before_their_calls(rt: HostRuntime) -> Result<(), Fail> {
    check_messages(&rt, rt.alloc(), &mut new_token(rt.alloc()))
}

/// Long messages are taken in with these mechanisms, too.
fn check_mechanisms(
    rt: &impl Abort,
    alloc: Global,
    token: &mut Token,
    mechanisms: Mechanisms,
) -> Result<(), Fail> {
    begin_all(alloc, token, mechanisms)?;
    check_rows(rt, alloc, token, &BY_OTHER_MECHANISMS)
}

#[test]
fn messages_are_taken_in_with_each_mechanism(rt: HostRuntime) -> Result<(), Fail> {
    for mechanisms in OTHER_MECHANISMS {
        check_mechanisms(&rt, rt.alloc(), &mut new_token(rt.alloc()), mechanisms)?;
    }
    Ok(())
}

/// What taking in a message took of the processor, and what its call took afterwards.
#[derive(Clone, Copy)]
struct Times {
    before: Duration,
    in_call: Duration,
}

impl Times {
    /// Of each of the two times the lesser one.
    fn least(self, other: Times) -> Times {
        Times {
            before: self.before.min(other.before),
            in_call: self.in_call.min(other.in_call),
        }
    }
}

/// Takes in the message of a call, and makes the call.
fn times_of<R: CpuClock>(
    rt: &R,
    alloc: Global,
    token: &mut Token,
    call: Call,
) -> Result<Times, Fail> {
    let start = rt.process_cpu_time()?;
    let mut work = JournaledToken::work(token, &call).ok_or("no work")?;
    work.finish(&call);
    let taken_in = rt.process_cpu_time()?;
    JournaledToken::call_after(token, alloc, 1, call, Some(&work))?;
    let made = rt.process_cpu_time()?;
    Ok(Times {
        before: taken_in.saturating_sub(start),
        in_call: made.saturating_sub(taken_in),
    })
}

/// How calls bring their messages.
#[derive(Clone, Copy)]
enum Form {
    SinglePart,
    Pieces,
}

/// Messages of one length, and the mechanisms that take them.
#[derive(Clone, Copy)]
struct Messages {
    form: Form,
    length: usize,
    mechanisms: Mechanisms,
}

impl Messages {
    /// The longest messages.
    fn longest(form: Form, mechanisms: Mechanisms) -> Messages {
        Messages {
            form,
            length: LONGEST,
            mechanisms,
        }
    }

    /// Messages that are still long, for SHA-256.
    fn shorter(form: Form) -> Messages {
        Messages {
            form,
            length: SHORTER,
            mechanisms: BY_SHA256,
        }
    }

    /// The calls of session 1 that bring them.
    fn calls(self, alloc: Global) -> Result<Vec<Call>, NoMemory> {
        match self.form {
            Form::SinglePart => single_part_calls(alloc, self.length, MOST_ROOM),
            Form::Pieces => piece_calls(alloc, self.length),
        }
    }
}

/// Makes the calls with these messages on a new token, and lowers to their times the least ones so
/// far.
fn lower_times<R: CpuClock>(
    rt: &R,
    alloc: Global,
    token: &mut Token,
    messages: Messages,
    least: &mut [Times],
) -> Result<(), Fail> {
    begin_all(alloc, token, messages.mechanisms)?;
    for (call, times) in messages.calls(alloc)?.into_iter().zip(least) {
        *times = times.least(times_of(rt, alloc, token, call)?);
    }
    Ok(())
}

/// The least times of the three calls.
fn least_times<R: CpuClock>(rt: &R, alloc: Global, messages: Messages) -> Result<[Times; 3], Fail> {
    let longest = Times {
        before: Duration::MAX,
        in_call: Duration::MAX,
    };
    let mut least = [longest; 3];
    for _ in 0..TRIES {
        lower_times(rt, alloc, &mut new_token(alloc), messages, &mut least)?;
    }
    Ok(least)
}

/// Each call takes far less time than its message took before.
fn check_times<R: Abort + CpuClock>(rt: &R, alloc: Global, messages: Messages) -> Result<(), Fail> {
    for Times { before, in_call } in least_times(rt, alloc, messages)? {
        assert!(rt; in_call.saturating_mul(5) < before);
    }
    Ok(())
}

#[test]
fn single_part_messages_are_taken_in_once(rt: HostRuntime) -> Result<(), Fail> {
    check_times(
        &rt,
        rt.alloc(),
        Messages::longest(Form::SinglePart, BY_SHA256),
    )?;
    check_times(&rt, rt.alloc(), Messages::shorter(Form::SinglePart))
}

#[test]
fn pieces_are_taken_in_once(rt: HostRuntime) -> Result<(), Fail> {
    check_times(&rt, rt.alloc(), Messages::longest(Form::Pieces, BY_SHA256))?;
    check_times(&rt, rt.alloc(), Messages::shorter(Form::Pieces))
}

#[test]
fn messages_are_taken_in_once_with_each_mechanism(rt: HostRuntime) -> Result<(), Fail> {
    for mechanisms in OTHER_MECHANISMS {
        check_times(
            &rt,
            rt.alloc(),
            Messages::longest(Form::SinglePart, mechanisms),
        )?;
    }
    Ok(())
}

/// What C_Digest of a longest message with this room takes of the processor.
fn digest_time<R: CpuClock>(
    rt: &R,
    alloc: Global,
    token: &mut Token,
    room: Option<u64>,
) -> Result<Duration, Fail> {
    let (session, bytes) = (1, message_of(alloc, LONGEST)?);
    let start = rt.process_cpu_time()?;
    token.try_call(
        alloc,
        1,
        Call::Digest {
            session,
            bytes,
            room,
        },
    )?;
    Ok(rt.process_cpu_time()?.saturating_sub(start))
}

/// What C_Digest takes on a new token where it tells a length, and where it gives the digest.
fn digest_times<R: CpuClock>(
    rt: &R,
    alloc: Global,
    token: &mut Token,
) -> Result<(Duration, Duration), Fail> {
    begin_all(alloc, token, BY_SHA256)?;
    let told = digest_time(rt, alloc, token, None)?;
    Ok((told, digest_time(rt, alloc, token, ROOM)?))
}

/// The length of a digest is told without taking in the message.
#[test]
fn a_length_is_told_without_the_message(rt: HostRuntime) -> Result<(), Fail> {
    let (mut least_told, mut least_made) = (Duration::MAX, Duration::MAX);
    for _ in 0..TRIES {
        let (told, made) = digest_times(&rt, rt.alloc(), &mut new_token(rt.alloc()))?;
        least_told = least_told.min(told);
        least_made = least_made.min(made);
    }
    assert!(&rt; least_told.saturating_mul(5) < least_made);
    Ok(())
}
