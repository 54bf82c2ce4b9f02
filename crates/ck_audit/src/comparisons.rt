ghost use Rattle.std.specs.Prelude.{◌≡◌, ◌↔◌, List, ◌∷◌, IsTrue, IfSome, IfNone};
ghost use Rattle.ck_journal.specs.declared.calls.Entry.{Entry};
ghost use Rattle.ck_audit.specs.Replies.{replies_to};

use ck_journal::{Answer, Body, Entries, Entry, Reply};

/// The replies that are left for later entries, where the entry is another caller's or its reply is
/// the first of them.
fn replies_left<'a>(caller: u32, entry: &Entry, replies: &'a [Reply]) -> Option<&'a [Reply]>
    ensures left { IfSome result (λ left. (later : List Entry)
        → (replies.now ≡ replies_to caller (entry.now ∷ later))
        ↔ (left.now ≡ replies_to caller later)) }
    ensures none { IfNone result ((later : List Entry)
        → replies.now ≡ replies_to caller (entry.now ∷ later) → ⊥) }
{
    if entry.caller != caller {
        return Some(replies);
    }
    match replies {
        [reply, left @ ..] if are_same_replies(reply, &entry.reply) => Some(left),
        _ => None,
    }
}

/// Whether these are the replies to the caller's calls among the entries, in their order.
pub fn are_replies_of(caller: u32, entries: Entries<'_>, replies: &[Reply]) -> bool
    ensures { IsTrue result ↔ (replies.now ≡ replies_to caller entries.entry) }
{
    let mut left = replies;
    for entry in entries {
        match replies_left(caller, entry, left) {
            Some(later) => left = later,
            None => return false,
        }
    }
    left.is_empty()
}

/// Whether two replies have the same code and the same body. It takes no memory.
pub fn are_same_replies(one: &Reply, other: &Reply) -> bool
    ensures { IsTrue result ↔ (one.now ≡ other.now) }
{
    one.rv == other.rv && are_same_bodies(&one.body, &other.body)
}

/// Whether the two bodies are equal.
fn are_same_bodies(one: &Body, other: &Body) -> bool
    ensures { IsTrue result ↔ (one.now ≡ other.now) }
{
    match (one, other) {
        (Body::Empty, Body::Empty) => true,
        (Body::Handle(one), Body::Handle(other)) => one == other,
        (
            Body::Session { state, flags },
            Body::Session {
                state: other_state,
                flags: other_flags,
            },
        ) => state == other_state && flags == other_flags,
        (
            Body::Token {
                flags,
                limit,
                sessions,
                rw_sessions,
            },
            Body::Token {
                flags: other_flags,
                limit: other_limit,
                sessions: other_sessions,
                rw_sessions: other_rw_sessions,
            },
        ) => {
            flags == other_flags
                && limit == other_limit
                && sessions == other_sessions
                && rw_sessions == other_rw_sessions
        }
        (Body::Mechanisms(one), Body::Mechanisms(other)) => one.as_slice() == other.as_slice(),
        (Body::Attributes(one), Body::Attributes(other)) => {
            are_same_answers(one.as_slice(), other.as_slice())
        }
        (Body::Handles(one), Body::Handles(other)) => one.as_slice() == other.as_slice(),
        (Body::Length(one), Body::Length(other)) => one == other,
        (Body::Bytes(one), Body::Bytes(other)) => one.as_slice() == other.as_slice(),
        _ => false,
    }
}

/// Whether the answers to queries are equal, one by one.
fn are_same_answers(one: &[Answer], other: &[Answer]) -> bool
    ensures { IsTrue result ↔ (one.now ≡ other.now) }
{
    if one.len() != other.len() {
        return false;
    }
    for (answer, other) in one.iter().zip(other) {
        if !is_same_answer(answer, other) {
            return false;
        }
    }
    true
}

/// Whether the two answers are equal.
fn is_same_answer(one: &Answer, other: &Answer) -> bool
    ensures { IsTrue result ↔ (one.now ≡ other.now) }
{
    match (one, other) {
        (Answer::Value(one), Answer::Value(other)) => one.as_slice() == other.as_slice(),
        (Answer::Length(one), Answer::Length(other)) => one == other,
        (Answer::Unavailable, Answer::Unavailable) => true,
        _ => false,
    }
}
