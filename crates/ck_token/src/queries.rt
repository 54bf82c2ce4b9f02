ghost use Rattle.std.specs.Prelude.{◌≡◌, [], ◌∷◌, false, IfOk, OnErr};
ghost use Rattle.ck_journal.specs.Lists.{is_empty};
ghost use Rattle.ck_journal.specs.Queries.{query_answer, queries_code, queries_reply};
ghost use Rattle.ck_parts.specs.declared.changes.Change.TheVariants as change;
ghost use Rattle.ck_token.specs.Decisions.{reply_of};
ghost use Rattle.ck_token.specs.QueryCodes.{rank, higher};

use crate::decisions::Decision;
use ck_journal::{Answer, AttributeQuery, Body};
use ck_objects::Record;
use ck_parts::Change;
use ck_types::{NoMemory, Rv, RvError, Sequence};
use std::alloc::Global;

/// The rank of a query's code: CKR_ATTRIBUTE_SENSITIVE is the highest, then come
/// CKR_ATTRIBUTE_TYPE_INVALID, CKR_BUFFER_TOO_SMALL and CKR_OK. A call of C_GetAttributeValue
/// answers the code of the highest rank that its queries have.
fn rank(code: Rv) -> u64
    ensures { result ≡ rank code }
{
    match code {
        Rv::Ok => 0,
        Rv::Error(RvError::BufferTooSmall) => 1,
        Rv::Error(RvError::AttributeTypeInvalid) => 2,
        Rv::Error(_) => 3,
    }
}

/// Of two queries' codes the one of the higher rank.
fn higher(one: Rv, other: Rv) -> Rv
    ensures { result ≡ higher one other }
{
    if rank(one) < rank(other) { other } else { one }
}

/// The answer to a query, and the code that it has by itself.
fn query_answer(
    alloc: Global,
    attributes: &Record,
    query: &AttributeQuery,
) -> Result<(Answer, Rv), NoMemory>
    ensures answer { IfOk result (λ found. found.0 ≡ query_answer attributes.now query.now) }
    ensures code { IfOk result (λ found.
        found.1 ≡ queries_code attributes.now (query.now ∷ [])) }
{
    let value = match attributes.readable(query.kind) {
        Err(error) => return Ok((Answer::Unavailable, Rv::Error(error))),
        Ok(value) => value,
    };
    let length = value.len();
    match query.room {
        None => Ok((Answer::Length(length), Rv::Ok)),
        Some(room) if room < length => {
            Ok((Answer::Unavailable, Rv::Error(RvError::BufferTooSmall)))
        }
        Some(_) => {
            let value = value.to_value(alloc)?;
            Ok((Answer::Value(value), Rv::Ok))
        }
    }
}

/// The decision on queries of an object with these attributes: one answer for each, and one code.
/// They change nothing. Without queries this takes no memory.
pub(crate) fn queries_decision(
    alloc: Global,
    attributes: &Record,
    queries: &[AttributeQuery],
) -> Result<Decision, NoMemory>
    ensures reply { IfOk result (λ decision.
        reply_of decision ≡ queries_reply attributes.now queries.now) }
    ensures change { IfOk result (λ decision. decision.change ≡ change.Nothing) }
    ensures memory { OnErr result (is_empty queries.now ≡ false) }
{
    let mut answers = Vec::with_capacity(alloc, queries.len())?;
    let mut rv = Rv::Ok;
    for query in queries {
        let (answer, code) = query_answer(alloc, attributes, query)?;
        answers.push_reserved(answer);
        rv = higher(rv, code);
    }
    Ok(Decision {
        rv,
        body: Body::Attributes(Sequence::from_vec(answers)),
        change: Change::Nothing,
    })
}
