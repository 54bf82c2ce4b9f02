ghost use Rattle.std.specs.Prelude.{◌≡◌, IfOk, map};
ghost use Rattle.ck_foreign.specs.Queries.{query_of, room_of};

use ck_token::{AttributeQuery, NoMemory, Sequence};
use std::alloc::Global;

/// What C asks of an attribute: its type, and the room for its value. Without `has_room` it asks
/// only for the value's length.
#[repr(C)]
#[derive(Clone, Copy)]
pub struct Query {
    pub kind: u64,
    pub room: u64,
    pub has_room: bool,
}

/// The room that C gives for bytes, or `None` where it asks only for their length.
pub fn room_of(has_room: bool, room: u64) -> Option<u64>
    ensures { result ≡ room_of has_room room }
{
    has_room.then_some(room)
}

/// The query that C gives.
fn query_of(query: &Query) -> AttributeQuery
    ensures { result ≡ query_of query.now }
{
    AttributeQuery {
        kind: query.kind,
        room: room_of(query.has_room, query.room),
    }
}

/// The queries of C_GetAttributeValue.
pub fn queries_of(alloc: Global, queries: &[Query]) -> Result<Sequence<AttributeQuery>, NoMemory>
    ensures { IfOk result (λ asked. asked ≡ map query_of queries.now) }
{
    let mut asked = Vec::with_capacity(alloc, queries.len())?;
    for query in queries {
        asked.push(query_of(query))?;
    }
    Ok(Sequence::from_vec(asked))
}
