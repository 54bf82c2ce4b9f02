//! Readers and writers that fail, and readers that do not end in time.
use crate::tests::devices::{Devices, End, check_play};
use std::test::Fail;

/// Three lines of 16 bytes.
const SCRIPT: &[u8] = b"1 OpenSession 6\n1 SignFinal 7 ?\n1 OpenSession 4\n";

/// The replies to its lines, each of three bytes.
const REPLIES: &[u8] = b"e1\nb3\ne1\n";

/// The first `count` bytes.
fn beginning(bytes: &'static [u8], count: usize) -> &'static [u8] {
    bytes.split_at(count.min(bytes.len())).0
}

/// Bytes are read one by one, and a read fails or isn't made. The last read finds the end.
#[test]
fn lines_are_answered_before_the_next_read(rt: HostRuntime) {
    for count in 0..=SCRIPT.len() {
        let replies = beginning(REPLIES, (count / 16).saturating_mul(3));
        let mut failing = Devices::of(1);
        failing.read_fails_at = Some((count as u64).saturating_add(1));
        check_play(&rt, rt.alloc(), SCRIPT, failing, replies, End::Read);
        let mut ending = Devices::of(1);
        ending.most_reads = count as u64;
        check_play(&rt, rt.alloc(), SCRIPT, ending, replies, End::Endless);
    }
    let mut one_more = Devices::of(1);
    one_more.most_reads = 49;
    check_play(&rt, rt.alloc(), SCRIPT, one_more, REPLIES, End::Played);
}

/// A comment of two bytes and its end take three reads, and one more finds the end of the script.
#[test]
fn the_end_is_found_by_a_read(rt: HostRuntime) {
    for (most_reads, end) in [(3, End::Endless), (4, End::Played)] {
        let devices = Devices {
            most_reads,
            ..Devices::of(1)
        };
        check_play(&rt, rt.alloc(), b"#x\n", devices, b"", end);
    }
}

/// How many bytes a comment has that is read one by one.
const MANY: usize = 1_000_001;

/// Each byte takes a read, and one more finds the end of the script.
#[test]
fn a_comment_may_take_many_reads(rt: HostRuntime) -> Result<(), Fail> {
    let script = vec![in rt.alloc(); b'#'; MANY]?;
    for (most_reads, end) in [(1_000_000, End::Endless), (1_000_002, End::Played)] {
        let devices = Devices {
            most_reads,
            ..Devices::of(1)
        };
        check_play(&rt, rt.alloc(), &script, devices, b"", end);
    }
    Ok(())
}

/// Bytes are written one by one, and a write fails or takes none.
#[test]
fn a_writer_that_fails_has_a_beginning_of_the_replies(rt: HostRuntime) {
    for count in 0..REPLIES.len() {
        let next = (count as u64).saturating_add(1);
        let replies = beginning(REPLIES, count);
        let mut failing = Devices::of(1);
        failing.write_fails_at = Some(next);
        check_play(&rt, rt.alloc(), SCRIPT, failing, replies, End::Write);
        let mut stopping = Devices::of(1);
        stopping.write_stops_at = Some(next);
        check_play(&rt, rt.alloc(), SCRIPT, stopping, replies, End::Write);
    }
}

/// A reply that the writer takes whole is one write: the second write is that of the next reply.
#[test]
fn a_reply_is_one_write(rt: HostRuntime) {
    let script = b"1 GetMechanismList\n1 GetTokenInfo\n";
    let reply = b"0 250,251,252,255,256,257,260,261,262,270,271,272,350\n";
    let mut failing = Devices::of(1_000);
    failing.write_fails_at = Some(2);
    check_play(&rt, rt.alloc(), script, failing, reply, End::Write);
}
