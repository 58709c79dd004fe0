//! What is said of a text, written into a lent buffer.
ghost use Rattle.std.specs.Prelude.{◌≡◌, ◌+◌, ◌≤◌, length, is_ok};
ghost use Rattle.lines.specs.Line.{Put, given_room, room};
ghost use Rattle.judge.specs.{Judging.judged, Saying.wanted};
ghost use Rattle.judge.specs.Saying.{counted, fault_line, message, position, said, unread_line, verdict_line};

use audit_model::Verdict;
use historyfile::reading::Place;
use historyfile::words::Fault;

// A word, a number and the line's end.
fn put_counted(out: &mut [u8], word: &[u8], n: u64) -> usize
    requires { length word.now + 21 ≤ length out.old }
    ensures put { Put out.old out.new 0 result (counted word.now n) }
    ensures upper_bound { result ≤ length word.now + 21 }
{
    let a = lines::write_text(out, 0, word);
    let b = lines::write_decimal(out, a, n);
    lines::write_text(out, b, b"\n")
}

fn put_position(out: &mut [u8], n: u32) -> usize
    requires { 128 ≤ length out.old }
    ensures put { Put out.old out.new 0 result (position n) }
    ensures upper_bound { result ≤ 128 }
{
    if n == 0 {
        return lines::write_text(out, 0, b"no rearrangement\n");
    }
    put_counted(out, b"fails at ", u64::from(n))
}

fn put_verdict(out: &mut [u8], v: Verdict) -> usize
    requires { 128 ≤ length out.old }
    ensures put { Put out.old out.new 0 result (verdict_line v) }
    ensures upper_bound { result ≤ 128 }
{
    match v {
        Verdict::Passed => lines::write_text(out, 0, b"passes\n"),
        Verdict::Failed(n) => put_position(out, n),
        Verdict::Refused(why) => put_counted(out, b"refused ", u64::from(why)),
    }
}

fn wanted(column: u64) -> &'static [u8]
    ensures text { result.now ≡ wanted column }
    ensures upper_bound { length result.now ≤ 80 }
{
    match column {
        0 => b"a task's number or `order` is wanted\n",
        1 => b"`push` or `pop` is wanted\n",
        2 => b"`left` or `right` is wanted\n",
        3 => b"a label or `-` is wanted\n",
        4 => b"`pushed`, `empty` or `popped` is wanted\n",
        8 => b"a call's number is wanted\n",
        _ => b"an event's number is wanted\n",
    }
}

fn fault_line(why: Fault, column: u64) -> &'static [u8]
    ensures text { result.now ≡ fault_line why column }
    ensures upper_bound { length result.now ≤ 80 }
{
    match why {
        Fault::Unknown => wanted(column),
        Fault::Large => b"a number is above 18446744073709551615\n",
        Fault::Seven => b"a call has seven words: task, kind, side, label, answer, start, end\n",
        Fault::Unlabelled => b"`-` stands for a label only with `empty`\n",
    }
}

fn put_unread(out: &mut [u8], p: Place) -> usize
    requires { 128 ≤ length out.old }
    ensures put { Put out.old out.new 0 result (unread_line p) }
    ensures upper_bound { result ≤ 128 }
{
    let Some(why) = p.fault else {
        return lines::write_text(
            out,
            0,
            b"verdict: the order is missing; it is the last line, `order` and the calls' numbers\n",
        );
    };
    let a = lines::write_text(out, 0, b"verdict: line ");
    let b = lines::write_decimal(out, a, p.line);
    let c = lines::write_text(out, b, b": ");
    lines::write_text(out, c, fault_line(why, p.column))
}

// The message, where there is room for it; else nothing.
fn put_message(out: &mut [u8], judged: Result<Verdict, Place>) -> usize
    ensures put { Put out.old out.new 0 result (given_room room (length out.old) 0 (message judged)) }
    ensures upper_bound { result ≤ length out.old }
{
    if !lines::fits(out.len(), 0) {
        return 0;
    }
    match judged {
        Ok(v) => put_verdict(out, v),
        Err(p) => put_unread(out, p),
    }
}

/// What is said of a text, where the buffer has `lines::ROOM` bytes for it; otherwise nothing.
/// How many bytes were written: `Ok` where they tell a verdict, `Err` where they tell why the text cannot be read.
pub fn say(text: &[u8], out: &mut [u8]) -> Result<usize, usize>
    ensures put { Put out.old out.new 0 (said result) (given_room room (length out.old) 0 (message (judged text.now))) }
    ensures told { is_ok result ≡ is_ok (judged text.now) }
    ensures length_in_bounds { said result ≤ length out.old }
{
    let judged = crate::judge(text);
    let n = put_message(out, judged);
    match judged {
        Ok(_) => Ok(n),
        Err(_) => Err(n),
    }
}
