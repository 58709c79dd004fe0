//! Replies in words.
ghost use Rattle.std.specs.Prelude.{◌≡◌, ◌+◌, ◌*◌, ◌≤◌};
ghost use lib.{ListN.length, Seq.sets};
ghost use Rattle.serve.specs.Requests.{reply_words};

use model::Reply;

/// Stores reply i.
pub fn write_reply(words: &mut [u64], i: usize, r: Reply)
    requires { 3 * i + 3 ≤ length words.old }
    ensures { words.new ≡ sets words.old (3 * i) (reply_words r) }
{
    let at = 3 * i;
    words[at] = r.code as u64;
    words[at + 1] = r.label as u64;
    words[at + 2] = r.value;
}
