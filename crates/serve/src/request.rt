//! Requests in words.
ghost use Rattle.std.specs.Prelude.{◌≡◌, ◌+◌, ◌*◌, ◌≤◌, length, get_or};
ghost use Rattle.serve.specs.Requests.{op_of};

use model::Op;

const PUSH: u64 = 0;

const POP: u64 = 1;

const PUSH_POOLED: u64 = 2;

// A label is below this.
const LABELS: u64 = 4294967296;

/// An operation of a task.
#[derive(Clone, Copy)]
pub struct Request {
    pub task: usize,
    pub op: Op,
}

// The operation that a number names; any other number is a step's.
#[tactic(auto, unfolding(crate::specs::Requests::op_of))]
fn op_of(code: u64, side: u64, slot: u64, label: u64) -> Op
    ensures { result ≡ op_of code side slot label }
{
    let label = (label % LABELS) as u32;
    match code {
        PUSH => Op::Push { side, slot, label },
        POP => Op::Pop { side },
        PUSH_POOLED => Op::PushPooled { side, label },
        _ => Op::Step,
    }
}

/// Request i, of five words.
pub fn request_at(words: &[u64], i: usize) -> Request
    requires { 5 * i + 5 ≤ length words.now }
    ensures { result
        ≡ record {
          task = get_or words.now (5 * i) 0;
          op = op_of (get_or words.now (5 * i + 1) 0) (get_or words.now (5 * i + 2) 0)
              (get_or words.now (5 * i + 3) 0) (get_or words.now (5 * i + 4) 0);
        } }
{
    let at = 5 * i;
    Request {
        task: words[at] as usize,
        op: op_of(words[at + 1], words[at + 2], words[at + 3], words[at + 4]),
    }
}
