//! Tagged fields: one tag byte, two length bytes, content, numbers high byte first.
#![tactic(auto)]

ghost use Rattle.std.specs.Prelude.{◌≡◌, ◌≤◌, length, IfOk, Bool, true};
ghost use Rattle.runfile.specs.Field.{formed, content_of, field_of};

use model::Op;

/// The bytes of a field before its content: the tag and the length.
pub const HEAD: usize = 3;

#[derive(Clone, Copy)]
pub enum Field {
    Open {
        pooled: bool,
        tasks: u64,
        slots: u64,
        tag: u32,
    },
    /// An operation for each of the task bytes with which the content begins: one for a start, all of it for steps.
    Each {
        op: Op,
        count: usize,
    },
}

/// A whole field, and how many bytes it takes.
#[derive(Clone, Copy)]
pub struct Found {
    pub field: Field,
    pub size: usize,
}

/// Why no whole field is there.
#[derive(Clone, Copy, Debug, PartialEq, Eq)]
pub enum NoField {
    /// Refusal 16.
    Malformed,
    /// The bytes end before the field does. It is malformed if no more come.
    Cut,
    /// There are no bytes.
    End,
}

// Whether a field of this tag and length may stand here. Tags stay numbers, as document 01 lists them: an enum would be made
// of the byte by a list as long as this one, only to be matched in `content`.
#[tactic(auto, unfolding(crate::specs::Field::formed))]
fn is_formed(opened: bool, tag: u8, len: u16) -> bool
    ensures { result ≡ formed opened tag len }
{
    if opened {
        matches!((tag, len), (2, 8) | (3, 2) | (4, 0..=4096) | (6, 6))
    } else {
        matches!((tag, len), (1 | 5, 7))
    }
}

// The content of a field, as many bytes as its tag asks for.
#[tactic(auto, unfolding(crate::specs::Field::content_of, crate::specs::Field::formed, crate::specs::Field::two_at, crate::specs::Field::four_at))]
fn content(tag: u8, bytes: &[u8]) -> Field
    ensures { (opened : Bool) → formed opened tag (length bytes.now) ≡ true → result ≡ content_of tag (length bytes.now) bytes.now }
{
    match (tag, bytes) {
        (1 | 5, &[tasks, s1, s0, t3, t2, t1, t0]) => Field::Open {
            pooled: tag == 5,
            tasks: u64::from(tasks),
            slots: u64::from(u16::from_be_bytes([s1, s0])),
            tag: u32::from_be_bytes([t3, t2, t1, t0]),
        },
        (2, &[_, side, s1, s0, l3, l2, l1, l0]) => Field::Each {
            op: Op::Push {
                side: u64::from(side),
                slot: u64::from(u16::from_be_bytes([s1, s0])),
                label: u32::from_be_bytes([l3, l2, l1, l0]),
            },
            count: 1,
        },
        (3, &[_, side]) => Field::Each {
            op: Op::Pop {
                side: u64::from(side),
            },
            count: 1,
        },
        (6, &[_, side, l3, l2, l1, l0]) => Field::Each {
            op: Op::PushPooled {
                side: u64::from(side),
                label: u32::from_be_bytes([l3, l2, l1, l0]),
            },
            count: 1,
        },
        (_, tasks) => Field::Each {
            op: Op::Step,
            count: tasks.len(),
        },
    }
}

/// The field at the head of the bytes. `opened`: an opening stands before it.
#[tactic(auto, unfolding(crate::specs::Field::field_of, crate::specs::Field::two_at))]
pub fn first_field(bytes: &[u8], opened: bool) -> Result<Found, NoField>
    ensures value { result ≡ field_of opened bytes.now }
    ensures size_in_bounds { IfOk result (λ found. found.size ≤ length bytes.now) }
{
    match bytes {
        [] => Err(NoField::End),
        &[tag, high, low, ref rest @ ..] => {
            let len = u16::from_be_bytes([high, low]);
            if !is_formed(opened, tag, len) {
                return Err(NoField::Malformed);
            }
            let bytes = rest.get(..usize::from(len)).ok_or(NoField::Cut)?;
            Ok(Found {
                field: content(tag, bytes),
                size: HEAD + bytes.len(),
            })
        }
        _ => Err(NoField::Cut),
    }
}
