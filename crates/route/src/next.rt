//! The route from place to place: a constant table by place, kind and outcome, the branch that a place takes.
ghost use Rattle.std.specs.Prelude.{◌≡◌, eqb};
ghost use Rattle.model.specs.{Places.reading, Route.route};
ghost use Rattle.route.specs.Constants.{row_of, branch_of};

use word::Anchor;

// Where a route leads to no place. These and the branches are numbers and no enums: the clause of `next` is of any place,
// kind and branch, and that of `decide::step::settles` of any number that a route could lead to.
pub const LEAVE: u8 = 20;

pub const PUSHED: u8 = 21;

pub const EMPTY: u8 = 22;

pub const POPPED: u8 = 23;

pub const NO_FREE_SLOT: u8 = 24;

// The branches of a place. Where it goes one way:
pub const ONLY_WAY: usize = 0;

// a change is done or has failed,
pub const DONE: usize = 0;

pub const FAILED: usize = 1;

// a comparison finds the word as read or another; at 7 the link names the end or not,
pub const EQUAL: usize = 0;

pub const UNEQUAL: usize = 1;

// place 11 is in a named or in a pooled queue, the head read at 12 has slot 0 or another,
pub const NAMED: usize = 0;

pub const POOLED: usize = 1;

pub const NONE_FREE: usize = 0;

pub const SOME_FREE: usize = 1;

// the Anchor read at 1 is empty, has l = r in a pop, is STABLE, or is none of these,
const READ_EMPTY: usize = 0;

const READ_SINGLE: usize = 1;

const READ_STABLE: usize = 2;

const READ_UNSTABLE: usize = 3;

// and so does the one that a failed change at 2 or 4 found, a branch on: 0 is where the change is done.

// The next place by place, kind (a push, then a pop) and branch, 0 where there is none. A failed change goes on as place 1
// would, so rows 2 and 4 have its reading behind the change done.
const NEXT: [[[u8; 5]; 2]; 18] = [
    [[0, 0, 0, 0, 0], [0, 0, 0, 0, 0]],
    [[2, 0, 3, 5, 0], [EMPTY, 2, 3, 5, 0]],
    [[PUSHED, 2, 0, 3, 5], [11, EMPTY, 2, 3, 5]],
    [[4, 0, 0, 0, 0], [4, 0, 0, 0, 0]],
    [[5, 2, 0, 3, 5], [11, EMPTY, 2, 3, 5]],
    [[6, 0, 0, 0, 0], [6, 0, 0, 0, 0]],
    [[7, LEAVE, 0, 0, 0], [7, LEAVE, 0, 0, 0]],
    [[10, 8, 0, 0, 0], [10, 8, 0, 0, 0]],
    [[9, LEAVE, 0, 0, 0], [9, LEAVE, 0, 0, 0]],
    [[10, LEAVE, 0, 0, 0], [10, LEAVE, 0, 0, 0]],
    [[LEAVE, LEAVE, 0, 0, 0], [LEAVE, LEAVE, 0, 0, 0]],
    [[0, 0, 0, 0, 0], [POPPED, 15, 0, 0, 0]],
    [[NO_FREE_SLOT, 13, 0, 0, 0], [0, 0, 0, 0, 0]],
    [[14, 0, 0, 0, 0], [0, 0, 0, 0, 0]],
    [[1, 12, 0, 0, 0], [0, 0, 0, 0, 0]],
    [[0, 0, 0, 0, 0], [16, 0, 0, 0, 0]],
    [[0, 0, 0, 0, 0], [17, 0, 0, 0, 0]],
    [[0, 0, 0, 0, 0], [POPPED, 15, 0, 0, 0]],
];

/// A place's row, all 0 where there is none.
// Each is taken by a literal. Tried, and slower: `NEXT[place]` behind a test of its length, inlined at each call, takes 235
// instructions a step where this takes 173 (zc_step, 16 tasks on 3 slots), since the compiler builds a constant table on the
// stack where it is used, and drops it again only where all of its indices are known.
#[tactic(auto, unfolding(model::specs::Route::route, model::specs::Route::push_route, model::specs::Route::pop_route))]
fn row(place: usize) -> [[u8; 5]; 2]
    ensures { result ≡ row_of place }
{
    let table = NEXT;
    match place {
        1 => table[1],
        2 => table[2],
        3 => table[3],
        4 => table[4],
        5 => table[5],
        6 => table[6],
        7 => table[7],
        8 => table[8],
        9 => table[9],
        10 => table[10],
        11 => table[11],
        12 => table[12],
        13 => table[13],
        14 => table[14],
        15 => table[15],
        16 => table[16],
        17 => table[17],
        _ => table[0],
    }
}

/// Where a branch of a place leads; what has no place in the table leads nowhere, 0.
pub fn next(place: usize, kind: u64, branch: usize) -> u8
    ensures { result ≡ route place kind branch }
{
    if 4 < branch {
        return 0;
    }
    let [pushes, pops] = row(place);
    if kind == 0 {
        pushes[branch]
    } else {
        pops[branch]
    }
}

/// Where an Anchor leads that was read at place 1 or, where the change at 2 or 4 failed, found by it: empty, a pop of the
/// only label, STABLE, unstable.
pub fn after_reading(place: usize, failed: bool, kind: u64, a: Anchor) -> u8
    ensures { result ≡ route place kind (branch_of failed (reading (eqb kind 1) a)) }
{
    let behind = usize::from(failed);
    if a.left == a.right {
        if a.left == 0 {
            return next(place, kind, READ_EMPTY + behind);
        }
        if kind == 1 {
            return next(place, kind, READ_SINGLE + behind);
        }
    }
    if a.status == 0 {
        next(place, kind, READ_STABLE + behind)
    } else {
        next(place, kind, READ_UNSTABLE + behind)
    }
}
