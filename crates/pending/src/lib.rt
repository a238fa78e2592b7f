// The pending changes: how they are laid out is known in this crate alone.
#![tactic(auto)]

ghost use Rattle.std.specs.Prelude.{List, ◌≡◌, ◌+◌, ◌<◌, ◌^◌};
ghost use Rattle.model.specs.Change.{Change};
ghost use Rattle.pending.specs.Kept.{arrangement, pending_room};
ghost use Rattle.pending.specs.Taking.{from_start, Within, Taking, TakenOn};

use sheet::{MOST_MODULES, PENDING_LIMIT};
use std::marker::Model;

// As many as may be pending after a tick, and one more of each module.
const PLACES: usize = PENDING_LIMIT + (MOST_MODULES as usize);

// The pending changes, each one number, in the order in which they were put.
#[derive(Clone, Copy)]
pub struct Pending {
    changes: [u32; PLACES],
    count: usize,
}

impl Model for Pending {
    ghost use Rattle.std.specs.Prelude.{◌≡◌, ◌≤◌, ◌++◌, length, take, drop};
    ghost use Rattle.std.proofs.Common.{arith, take-append-drop, length-take-le};
    ghost use Rattle.pending.specs.Kept.{Stored, pending_room};

    ghost Value = { Stored };

    ghost view = { λ p. record { kept = take p.count p.changes; past = drop p.count p.changes } };

    ghost invariant = { λ p. (length p.changes ≡ pending_room) × (p.count ≤ pending_room) };

    ghost inverse = { λ s. record { changes = s.kept ++ s.past; count = length s.kept } };

    ghost inverse_ok = { λ p h i. record {
      changes = take-append-drop p.count p.changes i;
      count = length-take-le p.count p.changes (omega (arith, h.0, h.1)) i;
    } };
}

// How far the changes are passed at a tick: `kept` of the first `at` stay, and stand first; `end` were pending when the pass began.
#[derive(Clone, Copy)]
pub struct Scan {
    pub kept: usize,
    pub at: usize,
    pub end: usize,
}

// What is met next: the position and value of a change that is due, or one that stays, and where to go on; or the end.
// No iterator over those due: a loop in it makes two jumps for a change that stays, which is slower (docs/DECISIONS.md, "Measures").
#[derive(Clone, Copy)]
pub enum Met {
    Due(usize, u8, Scan),
    Stays(Scan),
    End,
}

impl Pending {
    // Room for the pending changes, none of them put yet.
    pub fn empty() -> Self
        ensures { result.kept ≡ arrangement.nothing }
    {
        Pending {
            changes: [0; PLACES],
            count: 0,
        }
    }

    // How many changes are pending.
    pub fn count(&self) -> usize
        ensures { result ≡ arrangement.count self.now.kept }
    {
        self.count
    }

    // Puts a change behind those that are pending. That there is room is asked: how many may be put follows from the network, which is not known here.
    pub fn put(&mut self, due: u32, position: usize, value: u8)
        requires { (arrangement.count self.old.kept < pending_room) × (due < 2 ^ 22) × (position < 256) × (value < 4) }
        ensures { (self.new.kept ≡ arrangement.put self.old.kept (record { due = due; position = position; value = value }))
            × (arrangement.count self.new.kept ≡ arrangement.count self.old.kept + 1) }
    {
        self.changes[self.count] = (due * 256 + (position as u32)) * 4 + (value as u32);
        self.count += 1;
    }

    // Where the pass over the pending changes begins, at each tick.
    pub fn from_start(&self) -> Scan
        ensures { result ≡ from_start self.now.kept }
    {
        Scan {
            kept: 0,
            at: 0,
            end: self.count,
        }
    }

    // Goes on from `scan` past the next pending change, at tick t. One that is not due moves down to the others that stay; at the end
    // these alone are pending.
    pub fn pass_next(&mut self, scan: Scan, t: u32) -> Met
        requires { Within self.old.kept scan }
        ensures { (start : arrangement.Kept) (taken : List Change)
            → Taking start t taken self.old.kept scan → TakenOn start t taken self.new.kept scan result }
    {
        let Scan { kept, at, end } = scan;
        if at >= end {
            self.count = kept;
            return Met::End;
        }
        let p = self.changes[at];
        if p / 1024 == t {
            return Met::Due(
                (p / 4 % 256) as usize,
                (p % 4) as u8,
                Scan {
                    kept,
                    at: at + 1,
                    end,
                },
            );
        }
        self.changes[kept] = p;
        Met::Stays(Scan {
            kept: kept + 1,
            at: at + 1,
            end,
        })
    }
}
