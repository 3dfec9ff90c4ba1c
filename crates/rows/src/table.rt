// The table of a control node's rows, one for each child in the order of their slots.
ghost use Rattle.std.specs.Prelude.{◌≡◌, ℕ, ◌<◌, map, length, IfOk, vec_len, slice_index_or};
ghost use Rattle.std.specs.Borrow.{sem, follows};
ghost use Rattle.std.specs.Vec.{with_item};
ghost use Rattle.rows.specs.contracts.table.RowTable.{the_row};
ghost use Rattle.rows.specs.contracts.row.Row.{the_row as one_row};
ghost use Rattle.rows.specs.Rows.{new_row, dead_row, ticked_row};
ghost use Rattle.wire.specs.Flags.{word_from, held_words};
ghost use Rattle.rows.specs.Tables.{rows_of, slot_of, has_live_row, decided, rows_after, any_live, lower_row, lowest_row, highest_high, all_hold};

use crate::row::{Decision, FromChild, Parent, Row};
use std::alloc::{AllocError, Global};
use std::array;

// By a rule of the project a plain struct, with no invariant of its own; clauses read it as a list by `rows_of`.
#[derive(Drop)]
pub struct RowTable {
    rows: Vec<Row>,
}

impl RowTable {
    // A dead row for each child. Only want of memory refuses it.
    pub fn new(heap: Global, children: &[u16]) -> Result<RowTable, AllocError>
        ensures { IfOk result (λ t. rows_of t ≡ map new_row children.now) }
    {
        let rows = children.iter().map(|child| Row::new(*child)).collect(heap)?;
        Ok(RowTable { rows })
    }

    // How many children there are.
    pub fn len(&self) -> usize
        ensures { result ≡ length (rows_of self.now) }
    {
        self.rows.len()
    }

    // Lends the row in a slot.
    fn row_mut(&mut self, slot: usize) -> &mut Row
        requires { slot < vec_len self.old.rows }
        ensures* follows { sem 𝓛 (follows the_row one_row self.entry.ghost_name result.ghost_name (λ w. record { rows = with_item self.old.rows slot w })) }
        ensures value { result.now ≡ slice_index_or self.old.rows.items slot result.now }
    {
        &mut self.rows[slot]
    }

    // Every row dies. This and the next are two loops: one helper with the step as a closure would be longer than both.
    pub fn kill_all(&mut self)
        ensures { rows_of self.new ≡ map dead_row (rows_of self.old) }
    {
        for row in self.rows.iter_mut() {
            *row = row.died();
        }
    }

    // Each row that was last heard more than `limit` before the clock dies.
    pub fn tick(&mut self, limit: u32, clock: u32)
        ensures { rows_of self.new ≡ map (ticked_row limit clock) (rows_of self.old) }
    {
        for row in self.rows.iter_mut() {
            *row = row.ticked(limit, clock);
        }
    }

    // The slot of a child.
    pub fn slot_of(&self, child: u16) -> Option<usize>
        ensures { result ≡ slot_of child (rows_of self.now) }
    {
        self.rows.iter().position(|row| row.child == child)
    }

    // Whether a child has a live row with this term.
    pub fn has_live(&self, child: u16, term: u32) -> bool
        ensures { result ≡ has_live_row child term (rows_of self.now) }
    {
        self.rows
            .iter()
            .find(|row| row.child == child)
            .is_some_and(|row| row.live_at(term))
    }

    // Whether any child counts.
    pub fn any_live(&self) -> bool
        ensures { result ≡ any_live (rows_of self.now) }
    {
        self.rows.iter().any(|row| row.live)
    }

    // The slot of the first live row with the lowest low, and that low. The floor of a report is one less.
    pub fn lowest(&self) -> Option<(usize, u32)>
        ensures { result ≡ lowest_row (rows_of self.now) }
    {
        // In a loop, by a rule of the project: the row's index is gathered with the minimum.
        let mut best = None;
        for (slot, row) in self.rows.iter().enumerate() {
            best = lower(best, slot, row);
        }
        best
    }

    // The highest high of the live rows, 0 where there is none.
    pub fn highest(&self) -> u32
        ensures { result ≡ highest_high (rows_of self.now) }
    {
        self.rows
            .iter()
            .filter(|row| row.live)
            .map(|row| row.hack.hsn)
            .max()
            .unwrap_or(0)
    }

    // What the packet of a child makes of its row, and of no other; none for a number that is no child's. The slot is
    // found here, so the caller has only the other two parts of a `Parent`.
    pub fn take(
        &mut self,
        child: u16,
        joined: bool,
        low: u32,
        packet: FromChild,
        clock: u32,
    ) -> Option<Decision>
        ensures answer { result ≡ decided joined low clock packet (rows_of self.old) (slot_of child (rows_of self.old)) }
        ensures rows { rows_of self.new ≡ rows_after result (rows_of self.old) (slot_of child (rows_of self.old)) }
    {
        let slot = self.slot_of(child)?;
        let row = self.rows[slot];
        let decision = row.decide(Parent { joined, low, slot }, packet, clock);
        *self.row_mut(slot) = decision.row;
        Some(decision)
    }

    // The flags of the 32 numbers from 32 × `block` on: set where every live row holds the number.
    pub fn word(&self, block: u32) -> u32
        ensures { result ≡ word_from (all_hold (rows_of self.now)) block }
    {
        self.rows
            .iter()
            .filter(|row| row.live)
            .fold(u32::MAX, |word, row| word & row.hack.word(block))
    }

    // The nine flag words of a report from `lsn` on.
    pub fn words(&self, lsn: u32) -> [u32; 9]
        ensures { result ≡ held_words (all_hold (rows_of self.now)) lsn }
    {
        array::from_fn(|i| self.word(lsn / 32 + i as u32))
    }
}

fn lower(best: Option<(usize, u32)>, slot: usize, row: &Row) -> Option<(usize, u32)>
    ensures { result ≡ lower_row slot row.now best }
{
    if !row.live {
        return best;
    }
    let low = row.hack.lsn;
    match best {
        Some((_, least)) if least <= low => best,
        _ => Some((slot, low)),
    }
}
