// The kind of member that a control node is: it vouches for what all its live rows vouch for.
ghost use Rattle.std.specs.Prelude.{◌≡◌, ℕ, ◌-◌};
ghost use Rattle.rows.specs.Tables.{any_live};
ghost use Rattle.control.specs.Controls.{SeenRows, rows_seen, rows_entered, rows_exited, rows_summary, rows_settled, RowsSound};
ghost use Rattle.std.proofs.Common.{arith, rules};
ghost use Rattle.control.specs.Floors.{low_rises};

use member::kind::Kind;
use member::types::Summary;
use rows::table::RowTable;

// `low` is the lowest number that is not vouched for; the floor is one less.
#[derive(Drop)]
pub struct Rows<T> {
    pub low: u32,
    pub table: T,
}

impl Kind for Rows<RowTable> {
    ghost Seen = { SeenRows };

    ghost seen = { rows_seen };

    ghost floor = { λ x. x.low - 1 };

    ghost entered = { rows_entered };

    ghost exited = { rows_exited };

    ghost busy = { λ x. any_live x.table };

    ghost summary = { rows_summary };

    ghost settled = { rows_settled };

    ghost Sound = { RowsSound };

    ghost starts = { Prim.search rules };

    ghost rises = { λ x sound. let r = low_rises x.low x.table sound in omega arith };

    fn enter(&mut self, start: u32) {
        self.low = start;
    }

    fn exit(&mut self) {
        self.table.kill_all();
    }

    fn is_busy(&self) -> bool {
        self.table.any_live()
    }

    fn summarize(&mut self) -> Option<Summary> {
        let (_, lsn) = self.table.lowest()?;
        let hsn = self.table.highest().min(lsn.saturating_add(255));
        let flags = self.table.words(lsn);
        Some(Summary { lsn, hsn, flags })
    }

    fn settle(&mut self) {
        if let Some((_, low)) = self.table.lowest() {
            self.low = low;
        }
    }
}
