//! What a power cut leaves of cells and their epoch, and what writes make of the columns of their records.

ghost use Rattle.epoch_cells.specs.Laws.{CutLaw, ColumnCountLaw, ColumnWritesLaw};

use epoch_word::{epoch_laws, stage_laws};
use incll_var::{saved_laws, survivor_laws};

/// Wherever the power is cut, and whatever each line keeps of its pending stores, what is left can be recovered: to the records of the
/// last checkpoint, or, while the next epoch is pending, to those that the cells mean.
pub fn cut_law()
    ensures { CutLaw }
{
    survivor_laws();
    saved_laws();
    stage_laws();
    epoch_laws();
}

/// A word of each record is a list of numbers, its column: as many as there are cells, and writes change it as they change a list.
pub fn column_laws()
    ensures count { ColumnCountLaw }
    ensures writes { ColumnWritesLaw }
{}
