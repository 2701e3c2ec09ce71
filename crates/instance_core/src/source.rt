//! Sources of widths: what a line is packed over, whoever works the widths out.
ghost use Rattle.std.specs.Prelude.{◌≡◌, ◌∷◌, List};
ghost use Rattle.instance_core.specs.declared.cell.Cell.{Cell};
ghost use Rattle.instance_core.specs.declared.font.BaseFont.{BaseFont};
ghost use Rattle.instance_core.specs.Cells.{IsCellOf, in_cell_order};
ghost use Rattle.instance_core.specs.Instances.{instance_width};

use crate::cell::Cell;
use micro_num::Sp;

/// What answers the widths of instances.
///
/// Its meanings are the fonts that its instances are made of; the cells asked so far, in cell order
/// and without repeats; and what no call changes, of a type of its own.
pub trait WidthSource {
    type Fixed;

    ghost bases: { Self → List BaseFont };

    ghost touched: { Self → List Cell };

    ghost fixed: { Self → Self.Fixed };

    /// The width of a character in the instance of a cell, which the source's fonts have.
    fn width(&mut self, cell: Cell, code: u8) -> Sp
        requires { IsCellOf (bases self.old) cell }
        ensures width { result ≡ instance_width (bases self.old) cell code }
        ensures touched { touched self.new
            ≡ in_cell_order (bases self.old) (cell ∷ touched self.old) }
        ensures bases { bases self.new ≡ bases self.old }
        ensures fixed { fixed self.new ≡ fixed self.old };

    ghost in_order: { (source : Self)
        → touched source ≡ in_cell_order (bases source) (touched source) };
}
