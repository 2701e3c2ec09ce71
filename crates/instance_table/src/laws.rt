//! What holds of the table whatever the seats do, in any order.
ghost use Rattle.std.specs.Prelude.{◌<◌, ℕ, List};
ghost use Rattle.instance_core.specs.declared.font.BaseFont.{BaseFont};
ghost use Rattle.instance_table.specs.Rule.{Rule};
ghost use Rattle.instance_table.specs.Steps.{Steps, Table, start};

/// The rule holds after any steps from the start.
pub fn the_rule_holds_between_any_two_steps()
    ensures { (bases : List BaseFont) (draws : ℕ) (t : Table) → draws < 4294967296
        → Steps bases (start bases draws) t → Rule bases draws t.words t.views }
{}
