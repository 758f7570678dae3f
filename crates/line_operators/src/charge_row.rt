ghost use Rattle.std.specs.Prelude.{◌≡◌};
ghost use Rattle.line_operators.specs.Totals.{charge_line, billed};

use super::table::Row;
use bodies::charge::Charge;

impl Row for Charge {
    type Key = u32;

    ghost key = { charge_line };

    ghost keyed = { λ e s. tt };

    ghost sound = { billed };

    fn key(&self) -> u32 {
        self.line
    }

    fn sound(&self) -> bool {
        self.calls > 0
    }
}
