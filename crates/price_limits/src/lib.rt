// Tests a price list. It meets `tariff`, specs/Prices. Rule 2.1.
#![tactic(auto)]

ghost use Rattle.std.specs.Prelude.{◌≡◌};
ghost use Rattle.tariff.specs.Prices.{row_out, prices_out};

use tariff::{Prices, Row};

// Is one of the two prices of a row above its limit?
fn row_out(row: Row) -> bool
    ensures { result ≡ row_out row }
{
    answers::capacity_out(row.capacity) | answers::energy_out(row.energy)
}

// Is one of the four prices of a list above its limit (answer 6)? Any list has an answer.
pub fn prices_out(prices: Prices) -> bool
    ensures { result ≡ prices_out prices }
{
    row_out(prices.few) | row_out(prices.many)
}
