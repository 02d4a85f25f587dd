// The pairs of flow characters, and which of them EFR chooses: its bits 1:0 what is compared, its bits 3:2 what is sent.
ghost use Rattle.std.specs.Prelude.{◌≡◌};
ghost use Rattle.registers.specs.Writes.{with_any};
ghost use Rattle.registers.specs.Pairs.{chooses_pair, chooses_first, pair_at};

use crate::settings::{Setting, Settings};
use bits::{chosen, part};

#[derive(Clone, Copy)]
pub struct Pair {
    pub xon: u8,
    pub xoff: u8,
}

// Whether the two bits of EFR from a place on choose a pair.
#[tactic(auto, unfolding(crate::specs::Pairs::chooses_pair))]
pub fn chooses_pair(efr: u8, place: u8) -> bool
    ensures { result ≡ chooses_pair efr place }
{
    let choice = part(efr, place, 2);
    (choice == 2) | (choice == 1)
}

#[tactic(auto, unfolding(crate::specs::Pairs::chooses_first))]
fn chooses_first(efr: u8, place: u8) -> bool
    ensures { result ≡ chooses_first efr place }
{
    part(efr, place, 2) == 2
}

impl Settings {
    // The pair that they choose.
    #[tactic(auto, unfolding(crate::specs::Pairs::pair_at))]
    pub fn pair(self, place: u8) -> Pair
        ensures { result ≡ pair_at self place }
    {
        let first = chooses_first(self.efr, place);
        Pair {
            xon: chosen(first, self.xon1, self.xon2),
            xoff: chosen(first, self.xoff1, self.xoff2),
        }
    }

    // The same after an event that sets a register or none.
    pub fn pair_with(self, setting: Option<Setting>, place: u8) -> Pair
        ensures { result ≡ pair_at (with_any self setting) place }
    {
        match setting {
            Some(set) => self.with(set).pair(place),
            None => self.pair(place),
        }
    }
}
