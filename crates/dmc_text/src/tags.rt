//! The texts of tick tags and of ratio tags.
ghost use Rattle.std.specs.Prelude.{◌==◌, None, if◌then◌else◌};
ghost use Rattle.std.proofs.Common.{arith};
ghost use Rattle.std.proofs.lemmas.Bool.Decides.{nat_tests};
ghost use Rattle.dmc_tick.specs.Tick.{tick};
ghost use Rattle.dmc_text.specs.RatioText.{ratio_if_lowest, ratio_if_lowest_has};

use crate::tag::TagText;
use dmc_ratio::ratio::RatioTag;
use dmc_tick::tick::TickTag;

/// A tick tag is a whole number.
impl TagText for TickTag {
    ghost numerator = { λ a. a };

    ghost denominator = { λ a. 1 };

    ghost made = { λ n d. if d == 1 then tick n else None };

    ghost only = { λ n d a e. Prim.grind (arith, nat_tests) };

    fn parts(self) -> (i128, u64) {
        (self.ticks(), 1)
    }

    fn of_parts(numer: i128, denom: u64) -> Option<TickTag> {
        if denom != 1 {
            return None;
        }
        TickTag::new(numer)
    }
}

/// A ratio tag is a fraction in lowest terms. No other text is read as it.
impl TagText for RatioTag {
    ghost numerator = { λ a. a.numer };

    ghost denominator = { λ a. a.denom };

    ghost made = { ratio_if_lowest };

    ghost only = { ratio_if_lowest_has };

    fn parts(self) -> (i128, u64) {
        (self.numer(), self.denom())
    }

    fn of_parts(numer: i128, denom: u64) -> Option<RatioTag> {
        let tag = RatioTag::new(numer, denom)?;
        if tag.denom() != denom {
            return None;
        }
        Some(tag)
    }
}
