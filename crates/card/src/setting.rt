// The rounding mode in force.
ghost use Rattle.std.specs.Prelude.{◌≡◌};
ghost use Rattle.std.specs.Result.{result_map_both, result_unwrap_or};
ghost use Rattle.rounding.specs.Modes.{mode_numbered};
ghost use Rattle.rounding.specs.declared.mode.Mode.TheVariants.{NearestEven};

use refusals::Fault;
use rounding::Mode;

/// A setting holds the mode in which postings and roundings are done, at first to the nearest with ties to even. It is no part of a card,
/// since one setting serves several.
#[derive(Drop)]
pub struct Setting {
    pub mode: Mode,
}

impl Setting {
    /// A new setting.
    pub fn new() -> Setting
        ensures { result.mode ≡ NearestEven }
    {
        Setting {
            mode: Mode::default(),
        }
    }

    /// Sets the mode of this number, which it judges, so that it is no `Mode` yet. Refuses a number that is none, and then keeps the mode.
    pub fn set(&mut self, number: u32) -> Result<(), Fault>
        ensures answer { result ≡ result_map_both (λ _. tt) (λ f. f) (mode_numbered number) }
        ensures mode { self.new.mode ≡ result_unwrap_or (mode_numbered number) self.old.mode }
    {
        self.mode = Mode::try_from(number)?;
        Ok(())
    }
}
