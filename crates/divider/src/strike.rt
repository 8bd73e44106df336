// Striking out a draft.
ghost use Rattle.std.specs.Prelude.{◌≡◌};

use crate::draft::Draft;

impl Draft {
    /// Strikes the draft out: it ends, and nothing is answered.
    pub fn strike_out(mut self)
        ensures { result ≡ tt }
    {
        self.finished = true;
    }
}
