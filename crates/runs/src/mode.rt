// A mode that is in force for a while.
ghost use Rattle.std.specs.Prelude.{◌≡◌};

use card::Setting;
use rounding::Mode;
use std::mem;

/// Another mode is in force in a setting as long as this lives. The earlier mode is back when it goes, on every way out.
pub(crate) struct InMode<'a> {
    pub(crate) setting: &'a mut Setting,
    pub(crate) earlier: Mode,
}

impl Drop for InMode<'_> {
    fn drop(self)
        ensures { self.exit.0.now.mode ≡ self.entry.earlier }
    {
        let InMode { setting, earlier } = self;
        setting.mode = earlier;
    }
}

pub(crate) fn put_in_force<'a>(setting: &'a mut Setting, mode: Mode) -> InMode<'a>
    ensures earlier { result.earlier ≡ setting.old.mode }
    ensures in_force { result.setting.now.mode ≡ mode }
    ensures same_name { result.setting.ghost_name ≡ setting.entry.ghost_name }
{
    let earlier = mem::replace(&mut setting.mode, mode);
    InMode { setting, earlier }
}
