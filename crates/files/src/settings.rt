// A course's setting: its range, and the widest one.
ghost use Rattle.std.specs.Prelude.{◌≡◌};
ghost use Rattle.files.specs.Settings.{in_range, widest};

use crate::Setting;

// Whether cause 22 does not hold: expanders 1 to 64, phys 1 to 128, chain 1 to 64.
pub fn is_in_range(setting: Setting) -> bool
    ensures { result ≡ in_range setting }
{
    ((setting.expanders >= 1) & (setting.expanders <= crate::MOST_EXPANDERS))
        & (((setting.phys >= 1) & (setting.phys <= crate::MOST_PHYS))
            & ((setting.chain >= 1) & (setting.chain <= crate::LONGEST_CHAIN)))
}

// The limits of document 01.
pub fn widest() -> Setting
    ensures { result ≡ widest }
{
    Setting {
        expanders: crate::MOST_EXPANDERS,
        phys: crate::MOST_PHYS,
        chain: crate::LONGEST_CHAIN,
    }
}
