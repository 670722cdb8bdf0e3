// The settings of a list, one by one, with the answer as numbers.
ghost use Rattle.std.specs.Prelude.{◌≡◌};
ghost use Rattle.settings.specs.Walk.{finding, finding_of};
ghost use Rattle.boundary.specs.Setting.{flat_setting};

use crate::refusal::Numbered;
use settings::{NotAList, Setting};

// What a list has at an index: the refusal's number, 0 for none, whether there is a setting, its identifier, the index in the list at which its data begin,
// and their length. All but the number are 0 where there is no setting.
// Kept: the refusal is a number, and a flag says whether there is a setting, since this is the C interface.
#[repr(C)]
#[derive(Clone, Copy, Default)]
pub struct FlatSetting {
    pub refusal: u8,
    pub is_found: bool,
    pub identifier: u8,
    pub start: usize,
    pub len: usize,
}

fn flat_setting(answer: Result<Option<Setting>, NotAList>) -> FlatSetting
    ensures { result ≡ flat_setting (finding_of answer) }
{
    match answer {
        Ok(Some(s)) => FlatSetting {
            is_found: true,
            identifier: s.identifier,
            start: s.start,
            len: s.len,
            ..FlatSetting::default()
        },
        Ok(None) => FlatSetting::default(),
        Err(refusal) => FlatSetting {
            refusal: refusal.number(),
            ..FlatSetting::default()
        },
    }
}

// The setting of a list with this index, counted from 0, as `settings::setting_at` gives it.
pub fn boundary_setting_at(list: &[u8], index: usize) -> FlatSetting
    ensures { result ≡ flat_setting (finding list.now index) }
{
    flat_setting(settings::setting_at(list, index))
}
