// The settings of a list, one by one.
ghost use Rattle.std.specs.Prelude.{◌≡◌, drop, slice_get};
ghost use Rattle.settings.specs.Walk.{finding, finding_of, settings_from};

use crate::list::{is_list, width_of};
use thiserror::Error;

// A setting of a list: its data are the `len` bytes of the list from index `start` on.
#[derive(Clone, Copy, Debug, PartialEq, Eq)]
pub struct Setting {
    pub identifier: u8,
    pub start: usize,
    pub len: usize,
}

// 17: the bytes are no settings list.
#[derive(Clone, Copy, Debug, PartialEq, Eq, Error)]
#[error("an identifier is unknown, repeated or cut")]
pub struct NotAList;

// The setting whose identifier stands at index `at` of a list; none at the list's end.
#[tactic(auto, using(crate::proofs::WalkLaws::ended, crate::proofs::WalkLaws::split))]
fn setting_from(list: &[u8], at: usize) -> Option<Setting>
    ensures { result ≡ slice_get (settings_from 0 at (drop at list.now)) 0 }
{
    let identifier = *list.get(at)?;
    Some(Setting {
        identifier,
        start: at + 1,
        len: width_of(identifier),
    })
}

// The setting with this index, counted from 0, of the settings of a list in their order; none where the index is past the last.
#[tactic(auto, using(crate::proofs::WalkLaws::first_is))]
pub fn setting_at(list: &[u8], index: usize) -> Result<Option<Setting>, NotAList>
    ensures { finding_of result ≡ finding list.now index }
{
    if !is_list(list) {
        return Err(NotAList);
    }
    let mut at = 0;
    for _ in 0..index {
        let Some(setting) = setting_from(list, at) else {
            return Ok(None);
        };
        at = setting.start + setting.len;
    }
    Ok(setting_from(list, at))
}
