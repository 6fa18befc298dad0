ghost use Rattle.ed_run.specs.SettingRanges.{AreSettingsInRange};
ghost use Rattle.ed_tapes.specs.Replies.{Replies};
ghost use Rattle.ed_tapes.specs.Tapes.{tape_answer};

use crate::reply::{Rejection, Reply};
use crate::rows::rows_of;
use crate::running::{ended_reply, run_rows};
use ed_run::Settings;
use std::alloc::Global;

/// `tape`: the run of a text's rows.
pub fn tape(alloc: Global, settings: Settings, input: &[u8]) -> Result<Reply, Rejection>
    requires { AreSettingsInRange settings }
    ensures { Replies (tape_answer settings) input.now result }
{
    let ran = run_rows(alloc, settings, rows_of(alloc, input)?)?;
    Ok(ended_reply(alloc, settings.post_mortem, ran)?)
}
