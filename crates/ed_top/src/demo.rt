ghost use Rattle.std.specs.Prelude.{[]};
ghost use Rattle.ed_run.specs.SettingRanges.{AreSettingsInRange, IsFromTo};
ghost use Rattle.ed_top.specs.Demos.{demo_answer};
ghost use Rattle.ed_tapes.specs.Replies.{Replies};

use ed_answers::run;
use ed_run::Settings;
use ed_sources::demo_source;
use ed_tapes::{Rejection, Reply};
use std::alloc::Global;

/// `demo`: the run of the large source made from a number.
pub fn demo(alloc: Global, settings: Settings, n: u32) -> Result<Reply, Rejection>
    requires number { IsFromTo 1 112 n }
    requires ranges { AreSettingsInRange settings }
    ensures { Replies (demo_answer n settings) [] result }
{
    let source = demo_source(alloc, n)?;
    run(alloc, settings, &source)
}
