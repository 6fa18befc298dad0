ghost use Rattle.std.specs.Prelude.{[]};
ghost use Rattle.ed_run.specs.SettingRanges.{AreSettingsInRange};
ghost use Rattle.ed_top.specs.Calls.{call_answer};
ghost use Rattle.ed_tapes.specs.Replies.{Replies};

use ed_answers::run;
use ed_library::Call;
use ed_run::Settings;
use ed_sources::call_source;
use ed_tapes::{Rejection, Reply};
use std::alloc::Global;

/// `call`: the run of the source that calls a routine of the library.
pub fn call_routine(alloc: Global, settings: Settings, call: Call) -> Result<Reply, Rejection>
    requires { AreSettingsInRange settings }
    ensures { Replies (call_answer call settings) [] result }
{
    let source = call_source(alloc, &call)?;
    run(alloc, settings, &source)
}
