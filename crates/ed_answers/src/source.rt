ghost use Rattle.std.specs.Prelude.{◌≡◌, ℕ, ◌<◌, ◌≤◌, ◌++◌, [], All, IfErr, IfOk, List, map, nat_le, if◌then◌else◌};
ghost use Rattle.ed_run.specs.SettingRanges.{AreSettingsInRange};
ghost use Rattle.ed_lines.specs.declared.fault.SourceCause.{SourceCause};
ghost use Rattle.ed_lines.specs.declared.fault.SourceFault.TheVariants.{At};
ghost use Rattle.ed_lines.specs.declared.program.Line.{Line};
ghost use Rattle.ed_link.specs.Answers.{IsLinked};
ghost use Rattle.ed_link.specs.Tapes.{cost, tape};
ghost use Rattle.ed_headline.specs.EntryState.{entry_state};
ghost use Rattle.ed_headline.specs.Refusals.{IsAcceptedAs, IsRefused};
ghost use Rattle.ed_report.specs.Listings.{listing};
ghost use Rattle.ed_report.specs.Notes.{ending_line, entry_note};
ghost use Rattle.ed_tapes.specs.Outcome.{done};
ghost use Rattle.ed_tapes.specs.Replies.{Gives, IsRunResult, Replies};
ghost use Rattle.ed_answers.specs.SourceReplies.{IsRunResultOf, LinksSource, RunsSource};
ghost use Rattle.ed_tapes.specs.Runs.{run_of};
ghost use Rattle.ed_headline.specs.Sources.{listing_answer, listing_outcome, punch_answer};
ghost use Rattle.ed_headline.specs.Sources.{run_answer};

use crate::entering::enter;
use ed_link::{Linked, Placed, link};
use ed_machine::Machine;
use ed_report::{ending_text, entered_text, listing, source_fault};
use ed_run::Settings;
use ed_syntax::{SourceFault, parse};
use ed_tapes::{FinishedRun, Rejection, Reply, post_mortem_reply, run_machine, run_rows};
use ed_words::{NoMemory, Size};
use std::alloc::Global;

/// The run of a source that ended, with the line on its entry and its end.
#[derive(Drop)]
pub struct NotedRun {
    pub ran: FinishedRun,
    pub note: Vec<u8>,
}

/// `run`: the run of a source's tape.
pub fn run(alloc: Global, settings: Settings, input: &[u8]) -> Result<Reply, Rejection>
    requires { AreSettingsInRange settings }
    ensures { Replies (run_answer settings) input.now result }
{
    let NotedRun { mut ran, note } = run_source(alloc, settings, input)?;
    Ok(post_mortem_reply(alloc, settings.post_mortem, &mut ran, note)?)
}

/// `punch`: the text of a source's tape.
pub fn punch(alloc: Global, settings: Settings, input: &[u8]) -> Result<Reply, Rejection>
    ensures { Replies (punch_answer settings) input.now result }
{
    let linked = linked_of(alloc, settings.size, input)?;
    Ok(Reply::done(alloc, linked.text()?))
}

/// `listing`: the locations of a source's linked program, with the words of the store at the entry.
pub fn list(alloc: Global, settings: Settings, input: &[u8]) -> Result<Reply, Rejection>
    ensures { Replies (listing_answer settings) input.now result }
{
    let linked = linked_of(alloc, settings.size, input)?;
    Ok(list_linked(alloc, settings.size, &linked)?)
}

/// The linked program of a source.
pub fn linked_of(alloc: Global, size: Size, input: &[u8]) -> Result<Linked, Rejection>
    ensures { LinksSource size input.now result }
{
    match linked(alloc, size, input) {
        Ok(linked) => Ok(linked),
        Err(SourceFault::Memory) => Err(Rejection::Memory),
        Err(fault) => Err(Rejection::with_line(alloc, source_fault(alloc, &fault))),
    }
}

/// The linked program of a source, or the fault of its first faulty line.
fn linked(alloc: Global, size: Size, input: &[u8]) -> Result<Linked, SourceFault>
    ensures accepted { IfOk result (λ k. (lines : List Line) × IsAcceptedAs size input.now lines
        × IsLinked size lines k) }
    ensures refused { IfErr result (λ fault. (line : ℕ) (cause : SourceCause) → fault ≡ At line cause
        → IsRefused size input.now line cause) }
{
    link(alloc, size, &parse(alloc, input)?)
}

/// Runs a source's tape.
pub fn run_source(alloc: Global, settings: Settings, input: &[u8]) -> Result<NotedRun, Rejection>
    ensures is { RunsSource settings input.now result }
    ensures size { IfOk result (λ noted. noted.ran.machine.size ≡ settings.size) }
    ensures orders { IfOk result (λ noted. noted.ran.machine.orders ≤ settings.limit) }
{
    let linked = linked_of(alloc, settings.size, input)?;
    Ok(run_linked(alloc, settings, &linked)?)
}

/// Runs the tape of a linked program.
fn run_linked(alloc: Global, settings: Settings, linked: &Linked) -> Result<NotedRun, NoMemory>
    requires { (lines : List Line) × IsLinked settings.size lines linked.now }
    ensures is { IfOk result (λ noted. (lines : List Line) → IsLinked settings.size lines linked.now
        → IsRunResultOf settings lines noted) }
    ensures size { IfOk result (λ noted. noted.ran.machine.size ≡ settings.size) }
    ensures orders { IfOk result (λ noted. noted.ran.machine.orders ≤ settings.limit) }
{
    let entered = enter(alloc, settings.size, linked)?;
    let cost = entered.orders_done();
    let ran = run_entered(alloc, settings, linked, entered)?;
    let note = notation_of(alloc, linked.entry, cost, &ran)?;
    Ok(NotedRun { ran, note })
}

/// The run of a linked program's tape. The tape is read once: the run continues from the machine that was led to the
/// entry. Only a run whose limit is below the cost is obeyed from Start. A function of its own like the run of a tape.
#[inline(never)]
fn run_entered(
    alloc: Global,
    settings: Settings,
    linked: &Linked,
    entered: Machine,
) -> Result<FinishedRun, NoMemory>
    requires linked { (lines : List Line) × IsLinked settings.size lines linked.now }
    requires entry { (lines : List Line) → IsLinked settings.size lines linked.now
        → entered ≡ entry_state settings.size lines }
    ensures is { IfOk result (λ ran. (lines : List Line) → IsLinked settings.size lines linked.now
        → IsRunResult (run_of settings (tape lines)) ran) }
    ensures size { IfOk result (λ ran. ran.machine.size ≡ settings.size) }
    ensures orders { IfOk result (λ ran. ran.machine.orders ≤ settings.limit) }
{
    if entered.orders_done() <= u64::from(settings.limit) {
        run_machine(alloc, settings, entered)
    } else {
        run_rows(alloc, settings, linked.rows()?)
    }
}

/// The line of a run's ending, after the entry and its cost if these orders were obeyed.
fn notation_of(alloc: Global, entry: u16, cost: u64, ran: &FinishedRun) -> Result<Vec<u8>, NoMemory>
    ensures { IfOk result (λ bytes. bytes.items
        ≡ (if nat_le cost ran.now.machine.orders then entry_note entry cost else [])
        ++ ending_line ran.now.ending ran.now.machine) }
{
    if cost <= ran.machine.orders_done() {
        entered_text(alloc, entry, cost, ran.ending, &ran.machine)
    } else {
        ending_text(alloc, ran.ending, &ran.machine)
    }
}

/// The locations of a linked program, with the words of the store at the entry.
pub fn list_linked(alloc: Global, size: Size, linked: &Linked) -> Result<Reply, NoMemory>
    requires { (lines : List Line) × IsLinked size lines linked.now }
    ensures { IfOk result (λ reply. (lines : List Line) → IsLinked size lines linked.now
        → Gives reply (listing_outcome lines)) }
{
    let machine = enter(alloc, size, linked)?;
    list_words(alloc, &machine, &linked.words)
}

/// The locations of words, with the words of a machine's store.
fn list_words(alloc: Global, machine: &Machine, words: &[Placed]) -> Result<Reply, NoMemory>
    requires { All (λ a. a < 1024) (map (λ p. p.place) words.now) }
    ensures { IfOk result (λ reply.
        Gives reply (done (listing machine.now.store (map (λ p. p.place) words.now)))) }
{
    let places = places_of(alloc, words)?;
    Ok(Reply::done(alloc, listing(alloc, machine.store(), &places)?))
}

/// The locations of words.
fn places_of(alloc: Global, words: &[Placed]) -> Result<Vec<u16>, NoMemory>
    ensures { IfOk result (λ v. v.items ≡ map (λ p. p.place) words.now) }
{
    let mut places = Vec::new(alloc);
    for placed in words {
        places.push(placed.place)?;
    }
    Ok(places)
}
