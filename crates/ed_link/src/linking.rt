//! Linking a whole source.
ghost use Rattle.std.specs.Prelude.{◌≡◌, ◌≤◌, ◌+◌, ◌^◌, true, IfOk, IfErr, length};
ghost use Rattle.std.specs.List.{flat_map, list_all};
ghost use Rattle.ed_notation.specs.Spellings.{is_spellable, item_rows};
ghost use Rattle.ed_symbols.specs.NameTests.{resolution};
ghost use Rattle.ed_link.specs.Answers.{HasMeaningFault, IsLinked};
ghost use Rattle.ed_link.specs.Words.{EachWordStands};
ghost use Rattle.ed_link.specs.Private.Building.{IsFinished};
ghost use Rattle.ed_link.specs.FaultTests.{IsFirstFault, fault as first_fault};
ghost use Rattle.ed_link.specs.Labels.{labels};
ghost use Rattle.ed_link.specs.Linked.{symbols_of};

use crate::building::{Built, build};
use crate::faults::{any_enter, earlier_fault};
use crate::linked::{LabelPlace, Linked};
use crate::words::words_of;
use ed_library::catalogue_size;
use ed_lines::{Program, SourceCause, SourceFault};
use ed_symbols::{Definition, is_local, resolve};
use ed_words::{NoMemory, Size};
use std::alloc::Global;

/// Links a source for a machine of a size: the linked program with its punched tape, or the first fault of meaning.
pub fn link(alloc: Global, size: Size, program: &Program) -> Result<Linked, SourceFault>
    ensures linked { IfOk result (λ k. IsLinked size program.now.lines.items k) }
    ensures fault { IfErr result (λ e. HasMeaningFault size program.now.lines.items e) }
    ensures words { EachWordStands }
{
    let places = resolve(alloc, program)?;
    link_names(alloc, size, program, places.symbols(), places.fault())
}

/// The same, given the definitions of the names and their first fault.
fn link_names(
    alloc: Global,
    size: Size,
    program: &Program,
    symbols: &[Definition],
    names: Option<SourceFault>,
) -> Result<Linked, SourceFault>
    requires symbols { symbols.now ≡ symbols_of program.now.lines.items }
    requires names { names ≡ (resolution program.now.lines.items).fault }
    ensures linked { IfOk result (λ k. IsLinked size program.now.lines.items k) }
    ensures fault { IfErr result (λ e. IsFirstFault (first_fault size program.now.lines.items) e) }
{
    let _ready = catalogue_size();
    let has_enter = any_enter(&program.lines);
    match build(alloc, size, symbols, has_enter, &program.lines) {
        Ok(built) => match names {
            Some(names) => Err(names),
            None => {
                if has_enter {
                    finish(alloc, symbols, built)
                } else {
                    Err(SourceFault::At {
                        line: program.lines.len() as u32 + 1,
                        cause: SourceCause::Enter,
                    })
                }
            }
        },
        Err(fault) => Err(earlier_fault(names, fault)),
    }
}

/// The names that a linked program reports.
fn labels_of(alloc: Global, symbols: &[Definition]) -> Result<Vec<LabelPlace>, NoMemory>
    ensures { IfOk result (λ v. v.items ≡ labels symbols.now) }
{
    let mut labels = Vec::new(alloc);
    for definition in symbols {
        if !is_local(&definition.name) && definition.place <= 1023 {
            let label = LabelPlace {
                name: definition.name,
                place: definition.place as u16,
            };
            labels.push(label)?;
        }
    }
    Ok(labels)
}

/// The linked program made from what was built of the lines.
fn finish(alloc: Global, symbols: &[Definition], built: Built) -> Result<Linked, SourceFault>
    requires spellable { list_all is_spellable built.items.items ≡ true }
    requires table { length built.table.items ≡ 1024 }
    requires few { length (flat_map item_rows built.items.items) + length built.after.items ≤ 2 ^ 22 }
    ensures is { IfOk result (λ k. IsFinished symbols.now built k) }
    ensures memory { IfErr result (λ e. e ≡ SourceFault.Memory) }
{
    let words = words_of(alloc, &built.table)?;
    let labels = labels_of(alloc, symbols)?;
    Ok(Linked {
        items: built.items,
        words,
        labels,
        entry: built.entry.unwrap_or(0),
        after: built.after,
    })
}
