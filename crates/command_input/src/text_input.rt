//! An input over tables that are there already: its query, and its script or certificate, are bytes.
ghost use Rattle.std.specs.Prelude.{◌≡◌, None, false, IfOk, length};
ghost use Rattle.verdict.specs.StageResults.{Pure};
ghost use Rattle.verdict.specs.Words.{input_files_of};
ghost use Rattle.command_input.specs.InputFiles.{sought_view};
ghost use Rattle.command_input.specs.Limits.{AreWithinLimits};
ghost use Rattle.command_input.specs.Planned.{HasOne};
ghost use Rattle.command_input.specs.Tasks.{command_of};
ghost use Rattle.command_input.specs.TextInput.{IsBesideOver, IsInputOver, IsLoadedOver, text_over, text_result_view};

use crate::binding::{Input, bound_over};
use crate::input_files::InputFiles;
use crate::query::{parse_refusal, read_selects};
use crate::reading_input::asked_of;
use crate::side_input::said_beside;
use crate::table_uses::numbers_of;
use crate::task::Task;
use bound_query::Query;
use proof_model::Proof;
use query_select::select::Select;
use refusals::Refusal;
use session_script::Step;
use std::alloc::Global;
use table_store::Tables;

/// An input without its tables.
#[derive(Drop)]
pub struct TextInput {
    /// The query of each branch, bound to the tables; one query if there are no branches.
    pub queries: Vec<Query>,
    /// The item of which each row's best answer is asked for, from 0; none if no item is named.
    pub best: Option<u32>,
    /// The steps of the script; none if there is no script.
    pub script: Vec<Step>,
    /// The certificate; the empty one if there is none.
    pub proof: Proof,
}

impl TextInput {
    /// The input with its tables, which are those that its queries are bound to.
    pub fn over(self, tables: Tables) -> Input
        requires { IsInputOver tables self }
        ensures { result ≡ text_over tables self }
    {
        Input {
            queries: self.queries,
            tables,
            best: self.best,
            script: self.script,
            proof: self.proof,
        }
    }
}

/// The input of the command over these tables, or its first refusal. The tables are those that the
/// command names, in their order. These bytes stand for the file of the query, and for that of the
/// script or of the certificate, if there is one. Only `run` may have several queries.
pub fn read_texts<'a>(
    alloc: Global,
    task: &Task,
    query: &[u8],
    side: &[u8],
    tables: &Tables,
) -> Result<TextInput, Refusal<'a>>
    requires { length (input_files_of (command_of task.now)).named ≡ length tables.now }
    ensures loaded { let asked = input_files_of (command_of task.now) in
        Pure (IsLoadedOver asked query.now side.now tables.now)
        (text_result_view tables.now result) }
    ensures over { IfOk result (IsInputOver tables.now) }
    ensures alone { IfOk result
        (λ text. HasOne (command_of task.now) (text_over tables.now text)) }
{
    let sought = asked_of(task);
    read_texts_of(alloc, &sought, query, side, tables)
}

/// The input over these tables, or its first refusal. There is a table for each name, in the order
/// of the names, and these bytes stand for the file of the query, and for that of the script or of
/// the certificate, if there is one.
pub fn read_texts_of<'a>(
    alloc: Global,
    sought: &InputFiles<'_>,
    query: &[u8],
    side: &[u8],
    tables: &Tables,
) -> Result<TextInput, Refusal<'a>>
    requires { length sought.now.named.now ≡ length tables.now }
    ensures loaded { Pure (IsLoadedOver (sought_view sought.now) query.now side.now tables.now)
        (text_result_view tables.now result) }
    ensures over { IfOk result (IsInputOver tables.now) }
    // If several branches are not allowed, there is one query, and if no item is named, there is
    // none.
    ensures alone { sought.now.several ≡ false
        → IfOk result (λ text. length text.queries.items ≡ 1) }
    ensures unnamed { sought.now.best_of ≡ None → IfOk result (λ text. text.best ≡ None) }
{
    match read_selects(alloc, sought.several, query) {
        Ok(selects) => select_texts(alloc, sought, &selects, side, tables),
        Err(fault) => Err(parse_refusal(fault)),
    }
}

/// The stages after the query, or each of its branches, was parsed.
fn select_texts<'a>(
    alloc: Global,
    sought: &InputFiles<'_>,
    selects: &[Select],
    side: &[u8],
    tables: &Tables,
) -> Result<TextInput, Refusal<'a>>
    requires limits { AreWithinLimits selects.now }
    requires as_many { length sought.now.named.now ≡ length tables.now }
    ensures loaded { let asked = sought_view sought.now in
        Pure (IsBesideOver asked side.now tables.now selects.now)
        (text_result_view tables.now result) }
    ensures over { IfOk result (IsInputOver tables.now) }
    ensures branches { IfOk result (λ text. length text.queries.items ≡ length selects.now) }
    ensures unnamed { sought.now.best_of ≡ None → IfOk result (λ text. text.best ≡ None) }
{
    let beside = said_beside(alloc, sought.aside, side)?;
    // The tables are few, and so are their names.
    let few = tables.count() <= 16;
    prove!(few);
    let numbers = numbers_of(alloc, sought.named, selects)?;
    let bound = bound_over(alloc, sought.best_of, selects, tables, &numbers)?;
    Ok(TextInput {
        queries: bound.queries,
        best: bound.best,
        script: beside.script,
        proof: beside.proof,
    })
}
