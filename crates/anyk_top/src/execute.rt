//! A command, from its input to its output.
ghost use Rattle.std.specs.Prelude.{◌<◌, [], ◌∷◌, length};
ghost use Rattle.command_input.specs.Input.{loaded_of};
ghost use Rattle.plan_build.specs.Plan.{IsPlanOf, shape_of};
ghost use Rattle.plan_build.specs.Plans.{ArePrepared, HavePlans};
ghost use Rattle.proof_model.specs.Certificate.{Certificate};
ghost use Rattle.bound_query.specs.WeighedQuery.{Fits};
ghost use Rattle.outer_io.specs.SinkState.{state_of};
ghost use Rattle.session_script.specs.Script.{KeepsRules};
ghost use Rattle.bound_query.specs.RunBounds.{IsPrepared};
ghost use Rattle.verdict.specs.AcceptedInput.{found_of, queries_in};
ghost use Rattle.verdict.specs.MadeFiles.{files_of_call};
ghost use Rattle.verdict.specs.Execution.{IsExecuted};
ghost use Rattle.verdict.specs.Outcome.{IsUntouched};
ghost use Rattle.verdict.specs.Words.{a_command};
ghost use Rattle.anyk_top.specs.Answering.{IsAnswered};
ghost use Rattle.anyk_top.specs.OutputPrinting.{PrintsOutput};
ghost use Rattle.command_input.specs.Planned.{HasOne, IsPlanned, IsUnnamed};
ghost use Rattle.anyk_top.specs.Plans.{ArePlans, IsOnePlan, IsOnePlanOf, found_by};
ghost use Rattle.anyk_top.specs.Plans.{shape_in, shapes_in, shapes_of};
ghost use Rattle.command_input.specs.Tasks.{command_of};
ghost use Rattle.verdict.specs.OutsideOf.{outside_before};

use crate::certificate::print_certificate;
use crate::load::print_load;
use crate::plan::print_report;
use crate::planned_query::{PlannedQueries, PlannedQuery};
use crate::planning::{Plans, plan_input};
use crate::run::print_run;
use crate::session::print_script;
use crate::style::style_in;
use crate::union::print_union_run;
use command_input::{Input, Task, read_input};
use command_verify::verify_input;
use hash_keys::Keys;
use outer_io::{PrintFault, Shelf, Sink};
use plan_build::{Plan, RankedPlan};
use rank_key::Rank;
use refusals::{Refusal, refused};
use session_script::Step;
use std::alloc::Global;
use std::sync::ledger::Ledger;
use step_counter::Steps;

/// Reads or makes the input of the command, plans its query or checks its certificate, and prints
/// the command's output. The result is an error if the input is refused, if a read or a write
/// failed, or if memory is refused.
pub(crate) fn execute<'a, F: Shelf, S: Sink, L: Ledger>(
    alloc: Global,
    task: &'a Task,
    shelf: &mut F,
    out: &mut S,
    keys: Keys,
    steps: &mut Steps<L>,
) -> Result<(), Refusal<'a>>
    ensures executed { let command = command_of task.now in
        IsExecuted command (files_of_call (a_command command) (F.files shelf.old))
        (outside_before F.Shelf S.Sink shelf.old out.old) (outside_before F.Shelf S.Sink shelf.new out.new)
        steps.old steps.new result }
    ensures untouched { IsUntouched (a_command (command_of task.now)) shelf.old shelf.new }
{
    let input = read_input(alloc, task, shelf, keys)?;
    answer_input(alloc, task, &input, out, steps)
}

/// Answers a command over its input: plans its queries or checks its certificate, and prints the
/// command's output. The result is an error if a query has no plan, if the certificate is not
/// valid, if a write failed, or if memory is refused.
pub fn answer_input<'a, S: Sink, L: Ledger>(
    alloc: Global,
    task: &Task,
    input: &Input,
    out: &mut S,
    steps: &mut Steps<L>,
) -> Result<(), Refusal<'a>>
    requires alone { HasOne (command_of task.now) input.now }
    ensures answered { IsAnswered (command_of task.now) (loaded_of input.now)
        (state_of S.Sink out.old) (state_of S.Sink out.new) steps.old steps.new result }
{
    match task {
        Task::Verify { words, .. } => verify_input(alloc, words, input, out, steps),
        _ => answer_planned(alloc, task, input, out, steps),
    }
}

/// Plans the queries of the input, and prints the command's output.
fn answer_planned<'a, S: Sink, L: Ledger>(
    alloc: Global,
    task: &Task,
    input: &Input,
    out: &mut S,
    steps: &mut Steps<L>,
) -> Result<(), Refusal<'a>>
    requires alone { HasOne (command_of task.now) input.now }
    requires planned { IsPlanned (command_of task.now) }
    ensures answered { IsAnswered (command_of task.now) (loaded_of input.now)
        (state_of S.Sink out.old) (state_of S.Sink out.new) steps.old steps.new result }
{
    match plan_input(alloc, input, steps) {
        Ok(plans) => refused(print_planned(alloc, task, &plans, input, out, steps)),
        Err(refusal) => Err(refusal),
    }
}

/// Prints the output, with the rank type of the plans.
fn print_planned<S: Sink, L: Ledger>(
    alloc: Global,
    task: &Task,
    plans: &Plans,
    input: &Input,
    out: &mut S,
    steps: &mut Steps<L>,
) -> Result<(), PrintFault>
    requires plans { ArePlans input.now plans.now }
    requires alone { HasOne (command_of task.now) input.now }
    requires planned { IsPlanned (command_of task.now) }
    ensures { PrintsOutput (command_of task.now)
        (found_of (loaded_of input.now) (shapes_in plans.now))
        (λ before. ArePrepared (queries_in input.now.queries) input.now.tables before steps.old)
        (state_of S.Sink out.old) (state_of S.Sink out.new) steps.new result }
{
    match plans {
        Plans::One(plan) => print_one(alloc, task, plan, input, out, steps),
        Plans::PackedSums(plans) => {
            print_branches(alloc, task, plans.as_slice(), input, out, steps)
        }
        Plans::WidePackedSums(plans) => {
            print_branches(alloc, task, plans.as_slice(), input, out, steps)
        }
        Plans::MiddleSums(plans) => {
            print_branches(alloc, task, plans.as_slice(), input, out, steps)
        }
        Plans::Sums(plans) => { print_branches(alloc, task, plans.as_slice(), input, out, steps) }
        Plans::Lexes(plans) => { print_branches(alloc, task, plans.as_slice(), input, out, steps) }
    }
}

/// Prints the output over one query, with the rank type of its plan.
fn print_one<S: Sink, L: Ledger>(
    alloc: Global,
    task: &Task,
    plan: &RankedPlan,
    input: &Input,
    out: &mut S,
    steps: &mut Steps<L>,
) -> Result<(), PrintFault>
    requires plan { IsOnePlan input.now.queries input.now.tables input.now.best plan.now }
    requires alone { HasOne (command_of task.now) input.now }
    requires planned { IsPlanned (command_of task.now) }
    ensures { PrintsOutput (command_of task.now)
        (found_of (loaded_of input.now) (shape_in plan.now ∷ []))
        (λ before. ArePrepared (queries_in input.now.queries) input.now.tables before steps.old)
        (state_of S.Sink out.old) (state_of S.Sink out.new) steps.new result }
{
    match plan {
        RankedPlan::Packed(plan) => print_plan(alloc, task, plan, input, out, steps),
        RankedPlan::WidePacked(plan) => print_plan(alloc, task, plan, input, out, steps),
        RankedPlan::MiddleSum(plan) => print_plan(alloc, task, plan, input, out, steps),
        RankedPlan::Sum(plan) => print_plan(alloc, task, plan, input, out, steps),
        RankedPlan::SmallLex(plan) => print_plan(alloc, task, plan, input, out, steps),
        RankedPlan::Lex(plan) => print_plan(alloc, task, plan, input, out, steps),
    }
}

/// Prints the output over one query for one rank type.
fn print_plan<R: Rank, S: Sink, L: Ledger>(
    alloc: Global,
    task: &Task,
    plan: &Plan<R>,
    input: &Input,
    out: &mut S,
    steps: &mut Steps<L>,
) -> Result<(), PrintFault>
    requires plan { IsOnePlanOf R.KEYS R.key input.now.queries input.now.tables input.now.best
        plan.now }
    requires alone { HasOne (command_of task.now) input.now }
    requires planned { IsPlanned (command_of task.now) }
    ensures { PrintsOutput (command_of task.now)
        (found_of (loaded_of input.now) (shape_of plan.now ∷ []))
        (λ before. ArePrepared (queries_in input.now.queries) input.now.tables before steps.old)
        (state_of S.Sink out.old) (state_of S.Sink out.new) steps.new result }
{
    let query = &input.queries[0];
    let asked = PlannedQuery {
        plan,
        query,
        tables: &input.tables,
        best: input.best,
    };
    let script = input.script.as_slice();
    print_output(alloc, task, &asked, script, out, steps)
}

/// Prints the output over several queries, which only `run` may have.
fn print_branches<R: Rank, S: Sink, L: Ledger>(
    alloc: Global,
    task: &Task,
    plans: &[Plan<R>],
    input: &Input,
    out: &mut S,
    steps: &mut Steps<L>,
) -> Result<(), PrintFault>
    requires several { 1 < length input.now.queries }
    requires alone { HasOne (command_of task.now) input.now }
    requires plans { HavePlans R.KEYS R.key input.now.tables input.now.queries plans.now }
    ensures { PrintsOutput (command_of task.now)
        (found_of (loaded_of input.now) (shapes_of plans.now))
        (λ before. ArePrepared (queries_in input.now.queries) input.now.tables before steps.old)
        (state_of S.Sink out.old) (state_of S.Sink out.new) steps.new result }
{
    match task {
        Task::Run(words) => {
            let style = style_in(words);
            let queries = input.queries.as_slice();
            let asked = PlannedQueries {
                plans,
                queries,
                tables: &input.tables,
            };
            print_union_run(alloc, words.engine, &style, &asked, out, steps)
        }
        _ => unreachable!(),
    }
}

/// Prints the output of the command for one rank type.
fn print_output<R: Rank, S: Sink, L: Ledger>(
    alloc: Global,
    task: &Task,
    asked: &PlannedQuery<'_, R>,
    script: &[Step],
    out: &mut S,
    steps: &mut Steps<L>,
) -> Result<(), PrintFault>
    requires fits { Fits asked.now.query.now asked.now.tables.now }
    requires rules { KeepsRules [] script.now }
    requires plan { IsPlanOf R.KEYS R.key asked.now.query.now asked.now.tables.now asked.now.best
        asked.now.plan.now }
    requires unnamed { IsUnnamed (command_of task.now) asked.now.best }
    requires planned { IsPlanned (command_of task.now) }
    ensures { (proof : Certificate) → PrintsOutput (command_of task.now)
        (found_by asked.now.query.now asked.now.tables.now asked.now.best script.now proof
        (shape_of asked.now.plan.now))
        (λ before. IsPrepared asked.now.query.now.query asked.now.tables.now before steps.old)
        (state_of S.Sink out.old) (state_of S.Sink out.new) steps.new result }
{
    match task {
        Task::Run(words) => {
            let style = style_in(words);
            print_run(alloc, words.engine, &style, asked, out, steps)
        }
        Task::Plan(_) => print_report(alloc, asked.plan, asked.query, asked.tables, out),
        Task::Session { words, .. } => {
            let style = style_in(words);
            print_script(alloc, words.engine, &style, asked, script, out, steps)
        }
        Task::Load(engine, _) => print_load(alloc, *engine, asked, out, steps),
        Task::Prove(words) => {
            print_certificate(alloc, words.engine, asked.plan, asked.query, out, steps)
        }
        Task::Verify { .. } => unreachable!(),
    }
}
