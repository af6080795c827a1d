//! Inputs that are read over tables that are there already.
ghost use Rattle.std.specs.Prelude.{◌≡◌, IfSome, length};
ghost use Rattle.command_input.specs.Planned.{HasOne};

use crate::fixtures::{R, S, read_two};
use cmd_words::{Engine, Named, Words};
use command_input::{InputFiles, SideFile, Task, TextInput, read_texts, read_texts_of};
use refusals::Refusal;
use std::alloc::Global;
use table_store::Tables;

/// What is asked over the tables R and S.
#[derive(Clone, Copy)]
struct Asked {
    several: bool,
    query: &'static str,
    /// The text of a script; none if there is no script.
    script: Option<&'static str>,
    best_of: Option<&'static str>,
}

/// A query with no script and no item.
fn plain(query: &'static str) -> Asked {
    Asked {
        several: false,
        query,
        script: None,
        best_of: None,
    }
}

/// The two tables.
fn tables_read(alloc: Global) -> Option<Tables>
    ensures { IfSome result (λ tables. length tables ≡ 2) }
{
    let mut tables = csv_tables::Tables::new(alloc);
    match read_two(&mut tables, R, S) {
        Ok(()) => Some(tables.into_tables()),
        Err(_) => None,
    }
}

fn named(alloc: Global, table: &str) -> Option<Named> {
    let file = String::from_str(alloc, "no file").ok()?;
    let table = String::from_str(alloc, table).ok()?;
    Some(Named { table, file })
}

/// The names of the two tables.
fn two_named(alloc: Global) -> Option<Vec<Named>>
    ensures { IfSome result (λ names. length names.items ≡ 2) }
{
    let first = named(alloc, "R")?;
    let second = named(alloc, "S")?;
    let mut names = Vec::new(alloc);
    names.push(first).ok()?;
    names.push(second).ok()?;
    Some(names)
}

/// What is read over these tables, or its refusal.
fn read(
    alloc: Global,
    tables: &Tables,
    names: &[Named],
    asked: Asked,
) -> Result<TextInput, Refusal<'static>>
    requires { length names.now ≡ length tables.now }
{
    let aside = match asked.script {
        Some(_) => SideFile::Script("no file"),
        None => SideFile::Nothing,
    };
    let sought = InputFiles {
        query: "no file",
        several: asked.several,
        aside,
        named: names,
        best_of: asked.best_of,
    };
    let side = asked.script.unwrap_or("");
    read_texts_of(
        alloc,
        &sought,
        asked.query.as_bytes(),
        side.as_bytes(),
        tables,
    )
}

/// The first refusal. `Usage`, which reading never gives, if there is none, or if memory is refused.
fn refusal_of(alloc: Global, asked: Asked) -> Refusal<'static> {
    let Some(tables) = tables_read(alloc) else {
        return Refusal::Usage;
    };
    let Some(names) = two_named(alloc) else {
        return Refusal::Usage;
    };
    match read(alloc, &tables, &names, asked) {
        Ok(_) => Refusal::Usage,
        Err(refusal) => refusal,
    }
}

const KNOWN: &str = "select R.a from R order by R.w";

const UNKNOWN: &str = "select T.a from R, T order by T.w";

const UNWEIGHED: &str = "select R.a from R order by R.b";

#[test]
fn each_fault_is_refused(rt: HostRuntime) {
    let alloc = rt.alloc();
    assert!(rt;
        matches!(
            refusal_of(alloc, plain("select R.a fro")),
            Refusal::Syntax(11)
        )
    );
    assert!(rt; matches!(refusal_of(alloc, plain(UNKNOWN)), Refusal::UnknownTable(19)));
    let unweighed = refusal_of(alloc, plain(UNWEIGHED));
    assert!(rt;
        matches!(
            unweighed,
            Refusal::BadWeight {
                branch: None,
                item: 1,
                row: 1,
                column: 2
            },
        )
    );
    let two = Asked {
        several: true,
        ..plain("select R.a from R order by R.w union all select S.b, S.c from S order by S.w")
    };
    assert!(rt; matches!(refusal_of(alloc, two), Refusal::BranchShape(2)));
    let best = Asked {
        best_of: Some("T"),
        ..plain(KNOWN)
    };
    assert!(rt; matches!(refusal_of(alloc, best), Refusal::UnknownBest));
}

#[test]
fn the_first_fault_is_told(rt: HostRuntime) {
    let alloc = rt.alloc();
    let all = |query| Asked {
        several: false,
        query,
        script: Some("open a\nopen a\n"),
        best_of: Some("T"),
    };
    assert!(rt; matches!(refusal_of(alloc, all("select")), Refusal::Syntax(6)));
    assert!(rt; matches!(refusal_of(alloc, all(UNKNOWN)), Refusal::CursorExists(2)));
    let scripted = |query| Asked {
        script: Some("open a\n"),
        ..all(query)
    };
    let both = "select T.a from T, R order by R.b";
    assert!(rt; matches!(refusal_of(alloc, scripted(both)), Refusal::UnknownTable(16)));
    assert!(rt;
        matches!(
            refusal_of(alloc, scripted(UNWEIGHED)),
            Refusal::BadWeight { .. }
        )
    );
    assert!(rt; matches!(refusal_of(alloc, scripted(KNOWN)), Refusal::UnknownBest));
}

/// Whether a query of the second table alone is bound to that table, and the tables come back.
fn reads_second(alloc: Global) -> Option<bool> {
    let tables = tables_read(alloc)?;
    let words = Words {
        engine: Engine::Part,
        ranks: false,
        rows: false,
        script: None,
        proof: None,
        best_of: None,
        query: String::from_str(alloc, "no file").ok()?,
        tables: two_named(alloc)?,
    };
    let task = Task::Plan(words);
    let query = b"select S.c from S order by S.w";
    let text = read_texts(alloc, &task, query, &[], &tables).ok()?;
    let input = text.over(tables);
    let [query] = input.queries.as_slice() else {
        return None;
    };
    let bound = query.items() == 1 && query.table_of(0) == 1;
    Some(bound && input.into_tables().count() == 2)
}

#[test]
fn a_table_alone_is_found_by_its_name(rt: HostRuntime) {
    assert!(rt; matches!(reads_second(rt.alloc()), Some(true)));
}
