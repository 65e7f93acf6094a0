//! The steps, the question, and how its answer is told.
ghost use Rattle.std.specs.Prelude.{◌≡◌, true, IfOk};
ghost use Rattle.std.specs.List.{list_all};
ghost use Rattle.write_history.specs.Changes.{AreFew, is_edit};

use ide_text::{Name, SharedText, Text};
use queries::Query;
use query_engine::Finding;
use std::alloc::{AllocError, Global};
use write_history::Change;

/// What a call gives, unless memory runs out.
pub type Told<T> = Result<T, AllocError>;

/// How many steps there are: 1 is a group, 2, 3 and 10 index, 11 asks softly where that can be; the others are single changes.
pub const STEPS: u32 = 12;

/// What files say, and what is inserted.
const TEXT: &str = "class B implements A {}\n";

/// The change of a step.
pub fn change_of(alloc: Global, step: u32) -> Told<Change>
    ensures { IfOk result (λ change. is_edit change ≡ true) }
{
    let path = Name::of(alloc, if step == 0 { "A.java" } else { "B.java" })?;
    let Ok(text) = Text::from_utf8(alloc, TEXT.as_bytes()) else {
        return Err(AllocError);
    };
    let text = SharedText::new(alloc, text)?;
    Ok(match step {
        0 | 1 => Change::Create { path, text },
        4 => Change::OpenDoc { path },
        5 => Change::Insert { path, at: 0, text },
        6 => Change::Commit { path },
        7 => Change::Save { path },
        8 => Change::CloseDoc { path },
        _ => Change::Write { path, text },
    })
}

/// The group: a file is created and written.
pub fn group_of(alloc: Global) -> Told<Vec<Change>>
    ensures few { IfOk result (λ changes. AreFew changes.items) }
    ensures edits { IfOk result (λ changes. list_all is_edit changes.items ≡ true) }
{
    Ok(vec![in alloc; change_of(alloc, 1)?, change_of(alloc, 9)?]?)
}

/// The question.
pub fn question(alloc: Global) -> Told<Query> {
    let name = Name::of(alloc, "A")?;
    Ok(Query::Inheritors { name })
}

/// Tells after how many entries a question is answered, and where the types are that it finds, if it can be answered.
pub fn told(alloc: Global, entries: u64, answer: Option<&Finding>) -> Told<String> {
    let mut told = format!(in alloc; "after {entries}")?;
    let Some(Finding::Inheritors { rows }) = answer else {
        told.push_str(" not ready")?;
        return Ok(told);
    };
    for found in rows.as_slice() {
        told.push_str(&format!(in alloc; " {}:{}", found.row.path, found.row.line)?)?;
    }
    Ok(told)
}
