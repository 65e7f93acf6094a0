//! What the threads do, each with a pass of its own.
ghost use Rattle.std.specs.Prelude.{◌≡◌, true, IfOk};
ghost use Rattle.write_history.specs.Changes.{is_edit};
ghost use Rattle.shared_ide.specs.Passes.{IsIdePassOf};
ghost use Rattle.first_plugin.specs.Passes.{StaysIn};

use action_lock::{Gate, Point};
use ide_text::{Name, SharedText, Text};
use queries::Query;
use shared_ide::{IdePass, Replied, SharedIde, SoftAskRefusal};
use std::alloc::{AllocError, Global};
use std::sync::Wait;
use write_history::Change;

/// What a call gives, unless memory runs out.
type Told<T> = Result<T, AllocError>;

/// What the file says.
const TEXT: &str =
    "interface Shape {}\nclass Round implements Shape {}\nclass Ball extends Round {}\n";

/// The gate of a worker that ends as soon as nothing is to be done.
struct Patience;

impl Gate for Patience {
    fn at(&self, _: Point) -> bool {
        false
    }
}

/// Creates a file and writes it again and again. How many edits were accepted. May block.
pub fn edit(rt: &impl Wait, alloc: Global, ide: &SharedIde, pass: &mut IdePass) -> Told<u32>
    requires { IsIdePassOf ide.now pass.old }
    ensures { StaysIn ide.now pass.old pass.new }
{
    let mut accepted = 0u32;
    for turn in 0..30 {
        let change = change_of(alloc, turn)?;
        // A change that is refused has made nothing.
        if ide.change(rt, alloc, pass, 1, change).is_ok() {
            accepted = accepted.saturating_add(1);
        }
    }
    Ok(accepted)
}

/// The edit of a turn.
fn change_of(alloc: Global, turn: u32) -> Told<Change>
    ensures { IfOk result (λ change. is_edit change ≡ true) }
{
    let path = Name::of(alloc, "Shape.java")?;
    let Ok(text) = Text::from_utf8(alloc, TEXT.as_bytes()) else {
        return Err(AllocError);
    };
    let text = SharedText::new(alloc, text)?;
    Ok(match turn {
        0 => Change::Create { path, text },
        _ => Change::Write { path, text },
    })
}

/// Indexes what is unready, then asks, again and again. How many answers were of no earlier moment than the one before. May block.
pub fn inspect(rt: &impl Wait, alloc: Global, ide: &SharedIde, pass: &mut IdePass) -> Told<u32>
    requires { IsIdePassOf ide.now pass.old }
    ensures { StaysIn ide.now pass.old pass.new }
{
    let (mut in_order, mut last) = (0u32, 0);
    for _ in 0..40 {
        ide.worker(rt, alloc, pass, &Patience)?;
        // Your plugin looks at the reply, which is that of the first `at` entries of the history.
        let at = ask(rt, alloc, ide, pass)?.at;
        in_order = in_order.saturating_add(u32::from(at >= last));
        last = at;
    }
    Ok(in_order)
}

/// Asks which types come from `Shape`, softly; where the question gave way to writes three times, it asks once more and waits for
/// the answer. May block.
pub fn ask(rt: &impl Wait, alloc: Global, ide: &SharedIde, pass: &mut IdePass) -> Told<Replied>
    requires { IsIdePassOf ide.now pass.old }
    ensures { StaysIn ide.now pass.old pass.new }
{
    let name = Name::of(alloc, "Shape")?;
    let query = Query::Inheritors { name };
    match ide.soft_ask(rt, alloc, pass, 3, &query, &Patience) {
        Ok(replied) => Ok(replied),
        // Your plugin may do something else first, and ask later.
        Err(SoftAskRefusal::Cancelled(_sighted)) => ide.ask(rt, alloc, pass, &query, &Patience),
        Err(SoftAskRefusal::OutOfMemory) => Err(AllocError),
    }
}
