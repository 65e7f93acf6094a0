//! The program `first_plugin`, to start a plugin from: over one workspace a thread edits, and another indexes and asks which
//! types come from `Shape`, both at once. What it prints is the same however the threads take their turns.
#![tactic(auto)]

mod threads;

use query_engine::Finding;
use shared_ide::{Reply, SharedIde, Store};
use std::io;
use std::thread::join_mut;
use threads::{ask, edit, inspect};

fn main(rt: HostRuntime) -> io::Result<()> {
    let alloc = rt.alloc();
    // The workspace, for two passes at the same time, and the first pass. By a pass one thread calls the workspace.
    let (ide, mut first) = SharedIde::new(alloc, Store::empty(alloc), 2)?;
    // A pass for the other thread.
    let Ok(mut second) = ide.split(&mut first) else {
        unreachable!()
    };
    // Both at once. This thread waits for both.
    let (accepted, in_order) = join_mut(
        &rt,
        &mut || edit(&rt, alloc, &ide, &mut first),
        &mut || inspect(&rt, alloc, &ide, &mut second),
    );
    // Each pass is met or closed, so no `?` stands before the close.
    ide.meet(second, &mut first);
    // Files that are still unready are taken in, so the last question is answered.
    let settled = ide.settle(&rt, alloc, &mut first, 0).is_ok();
    let replied = ask(&rt, alloc, &ide, &mut first);
    ide.close(first).into_history();
    print(&rt, [accepted?, in_order?], settled, &replied?.reply)
}

/// Prints how many edits were accepted and answers came in order, whether all is indexed, and the types that were found.
fn print(rt: &impl Print, counts: [u32; 2], settled: bool, reply: &Reply) -> io::Result<()> {
    let [edits, answers] = counts;
    println!(rt; "edits accepted: {edits}")?;
    println!(rt; "answers in order: {answers}")?;
    println!(rt; "all is indexed: {settled}")?;
    if let Reply::Found(Finding::Inheritors { rows }) = reply {
        for found in rows.as_slice() {
            let row = &found.row;
            println!(rt;
                "{}:{} {}, level {}",
                row.path, row.line, row.name, found.level
            )?;
        }
    }
    Ok(())
}
