//! The program `refused_calls`: steps on a state that nobody shares, then the same on a workspace that threads share, and what
//! is answered behind each. Where memory is refused to a step, it asks what stands, and does the step once more: so it ends
//! as it does with ample memory, whichever request `bench/memory.py` refuses.
#![tactic(auto)]

mod alone;
mod shared;
mod steps;

use shared_ide::{SharedIde, Store};
use std::io;

fn main(rt: HostRuntime) -> io::Result<()> {
    alone::play(&rt, rt.alloc())?;
    let (ide, mut pass) = match SharedIde::new(rt.alloc(), Store::empty(rt.alloc()), 2) {
        Ok(made) => made,
        Err(_) => SharedIde::new(rt.alloc(), Store::empty(rt.alloc()), 2)?,
    };
    let played = shared::play(&rt, rt.alloc(), &ide, &mut pass);
    ide.close(pass).into_history();
    played
}
