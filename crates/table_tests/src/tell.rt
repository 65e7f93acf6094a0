//! What is told of lines, one after another.
use std::alloc::{AllocError, Global};

/// What a case goes by.
pub trait Tell {
    /// Does what a line asks for, and adds what is told of it.
    fn tell(&mut self, alloc: Global, line: &str, out: &mut String) -> Result<(), AllocError>;
}

/// Adds each line, with what is told of it.
pub fn tell_all<T: Tell>(
    alloc: Global,
    case: &mut T,
    lines: &str,
    out: &mut String,
) -> Result<(), AllocError> {
    for line in lines.lines() {
        out.push_str(line)?;
        out.push_str(" =>")?;
        case.tell(alloc, line, out)?;
        out.push('\n')?;
    }
    Ok(())
}
