use crate::answer::answer_to;
use std::alloc::Global;
use std::io;
use std::io::{BufRead, Write};

/// Answers each line that a reader holds, in order, one line each.
///
/// A read or a write that fails ends it, and so does an allocation.
pub fn replay<R: BufRead, W: Write>(
    alloc: Global,
    reader: &mut R,
    writer: &mut W,
) -> io::Result<()> {
    let mut line = Vec::new(alloc);
    for _ in 0..u64::MAX {
        line.clear();
        if reader.read_until(b'\n', &mut line)? == 0 {
            break;
        }
        let case = line.as_slice();
        let mut answer = answer_to(alloc, case.strip_suffix(b"\n").unwrap_or(case))?;
        answer.push('\n')?;
        writer.write_all(answer.as_bytes())?;
    }
    writer.flush()
}
