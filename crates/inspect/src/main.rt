// Lists the flight file on standard input, or says why and where it is refused.
#![tactic(auto)]

use flightfile::input::fill;
use flightfile::reading::MOST_BYTES;
use std::io;

// Enough to refuse any longer file.
const ROOM: usize = MOST_BYTES + 1;

fn main(rt: HostRuntime) -> io::Result<()> {
    let heap = rt.alloc();
    let mut buffer = vec![in heap; 0u8; ROOM]?;
    // the buffer and its length side by side: no more memory than this may be asked for, which a `Vec` that
    // grows would do
    let size = fill(&mut rt.stdin(), buffer.as_mut_slice())?;
    buffer.truncate(size);
    rt.print(listing::report(heap, buffer.as_slice())?)
}
