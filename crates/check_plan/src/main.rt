// For an installer: each drawing of a tree on standard input, and each range, is made a plan; its bytes are printed and how busy a vote on it makes the
// wire, or why it is refused.
#![tactic(auto)]

use script_input::Input;
use sheet::Sheet;
use std::io;

mod report;
mod sheet;

// A proved loop has to end, and nothing says that the input does: the turns are counted up to a number that no run uses up.
// bench's main says why its loop is not one with this.
fn main(rt: HostRuntime) -> io::Result<()> {
    let mut stdin = rt.stdin();
    let mut input = Input::new();
    let mut sheet = Sheet::new();
    for _ in 0..u64::MAX {
        if !input.is_open() {
            break;
        }
        match input.next(&mut stdin) {
            Ok(Some(line)) => sheet.read(&rt, line)?,
            Ok(None) => {}
            // a drawing that may be cut is not judged
            Err(_) => return println!(&rt; "the input could not be read to its end"),
        }
    }
    sheet.close(&rt)
}
