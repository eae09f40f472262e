// What is printed of a board in the end.
use party::Party;
use std::io;

// A board's number and its answer, or `-`.
pub fn board(rt: &impl Print, i: u32, party: Party) -> io::Result<()> {
    match board::read_answer(party) {
        Ok(Some(answer)) => println!(rt; "{i} {answer}"),
        Ok(None) | Err(_) => println!(rt; "{i} -"),
    }
}
