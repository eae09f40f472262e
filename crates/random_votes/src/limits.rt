// Cases at the limits on both implementations: document 01's boards, faults, vertices and width, document 02's lengths of varints.
use crate::calls;
use random_votes_draw::plans;
use random_votes_draw::plans::Growth;
use random_votes_state::both::{Journal, Outgoing};
use random_votes_state::call::Request;
use random_votes_state::outcome::Refused;
use random_votes_state::seats::Seat;
use random_votes_state::vote::Vote;
use second_wire::group;
use second_wire::room::Room;
use std::{fmt, io};

// A verdict as it is printed.
#[derive(Clone, Copy)]
struct Told(Result<(), Refused>);

impl fmt::Display for Told {
    fn fmt<W: fmt::Write>(&self, f: &mut fmt::Formatter<W>) -> fmt::Result {
        match self.0 {
            Ok(()) => write!(f, "accepted"),
            Err(Refused { number, place }) => write!(f, "refused {number} at {place}"),
        }
    }
}

// A set-up of so many boards and faults on the vote's plan, which is kept by no one, and what both gave.
fn set_up(
    rt: &impl Print,
    v: &mut Vote,
    boards: usize,
    faults: usize,
    words: &str,
    limit: usize,
) -> io::Result<()> {
    v.boards = boards;
    v.faults = faults;
    let call = v.call(Seat::Bench, Request::SetUp(v.settings(0)));
    let mut journal = Journal::filled(0);
    let mut out = Outgoing::filled(0);
    let (one, other) = calls::make(v, &call, &mut calls::nobody(), &mut journal, &mut out);
    println!(rt;
        "{words} {limit}: {}, {}",
        Told(one.verdict),
        Told(other.verdict)
    )
}

// So many boards and faults on a small range.
fn settings_case(
    rt: &impl Print,
    v: &mut Vote,
    boards: usize,
    faults: usize,
    words: &str,
    limit: usize,
) -> io::Result<()> {
    v.plan.spelled.spell_range(0, 8);
    set_up(rt, v, boards, faults, words, limit)
}

// A path of so many vertices.
fn path_case(rt: &impl Print, v: &mut Vote, vertices: usize) -> io::Result<()> {
    plans::put_tree(&mut v.random, &mut v.plan, Growth::Path, vertices);
    set_up(rt, v, 4, 1, "vertices", vertices)
}

// A range of a width, from 0 on.
fn range_case(rt: &impl Print, v: &mut Vote, width: usize) -> io::Result<()> {
    v.plan.spelled.spell_range(0, width);
    set_up(rt, v, 4, 1, "width", width)
}

// How many bytes a number has by the library's table and by that of the random votes, and how many the second implementation writes.
fn length_case(rt: &impl Print, value: u32) -> io::Result<()> {
    let mut room = Room::new();
    group::write(&mut room, value as usize);
    println!(rt;
        "bytes of {value}: {}, {}, written {}",
        varint::size(value),
        group::size(value as usize),
        room.len()
    )
}

// A line for each case.
pub fn write(rt: &impl Print, v: &mut Vote) -> io::Result<()> {
    settings_case(rt, v, 16, 1, "boards", 16)?;
    settings_case(rt, v, 17, 1, "boards", 17)?;
    settings_case(rt, v, 16, 5, "faults of 16 boards", 5)?;
    settings_case(rt, v, 16, 6, "faults of 16 boards", 6)?;
    path_case(rt, v, 255)?;
    path_case(rt, v, 256)?;
    range_case(rt, v, 65535)?;
    range_case(rt, v, 65536)?;
    for bits in [7, 14, 21, 28] {
        length_case(rt, (1 << bits) - 1)?;
        length_case(rt, 1 << bits)?;
    }
    Ok(())
}
