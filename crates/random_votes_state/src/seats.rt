// The seats of a vote: its boards, and the bench.
ghost use Rattle.std.specs.Prelude.{◌≡◌, ◌<◌};
ghost use Rattle.random_votes_state.specs.Seats.{board_of, place_of};

// A seat. On the bench damaged plans, journals and settings are tried, and messages from all boards; it is no board.
#[derive(Clone, Copy, PartialEq, Eq)]
pub enum Seat {
    Board(usize),
    Bench,
}

// The most boards.
pub const BOARDS: usize = 16;

// How many seats there are: after the boards comes the bench.
pub const SEATS: usize = BOARDS + 1;

impl Seat {
    // The same seat; a board beyond the most is none, and the bench stands for it.
    pub fn within(self) -> Seat
        ensures is_seat { board_of result < 16 }
        ensures kept { board_of self < 16 → result ≡ self }
    {
        match self {
            Seat::Board(b) if b < BOARDS => self,
            _ => Seat::Bench,
        }
    }

    // Its place in a row of all seats, where the bench is the last.
    pub fn place(self) -> usize
        ensures below { result < 17 }
        ensures own { board_of self < 16 → result ≡ place_of self }
    {
        match self {
            Seat::Board(b) if b < BOARDS => b,
            _ => BOARDS,
        }
    }
}

// Something of each seat.
#[derive(Drop)]
pub struct Seats<T> {
    boards: [T; BOARDS],
    bench: T,
}

impl<T: Copy> Seats<T> {
    // The same of each.
    pub fn new(each: T) -> Seats<T> {
        Seats {
            boards: [each; BOARDS],
            bench: each,
        }
    }

    // All become the same.
    pub fn set_all(&mut self, each: T) {
        for board in self.boards.iter_mut() {
            *board = each;
        }
        self.bench = each;
    }
}

impl<T> Seats<T> {
    // That of a seat; a board beyond the most is none, and the bench stands for it.
    pub fn at(&self, seat: Seat) -> &T {
        match seat {
            Seat::Board(b) => self.boards.get(b).unwrap_or(&self.bench),
            Seat::Bench => &self.bench,
        }
    }

    // The same, to be changed.
    pub fn at_mut(&mut self, seat: Seat) -> &mut T {
        if let Seat::Board(b) = seat {
            if b < BOARDS {
                return &mut self.boards[b];
            }
        }
        &mut self.bench
    }

    // That of a board.
    pub fn board(&self, b: usize) -> &T {
        self.at(Seat::Board(b))
    }

    // The same, to be changed.
    pub fn board_mut(&mut self, b: usize) -> &mut T {
        self.at_mut(Seat::Board(b))
    }

    // Those of all boards.
    pub fn boards(&self) -> &[T] {
        &self.boards
    }
}
