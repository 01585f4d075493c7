//! What a worker is asked to do in one turn of work.
ghost use Rattle.std.specs.Prelude.{◌≡◌, false};

/// What a worker is asked to do in one turn of work, beside what it does in each.
#[derive(Clone, Copy)]
pub struct Orders {
    /// The round, from 0: in each fourth one it sends what is pending again, and has rows forget
    /// ids.
    pub round: u32,
    /// It ends its turn with the first record that it has handled, which it leaves unwritten.
    pub stall: bool,
    /// It sends each record twice.
    pub repeat: bool,
    /// What it would send is lost.
    pub lose: bool,
    /// What it would send it keeps, and sends it first in its next turn.
    pub hold: bool,
}

impl Orders {
    /// Nothing beside what it does in each turn.
    pub fn plain(round: u32) -> Orders
        ensures orders { result ≡ record {
          round = round;
          stall = false;
          repeat = false;
          lose = false;
          hold = false;
        } }
    {
        Orders {
            round,
            stall: false,
            repeat: false,
            lose: false,
            hold: false,
        }
    }
}
