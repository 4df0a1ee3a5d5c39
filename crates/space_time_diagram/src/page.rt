// Places on the page, in whole user units of the picture.

ghost use Rattle.std.specs.Prelude.{◌≡◌, ◌≤◌, ◌*◌};
ghost use Rattle.space_time_diagram.specs.Page.{heading_y, height_below, lane_left, lane_x, page_height, page_width};
ghost use Rattle.space_time_diagram.specs.Page.{right_end, row_y};

/// The most nodes of a picture.
pub const MAX_LANES: usize = 64;

/// The most entries of a picture.
pub const MAX_MARKS: usize = 2000;

/// The most entries that came before those of a picture.
pub const MAX_BEFORE: u64 = 1_000_000;

/// How many rows there are from one line of the nodes' numbers to the next.
pub const HEADED: usize = 40;

// The middle of a lane. Lanes count from 0.
pub fn lane_x(lane: usize) -> u64
    requires { lane ≤ MAX_LANES }
    ensures { result ≡ lane_x lane }
{
    76 + 56 * lane as u64
}

// Where a lane begins, at the left.
pub fn lane_left(lane: usize) -> u64
    requires { lane ≤ MAX_LANES }
    ensures { result ≡ lane_left lane }
{
    48 + 56 * lane as u64
}

// The row of an entry, by its position. Row 0 is the opening. One row is left free above each fortieth.
pub fn row_y(place: usize) -> u64
    requires { place ≤ MAX_MARKS }
    ensures { result ≡ row_y place }
{
    256 + 22 * (place + place / HEADED) as u64
}

// Where the numbers of the nodes stand, above row 0 and above each fortieth. These count from 0.
pub fn heading_y(number: usize) -> u64
    requires { HEADED * number ≤ MAX_MARKS }
    ensures { result ≡ heading_y number }
{
    row_y(HEADED * number) - 16
}

// How far it is from the row of a position to below the last of so many entries.
pub fn height_below(count: usize, place: usize) -> u64
    requires within { place ≤ count }
    requires few { count ≤ MAX_MARKS }
    ensures { result ≡ height_below count place }
{
    row_y(count) + 22 - row_y(place)
}

// Where the last of so many lanes ends, with some room.
pub fn right_end(lanes: usize) -> u64
    requires { lanes ≤ MAX_LANES }
    ensures { result ≡ right_end lanes }
{
    52 + 56 * lanes as u64
}

pub fn page_width(lanes: usize) -> u64
    requires { lanes ≤ MAX_LANES }
    ensures { result ≡ page_width lanes }
{
    350 + 56 * lanes as u64
}

pub fn page_height(count: usize) -> u64
    requires { count ≤ MAX_MARKS }
    ensures { result ≡ page_height count }
{
    row_y(count) + 38
}
