// An input's bytes, put into a lent buffer: the front's numbers, the order, the table.
ghost use Rattle.std.specs.Prelude.{◌≡◌, [], ◌∷◌, ◌++◌, ◌+◌, ◌≤◌, length};
ghost use Rattle.text.specs.Text.{buffer_at, placed};
ghost use Rattle.text.specs.Puts.{Puts};
ghost use Rattle.inputs.specs.Front.{turns, rounds, board};
ghost use Rattle.inputs.specs.Input.{low_bytes, front_texts};
ghost use Rattle.inputs.specs.Code.Steps.{Room, front_is, held_by};

use crate::front::Front;
use text::put_word;

// The lowest bytes of a number, so many.
fn put_bytes(out: &mut [u8], at: usize, width: usize, x: u64) -> usize
    requires { width ≤ 8 }
    ensures { buffer_at out.new result ≡ placed out.old at (low_bytes width x) }
{
    let row = [
        (x % 256) as u8,
        (x / 256 % 256) as u8,
        (x / 65536 % 256) as u8,
        (x / 16777216 % 256) as u8,
        (x / 4294967296 % 256) as u8,
        (x / 1099511627776 % 256) as u8,
        (x / 281474976710656 % 256) as u8,
        (x / 72057594037927936 % 256) as u8,
    ];
    put_word(out, at, &row[..width])
}

fn put_turns(out: &mut [u8], p: u64, k: u64, order: &[u8]) -> usize
    ensures { Puts out.old 0 out.new result (front_texts (turns p k order.now)) (6 + length order.now) }
{
    let at = put_bytes(out, 0, 1, p);
    let at = put_bytes(out, at, 3, k);
    let at = put_bytes(out, at, 2, order.len() as u64);
    put_word(out, at, order)
}

fn put_rounds(out: &mut [u8], p: u64, k: u64, limit: u64) -> usize
    ensures { Puts out.old 0 out.new result (front_texts (rounds p k limit)) 8 }
{
    let at = put_bytes(out, 0, 1, p);
    let at = put_bytes(out, at, 3, k);
    put_bytes(out, at, 4, limit)
}

fn put_board(out: &mut [u8], p: u64, b: u64, memory: u64) -> usize
    ensures { Puts out.old 0 out.new result (front_texts (board p b memory)) 13 }
{
    let at = put_bytes(out, 0, 1, p);
    let at = put_bytes(out, at, 4, b);
    put_bytes(out, at, 8, memory)
}

// The front, whose order stands in a buffer.
fn put_front(out: &mut [u8], front: Front, order: &[u8]) -> usize
    requires { Room order.now (held_by front) }
    ensures { Puts out.old 0 out.new result (front_texts (front_is front order.now)) 4102 }
{
    match front {
        Front::Nothing => 0,
        Front::Workers(_) => 0,
        Front::Quota(_, _) => 0,
        Front::Between(_, _) => 0,
        Front::Turns(p, k, n) => put_turns(out, p, k, &order[..n]),
        Front::Rounds(p, k, limit) => put_rounds(out, p, k, limit),
        Front::Board(p, b, memory) => put_board(out, p, b, memory),
    }
}

// The front and the table.
pub(crate) fn put_input(out: &mut [u8], front: Front, order: &[u8], table: &[u8]) -> usize
    requires { Room order.now (held_by front) × (length table.now ≤ 36868) }
    ensures { Puts out.old 0 out.new result (front_texts (front_is front order.now) ++ (table.now ∷ [])) 40970 }
{
    let at = put_front(out, front, order);
    put_word(out, at, table)
}
