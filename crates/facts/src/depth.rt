// The depth D without recursion, on lent memory: a child has the higher number, so its depth is known where its parent is walked.
ghost use Rattle.std.specs.Prelude.{◌≡◌, ◌^◌, ◌<◌, length, get_or, set};
ghost use Rattle.table.specs.Sum.{Read};
ghost use Rattle.table.specs.Format.{kind_of, code_at, argument_at, table_of};
ghost use Rattle.table.specs.Level.{D};
ghost use Rattle.facts.specs.Code.Steps.{Kept};
ghost use Rattle.facts.specs.Code.DepthWalk.{reached, body_depth, cut16, after_last, Stepped};

use table::kinds::Kind;
use table::read::{action_in, body_of, count};

fn wide(x: u16) -> usize
    ensures { Read x 65536 result }
{
    x as usize
}

// The number at x, 0 where there is none.
fn depth_at(depths: &[u16; 1024], x: usize) -> usize
    requires { length depths.now ≡ 1024 }
    ensures { Read (get_or depths.now x 0) 65536 result }
{
    if x < 1024 { wide(depths[x]) } else { 0 }
}

// What fits of v, at x.
fn put_depth(depths: &mut [u16; 1024], x: usize, v: usize)
    requires { length depths.old ≡ 1024 }
    ensures { depths.new ≡ set depths.old x (cut16 v) }
{
    if x < 1024 {
        depths[x] = (v % 65536) as u16;
    }
}

// The depth of an action after one of depth `last`; a join comes after its child's end too.
fn after_last(kind: Kind, child: usize, last: usize) -> usize
    requires { (child < 65536) × (last < 2 ^ 32) }
    ensures { result ≡ after_last kind child last }
{
    match kind {
        Kind::Join => last.max(child) + 1,
        _ => last + 1,
    }
}

// One action: from a fork on its child counts from the thread's first action.
fn depth_step(kind: Kind, x: usize, last: usize, depths: &mut [u16; 1024]) -> usize
    requires { (length depths.old ≡ 1024) × (last < 2 ^ 32) }
    ensures { Stepped kind x (reached depths.old last) (reached depths.new result) }
{
    let child = depth_at(depths, x);
    let after = after_last(kind, child, last);
    if let Kind::Fork = kind {
        put_depth(depths, x, child + after);
    }
    after
}

// One body.
fn depth_walk(body: &[u8], count: usize, depths: &mut [u16; 1024]) -> usize
    requires { (length depths.old ≡ 1024) × (count < 65536) }
    ensures { reached depths.new result
        ≡ body_depth cut16 (code_at body.now) (argument_at body.now) 0 count (reached depths.old 0) }
{
    let mut last = 0;
    for i in 0..count {
        let action = action_in(body, i);
        last = depth_step(action.kind(), action.argument, last, depths);
    }
    last
}

// The depth, whatever the memory held.
pub(crate) fn depth_in(table: &[u8], n: usize, m: usize, depths: &mut [u16; 1024]) -> usize
    requires { Kept table.now n m }
    ensures { result ≡ D (table_of table.now) }
{
    *depths = [0; 1024];
    for t in (0..n).rev() {
        let body = body_of(table, n, t);
        let last = depth_walk(body, count(table, t), depths);
        put_depth(depths, t, last);
    }
    depth_at(depths, 0)
}
