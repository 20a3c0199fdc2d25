// Numbers, actions and bodies out of bytes. What other crates may call takes any bytes, and reads zeros past their end.
ghost use Rattle.std.specs.Prelude.{◌≡◌, ◌+◌, ◌*◌, ◌<◌, length, get_or, drop};
ghost use Rattle.table.specs.Format.{own_amount, kind_of, u16_at, threads_of, actions_of, bodies_from, code_at, argument_at, table_of};
ghost use Rattle.table.specs.declared.kinds.Kind.TheVariants.{Alloc as alloc, Free as free};
ghost use Rattle.table.specs.Sum.{Read};
ghost use Rattle.table.specs.Code.Steps.{DoubleWord};

use crate::kinds::Kind;

// The byte at a position.
pub fn byte(s: &[u8], i: usize) -> u8
    ensures { result ≡ get_or s.now i 0 }
{
    if i < s.len() { s[i] } else { 0 }
}

fn wide(x: u8) -> usize
    ensures { Read x 256 result }
{
    x as usize
}

// 16 bits, little-endian.
pub fn word(s: &[u8], i: usize) -> usize
    ensures { Read (u16_at s.now i) 65536 result }
{
    if s.len() <= i {
        return 0;
    }
    wide(s[i]) + 256 * wide(byte(s, i + 1))
}

// 32 bits.
fn double_word(s: &[u8], i: usize) -> usize
    requires { i + 3 < length s.now }
    ensures { DoubleWord s.now i result }
{
    wide(s[i]) + 256 * wide(s[i + 1]) + 65536 * wide(s[i + 2]) + 16777216 * wide(s[i + 3])
}

// The four bytes of number a in a list of entries or of actions. One test where they are all there, which is the usual case.
fn item(l: &[u8], a: usize) -> usize
    ensures { DoubleWord l.now (4 * a) result }
{
    let whole = l.len() / 4;
    if a < whole {
        return double_word(l, 4 * a);
    }
    if whole < a {
        return 0;
    }
    let i = 4 * a;
    wide(byte(l, i)) + 256 * wide(byte(l, i + 1)) + 65536 * wide(byte(l, i + 2))
}

// The threads n.
pub fn threads(table: &[u8]) -> usize
    ensures { Read (threads_of table.now) 65536 result }
{
    word(table, 0)
}

// The actions m.
pub fn actions(table: &[u8]) -> usize
    ensures { Read (actions_of table.now) 65536 result }
{
    word(table, 2)
}

// What stands after the head and n entries: the actions of a table of n threads, and with n 0 its contents.
pub fn bodies(table: &[u8], n: usize) -> &[u8]
    ensures { result.now ≡ bodies_from table.now n }
{
    let end = table.len();
    if end / 4 <= n {
        return &table[end..];
    }
    let start = 4 + 4 * n;
    &table[start..]
}

// Thread t's first action.
pub fn first(table: &[u8], t: usize) -> usize
    ensures { Read ((table_of table.now).first t) 65536 result }
{
    item(bodies(table, 0), t) % 65536
}

// Its count of actions.
pub fn count(table: &[u8], t: usize) -> usize
    ensures { Read ((table_of table.now).count t) 65536 result }
{
    item(bodies(table, 0), t) / 65536
}

// The kind's code of action a, in a list of actions.
pub fn code_in(l: &[u8], a: usize) -> u8
    ensures { result ≡ code_at l.now a }
{
    (item(l, a) % 256) as u8
}

// Its argument, 24 bits.
pub fn argument_in(l: &[u8], a: usize) -> usize
    ensures { Read (argument_at l.now a) 16777216 result }
{
    item(l, a) / 256
}

// The same of action a of a table of n threads.
pub fn code(table: &[u8], n: usize, a: usize) -> u8
    ensures { result ≡ code_at (bodies_from table.now n) a }
{
    code_in(bodies(table, n), a)
}

// Its kind.
pub fn kind(table: &[u8], n: usize, a: usize) -> Kind
    ensures { result ≡ kind_of (code_at (bodies_from table.now n) a) }
{
    Kind::from(code(table, n, a))
}

pub fn argument(table: &[u8], n: usize, a: usize) -> usize
    ensures { Read (argument_at (bodies_from table.now n) a) 16777216 result }
{
    argument_in(bodies(table, n), a)
}

// An action's code and argument.
#[derive(Clone, Copy, PartialEq, Eq, Debug)]
pub struct Action {
    pub code: u8,
    pub argument: usize,
}

impl Action {
    // What it is.
    pub fn kind(&self) -> Kind
        ensures { result ≡ kind_of self.now.code }
    {
        Kind::from(self.code)
    }

    // Its alloc, and its free: the argument, and 0 for any other kind.
    pub fn alloc(&self) -> u64
        ensures { result ≡ own_amount alloc (kind_of self.now.code) self.now.argument }
    {
        match self.kind() {
            Kind::Alloc => self.argument as u64,
            _ => 0,
        }
    }

    pub fn free(&self) -> u64
        ensures { result ≡ own_amount free (kind_of self.now.code) self.now.argument }
    {
        match self.kind() {
            Kind::Free => self.argument as u64,
            _ => 0,
        }
    }
}

// Action a in a list of actions, both read at once.
pub fn action_in(l: &[u8], a: usize) -> Action
    ensures code_value { result.code ≡ code_at l.now a }
    ensures read { Read (argument_at l.now a) 16777216 result.argument }
{
    let x = item(l, a);
    let code = (x % 256) as u8;
    Action {
        code,
        argument: x / 256,
    }
}

// Thread t's body in a table of n threads, with all that follows it.
pub fn body_of(table: &[u8], n: usize, t: usize) -> &[u8]
    ensures { result.now ≡ drop (4 * (table_of table.now).first t) (bodies_from table.now n) }
{
    let actions = bodies(table, n);
    let first = first(table, t);
    let end = actions.len();
    if end / 4 < first {
        return &actions[end..];
    }
    let start = 4 * first;
    &actions[start..]
}
