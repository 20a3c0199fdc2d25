// A stream's bytes into a buffer that the caller lends, the buffers that a program has for them, and what a program makes of its input and writes.
#![tactic(auto)]

ghost use Rattle.std.specs.Prelude.{◌≡◌, ◌≤◌, ◌<◌, ℕ, List, length, take, Ok, IfOk, OnOk, MatchResult, All};
ghost use Rattle.std.specs.Io.{ReadsAtMost};
ghost use Rattle.std.specs.Io.KnownBytes.{Consumes, IsAtEnd, Appends};

use std::io;
use std::io::{Read, Write};

// 4,096 zeros.
pub fn buffer() -> [u8; 4096]
    ensures { 4096 ≡ length result }
{
    [0; 4096]
}

// 65,536 zeros, more than the longest input of most programs.
pub fn large_buffer() -> [u8; 65536]
    ensures { 65536 ≡ length result }
{
    [0; 65536]
}

// Reads until buf is full or the input ends, and answers how many bytes it put at the start of buf. What lies beyond is left to the reader.
pub fn read_full<R: Read>(reader: &mut R, buf: &mut [u8]) -> io::Result<usize>
    ensures bound { ReadsAtMost result buf.new }
    ensures bytes { IfOk result (λ n. Consumes (R.remaining reader.old) (R.remaining reader.new) (take n buf.new)) }
    ensures end { IfOk result (λ n. n < length buf.new → IsAtEnd (R.remaining reader.new)) }
{
    let mut done = 0;
    while done < buf.len() {
        let n = reader.read(&mut buf[done..])?;
        if n == 0 {
            return Ok(done);
        }
        done += n;
    }
    Ok(done)
}

// A page of zeros that a function fills, and its bytes.
pub trait Page: Drop {
    ghost bytes: { Self → List ℕ };

    fn zeros() -> Self
        ensures { All (λ x. x ≡ 0) (bytes result) };

    fn bytes(&self) -> &[u8]
        ensures { result.now ≡ bytes self.now };
}

impl<const N: usize> Page for [u8; N] {
    ghost bytes = { λ all. all };

    fn zeros() -> [u8; N] {
        [0; N]
    }

    fn bytes(&self) -> &[u8] {
        self
    }
}

// Reads into input as read_full does, and writes what `answer` makes of what was read: the first bytes of its page, as many as it counts.
pub fn write_answer<R: Read, W: Write, P: Page, F: FnOnce(&[u8], &mut P) -> usize>(
    reader: &mut R,
    input: &mut [u8],
    answer: F,
    writer: &mut W,
) -> io::Result<()>
    requires callable { F.IsAlwaysCallable answer }
    requires within { (text : _) (out : _) (k : _) (left : _) → F.post answer text out k left → k ≤ length (P.bytes left.now) }
    ensures written { OnOk result ((text : _) × (out : _) × (k : _) × (left : _)
        × F.post answer text out k left
        × All (λ x. x ≡ 0) (P.bytes out.now)
        × Consumes (R.remaining reader.old) (R.remaining reader.new) text.now
        × (length text.now < length input.old → IsAtEnd (R.remaining reader.new))
        × Appends (W.contents writer.old) (W.contents writer.new) (take k (P.bytes left.now))) }
{
    let n = read_full(reader, input)?;
    let mut out = P::zeros();
    let k = answer(&input[..n], &mut out);
    writer.write_all(&out.bytes()[..k])
}

// The same for an answer that may be refused: then `told` makes a line on what was read and the reason, and that goes to `teller`.
pub fn write_answer_or_line<R, W, T, P, L, E, F, G>(
    reader: &mut R,
    input: &mut [u8],
    answer: F,
    writer: &mut W,
    told: G,
    teller: &mut T,
) -> io::Result<()>
where
    R: Read,
    W: Write,
    T: Write,
    P: Page,
    L: Page,
    E: Copy,
    F: FnOnce(&[u8], &mut P) -> Result<usize, E>,
    G: FnOnce(&[u8], E, &mut L) -> usize,
    requires callable { F.IsAlwaysCallable answer }
    requires within { (text : _) (out : _) (k : _) (left : _) → F.post answer text out (Ok k) left → k ≤ length (P.bytes left.now) }
    requires tellable { G.IsAlwaysCallable told }
    requires line_within { (text : _) (e : _) (out : _) (k : _) (left : _) → G.post told text e out k left → k ≤ length (L.bytes left.now) }
    ensures written { OnOk result ((text : _) × (out : _) × (made : _) × (left : _)
        × F.post answer text out made left
        × All (λ x. x ≡ 0) (P.bytes out.now)
        × Consumes (R.remaining reader.old) (R.remaining reader.new) text.now
        × (length text.now < length input.old → IsAtEnd (R.remaining reader.new))
        × MatchResult made
        (λ k. Appends (W.contents writer.old) (W.contents writer.new) (take k (P.bytes left.now)) × (teller.new ≡ teller.old))
        (λ e. (writer.new ≡ writer.old)
        × ((line : _) × (k : _) × (after : _)
        × G.post told text e line k after
        × All (λ x. x ≡ 0) (L.bytes line.now)
        × Appends (T.contents teller.old) (T.contents teller.new) (take k (L.bytes after.now))))) }
{
    let n = read_full(reader, input)?;
    let mut out = P::zeros();
    match answer(&input[..n], &mut out) {
        Ok(k) => writer.write_all(&out.bytes()[..k]),
        Err(e) => {
            let mut line = L::zeros();
            let k = told(&input[..n], e, &mut line);
            teller.write_all(&line.bytes()[..k])
        }
    }
}
