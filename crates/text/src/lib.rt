// Lines of text, in ASCII, in buffers that the caller lends.
#![tactic(auto)]

ghost use Rattle.std.specs.Prelude.{◌≡◌, ◌≤◌, ◌++◌, length, drop};
ghost use Rattle.io.specs.Counts.{IsPrefixLen};
ghost use Rattle.text.specs.Text.{decimal, line_of, facts_line_of, facts_text, accepted_line, nested_line, refused_line, buffer_at, placed, placed_next};
ghost use Rattle.text.specs.Puts.{put_all};
ghost use Rattle.text.specs.Text.{refused_of};

use table::{Facts, Refusal};

// Puts a word at a position, and answers the position after it. A word that does not fit is not put.
pub fn put_word(out: &mut [u8], at: usize, word: &[u8]) -> usize
    ensures { buffer_at out.new result ≡ placed out.old at word.now }
{
    if out.len() < at {
        return at;
    }
    if out.len() - at < word.len() {
        return at;
    }
    // by index: as a whole copy a row of four bytes would be put together on the stack first, one byte at a time, and read back as one number, for which the processor waits
    for i in 0..word.len() {
        out[at + i] = word[i];
    }
    at + word.len()
}

// The same for a number in decimal.
pub fn put_number(out: &mut [u8], at: usize, n: u64) -> usize
    ensures { buffer_at out.new result ≡ placed out.old at (decimal n) }
{
    let mut digits = [0u8; 20];
    let k = io::decimal(n, &mut digits);
    put_word(out, at, &digits[..k])
}

// A word, and a number after it.
pub fn put_labelled(out: &mut [u8], at: usize, label: &[u8], n: u64) -> usize
    ensures { buffer_at out.new result ≡ placed_next (placed out.old at label.now) (decimal n) }
{
    let after = put_word(out, at, label);
    put_number(out, after, n)
}

// The line that tells what loading a table answered as a listing does, and its length.
pub fn table_line(answer: Result<Facts, Refusal>, out: &mut [u8; 80]) -> usize
    ensures value { result ≡ length (line_of answer) }
    ensures out_after { out.new ≡ line_of answer ++ drop result out.old }
    ensures prefix_len { IsPrefixLen result out.new }
    ensures upper_bound { result ≤ 64 }
{
    match answer {
        Ok(facts) => accepted_line(facts, out),
        Err(refusal) => refused_line(refusal, out),
    }
}

// The line that tells all of it, and its length.
pub fn facts_line(answer: Result<Facts, Refusal>, out: &mut [u8; 80]) -> usize
    ensures value { result ≡ length (facts_line_of answer) }
    ensures out_after { out.new ≡ facts_line_of answer ++ drop result out.old }
    ensures prefix_len { IsPrefixLen result out.new }
{
    match answer {
        Ok(facts) => nested_line(facts, out),
        Err(refusal) => refused_line(refusal, out),
    }
}

// Threads, actions, serial peak and depth, at the start of the buffer.
fn put_facts(out: &mut [u8; 80], facts: Facts) -> usize
    ensures { buffer_at out.new result ≡ placed out.old 0 (facts_text facts) }
{
    let at = put_labelled(out, 0, b"table ", facts.threads as u64);
    let at = put_labelled(out, at, b" ", facts.actions as u64);
    let at = put_labelled(out, at, b" serial ", facts.peak);
    put_labelled(out, at, b" depth ", facts.depth as u64)
}

fn accepted_line(facts: Facts, out: &mut [u8; 80]) -> usize
    ensures value { result ≡ length (accepted_line facts) }
    ensures out_after { out.new ≡ accepted_line facts ++ drop result out.old }
    ensures upper_bound { result ≤ 64 }
{
    let at = put_facts(out, facts);
    put_word(out, at, b"\n")
}

fn nested_line(facts: Facts, out: &mut [u8; 80]) -> usize
    ensures value { result ≡ length (nested_line facts) }
    ensures out_after { out.new ≡ nested_line facts ++ drop result out.old }
{
    let at = put_facts(out, facts);
    let at = put_labelled(out, at, b" nested ", facts.nested as u64);
    put_word(out, at, b"\n")
}

fn refused_line(refusal: Refusal, out: &mut [u8; 80]) -> usize
    ensures value { result ≡ length (refused_line refusal) }
    ensures out_after { out.new ≡ refused_line refusal ++ drop result out.old }
    ensures upper_bound { result ≤ 64 }
{
    let at = put_labelled(out, 0, b"refused ", refusal.number as u64);
    let at = put_labelled(out, at, b" ", refusal.place as u64);
    put_word(out, at, b"\n")
}

// A refusal, and of how many things it is one of: "refused NUMBER PLACE", the label and its number.
pub fn put_refused_of(out: &mut [u8], refusal: Refusal, label: &[u8], index: usize) -> usize
    ensures { buffer_at out.new result ≡ put_all (buffer_at out.old 0) (refused_of refusal label.now index) }
{
    let at = put_labelled(out, 0, b"refused ", refusal.number as u64);
    let at = put_labelled(out, at, b" ", refusal.place as u64);
    let at = put_labelled(out, at, label, index as u64);
    put_word(out, at, b"\n")
}
