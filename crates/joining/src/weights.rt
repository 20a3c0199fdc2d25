// What the parts weigh together: their threads and actions, what they hold and leave, how deep they go.
ghost use Rattle.std.specs.Prelude.{◌≡◌, ◌<◌, replicate};
ghost use Rattle.joining.specs.Answers.{parts_of};
ghost use Rattle.joining.specs.Code.Steps.{Lent, Small, SmallPart, no_part, add_part, weights_from};

use crate::JoinError;
use crate::split::part_at;
use facts::{Weighed, weigh_in};

// Totals over some parts: `held` is what they leave, `peak` and `depth` count where they stand.
#[derive(Drop)]
pub(crate) struct Totals {
    pub(crate) threads: u64,
    pub(crate) actions: u64,
    pub(crate) held: u64,
    pub(crate) peak: u64,
    pub(crate) depth: u64,
    pub(crate) nested: u64,
}

// Part i beside those before it.
fn add_part(t: Totals, w: Weighed, i: usize) -> Totals
    requires { Small i t × SmallPart w × (i < 16) }
    ensures { result ≡ add_part i t w }
{
    Totals {
        threads: t.threads + w.facts.threads as u64,
        actions: t.actions + w.facts.actions as u64,
        held: t.held + w.left,
        peak: t.peak.max(t.held + w.facts.peak),
        depth: t.depth.max(2 * (i as u64 + 1) + w.facts.depth as u64),
        nested: t.nested.max(w.facts.nested as u64),
    }
}

// All parts, or the first that is refused. The working memory is left cleared.
pub(crate) fn weigh_parts(
    tables: &[u8],
    lengths: &[u32],
    rises: &mut [u64; 1024],
    falls: &mut [u64; 1024],
    peaks: &mut [u64; 1024],
    depths: &mut [u16; 1024],
) -> Result<Totals, JoinError>
    requires { Lent lengths.now tables.now }
    ensures value { result ≡ weights_from 0 no_part (parts_of lengths.now tables.now) }
    ensures rises_after { (rises.new ≡ replicate 1024 0) × (falls.new ≡ replicate 1024 0) × (peaks.new ≡ replicate 1024 0) × (depths.new ≡ replicate 1024 0) }
{
    *rises = [0; 1024];
    *falls = [0; 1024];
    *peaks = [0; 1024];
    *depths = [0; 1024];
    let mut totals = Totals {
        threads: 0,
        actions: 0,
        held: 0,
        peak: 0,
        depth: 0,
        nested: 0,
    };
    for i in 0..lengths.len() {
        let part = part_at(tables, lengths, i);
        let answer = weigh_in(part, rises, falls, peaks, depths);
        match answer {
            Err(r) => return Err(JoinError::InPart(i, r)),
            Ok(w) => {
                totals = add_part(totals, w, i);
            }
        }
    }
    Ok(totals)
}
