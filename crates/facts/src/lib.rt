// What an accepted table tells beside its rules: the serial peak S1, the depth D and the nested thread levels N.
#![tactic(auto)]

mod depth;
mod level;
mod nested;
mod peak;

ghost use Rattle.std.specs.Prelude.{◌≡◌, replicate};
ghost use Rattle.table.specs.Load.{loaded, table_values, values_of};
ghost use Rattle.facts.specs.Weigh.{weighing};

use checks::{check, check_in};
use depth::depth_in;
use level::depth;
use nested::nested_levels;
use peak::serial_amounts;
use table::read::{actions, threads};
use table::{Facts, Refusal};

// An accepted table's facts, and what its serial run holds at its end.
#[derive(Clone, Copy, PartialEq, Eq, Debug)]
pub struct Weighed {
    pub facts: Facts,
    pub left: u64,
}

// The answer to any bytes: accepted with the facts, or refused by number and place.
pub fn load(table: &[u8]) -> Result<Facts, Refusal>
    ensures value { result ≡ loaded table.now }
    ensures result_value { values_of result ≡ table_values table.now }
{
    check(table)?;
    let n = threads(table);
    let m = actions(table);
    let mut rises = [0u64; 1024];
    let mut falls = [0u64; 1024];
    let mut peaks = [0u64; 1024];
    let amounts = serial_amounts(table, n, m, &mut rises, &mut falls, &mut peaks);
    let depth = depth(table, n, m);
    let mut levels = [0u16; 1024];
    let nested = nested_levels(table, n, m, &mut levels);
    Ok(Facts {
        threads: n as u16,
        actions: m as u16,
        peak: amounts.peak,
        depth: depth as u16,
        nested: nested as u16,
    })
}

// The same without recursion, in lent working memory, which may hold anything and is left cleared.
pub fn load_in(
    table: &[u8],
    rises: &mut [u64; 1024],
    falls: &mut [u64; 1024],
    peaks: &mut [u64; 1024],
    depths: &mut [u16; 1024],
) -> Result<Facts, Refusal>
    ensures value { result ≡ loaded table.now }
    ensures result_value { values_of result ≡ table_values table.now }
    ensures rises_after { (rises.new ≡ replicate 1024 0) × (falls.new ≡ replicate 1024 0) × (peaks.new ≡ replicate 1024 0) × (depths.new ≡ replicate 1024 0) }
{
    let weighed = weigh_in(table, rises, falls, peaks, depths)?;
    Ok(weighed.facts)
}

// The facts with what the serial run leaves, likewise.
pub fn weigh_in(
    table: &[u8],
    rises: &mut [u64; 1024],
    falls: &mut [u64; 1024],
    peaks: &mut [u64; 1024],
    depths: &mut [u16; 1024],
) -> Result<Weighed, Refusal>
    ensures value { result ≡ weighing table.now }
    ensures rises_after { (rises.new ≡ replicate 1024 0) × (falls.new ≡ replicate 1024 0) × (peaks.new ≡ replicate 1024 0) × (depths.new ≡ replicate 1024 0) }
{
    let answer = weigh(table, rises, falls, peaks, depths);
    *rises = [0; 1024];
    *falls = [0; 1024];
    *peaks = [0; 1024];
    *depths = [0; 1024];
    answer
}

// The working memory is left as it was used.
fn weigh(
    table: &[u8],
    rises: &mut [u64; 1024],
    falls: &mut [u64; 1024],
    peaks: &mut [u64; 1024],
    depths: &mut [u16; 1024],
) -> Result<Weighed, Refusal>
    ensures { result ≡ weighing table.now }
{
    check_in(table, rises, falls)?;
    let n = threads(table);
    let m = actions(table);
    let amounts = serial_amounts(table, n, m, rises, falls, peaks);
    let nested = nested_levels(table, n, m, depths);
    let depth = depth_in(table, n, m, depths);
    let facts = Facts {
        threads: n as u16,
        actions: m as u16,
        peak: amounts.peak,
        depth: depth as u16,
        nested: nested as u16,
    };
    Ok(Weighed {
        facts,
        left: amounts.left,
    })
}
