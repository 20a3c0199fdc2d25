// The limit of turns for a run in rounds (N8).
ghost use Rattle.std.specs.Prelude.{◌≡◌, replicate};
ghost use Rattle.most.specs.Most.{most_values_for};
ghost use Rattle.wivakkol.specs.Rows.{most_row};

use most::most_turns_in;
use run_memory::lent::workers;

// How many turns a run in rounds takes at most, or the check that refuses. The working memory may hold anything, and is left cleared.
pub fn wivakkol_most_on(
    table: &[u8],
    p: u32,
    quota: u32,
    row: &mut [u64; 2],
    rises: &mut [u64; 1024],
    falls: &mut [u64; 1024],
) -> u32
    ensures value { result ≡ (most_values_for table.now p quota).number }
    ensures row_after { row.new ≡ most_row (most_values_for table.now p quota) }
    ensures rises_after { (rises.new ≡ replicate 1024 0) × (falls.new ≡ replicate 1024 0) }
{
    let w = workers(p);
    let most = most_turns_in(table, w, quota, rises, falls);
    match most {
        Ok(k) => {
            *row = [0, k as u64];
            0
        }
        Err(r) => {
            *row = [r.place as u64, 0];
            r.number as u32
        }
    }
}
