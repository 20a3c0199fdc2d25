// The bottoms in the words of the memory: the one at a place, whether a thread is one, and what a steal writes of them. All are total, whatever the memory holds.
ghost use Rattle.std.specs.Prelude.{◌≡◌};
ghost use Rattle.array_machine.specs.Arrays.{links};
ghost use Rattle.run_memory.specs.Blocks.{words_in};
ghost use Rattle.deques.specs.Lines.{linked_in};
ghost use Rattle.stealing.specs.Stealing.{along_by};
ghost use Rattle.stealing.specs.StealingMemory.{robbed_words};

use links::NO_THREAD;
use run_memory::list::link_left;
use run_memory::places::{FIRST, LEFT, OVER, UNDER, head_at, row_at};

// "the deque at that place from the left": its bottom, or NO_THREAD and more where there is none. At most c links are read.
pub(crate) fn bottom_at(words: &[u16; 6163], c: usize) -> u16
    ensures { result ≡ along_by c ((words_in words.now).rows 5) (words_in words.now).first }
{
    let mut b = head_at(words, FIRST);
    for i in 0..c {
        if NO_THREAD <= b {
            break;
        }
        b = row_at(words, OVER, b);
    }
    b
}

// Thread t is a bottom.
pub(crate) fn is_bottom(words: &[u16; 6163], t: u16) -> bool
    ensures { result ≡ linked_in (links ((words_in words.now).rows 4) ((words_in words.now).rows 5) (words_in words.now).first) t }
{
    row_at(words, UNDER, t) < NO_THREAD || head_at(words, FIRST) == t
}

// The bottoms once b is stolen: the thread left of it in the lines, if it is of the same line, is a bottom now.
pub(crate) fn rob(words: &mut [u16; 6163], b: u16)
    ensures { words_in words.new ≡ robbed_words b (words_in words.old) }
{
    let x = row_at(&*words, LEFT, b);
    if x < NO_THREAD {
        if !is_bottom(&*words, x) {
            link_left(words, UNDER, FIRST, x, b);
        }
    }
}
