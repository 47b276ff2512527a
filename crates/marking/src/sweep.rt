// Marking's first sweep: references are picked, each in its place, and go unmarked behind all the others.
ghost use Rattle.std.specs.Prelude.{◌≡◌, not, length, count_by};
ghost use Rattle.def.specs.State.{slots};
ghost use Rattle.marking.specs.OnKeys.{key_outdated, Picks, key_sweep};

use keys::SLOTS;
use keys::key::{is_marked, layer_of, unmarked};

// The test that picks, for the key at place `i`. Few keys are marked, so the division comes last.
fn is_outdated(key: u64, i: usize, gap: u32) -> bool
    ensures { result ≡ key_outdated gap i key }
{
    is_marked(key) && (0 < layer_of(key) || (0 < i && 0 < gap && key / 65536 % gap as u64 != 0))
}

pub fn pick_outdated(keys: &[u64], gap: u32, picks: &mut [bool; SLOTS])
    requires { length keys.now ≡ slots }
    ensures { Picks (key_outdated gap) keys.now picks.new }
{
    for i in 0..SLOTS {
        picks[i] = is_outdated(keys[i], i, gap);
    }
}

// How many are not picked: the place of the first that is, after the sweep. A sum, as in `store::places::count_marked`.
fn count_kept(picks: &[bool; SLOTS]) -> usize
    ensures { result ≡ count_by not picks.now }
{
    let mut kept = 0;
    for is_picked in picks {
        kept += usize::from(!*is_picked);
    }
    kept
}

// Those kept fill the front of `next` and those picked, unmarked, the places behind them; any slots may be picked.
pub fn sweep(keys: &[u64], picks: &[bool; SLOTS], next: &mut [u64; SLOTS])
    requires { length keys.now ≡ slots }
    ensures { next.new ≡ key_sweep picks.now keys.now }
{
    let first = count_kept(picks);
    let mut kept = 0;
    let mut picked = 0;
    for i in 0..SLOTS {
        if picks[i] {
            next[first + picked] = unmarked(keys[i]);
            picked += 1;
        } else {
            next[kept] = keys[i];
            kept += 1;
        }
    }
}
