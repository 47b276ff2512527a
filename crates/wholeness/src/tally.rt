// What one pass over the keys of a state gathers, three keys at a time, over any bits: what the test of a whole state is told from.
ghost use Rattle.std.specs.Prelude.{◌≡◌, length};
ghost use Rattle.def.specs.State.{slots};
ghost use Rattle.wholeness.specs.Tallies.{Roomy, no_tally, tallied, tally_all};

use keys::key::is_present;

// What one pass over the keys gathers. The bits of those without a picture and of those with one; how many have a picture and how many are
// marked; and of the buffer numbers, as bits, the set and the sum. Set and sum are the same where none comes twice.
#[derive(Clone, Copy)]
pub struct Tally {
    pub stray: u64,
    pub high: u64,
    pub occupied: u64,
    pub marked: u64,
    pub set: u64,
    pub sum: u64,
}

pub fn tally_key(t: Tally, key: u64) -> Tally
    requires { Roomy t }
    ensures { result ≡ tallied t key }
{
    if !is_present(key) {
        return Tally {
            stray: t.stray | key,
            ..t
        };
    }
    let bit = (1u32 << (key / 8 % 32)) as u64;
    Tally {
        high: t.high | key,
        occupied: t.occupied + 1,
        marked: t.marked + key / 2 % 2,
        set: t.set | bit,
        sum: t.sum + bit,
        ..t
    }
}

// Three keys at once: most slots are empty, and an empty one adds nothing.
fn tally_three(t: Tally, a: u64, b: u64, c: u64) -> Tally
    requires { Roomy t × Roomy (tallied t a) × Roomy (tallied (tallied t a) b) }
    ensures { result ≡ tallied (tallied (tallied t a) b) c }
{
    if (a == 0) & (b == 0) & (c == 0) {
        return t;
    }
    let one = tally_key(t, a);
    let two = tally_key(one, b);
    tally_key(two, c)
}

pub fn tally_all(keys: &[u64]) -> Tally
    requires { length keys.now ≡ slots }
    ensures { (result ≡ tally_all no_tally keys.now) × Roomy result }
{
    let mut t = Tally {
        stray: 0,
        high: 0,
        occupied: 0,
        marked: 0,
        set: 0,
        sum: 0,
    };
    for [a, b, c] in keys.as_chunks::<3>().0 {
        t = tally_three(t, *a, *b, *c);
    }
    t
}
