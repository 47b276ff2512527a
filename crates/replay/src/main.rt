// Runs stored inputs, each from the new machine, and writes what they are answered.
//
// What `stdout` has for them was not made by this program: the answers to the frames, the bad lines and the lines' ends were written from
// the specification, those to the sessions come from the original Rust wherever it decides (`oracle answers`).
#![tactic(auto)]

use service::serve;
use std::fs;
use std::io::Write;
use std::rt::Files;

fn replay<W: Write>(rt: &(impl Files + Eprint), output: &mut W, path: &str) {
    match fs::open(rt, path) {
        Ok(mut input) => {
            let _ = serve(rt, &mut input, output);
        }
        Err(e) => {
            let _ = eprintln!(rt; "{path}: {e}");
        }
    }
}

fn main(rt: HostRuntime) {
    let mut output = rt.stdout();
    // P at 8, layer 0, last intra 4, marked 0 and 4: limit 1 gives one entry, and so does limit 2, which passes over the old reference.
    replay(&rt, &mut output, "old_reference");
    // B at 8, last intra 4, marked 0 and 12: going up the old one comes first, and the walk goes on behind it.
    replay(&rt, &mut output, "old_on_the_way_up");
    // B at 5, layer 3, last intra 2, marked 1 of layer 0 and 9 of layer 2: the old one leaves the bound alone.
    replay(&rt, &mut output, "old_leaves_the_bound");
    // 21 marked pictures are listed; with 22 the lists are refused.
    replay(&rt, &mut output, "many_references");
    // A second IDR reference finds slot 0 occupied.
    replay(&rt, &mut output, "second_idr");
    // Every kind of bad line, and a good one behind them.
    replay(&rt, &mut output, "bad_lines");
    // A line of 200,000 digits that begins like a good one.
    replay(&rt, &mut output, "long_line");
    // Nothing at all, and a last line that lacks its newline.
    replay(&rt, &mut output, "empty");
    replay(&rt, &mut output, "last_line");
    // A full store, IDR pictures in the middle, and derivations of every length.
    replay(&rt, &mut output, "full_store");
    // Lists of every kind over 21 marked references, then 22, and marking again; numbers at the top.
    replay(&rt, &mut output, "references");
    // Some thousand lines over all calls.
    replay(&rt, &mut output, "session");
}
