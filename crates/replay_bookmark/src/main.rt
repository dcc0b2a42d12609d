// Holds the calls of bookmarks to calls whose answers are known: `bookmark.bin` has the calls with their answers,
// `jis.tab` the cell table (compare/README.md has the layout). A line says how many answers were compared and how many
// differ.
#![tactic(auto)]

mod calls;
mod case;
mod replaying;

use replay_vectors::files::{cells, read};
use replay_vectors::tally::line;
use std::rt::Files;

/// The cases of the file against the calls. The buffer is longer than the file, whose end is looked at.
fn replay(rt: &(impl Files + Print), cells: &[u16]) {
    let mut file = [0u8; 0x40000];
    let n = read(rt, b"bookmark.bin", &mut file);
    line(rt, b"bookmarks", replaying::replay(&file[..n], cells));
}

fn main(rt: HostRuntime) {
    let mut t = [0u16; 8836];
    if cells(&rt, &mut t) {
        replay(&rt, &t);
    }
}
