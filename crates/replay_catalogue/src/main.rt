// Holds the calls of the catalogue to calls whose answers are known: `catalogue.bin` has the calls with their answers,
// `jis.tab` the cell table (compare/README.md has the layout). A line says how many answers were compared and how many
// differ.
#![tactic(auto)]

mod calls;
mod case;
mod replaying;

use replay_vectors::files::{cells, read};
use replay_vectors::tally::line;

/// The file's buffer is longer than the file, whose end is looked at; the store has a byte more than a catalogue.
fn main(rt: HostRuntime) {
    let mut t = [0u16; 8836];
    if !cells(&rt, &mut t) {
        return;
    }
    let mut file = [0u8; 0x20000];
    let n = read(&rt, b"catalogue.bin", &mut file);
    let mut store = [0u8; 266249];
    line(
        &rt,
        b"catalogue",
        replaying::replay(&file[..n], &t, &mut store),
    );
}
