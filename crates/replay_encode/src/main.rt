// Holds `encode_with` to calls whose answers are known: `encode.bin` has the calls with their answers, `jis.tab` the cell
// table (compare/README.md has the layout). A line says how many answers were compared and how many differ.
#![tactic(auto)]

mod coding_case;
mod codings;

use replay_vectors::files::{cells, file_room, read};
use replay_vectors::tally::line;

/// The buffer is longer than the file, whose end is looked at.
fn main(rt: HostRuntime) {
    let mut t = [0u16; 8836];
    if !cells(&rt, &mut t) {
        return;
    }
    let mut file = file_room();
    let n = read(&rt, b"encode.bin", &mut file);
    line(&rt, b"encode", codings::replay(&file[..n], &t));
}
